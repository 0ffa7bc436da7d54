//! Calls of `sketch_base` that allocate nothing: those that write.
use crate::output::{fault_of, write_bytes, write_values};
use crate::trial::{Trial, counted};
use datasketches::codec::SketchBytes;
use datasketches::error::{Error, Fault};
use datasketches::frequencies::FrequentItemValue;
use std::fmt::Write;

/// Writes the message of an error, and its two debug outputs, into a string with capacity for them. Writes also whether
/// the string had room.
pub fn texts(trial: &mut Trial) {
    let error = Error::invalid_data(Fault::BadFamily);
    let Ok(mut texts) = String::with_capacity(trial.alloc, 256) else {
        return trial.fail();
    };
    let written = counted!(
        trial,
        writeln!(texts, "{error}\n{error:?}\n{error:#?}").is_ok()
    );
    trial.write_value(texts.as_str(), &written);
    trial.write("\n");
}

/// Writes numbers of each width within the capacity.
fn write_all(bytes: &mut SketchBytes) -> [&'static str; 7] {
    [
        fault_of(bytes.write(b"ab")),
        fault_of(bytes.write_u8(5)),
        fault_of(bytes.write_u16_le(258)),
        fault_of(bytes.write_u32_le(3)),
        fault_of(bytes.write_i32_le(-2)),
        fault_of(bytes.write_u64_le(7)),
        fault_of(bytes.write_i64_le(-4)),
    ]
}

/// Writes numbers of each width, and shows the bytes.
pub fn writes(trial: &mut Trial) {
    let Ok(mut bytes) = SketchBytes::with_capacity(trial.alloc, 29) else {
        return trial.fail();
    };
    let faults = counted!(trial, write_all(&mut bytes));
    let bytes = counted!(trial, bytes.into_bytes());
    write_values(trial, "writes", &faults);
    write_bytes(trial, &bytes);
}

/// Returns the sizes of items.
fn sizes_of(text: &String) -> [usize; 3] {
    [
        u64::serialize_size(&7),
        i64::serialize_size(&-4),
        String::serialize_size(text),
    ]
}

/// Writes items within the capacity.
fn write_items(bytes: &mut SketchBytes, text: &String) -> [&'static str; 3] {
    [
        fault_of(7u64.serialize_value(bytes)),
        fault_of((-4i64).serialize_value(bytes)),
        fault_of(text.serialize_value(bytes)),
    ]
}

/// Shows the sizes of items, writes the items, and shows the bytes.
pub fn items(trial: &mut Trial) {
    let Ok(mut bytes) = SketchBytes::with_capacity(trial.alloc, 22) else {
        return trial.fail();
    };
    let text = trial.string("ab");
    let sizes = counted!(trial, sizes_of(&text));
    write_values(trial, "sizes", &sizes);
    let faults = counted!(trial, write_items(&mut bytes, &text));
    write_values(trial, "writes", &faults);
    write_bytes(trial, &bytes.into_bytes());
}
