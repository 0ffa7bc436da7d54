//! Calls that write bytes, and that write and read strings.
use crate::calls::refusable;
use crate::output::{write_bytes, write_error, write_outcome, write_values};
use crate::trial::Trial;
use datasketches::codec::{SketchBytes, SketchSlice};
use datasketches::frequencies::FrequentItemValue;

/// Plays the trial with this name.
pub fn play(trial: &mut Trial, call: &str) {
    match call {
        "new" => new(trial),
        "beyond" => beyond(trial),
        "write_text" => write_text(trial),
        "read_text" => read_text(trial),
        _ => trial.fail(),
    }
}

fn new(trial: &mut Trial) {
    let alloc = trial.alloc;
    let made = refusable!(trial, SketchBytes::with_capacity(alloc, 4));
    write_outcome(trial, made);
}

/// Writes beyond the capacity.
fn beyond(trial: &mut Trial) {
    let Ok(mut bytes) = SketchBytes::with_capacity(trial.alloc, 4) else {
        return trial.fail();
    };
    trial.check(bytes.write_u32_le(7));
    let beyond = refusable!(trial, bytes.write_u64_le(9));
    write_outcome(trial, beyond);
    write_bytes(trial, &bytes.into_bytes());
}

/// Writes a string into a capacity that has room for its length alone.
fn write_text(trial: &mut Trial) {
    let Ok(mut bytes) = SketchBytes::with_capacity(trial.alloc, 4) else {
        return trial.fail();
    };
    let item = trial.string("abcdef");
    let written = refusable!(trial, item.serialize_value(&mut bytes));
    write_outcome(trial, written);
    write_bytes(trial, &bytes.into_bytes());
}

fn read_text(trial: &mut Trial) {
    let alloc = trial.alloc;
    let mut slice = SketchSlice::new(b"\x06\0\0\0abcdefgh");
    match refusable!(trial, String::deserialize_value(alloc, &mut slice)) {
        Ok(text) => write_values(trial, "text", &[text]),
        Err(e) => write_error(trial, e),
    }
}
