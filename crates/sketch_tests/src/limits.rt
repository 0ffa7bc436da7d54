//! Images that are read under a limit of bytes, and tables whose bytes such a limit counts.
use crate::output::write_error;
use crate::table::free_table;
use crate::trial::{Trial, counted};
use datasketches::error::Error;
use datasketches::frequencies::{FrequentItemValue, FrequentItemsSketch, TableKey};
use sketch_frequencies::FrequentItemsImageOptions;
use std::hash::Hash;

/// The maximum size of a sketch here.
const MAX_MAP_SIZE: usize = 1 << 14;

/// Plays the trial with this name. Its numbers are the limit and the number of items, and for strings also their
/// length. For a table its number is the size.
pub fn play(trial: &mut Trial, call: &str, numbers: &[usize]) {
    match (call, numbers) {
        ("numbers", [limit, count]) => read_numbers(trial, *limit, *count),
        ("strings", [limit, count, len]) => read_strings(trial, *limit, *count, *len),
        ("table-of-u8", [size]) => make_table::<u8>(trial, *size),
        ("table-of-u32", [size]) => make_table::<u32>(trial, *size),
        ("table-of-u64", [size]) => make_table::<u64>(trial, *size),
        ("table-of-strings", [size]) => make_table::<String>(trial, *size),
        _ => trial.fail(),
    }
}

/// Creates a table, as a sketch is read into one, and writes its bytes by the formula, or the error.
fn make_table<T: Eq + Hash + Drop>(trial: &mut Trial, size: usize) {
    let alloc = trial.alloc;
    match counted!(trial, free_table::<T>(alloc, size)) {
        Ok(table) => trial.write_value("takes ", &table.estimated_size()),
        Err(e) => write_error(trial, e),
    }
}

/// Reads an image, and writes the number of bytes that its sketch takes, or the error.
fn read<T: FrequentItemValue + Drop>(trial: &mut Trial, image: &[u8], limit: usize) {
    let alloc = trial.alloc;
    match counted!(
        trial,
        FrequentItemsSketch::<T>::deserialize_with_options(
            alloc,
            image,
            FrequentItemsImageOptions {
                max_bytes: limit,
                key: TableKey::Plain,
            }
        )
    ) {
        Ok(sketch) => {
            let bytes = counted!(trial, sketch.memory_bytes());
            trial.write_value("takes ", &bytes);
        }
        Err(e) => write_error(trial, e),
    }
}

/// Reads the image of a sketch of `count` numbers.
fn read_numbers(trial: &mut Trial, limit: usize, count: usize) {
    match image_of_numbers(trial, count) {
        Ok(image) => read::<u64>(trial, &image, limit),
        Err(_) => trial.fail(),
    }
}

fn image_of_numbers(trial: &mut Trial, count: usize) -> Result<Vec<u8>, Error> {
    let mut sketch = FrequentItemsSketch::new(trial.alloc, MAX_MAP_SIZE)?;
    for number in 0..count {
        sketch.update(number as u64)?;
    }
    sketch.serialize()
}

/// Reads the image of a sketch of `count` strings of `len` bytes.
fn read_strings(trial: &mut Trial, limit: usize, count: usize, len: usize) {
    match image_of_strings(trial, count, len) {
        Ok(image) => read::<String>(trial, &image, limit),
        Err(_) => trial.fail(),
    }
}

fn image_of_strings(trial: &mut Trial, count: usize, len: usize) -> Result<Vec<u8>, Error> {
    let mut sketch = FrequentItemsSketch::new(trial.alloc, MAX_MAP_SIZE)?;
    for number in 0..count {
        let item = padded(trial, number, len);
        sketch.update(item)?;
    }
    sketch.serialize()
}

/// Returns the digits of a number, and after them `x` up to `len` bytes.
fn padded(trial: &mut Trial, number: usize, len: usize) -> String {
    let mut item = trial.string("");
    let written = write!(item, "{number}");
    trial.check(written);
    for _ in item.len()..len {
        let pushed = item.push_str("x");
        trial.check(pushed);
    }
    item
}
