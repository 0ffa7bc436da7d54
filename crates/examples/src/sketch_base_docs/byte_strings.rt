//! Examples of `crates/sketch_base/src/byte_strings.rt`. Written by `tests/docs/examples.py`.
use sketch_base::{ByteStrings, Error};

pub fn number_of_names(names: &[&[u8]]) -> Result<usize, Error> {
    let names = ByteStrings::new(names)?;
    Ok(names.len())
}
