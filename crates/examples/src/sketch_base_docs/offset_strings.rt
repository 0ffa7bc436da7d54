//! Examples of `crates/sketch_base/src/offset_strings.rt`. Written by `tests/docs/examples.py`.
use sketch_base::{Error, OffsetStrings, are_offsets};

pub fn can_be_cut(bytes: &[u8], offsets: &[u64]) -> bool {
    are_offsets(bytes, offsets)
}

pub fn number_of_fruit() -> Result<usize, Error> {
    let bytes: &[u8] = b"applepear";
    let fruit = OffsetStrings::new(bytes, [0_u64, 5, 9].as_slice())?;
    Ok(fruit.len())
}
