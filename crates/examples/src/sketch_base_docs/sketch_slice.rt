//! Examples of `crates/sketch_base/src/sketch_slice.rt`. Written by `tests/docs/examples.py`.
use sketch_base::{Error, SketchSlice};

pub fn version_and_seed(image: &[u8]) -> Result<(u8, u64), Error> {
    let mut unread = SketchSlice::new(image);
    let version = unread.read_u8()?;
    let seed = unread.read_u64_le()?;
    Ok((version, seed))
}
