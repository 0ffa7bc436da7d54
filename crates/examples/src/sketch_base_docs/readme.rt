//! Examples of `crates/sketch_base/README.md`. Written by `tests/docs/examples.py`.
use sketch_base::{Error, SketchBytes, SketchSlice};
use std::alloc::Global;

pub fn there_and_back(alloc: Global, n: u32) -> Result<u32, Error> {
    let mut out = SketchBytes::with_capacity(alloc, 4)?;
    out.write_u32_le(n)?;
    let image = out.into_bytes();
    SketchSlice::new(&image).read_u32_le()
}
