//! Examples of `crates/sketch_countmin/src/count_min_image_options.rt`. Written by `tests/docs/examples.py`.
use sketch_base::Error;
use sketch_countmin::{CountMinImageOptions, CountMinSketch};
use std::alloc::Global;

pub fn uploaded_counts(alloc: Global, image: &[u8]) -> Result<CountMinSketch<u64>, Error> {
    let mut options = CountMinImageOptions::default();
    options.max_bytes = 1 << 20;
    CountMinSketch::deserialize_with_options(alloc, image, options)
}
