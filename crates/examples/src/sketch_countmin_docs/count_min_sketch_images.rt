//! Examples of `crates/sketch_countmin/src/count_min_sketch/images.rt`. Written by `tests/docs/examples.py`.
use sketch_base::Error;
use sketch_countmin::{CountMinImageOptions, CountMinSketch};
use std::alloc::Global;

pub fn sent_counts(
    alloc: Global,
    counts: &CountMinSketch<u64>,
) -> Result<CountMinSketch<u64>, Error> {
    let image = counts.serialize()?;
    let options = CountMinImageOptions {
        seed: counts.seed(),
        max_bytes: 1 << 20,
    };
    CountMinSketch::deserialize_with_options(alloc, &image, options)
}

pub fn sum_of_two_images(
    alloc: Global,
    images: &[u8],
    options: CountMinImageOptions,
) -> Result<CountMinSketch<u64>, Error> {
    let (mut first, used) = CountMinSketch::deserialize_prefix(alloc, images, options)?;
    let rest = &images[used..];
    let (second, _) = CountMinSketch::deserialize_prefix(alloc, rest, options)?;
    first.merge(&second)?;
    Ok(first)
}
