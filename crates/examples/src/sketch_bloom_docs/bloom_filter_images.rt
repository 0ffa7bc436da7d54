//! Examples of `crates/sketch_bloom/src/bloom_filter/images.rt`. Written by `tests/docs/examples.py`.
use sketch_base::Error;
use sketch_bloom::BloomFilter;
use std::alloc::Global;

pub fn sent(alloc: Global, filter: &BloomFilter) -> Result<BloomFilter, Error> {
    let image = filter.serialize()?;
    BloomFilter::deserialize_with_limit(alloc, &image, 1 << 20)
}

pub fn union_of_two_images(alloc: Global, images: &[u8]) -> Result<BloomFilter, Error> {
    let (mut first, used) = BloomFilter::deserialize_prefix(alloc, images, 1 << 20)?;
    let (second, _) = BloomFilter::deserialize_prefix(alloc, &images[used..], 1 << 20)?;
    first.union(&second)?;
    Ok(first)
}
