//! Examples of `crates/sketch_bloom/src/bloom_filter_builder.rt`. Written by `tests/docs/examples.py`.
use sketch_base::Error;
use sketch_bloom::{BloomFilter, BloomFilterBuilder};
use std::alloc::Global;

pub fn filter_of_visitors(alloc: Global) -> Result<BloomFilter, Error> {
    BloomFilterBuilder::with_size(959, 7).seed(42).build(alloc)
}
