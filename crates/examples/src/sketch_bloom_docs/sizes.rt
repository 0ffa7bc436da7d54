//! Examples of `crates/sketch_bloom/src/sizes.rt`. Written by `tests/docs/examples.py`.
use sketch_base::Error;
use sketch_bloom::{BloomFilter, BloomFilterBuilder, suggest_num_bits, suggest_num_hashes};
use std::alloc::Global;

pub fn filter_for(alloc: Global, visitors: u64) -> Result<BloomFilter, Error> {
    let num_bits = suggest_num_bits(visitors, 100)?;
    let num_hashes = suggest_num_hashes(num_bits, visitors)?;
    BloomFilterBuilder::with_size(num_bits, num_hashes).build(alloc)
}
