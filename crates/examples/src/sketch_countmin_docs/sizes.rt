//! Examples of `crates/sketch_countmin/src/sizes.rt`. Written by `tests/docs/examples.py`.
use sketch_base::Error;
use sketch_countmin::{CountMinSketch, suggest_num_buckets, suggest_num_hashes};
use std::alloc::Global;

pub fn bytes_within_a_thousandth(alloc: Global) -> Result<CountMinSketch<u64>, Error> {
    CountMinSketch::new(alloc, suggest_num_hashes(50)?, suggest_num_buckets(1000)?)
}
