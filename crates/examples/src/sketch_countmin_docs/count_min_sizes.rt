//! Examples of `crates/sketch_countmin/src/count_min_sizes.rt`. Written by `tests/docs/examples.py`.
use sketch_base::Error;
use sketch_countmin::{CountMinSizes, CountMinSketch};
use std::alloc::Global;

pub fn empty_traffic(alloc: Global, seed: u64) -> Result<CountMinSketch<u64>, Error> {
    let sizes = CountMinSizes {
        num_hashes: 4,
        num_buckets: 128,
        seed,
    };
    CountMinSketch::with_sizes(alloc, sizes)
}
