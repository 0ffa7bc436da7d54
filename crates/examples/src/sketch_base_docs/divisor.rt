//! Examples of `crates/sketch_base/src/divisor.rt`. Written by `tests/docs/examples.py`.
use sketch_base::Divisor;

pub fn bucket(hash: u64) -> u64 {
    let buckets = Divisor::new(128);
    buckets.rem(hash)
}
