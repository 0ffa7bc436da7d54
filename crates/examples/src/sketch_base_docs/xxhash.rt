//! Examples of `crates/sketch_base/src/xxhash.rt`. Written by `tests/docs/examples.py`.
use sketch_base::XxHash64;
use std::hash::Hasher;

pub fn hash_of_both(first: &[u8], second: &[u8]) -> u64 {
    let mut hasher = XxHash64::with_seed(9001);
    hasher.write(first);
    hasher.write(second);
    hasher.finish()
}
