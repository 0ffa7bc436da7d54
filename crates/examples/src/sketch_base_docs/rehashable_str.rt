//! Examples of `crates/sketch_base/src/rehashable_str.rt`. Written by `tests/docs/examples.py`.
use sketch_base::{Rehashable, RehashableStr};

pub fn hashes_of_name(user: &str, seeds: (u64, u64)) -> (u64, u64) {
    let user = RehashableStr::new(user);
    (user.murmur3(seeds.0).0, user.murmur3(seeds.1).0)
}
