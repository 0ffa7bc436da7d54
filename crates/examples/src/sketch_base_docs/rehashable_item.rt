//! Examples of `crates/sketch_base/src/rehashable_item.rt`. Written by `tests/docs/examples.py`.
use sketch_base::{Rehashable, RehashableItem, RehashableStr};

pub fn shard_of_name(user: &str) -> u64 {
    let user = RehashableStr::new(user);
    user.murmur3(9001).0 % 100
}

pub fn hashes_of_both_rows(user: u64, seeds: (u64, u64)) -> (u64, u64) {
    let item = RehashableItem::new(&user);
    (item.murmur3(seeds.0).0, item.murmur3(seeds.1).0)
}
