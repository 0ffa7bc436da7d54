//! Examples of `crates/sketch_base/src/item_hash.rt`. Written by `tests/docs/examples.py`.
use sketch_base::{HashKey, keyed_hash_of, keyed_hashes_of};

pub fn shard_of(key: HashKey, user: u64) -> u64 {
    keyed_hash_of(key, &user) % 100
}

pub fn are_in_one_shard(key: HashKey, users: (u64, u64)) -> bool {
    let hashes = keyed_hashes_of(key, &users.0, &users.1);
    hashes.0 % 100 == hashes.1 % 100
}
