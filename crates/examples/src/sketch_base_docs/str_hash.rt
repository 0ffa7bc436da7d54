//! Examples of `crates/sketch_base/src/str_hash.rt`. Written by `tests/docs/examples.py`.
use sketch_base::{HashKey, keyed_hash_of_str, murmur3_of_str, xxh64_of_str};

pub fn shard_of(user: &str) -> u64 {
    murmur3_of_str(user, 9001).0 % 100
}

pub fn checksum_of(line: &str) -> u64 {
    xxh64_of_str(line, 0)
}

pub fn shard_of_name(key: HashKey, user: &str) -> u64 {
    keyed_hash_of_str(key, user) % 100
}
