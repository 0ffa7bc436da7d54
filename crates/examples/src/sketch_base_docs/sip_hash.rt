//! Examples of `crates/sketch_base/src/sip_hash.rt`. Written by `tests/docs/examples.py`.
use sketch_base::{HashKey, keyed_hash};

pub fn hash_of_user(random: &[u8; 16], user: &str) -> u64 {
    keyed_hash(HashKey::from_bytes(random), user.as_bytes())
}

pub fn are_alike(k0: u64, k1: u64, first: &str, second: &str) -> bool {
    let key = HashKey::new(k0, k1);
    keyed_hash(key, first.as_bytes()) == keyed_hash(key, second.as_bytes())
}
