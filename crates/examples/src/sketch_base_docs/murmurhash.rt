//! Examples of `crates/sketch_base/src/murmurhash.rt`. Written by `tests/docs/examples.py`.
use sketch_base::MurmurHash3X64128;
use std::hash::Hash;

pub fn halves_of<T: Hash>(item: &T) -> (u64, u64) {
    let mut hasher = MurmurHash3X64128::default();
    item.hash(&mut hasher);
    hasher.finish128()
}
