//! Examples of `crates/sketch_frequencies/src/frequent_items_sketch.rt`. Written by `tests/docs/examples.py`.
use sketch_frequencies::{Error, FrequentItemsSketch, HashKey, TableKey};
use std::alloc::Global;

pub fn senders(alloc: Global, random: &[u8; 16]) -> Result<FrequentItemsSketch<u64>, Error> {
    let key = TableKey::Keyed(HashKey::from_bytes(random));
    FrequentItemsSketch::with_key(alloc, 1024, key)
}
