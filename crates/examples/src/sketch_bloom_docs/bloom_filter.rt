//! Examples of `crates/sketch_bloom/src/bloom_filter.rt`. Written by `tests/docs/examples.py`.
use sketch_base::Error;
use sketch_bloom::{BloomFilter, BloomFilterBuilder};
use std::alloc::Global;

pub fn seen_by_both(alloc: Global) -> Result<bool, Error> {
    let mut today = BloomFilterBuilder::with_size(959, 7).build(alloc)?;
    let mut yesterday = BloomFilterBuilder::with_size(959, 7).build(alloc)?;
    today.insert("apple");
    yesterday.insert("apple");
    today.intersect(&yesterday)?;
    Ok(today.contains(&"apple"))
}

pub fn is_first_visit(seen: &mut BloomFilter, visitor: u64) -> bool {
    !seen.contains_and_insert(&visitor)
}

pub fn is_blocked(blocked: &BloomFilter, name: &str) -> bool {
    blocked.contains_item(name)
}

pub fn is_repeated(seen: &mut BloomFilter, name: &str) -> bool {
    seen.contains_and_insert_item(name)
}

pub fn block(blocked: &mut BloomFilter, name: &str) {
    blocked.insert_item(name);
}

pub fn contained_in_union(alloc: Global) -> Result<bool, Error> {
    let mut all = BloomFilterBuilder::with_size(959, 7).build(alloc)?;
    let mut new = BloomFilterBuilder::with_size(959, 7).build(alloc)?;
    new.insert("apple");
    all.union(&new)?;
    Ok(all.contains(&"apple"))
}
