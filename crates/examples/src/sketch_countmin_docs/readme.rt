//! Examples of `crates/sketch_countmin/README.md`. Written by `tests/docs/examples.py`.
use sketch_base::{Error, Words};
use sketch_countmin::CountMinSketch;
use std::alloc::Global;

pub fn apples_in_store(alloc: Global) -> Result<i64, Error> {
    let mut store: CountMinSketch<i64> = CountMinSketch::new(alloc, 4, 128)?;
    store.update_with_weight("apple", 90)?;
    store.update_with_weight("apple", -20)?;
    Ok(store.estimate("apple"))
}

pub fn count_visits(visits: &mut CountMinSketch<u64>, users: &[u64]) -> Result<(), Error> {
    visits.update_all(users)
}

pub fn count_words(counts: &mut CountMinSketch<u64>, text: &str) -> Result<(), Error> {
    counts.update_all(Words::new(text))
}
