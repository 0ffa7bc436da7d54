//! Examples of `crates/datasketches/README.md`. Written by `tests/docs/examples.py`.
use datasketches::bloom::BloomFilterBuilder;
use datasketches::{Refusal, Session};
use std::alloc::Global;

pub fn has_seen_seven(alloc: Global) -> Result<bool, Refusal> {
    let mut session = Session::new(alloc);
    session.create_bloom_filter("seen", BloomFilterBuilder::with_size(959, 7))?;
    session.insert("seen", &7_u64)?;
    session.contains("seen", &7)
}
