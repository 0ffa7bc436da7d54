//! Examples of `crates/sketch_frequencies/src/sizes.rt`. Written by `tests/docs/examples.py`.
use sketch_frequencies::{Error, FrequentItemsSketch, suggest_max_map_size};
use std::alloc::Global;

pub fn visits_within_a_percent(alloc: Global) -> Result<FrequentItemsSketch<u64>, Error> {
    FrequentItemsSketch::new(alloc, suggest_max_map_size(100)?)
}
