//! Examples of `crates/sketch_frequencies/src/frequent_items_sketch/merging.rt`. Written by `tests/docs/examples.py`.
use sketch_frequencies::{Error, FrequentItemsSketch};

pub fn visits_of_the_week(
    week: &mut FrequentItemsSketch<u64>,
    days: &[&FrequentItemsSketch<u64>],
) -> Result<(), Error> {
    week.merge_all(days)
}
