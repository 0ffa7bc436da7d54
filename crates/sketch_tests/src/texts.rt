//! Strings, and sketches of them.
use crate::output::{begin_frequent, write_bounds};
use crate::trial::Trial;
use datasketches::error::Error;
use datasketches::frequencies::FrequentItemsSketch;

/// Six strings, once each. A table of 8 slots has no room for a seventh.
pub const SIX: [(&str, u64); 6] = [("a", 1), ("b", 1), ("c", 1), ("d", 1), ("e", 1), ("f", 1)];

/// Creates a sketch of these strings with these weights.
pub fn sketch_of(
    trial: &mut Trial,
    max_map_size: usize,
    items: &[(&str, u64)],
) -> Result<FrequentItemsSketch<String>, Error> {
    let mut sketch = FrequentItemsSketch::new(trial.alloc, max_map_size)?;
    for (item, weight) in items {
        let item = trial.string(item);
        trial.check(sketch.update_with_count(item, *weight));
    }
    Ok(sketch)
}

/// Writes a sketch's numbers, and the estimate and the bounds of each of the strings.
pub fn write_sketch(trial: &mut Trial, sketch: &FrequentItemsSketch<String>, asked: &[&str]) {
    begin_frequent(trial, sketch);
    for item in asked {
        let item = trial.string(item);
        write_bounds(trial, sketch, &item);
    }
    trial.write("\n");
}

/// A call that updates a sketch. By reference, an item that is new is cloned.
#[derive(Clone, Copy)]
pub enum UpdateBy {
    Value,
    Reference,
    ReferenceWithCount(u64),
}

/// Updates a sketch by this call.
pub fn update(
    sketch: &mut FrequentItemsSketch<String>,
    by: UpdateBy,
    item: String,
) -> Result<(), Error> {
    match by {
        UpdateBy::Value => sketch.update(item),
        UpdateBy::Reference => sketch.update_ref(&item),
        UpdateBy::ReferenceWithCount(count) => sketch.update_with_count_ref(&item, count),
    }
}
