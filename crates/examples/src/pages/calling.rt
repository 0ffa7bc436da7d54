//! Examples of `docs/CALLING.md`. Written by `tests/docs/examples.py`.
use sketch_frequencies::{Error, ErrorType, FrequentItemsSketch};
use std::alloc::Global;

pub fn heaviest(alloc: Global, numbers: &[u64]) -> Result<Option<u64>, Error> {
    let mut sketch = FrequentItemsSketch::new(alloc, 64)?;
    for number in numbers {
        sketch.update(*number)?;
    }
    let rows = sketch.frequent_items(ErrorType::NoFalsePositives)?;
    Ok(rows.first().map(|row| row.estimate()))
}
