//! Examples of `crates/sketch_countmin/src/count_min_items.rt`. Written by `tests/docs/examples.py`.
use sketch_base::Error;
use sketch_countmin::{CountMinItems, CountMinSketch};
use std::alloc::Global;

pub fn counts_of_day<I: CountMinItems<u64>>(
    alloc: Global,
    visits: I,
) -> Result<CountMinSketch<u64>, Error> {
    let mut counts = CountMinSketch::new(alloc, 4, 1024)?;
    counts.update_all(visits)?;
    Ok(counts)
}
