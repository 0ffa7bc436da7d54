//! Examples of `crates/sketch_frequencies/src/frequent_items_sketch/reports.rt`. Written by `tests/docs/examples.py`.
use sketch_frequencies::{Error, ErrorType, FrequentItemsSketch};

pub fn heavier_pages(
    pages: &FrequentItemsSketch<u64>,
    threshold: u64,
) -> Result<(usize, usize), Error> {
    let surely = pages.frequent_items_with_threshold(ErrorType::NoFalsePositives, threshold)?;
    let perhaps = pages.frequent_items_with_threshold(ErrorType::NoFalseNegatives, threshold)?;
    Ok((surely.len(), perhaps.len()))
}
