//! Examples of `crates/sketch_frequencies/src/frequent_items_sketch/batches.rt`. Written by `tests/docs/examples.py`.
use sketch_base::{Strs, Words};
use sketch_frequencies::{Error, FrequentItemsSketch, ItemBounds};
use std::alloc::Global;

pub fn sketch_of_visitors(
    alloc: Global,
    visitors: &[u64],
) -> Result<FrequentItemsSketch<u64>, Error> {
    let mut sketch = FrequentItemsSketch::new(alloc, 1024)?;
    sketch.update_all(visitors)?;
    Ok(sketch)
}

pub fn words_of_line(alloc: Global, line: &str) -> Result<FrequentItemsSketch<String>, Error> {
    let mut sketch = FrequentItemsSketch::new(alloc, 1024)?;
    sketch.update_all(Words::new(line))?;
    Ok(sketch)
}

pub fn add_even(sketch: &mut FrequentItemsSketch<u64>, numbers: &[u64]) -> Result<(), Error> {
    sketch.extend(numbers.iter().filter(|n| **n % 2 == 0))
}

pub fn add_prices(prices: &mut FrequentItemsSketch<String>) -> Result<(), Error> {
    prices.update_all_with_counts(Strs(&["apple", "pear"]), &[30, 45])
}

pub fn weights_of_four(visits: &FrequentItemsSketch<u64>, pages: &[u64; 4]) -> [u64; 4] {
    let mut weights = [0; 4];
    visits.estimate_all(pages.as_slice(), &mut weights);
    weights
}

pub fn bounds_of_fruit(words: &FrequentItemsSketch<String>, bounds: &mut [ItemBounds; 2]) {
    words.bounds_all(Strs(&["apple", "pear"]), bounds);
}
