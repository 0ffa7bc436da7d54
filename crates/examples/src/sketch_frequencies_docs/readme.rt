//! Examples of `crates/sketch_frequencies/README.md`. Written by `tests/docs/examples.py`.
use sketch_base::Words;
use sketch_frequencies::{Error, FrequentItemsSketch};
use std::alloc::Global;

pub fn shop(alloc: Global, apples: u64) -> Result<FrequentItemsSketch<&'static str>, Error> {
    let mut shop = FrequentItemsSketch::with_sample_size(alloc, 1024, 100)?;
    shop.update_with_count("apple", apples)?;
    Ok(shop)
}

pub fn apples_of_both_shops(alloc: Global) -> Result<(u64, u64), Error> {
    let mut both = shop(alloc, 30)?;
    both.merge(&shop(alloc, 12)?)?;
    Ok((both.lower_bound(&"apple"), both.upper_bound(&"apple")))
}

pub fn largest_weight_of_the(alloc: Global, line: &str) -> Result<u64, Error> {
    let mut words: FrequentItemsSketch<String> = FrequentItemsSketch::new(alloc, 1024)?;
    words.update_all(Words::new(line))?;
    Ok(words.upper_bound_item("the"))
}
