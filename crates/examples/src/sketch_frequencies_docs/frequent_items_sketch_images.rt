//! Examples of `crates/sketch_frequencies/src/frequent_items_sketch/images.rt`. Written by `tests/docs/examples.py`.
use sketch_frequencies::{Error, FrequentItemsImageOptions, FrequentItemsSketch, TableKey};
use std::alloc::Global;

pub fn received(
    alloc: Global,
    image: &[u8],
    key: TableKey,
) -> Result<FrequentItemsSketch<u64>, Error> {
    let options = FrequentItemsImageOptions {
        max_bytes: 1 << 20,
        key,
    };
    FrequentItemsSketch::deserialize_with_options(alloc, image, options)
}

pub fn takes_too_much(pages: &FrequentItemsSketch<String>, budget: usize) -> bool {
    pages.memory_bytes() > budget
}
