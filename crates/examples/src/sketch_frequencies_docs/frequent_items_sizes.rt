//! Examples of `crates/sketch_frequencies/src/frequent_items_sizes.rt`. Written by `tests/docs/examples.py`.
use sketch_frequencies::{Error, FrequentItemsSizes, FrequentItemsSketch, TableKey};
use std::alloc::Global;

pub fn with_cheap_purges(alloc: Global, key: TableKey) -> Result<FrequentItemsSketch<u64>, Error> {
    let sizes = FrequentItemsSizes {
        max_map_size: 1024,
        sample_size: 64,
    };
    FrequentItemsSketch::with_sizes(alloc, sizes, key)
}
