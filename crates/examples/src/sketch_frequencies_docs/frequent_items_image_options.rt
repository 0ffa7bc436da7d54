//! Examples of `crates/sketch_frequencies/src/frequent_items_image_options.rt`. Written by `tests/docs/examples.py`.
use sketch_frequencies::{FrequentItemsImageOptions, TableKey};

pub fn options_for_untrusted(key: TableKey) -> FrequentItemsImageOptions {
    FrequentItemsImageOptions {
        max_bytes: 1 << 20,
        key,
    }
}
