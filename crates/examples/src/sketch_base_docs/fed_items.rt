//! Examples of `crates/sketch_base/src/fed_items.rt`. Written by `tests/docs/examples.py`.
use sketch_base::{FedBytes, FedItems, Item, Items};

pub fn is_same_item(number: u32, seed: u64) -> bool {
    FedBytes(&number.to_le_bytes()).xxh64(seed) == (&number).xxh64(seed)
}

pub fn has_items(mut items: FedItems<'_>) -> bool {
    items.next().is_some()
}
