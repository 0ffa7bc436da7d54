//! Examples of `crates/sketch_base/src/items.rt`. Written by `tests/docs/examples.py`.
use sketch_base::{Item, Items, Words};

pub fn shard_of<X: Item>(user: &X) -> u64 {
    user.murmur3(9001).0 % 100
}

pub fn number_of_words(text: &str) -> u64 {
    let mut words = Words::new(text);
    let mut count: u64 = 0;
    while let Some(_) = words.next() {
        count = count.saturating_add(1);
    }
    count
}
