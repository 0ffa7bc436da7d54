//! Examples of `crates/sketch_frequencies/src/frequent_items_sketch/updates.rt`. Written by `tests/docs/examples.py`.
use sketch_frequencies::{Error, FrequentItemsSketch};

pub fn add_word(words: &mut FrequentItemsSketch<String>, word: &str) -> Result<(), Error> {
    words.update_item_with_count(word, 1)
}
