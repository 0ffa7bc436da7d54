//! Examples of `crates/counter_table/src/keys.rt`. Written by `tests/docs/examples.py`.
use counter_table::{ItemKey, Keys};
use sketch_base::Words;

pub fn has_word(text: &str, word: &String) -> bool {
    let mut words = Words::new(text);
    while let Some(key) = words.next_key() {
        if key.names(word) {
            return true;
        }
    }
    false
}
