//! Examples of `crates/sketch_base/src/words.rt`. Written by `tests/docs/examples.py`.
use sketch_base::{Items, Separator, Words, nth_word};

pub fn last_word(text: &str) -> &str {
    let mut words = Words::new(text);
    let mut last = "";
    while let Some(word) = words.next() {
        last = word;
    }
    last
}

pub fn third_column(line: &str) -> Option<&str> {
    nth_word(line, Separator::AsciiWhitespace, 2)
}
