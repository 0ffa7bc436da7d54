//! Examples of `crates/sketch_base/src/split.rt`. Written by `tests/docs/examples.py`.
use sketch_base::{Separator, finished_lines, finished_words, first_words};

pub fn is_pair(text: &str) -> bool {
    let mut words = [""; 3];
    first_words(text, Separator::Space, &mut words) == 2
}

pub fn complete_words(chunk: &[u8]) -> &[u8] {
    &chunk[..finished_words(chunk, Separator::AsciiWhitespace)]
}

pub fn complete_lines(chunk: &[u8]) -> &[u8] {
    &chunk[..finished_lines(chunk)]
}
