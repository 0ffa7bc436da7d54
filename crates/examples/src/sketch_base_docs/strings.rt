//! Examples of `crates/sketch_base/src/strings.rt`. Written by `tests/docs/examples.py`.
use sketch_base::{Strings, Strs};

pub fn longest<'a, S: Strings<'a>>(mut strings: S) -> &'a str {
    let mut longest = "";
    while let Some(string) = strings.next_str() {
        if string.len() > longest.len() {
            longest = string;
        }
    }
    longest
}

pub fn first_of_three<'a>(names: &'a [&'a str; 3]) -> &'a str {
    Strs(names).next_str().unwrap_or("")
}
