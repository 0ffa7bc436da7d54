//! Examples of `crates/sketch_base/src/lines.rt`. Written by `tests/docs/examples.py`.
use sketch_base::{Items, Lines};

pub fn first_line(text: &str) -> &str {
    Lines::new(text).next().unwrap_or("")
}
