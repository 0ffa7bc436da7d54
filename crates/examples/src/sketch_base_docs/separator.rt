//! Examples of `crates/sketch_base/src/separator.rt`. Written by `tests/docs/examples.py`.
use sketch_base::{Separator, first_separator};

pub fn first_field(line: &[u8]) -> &[u8] {
    &line[..first_separator(line, Separator::Space)]
}
