//! Examples of `crates/sketch_base/src/error.rt`. Written by `tests/docs/examples.py`.
use sketch_base::{Error, ErrorKind, Fault};

pub fn is_cut_short(error: &Error) -> bool {
    error.kind() == ErrorKind::InvalidData && error.fault() == Fault::InsufficientData
}
