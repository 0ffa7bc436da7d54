//! Examples of `crates/sketch_base/src/fault.rt`. Written by `tests/docs/examples.py`.
use sketch_base::Error;

pub fn reason(error: &Error) -> &'static str {
    error.fault().text()
}
