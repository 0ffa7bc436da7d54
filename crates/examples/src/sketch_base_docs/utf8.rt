//! Examples of `crates/sketch_base/src/utf8.rt`. Written by `tests/docs/examples.py`.
use sketch_base::from_utf8;

pub fn is_text(bytes: &[u8]) -> bool {
    from_utf8(bytes).is_ok()
}
