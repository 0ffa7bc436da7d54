//! Examples of `crates/sketch_base/src/rows.rt`. Written by `tests/docs/examples.py`.
use sketch_base::{Rows, Validity};

pub fn has_bit_for_each<R: Rows>(rows: &R, bitmap: &[u8]) -> bool {
    Validity::new(bitmap, 0).has_bits(rows.num_rows())
}
