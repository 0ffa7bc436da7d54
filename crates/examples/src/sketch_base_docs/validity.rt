//! Examples of `crates/sketch_base/src/validity.rt`. Written by `tests/docs/examples.py`.
use sketch_base::{Items, ValidItems, Validity};

pub fn number_of_nulls(bitmap: &[u8]) -> u64 {
    let mut rows = Validity::new(bitmap, 0);
    let mut nulls: u64 = 0;
    while let Some(is_valid) = rows.next() {
        if !is_valid {
            nulls = nulls.saturating_add(1);
        }
    }
    nulls
}

pub fn first_valid(numbers: &[u64], bitmap: &[u8]) -> Option<u64> {
    let mut valid = ValidItems::new(numbers, Validity::new(bitmap, 0))?;
    valid.next().copied()
}
