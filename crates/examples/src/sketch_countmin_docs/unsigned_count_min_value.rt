//! Examples of `crates/sketch_countmin/src/unsigned_count_min_value.rt`. Written by `tests/docs/examples.py`.
use sketch_countmin::{CountMinSketch, UnsignedCountMinValue};

pub fn halve<T: UnsignedCountMinValue>(counts: &mut CountMinSketch<T>) {
    counts.halve();
}
