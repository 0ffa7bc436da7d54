//! Examples of `crates/sketch_countmin/src/count_min_value.rt`. Written by `tests/docs/examples.py`.
use sketch_countmin::{CountMinSketch, CountMinValue};

pub fn weight_of_all<T: CountMinValue>(counts: &CountMinSketch<T>) -> T {
    counts.total_weight()
}
