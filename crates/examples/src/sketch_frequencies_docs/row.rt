//! Examples of `crates/sketch_frequencies/src/row.rt`. Written by `tests/docs/examples.py`.
use sketch_frequencies::Row;

pub fn surely_weighs_more(one: &Row<u64>, other: &Row<u64>) -> bool {
    one.lower_bound() > other.upper_bound()
}
