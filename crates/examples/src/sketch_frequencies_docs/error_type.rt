//! Examples of `crates/sketch_frequencies/src/error_type.rt`. Written by `tests/docs/examples.py`.
use sketch_frequencies::ErrorType;

pub fn kind_of_report(may_miss_items: bool) -> ErrorType {
    if may_miss_items {
        ErrorType::NoFalsePositives
    } else {
        ErrorType::NoFalseNegatives
    }
}
