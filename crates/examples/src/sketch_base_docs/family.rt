//! Examples of `crates/sketch_base/src/family.rt`. Written by `tests/docs/examples.py`.
use sketch_base::Family;

pub fn is_of_a_filter(family: u8) -> bool {
    Family::BLOOMFILTER.validate_id(family).is_ok()
}
