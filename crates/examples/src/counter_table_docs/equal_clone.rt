//! Examples of `crates/counter_table/src/equal_clone.rt`. Written by `tests/docs/examples.py`.
use counter_table::EqualClone;
use std::alloc::AllocError;

pub fn twice<T: EqualClone>(item: T) -> Result<(T, T), AllocError> {
    let clone = item.clone()?;
    Ok((item, clone))
}
