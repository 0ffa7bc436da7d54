//! Examples of `crates/sketch_frequencies/src/frequent_item_value.rt`. Written by `tests/docs/examples.py`.
use sketch_base::SketchBytes;
use sketch_frequencies::{Error, FrequentItemValue};
use std::alloc::Global;

pub fn bytes_of<T: FrequentItemValue>(alloc: Global, item: &T) -> Result<Vec<u8>, Error> {
    let mut out = SketchBytes::with_capacity(alloc, T::serialize_size(item))?;
    item.serialize_value(&mut out)?;
    Ok(out.into_bytes())
}
