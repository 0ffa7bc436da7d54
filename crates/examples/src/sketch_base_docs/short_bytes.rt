//! Examples of `crates/sketch_base/src/short_bytes.rt`. Written by `tests/docs/examples.py`.
use sketch_base::RehashableItem;

pub fn kept_bytes(user: u64) -> Option<usize> {
    let item = RehashableItem::new(&user);
    item.short().map(|bytes| bytes.len())
}
