//! Examples of `crates/sketch_bloom/src/bloom_filter_view.rt`. Written by `tests/docs/examples.py`.
use sketch_base::Error;
use sketch_bloom::BloomFilterView;

pub fn may_have_key(image: &[u8], key: u64) -> Result<bool, Error> {
    let keys = BloomFilterView::new(image)?;
    Ok(keys.contains(&key))
}

pub fn is_blocked(blocked: &BloomFilterView, name: &str) -> bool {
    blocked.contains_item(name)
}

pub fn known_of_four(seen: &BloomFilterView, visitors: &[u64; 4]) -> [bool; 4] {
    let mut known = [false; 4];
    seen.contains_all(visitors.as_slice(), &mut known);
    known
}
