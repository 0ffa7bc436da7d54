//! Examples of `crates/sketch_countmin/src/row_item.rt`. Written by `tests/docs/examples.py`.
use sketch_countmin::{CountMinSketch, RowItem};

pub fn visits_of_both<R: RowItem<u32> + Copy + Drop>(
    today: &CountMinSketch<u32>,
    before: &CountMinSketch<u32>,
    page: R,
) -> u32 {
    today
        .estimate_item(page)
        .saturating_add(before.estimate_item(page))
}
