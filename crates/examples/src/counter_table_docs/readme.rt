//! Examples of `crates/counter_table/README.md`. Written by `tests/docs/examples.py`.
use counter_table::ReversePurgeItemHashMap;

pub fn counts_visit(visits: &mut ReversePurgeItemHashMap<u64>, page: u64) -> bool {
    if visits.num_active() >= visits.capacity() || visits.get(&page) == u64::MAX {
        return false;
    }
    visits.adjust_or_put_value(page, 1);
    true
}
