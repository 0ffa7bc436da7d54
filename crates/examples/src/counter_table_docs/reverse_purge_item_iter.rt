//! Examples of `crates/counter_table/src/reverse_purge_item_iter.rt`. Written by `tests/docs/examples.py`.
use counter_table::ReversePurgeItemHashMap;

pub fn most_visited(visits: &ReversePurgeItemHashMap<u64>) -> Option<u64> {
    let mut most = None;
    let mut greatest = 0;
    for (page, count) in visits.iter() {
        if count > greatest {
            greatest = count;
            most = Some(*page);
        }
    }
    most
}
