//! Examples of `crates/counter_table/src/reverse_purge_item_hash_map.rt`. Written by `tests/docs/examples.py`.
use counter_table::ReversePurgeItemHashMap;

pub fn visits_of_four(visits: &ReversePurgeItemHashMap<u64>, pages: &[u64; 4]) -> [u64; 4] {
    let mut counts = [0; 4];
    visits.get_all(pages, &mut counts);
    counts
}
