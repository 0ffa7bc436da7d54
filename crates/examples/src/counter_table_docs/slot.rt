//! Examples of `crates/counter_table/src/slot.rt`. Written by `tests/docs/examples.py`.
use counter_table::{ReversePurgeItemHashMap, Slot};

pub fn longest_look_up(visits: &ReversePurgeItemHashMap<u64>) -> u32 {
    let mut longest = 0;
    for slot in visits.slots() {
        if let Slot::Taken { drift, .. } = slot {
            longest = longest.max(*drift);
        }
    }
    longest
}
