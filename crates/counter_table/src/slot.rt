//! A slot of the table of counters.

/// A slot that is free, or holds an item, its count and its drift.
///
/// The drift is the distance from the item's home plus 1: the number of slots that a look-up of the item probes. It is the
/// first field, so that a slot of an item of 8 bytes takes 24 bytes.
///
/// # Examples
///
/// ```
/// use counter_table::{ReversePurgeItemHashMap, Slot};
///
/// fn longest_look_up(visits: &ReversePurgeItemHashMap<u64>) -> u32 {
///     let mut longest = 0;
///     for slot in visits.slots() {
///         if let Slot::Taken { drift, .. } = slot {
///             longest = longest.max(*drift);
///         }
///     }
///     longest
/// }
/// ```
#[derive(Debug, Drop)]
pub enum Slot<T> {
    Free,
    Taken { drift: u32, count: u64, item: T },
}
