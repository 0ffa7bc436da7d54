//! Calls of a table that are made only if their contracts allow them.
use crate::items::Item;
use datasketches::error::{Error, Fault};
use datasketches::frequencies::{EqualClone, ReversePurgeItemHashMap};
use std::alloc::Global;
use std::hash::Hash;

/// The maximum number of slots of a table here.
const MAX_SLOTS: usize = 32;

/// A table of items of a kind.
pub type Map<const KIND: u8> = ReversePurgeItemHashMap<Item<KIND>>;

/// Creates an empty table. Returns `MapSizeNotPowerOfTwo` if the size is not a power of two, or exceeds `MAX_SLOTS`.
pub fn free_table<T: Eq + Hash + Drop>(
    alloc: Global,
    size: usize,
) -> Result<ReversePurgeItemHashMap<T>, Error> {
    if !size.is_power_of_two() || size > MAX_SLOTS {
        return Err(Error::invalid_argument(Fault::MapSizeNotPowerOfTwo));
    }
    ReversePurgeItemHashMap::new(alloc, size)
}

/// Moves the entries to a table of `size` slots. Returns `MapSizeNotPowerOfTwo` if the size is not a power of two,
/// exceeds `MAX_SLOTS`, or is at most the number of entries.
pub fn grow<T: Eq + Hash + Drop>(
    map: &mut ReversePurgeItemHashMap<T>,
    size: usize,
) -> Result<(), Error> {
    if !size.is_power_of_two() || size > MAX_SLOTS || map.num_active() >= size {
        return Err(Error::invalid_argument(Fault::MapSizeNotPowerOfTwo));
    }
    map.resize(size)
}

/// Adds an amount to the item's count if there is room for it.
pub fn put<T: Eq + Hash + Drop>(map: &mut ReversePurgeItemHashMap<T>, item: T, amount: u8) {
    let slots = map.len();
    if map.num_active() + 1 >= slots {
        return;
    }
    if map.get(&item) >= 1000 {
        return;
    }
    map.adjust_or_put_value(item, amount as u64);
}

/// Adds an amount to the item's count if there is room for it. An item that is new is cloned.
pub fn put_ref<T: EqualClone + Hash + Drop>(
    map: &mut ReversePurgeItemHashMap<T>,
    item: &T,
    amount: u8,
) -> Result<(), Error> {
    let slots = map.len();
    if map.num_active() + 1 >= slots {
        return Ok(());
    }
    if map.get(item) >= 1000 {
        return Ok(());
    }
    map.adjust_or_put_value_ref(item, amount as u64)
}

/// Subtracts a middle count of all entries from each entry, if any. Returns the count that was subtracted.
pub fn purge<T: Eq + Hash + Drop>(map: &mut ReversePurgeItemHashMap<T>) -> u64 {
    if map.num_active() == 0 {
        return 0;
    }
    map.purge(1024)
}
