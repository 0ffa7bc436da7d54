//! Calls of the table of counters that allocate nothing.
use crate::items::{FEEDS_NOTHING, Item};
use crate::output::{write_table, write_values};
use crate::table::{Map, free_table, purge, put, put_ref};
use crate::trial::{Trial, counted};
use datasketches::error::Error;
use datasketches::frequencies::{ReversePurgeItemHashMap, ReversePurgeItemIter};
use std::alloc::Global;

/// Adds amounts for new and tracked items, one of them by reference.
fn add_all(map: &mut ReversePurgeItemHashMap<i64>) -> Result<(), Error> {
    for (item, amount) in [(1, 3), (2, 3), (3, 3), (4, 3), (1, 1), (5, 0)] {
        put(map, item, amount);
    }
    put_ref(map, &1, 3)
}

/// Adds amounts for new and tracked items, and purges.
pub fn changes(trial: &mut Trial) {
    let Ok(mut map) = free_table(trial.alloc, 8) else {
        return trial.fail();
    };
    let added = counted!(trial, add_all(&mut map));
    trial.check(added);
    write_table(trial, &map, &[1, 2, 5]);
    let middle = counted!(trial, purge(&mut map));
    write_values(trial, "purged", &[middle]);
    write_table(trial, &map, &[1, 2, 5]);
}

/// Creates a table of three items.
fn three<const KIND: u8>(alloc: Global) -> Result<Map<KIND>, Error> {
    let mut map = free_table(alloc, 8)?;
    for (number, amount) in [(1, 2), (2, 3), (3, 5)] {
        put(&mut map, Item::of(number), amount);
    }
    Ok(map)
}

/// Returns a table's numbers of entries, of slots and of bytes.
fn numbers<const KIND: u8>(map: &Map<KIND>) -> [usize; 5] {
    [
        map.num_active(),
        map.len(),
        map.lg_length() as usize,
        map.capacity(),
        map.estimated_size(),
    ]
}

/// Returns the counts of items that are tracked and of one that is not, by all calls.
fn counts<const KIND: u8>(map: &Map<KIND>) -> [u64; 6] {
    let mut both = [0; 2];
    map.get_all(&[Item::of(2), Item::of(4)], &mut both);
    [
        map.get(&Item::of(2)),
        map.get(&Item::of(4)),
        map.get_counted(&Item::of(3)).0,
        map.get_counted(&Item::of(4)).0,
        both[0],
        both[1],
    ]
}

/// Writes the numbers and the counts of a table of three items.
pub fn questions<const KIND: u8>(trial: &mut Trial) {
    let Ok(map) = three::<KIND>(trial.alloc) else {
        return trial.fail();
    };
    let numbers = counted!(trial, numbers(&map));
    let counts = counted!(trial, counts(&map));
    write_values(trial, "numbers", &numbers);
    write_values(trial, "counts", &counts);
}

/// Writes the number of slots that a look-up of an absent item probes. Items that feed a hasher nothing have the same
/// home, so it probes the three items and a free slot.
pub fn looks(trial: &mut Trial) {
    let Ok(map) = three::<FEEDS_NOTHING>(trial.alloc) else {
        return trial.fail();
    };
    let (absent, probed) = counted!(trial, map.get_counted(&Item::of(4)));
    trial.write_value("", &absent);
    trial.write_value(" probed ", &probed);
    trial.write("\n");
}

/// Returns the count of the next entry, or 0 after the last.
fn next_count<const KIND: u8>(walk: &mut ReversePurgeItemIter<Item<KIND>>) -> u64 {
    match walk.next() {
        Some((_, count)) => count,
        None => 0,
    }
}

/// Walks past the end of a table. Returns the number of entries to come and of slots that were probed, before and after
/// the walk. Returns also the sum of the counts, and the count after the end.
fn walk_past_end<const KIND: u8>(map: &Map<KIND>) -> [u64; 6] {
    let mut walk = map.iter();
    let (to_come, slots_read) = (walk.len(), walk.slots_read());
    let mut sum = 0u64;
    for _ in 0..3 {
        sum = sum.wrapping_add(next_count(&mut walk));
    }
    let behind = next_count(&mut walk);
    [
        to_come as u64,
        slots_read as u64,
        sum,
        behind,
        walk.size_hint().0 as u64,
        walk.slots_read() as u64,
    ]
}

/// Writes a walk past the end, and whether the number of slots that it probed is within its bounds.
pub fn walk<const KIND: u8>(trial: &mut Trial) {
    let Ok(map) = three::<KIND>(trial.alloc) else {
        return trial.fail();
    };
    let [to_come, slots_read, sum, behind, left, probed] = counted!(trial, walk_past_end(&map));
    write_values(trial, "walk", &[to_come, slots_read, sum, behind, left]);
    write_values(trial, "probed", &[3 <= probed && probed <= 8]);
}
