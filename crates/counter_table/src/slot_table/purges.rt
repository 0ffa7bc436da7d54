//! Purges: a middle count of a sample, and one sweep that subtracts it from every count.
//!
//! The sweep shifts each entry that stays back to the first free slot from its home on. Deletions by backward shift, one by one
//! from the highest index down, would move it to the same slot.
ghost use Rattle.std.specs.Prelude.{◌≡◌, ◌+◌, ◌<◌, ◌≤◌, false, not, length, map, min, take, IsPermutation};
ghost use Rattle.counter_table.specs.Fingerprints.{AreFingerprints};
ghost use Rattle.counter_table.specs.Homes.{home_in};
ghost use Rattle.counter_table.specs.Samples.{entries_from, sample_start};
ghost use Rattle.counter_table.specs.Settled.{HasDrift, Settles};
ghost use Rattle.counter_table.specs.Slots.{IsTableSize, IsSlots, entries_of};
ghost use Rattle.counter_table.specs.TableHashes.{hash_in};
ghost use Rattle.counter_table.specs.Tables.{purged, IsSampleMiddle};

use crate::fingerprints::{FREE, home};
use crate::indices::{after, before};
use crate::sizes::MAX_SAMPLE_SIZE;
use crate::slot::Slot;
use crate::slot_table::SlotTable;
use crate::slot_table::look_ups::{FreeSlot, SlotSlices, last_free};
use crate::table_key::TableKey;
use sketch_base::keyed_hash;
use std::hash::Hash;
use std::mem;

/// The byte before the number of purges, in the input of the hash that selects the start of a sample. No UTF-8 string begins
/// with it.
const BEFORE_PURGES: u8 = 255;

/// The maximum number of counts of a small sample.
const SMALL_SAMPLE_SIZE: usize = 64;

impl<T: Eq + Hash + Drop> SlotTable<T> {
    /// Returns a middle count of the sample that the next purge takes after this number of purges: `size` entries, in the order
    /// of the slots from one on.
    ///
    /// The buffer of a sample is cleared before it is filled, and a small sketch is purged often. So a small sample has a smaller
    /// buffer.
    pub(crate) fn middle_of(&self, purges: u64, size: usize) -> u64
        requires table { IsTableSize (length self.now.slots) }
        requires some { 0 < size }
        requires few { size ≤ 1024 }
        requires active { size ≤ length (entries_of self.now.slots) }
        ensures sample { IsSampleMiddle size
            (take size (entries_from (sample_start self.now.key purges (length self.now.slots)) self.now.slots)) result }
        ensures middle { IsSampleMiddle size (entries_of self.now.slots) result }
    {
        let start = sample_start(self.key, purges, self.slots.len());
        if size <= SMALL_SAMPLE_SIZE {
            middle_in::<T, SMALL_SAMPLE_SIZE>(&self.slots, start, size)
        } else {
            middle_in::<T, MAX_SAMPLE_SIZE>(&self.slots, start, size)
        }
    }

    /// Subtracts `amount` from each count, removes the entries at or below it, and returns the number of removed entries.
    #[inline(always)]
    pub(crate) fn lower(&mut self, amount: u64) -> usize
        requires slots { IsSlots T.eq (hash_in self.old.key T.hash_input) self.old.slots }
        ensures slots { IsSlots T.eq (hash_in self.new.key T.hash_input) self.new.slots }
        ensures entries { IsPermutation (purged amount (entries_of self.old.slots)) (entries_of self.new.slots) }
        ensures removed { result + length (entries_of self.new.slots) ≡ length (entries_of self.old.slots) }
        ensures size { length self.new.slots ≡ length self.old.slots }
        ensures key { self.new.key ≡ self.old.key }
    {
        sweep(&self.key, &mut self.slots, &mut self.fingerprints, amount)
    }
}

/// Subtracts `amount` from each count, removes the entries at or below it, and returns the number of removed entries.
///
/// The sweep goes up from the index after a free slot, and wraps around. An entry after that slot also has its home after it.
/// So all indices from an entry's home to its slot are settled before the entry is. The entries that stay get the slots that
/// they would get if they were inserted into an empty table in this order.
fn sweep<T: Eq + Hash + Drop>(
    key: &TableKey,
    slots: &mut [Slot<T>],
    fingerprints: &mut [u8],
    amount: u64,
) -> usize
    requires slots { IsSlots T.eq (hash_in key.now T.hash_input) slots.old }
    requires fingerprints { AreFingerprints (hash_in key.now T.hash_input) slots.old fingerprints.old }
    ensures slots { IsSlots T.eq (hash_in key.now T.hash_input) slots.new }
    ensures entries { IsPermutation (purged amount (entries_of slots.old)) (entries_of slots.new) }
    ensures removed { result + length (entries_of slots.new) ≡ length (entries_of slots.old) }
    ensures fingerprints { AreFingerprints (hash_in key.now T.hash_input) slots.new fingerprints.new }
{
    let size = slots.len();
    let free = last_free(slots);
    let mut removed = 0;
    for on in 1..size {
        let index = after(free, on, size);
        if settle(key, slots, fingerprints, index, amount) {
            removed += 1;
        }
    }
    removed
}

/// Subtracts `amount` from the count in a slot, if the count is greater, and moves the entry to the first free slot from its
/// home on. Its own slot is the last possible one. Otherwise frees the slot. Returns whether an entry was dropped.
#[inline(always)]
fn settle<T: Eq + Hash + Drop>(
    key: &TableKey,
    slots: &mut [Slot<T>],
    fingerprints: &mut [u8],
    index: usize,
    amount: u64,
) -> bool
    requires size { IsTableSize (length slots.old) }
    requires fingerprints { AreFingerprints (hash_in key.now T.hash_input) slots.old fingerprints.old }
    requires index { index < length slots.old }
    requires drift { HasDrift (home_in (hash_in key.now T.hash_input) (length slots.old)) slots.old index }
    ensures slots { Settles (home_in (hash_in key.now T.hash_input) (length slots.old)) slots.old index amount result slots.new }
    ensures fingerprints { AreFingerprints (hash_in key.now T.hash_input) slots.new fingerprints.new }
{
    let size = slots.len();
    let moving = fingerprints[index];
    fingerprints[index] = FREE;
    match mem::replace(&mut slots[index], Slot::Free) {
        Slot::Free => false,
        Slot::Taken { drift, count, item } => {
            if count <= amount {
                return true;
            }
            let home = before(index, drift as usize - 1, size);
            let slices = SlotSlices {
                key: *key,
                slots,
                fingerprints,
            };
            let FreeSlot { index: to, probed } = slices.find_free_from(&item, home);
            slots[to] = Slot::Taken {
                drift: probed as u32,
                count: count - amount,
                item,
            };
            fingerprints[to] = moving;
            false
        }
    }
}

/// Returns the index at which the next purge begins its sample, after this number of purges.
///
/// In a keyed table it depends on the key and the number. If it were fixed, a caller could learn from the errors after purges
/// which items are sampled, and give them small counts: a purge would then drop little more than the sample. The hash is of 17
/// bytes that begin with [`BEFORE_PURGES`], so it is not that of a number or a string.
fn sample_start(key: TableKey, purges: u64, size: usize) -> usize
    requires { IsTableSize size }
    ensures index { result ≡ sample_start key purges size }
    ensures within { result < size }
{
    match key {
        TableKey::Plain => 0,
        TableKey::Keyed(secret) => {
            let mut bytes = [BEFORE_PURGES; 17];
            bytes[1..].copy_from_slice(&(purges as u128).to_le_bytes());
            home(keyed_hash(secret, &bytes), size)
        }
    }
}

/// Returns a middle count of the first `size` entries from an index on, with a buffer of `N` counts.
fn middle_in<T, const N: usize>(slots: &[Slot<T>], start: usize, size: usize) -> u64
    requires start { start ≤ length slots.now }
    requires some { 0 < size }
    requires few { size ≤ N }
    requires room { N ≤ 1024 }
    requires active { size ≤ length (entries_of slots.now) }
    ensures { IsSampleMiddle size (take size (entries_from start slots.now)) result }
{
    let mut room = [0; N];
    let sample = &mut room[..size];
    gather_from(slots, start, sample);
    let (_, middle, _) = sample.select_nth_unstable(size / 2);
    *middle
}

/// Copies the counts of the first entries from an index on to `counts`, wrapping around at the end, until it is full.
fn gather_from<T>(slots: &[Slot<T>], start: usize, counts: &mut [u64])
    requires start { start ≤ length slots.now }
    requires many { length counts.old ≤ length (entries_of slots.now) }
    ensures { counts.new ≡ map (λ e. e.1) (take (length counts.old) (entries_from start slots.now)) }
{
    let (before, from) = slots.split_at(start);
    let gathered = gather_counts(from, &0, counts);
    gather_counts(before, &0, &mut counts[gathered..]);
}

/// Copies the counts of the first entries to `counts`, until it is full. Returns their number.
///
/// A free slot writes `none`, which the next count overwrites, so that no branch depends on the slot. The compiler might add a
/// branch if `none` were a number of its own. So it is a reference, and the function is not inlined.
#[inline(never)]
fn gather_counts<T>(slots: &[Slot<T>], none: &u64, counts: &mut [u64]) -> usize
    ensures number { result ≡ min (length counts.old) (length (entries_of slots.now)) }
    ensures counts { take result counts.new ≡ map (λ e. e.1) (take result (entries_of slots.now)) }
{
    let mut gathered = 0;
    for slot in slots {
        if gathered >= counts.len() {
            break;
        }
        let (count, taken) = match slot {
            Slot::Taken { count, .. } => (count, 1),
            Slot::Free => (none, 0),
        };
        counts[gathered] = *count;
        gathered += taken;
    }
    gathered
}
