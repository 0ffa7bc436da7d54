//! The slots of a table with their fingerprints: new ones, moves and clones.
ghost use Rattle.std.specs.Prelude.{◌≡◌, ◌<◌, ◌≤◌, [], length, replicate, IfOk, IfErr, IsTrue, IsPermutation};
ghost use Rattle.std.specs.List.{IsDistinct, AllZip};
ghost use Rattle.std.specs.Map.{keys_of};
ghost use Rattle.sketch_base.specs.Errors.{no_memory};
ghost use Rattle.counter_table.specs.Slots.{IsTableSize, IsSlots, IsSameSlot, entries_of};
ghost use Rattle.counter_table.specs.TableHashes.{hash_in};

mod insertions;
mod look_ups;
mod purges;

use crate::equal_clone::EqualClone;
use crate::fingerprints::{FREE, free_fingerprints};
use crate::slot::Slot;
use crate::slot_table::look_ups::SlotSlices;
use crate::table_key::TableKey;
use sketch_base::Error;
use std::alloc::Global;
use std::hash::Hash;
use std::marker::Model;

/// The slots of a table, a fingerprint for each, and the key under which items are hashed.
///
/// Contracts see the key and the list of the slots.
#[derive(Debug, Drop)]
pub(crate) struct SlotTable<T: Eq + Hash + Drop> {
    key: TableKey,
    slots: Vec<Slot<T>>,
    fingerprints: Vec<u8>,
}

impl<T: Eq + Hash + Drop> Model for SlotTable<T> {
    ghost use Rattle.counter_table.specs.Slots.{KeyedSlots};

    ghost Value = { KeyedSlots T };

    ghost use Rattle.counter_table.specs.Fingerprints.{AreFingerprints};
    ghost use Rattle.counter_table.specs.TableHashes.{hash_in};

    ghost view = { λ a. record { key = a.key; slots = a.slots.items } };

    ghost invariant = { λ a. AreFingerprints (hash_in a.key T.hash_input) a.slots.items a.fingerprints.items };
}

impl<T: Eq + Hash + Drop> SlotTable<T> {
    /// Creates a table of `size` free slots with a key. Allocates the slots and the fingerprints.
    pub(crate) fn new(alloc: Global, key: TableKey, size: usize) -> Result<Self, Error>
        ensures ok { IfOk result (λ table. table ≡ record { key = key; slots = replicate size Slot.Free }) }
        ensures err { IfErr result (λ e. e ≡ no_memory) }
    {
        let slots = free_slots(alloc, size)?;
        let fingerprints = free_fingerprints(alloc, size)?;
        Ok(SlotTable {
            key,
            slots,
            fingerprints,
        })
    }

    /// Returns the number of slots.
    #[inline(always)]
    pub(crate) fn len(&self) -> usize
        ensures { result ≡ length self.now.slots }
    {
        self.slots.len()
    }

    /// Returns the key.
    #[inline(always)]
    pub(crate) fn key(&self) -> TableKey
        ensures { result ≡ self.now.key }
    {
        self.key
    }

    /// Returns the slots.
    #[inline(always)]
    pub(crate) fn slots(&self) -> &[Slot<T>]
        ensures { result.now ≡ self.now.slots }
    {
        &self.slots
    }

    /// Returns the slots and the fingerprints for look-ups.
    #[inline(always)]
    pub(crate) fn as_slices(&self) -> SlotSlices<'_, T>
        ensures { result ≡ self.now }
    {
        SlotSlices {
            key: self.key,
            slots: &self.slots,
            fingerprints: &self.fingerprints,
        }
    }

    /// Returns the allocator of the slots.
    #[inline(always)]
    pub(crate) fn allocator(&self) -> Global {
        *self.slots.allocator()
    }

    /// Frees every slot, and sets their number to `size`, at most the current number. Keeps the memory.
    /// It does not allocate.
    pub(crate) fn clear(&mut self, size: usize)
        requires within { size ≤ length self.old.slots }
        ensures free { entries_of self.new.slots ≡ [] }
        ensures size { length self.new.slots ≡ size }
        ensures key { self.new.key ≡ self.old.key }
    {
        self.slots.truncate(size);
        free_all(&mut self.slots);
        self.fingerprints.truncate(size);
        self.fingerprints.fill(FREE);
    }

    /// Moves all entries of `old` into free slots.
    pub(crate) fn move_all(&mut self, old: SlotTable<T>)
        requires distinct { IsDistinct T.eq (keys_of (entries_of old.slots)) }
        requires room { length (entries_of old.slots) < length self.old.slots }
        requires size { IsTableSize (length self.old.slots) }
        requires free { entries_of self.old.slots ≡ [] }
        ensures slots { IsSlots T.eq (hash_in self.new.key T.hash_input) self.new.slots }
        ensures entries { IsPermutation (entries_of old.slots) (entries_of self.new.slots) }
        ensures size { length self.new.slots ≡ length self.old.slots }
        ensures key { self.new.key ≡ self.old.key }
    {
        for slot in old.slots {
            if let Slot::Taken { count, item, .. } = slot {
                self.insert(item, count);
            }
        }
    }

    /// Returns the same slots with clones of the items.
    ///
    /// Allocates the slots, the fingerprints and the clones.
    pub(crate) fn try_clone(&self) -> Result<Self, Error>
    where
        T: EqualClone,
        ensures ok { IfOk result (λ table. AllZip (IsSameSlot T.eq) self.now.slots table.slots) }
        ensures key { IfOk result (λ table. table.key ≡ self.now.key) }
        ensures err { IfErr result (λ e. e ≡ no_memory) }
    {
        let key = self.key();
        let slots = clone_slots(self.allocator(), &self.slots)?;
        let fingerprints = self.fingerprints.clone()?;
        Ok(SlotTable {
            key,
            slots,
            fingerprints,
        })
    }
}

/// Returns `size` free slots. Allocates once.
fn free_slots<T: Drop>(alloc: Global, size: usize) -> Result<Vec<Slot<T>>, Error>
    ensures ok { IfOk result (λ slots. slots.items ≡ replicate size Slot.Free) }
    ensures err { IfErr result (λ e. e ≡ no_memory) }
{
    let mut slots = Vec::with_capacity(alloc, size)?;
    for _ in 0..size {
        slots.push_reserved(Slot::Free);
    }
    Ok(slots)
}

/// Frees every slot.
fn free_all<T: Drop>(slots: &mut [Slot<T>])
    ensures { entries_of slots.new ≡ [] }
{
    for slot in slots.iter_mut() {
        *slot = Slot::Free;
    }
}

/// Returns the same slots with clones of the items.
fn clone_slots<T: EqualClone>(alloc: Global, slots: &[Slot<T>]) -> Result<Vec<Slot<T>>, Error>
    ensures ok { IfOk result (λ clones. AllZip (IsSameSlot T.eq) slots.now clones.items) }
    ensures err { IfErr result (λ e. e ≡ no_memory) }
{
    let mut clones = Vec::with_capacity(alloc, slots.len())?;
    for slot in slots {
        let clone = match slot {
            Slot::Taken { drift, count, item } => Slot::Taken {
                drift: *drift,
                count: *count,
                item: item.clone()?,
            },
            Slot::Free => Slot::Free,
        };
        clones.push_reserved(clone);
    }
    Ok(clones)
}
