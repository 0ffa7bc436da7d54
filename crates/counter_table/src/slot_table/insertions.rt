//! Insertions, and additions to counts.
ghost use Rattle.std.specs.Prelude.{◌≡◌, ◌+◌, ◌<◌, ◌^◌, ◌%◌, true, false, not, length, IfOk, IfErr, OnOk, OnErr, IsOk, IsTrue, IsPermutation};
ghost use Rattle.sketch_base.specs.Errors.{no_memory};
ghost use Rattle.counter_table.specs.Homes.{home_in};
ghost use Rattle.counter_table.specs.Probes.{IsProbe, IsFreeSlot};
ghost use Rattle.counter_table.specs.Slots.{IsSlots, CountHasRoom, AddsAt, entries_of};
ghost use Rattle.counter_table.specs.TableHashes as hashes;
ghost use Rattle.counter_table.specs.TableHashes.{hash_in};
ghost use Rattle.counter_table.specs.Tables.{count_by_key, count_of, is_tracked_by_key, is_tracked, put, PutsByKey};

use crate::fingerprints::{fingerprint, hash_of};
use crate::item_key::{ItemKey, OwnedKey};
use crate::slot::Slot;
use crate::slot_table::SlotTable;
use crate::slot_table::look_ups::Probe;
use sketch_base::Error;
use std::hash::Hash;

impl<T: Eq + Hash + Drop> SlotTable<T> {
    /// Adds to the count of the item that the key names if it has one, and returns whether it has.
    #[inline(always)]
    pub(crate) fn adjust<K: ItemKey<T>>(&mut self, key: K, amount: u64) -> bool
        requires slots { IsSlots T.eq (hash_in self.old.key T.hash_input) self.old.slots }
        requires fits { is_tracked_by_key (K.names key) (entries_of self.old.slots) ≡ true
            → count_by_key (K.names key) (entries_of self.old.slots) + amount < 2 ^ 64 }
        ensures tracked { result ≡ is_tracked_by_key (K.names key) (entries_of self.old.slots) }
        ensures slots { IsSlots T.eq (hash_in self.new.key T.hash_input) self.new.slots }
        ensures present { result ≡ true → (x : T) → IsTrue (K.names key x)
            → IsPermutation (put T.eq (entries_of self.old.slots) x amount) (entries_of self.new.slots) }
        ensures absent { result ≡ false → self.new ≡ self.old }
        ensures size { length self.new.slots ≡ length self.old.slots }
        ensures key { self.new.key ≡ self.old.key }
    {
        let probe = self.find(key);
        match probe.found {
            Some(_) => {
                self.add_at(probe.index, amount);
                true
            }
            None => false,
        }
    }

    /// Inserts an item that is absent into the first free slot from its home on.
    #[inline(always)]
    pub(crate) fn insert(&mut self, item: T, amount: u64)
        requires slots { IsSlots T.eq (hash_in self.old.key T.hash_input) self.old.slots }
        requires absent { is_tracked T.eq (entries_of self.old.slots) item ≡ false }
        requires room { length (entries_of self.old.slots) + 1 < length self.old.slots }
        ensures slots { IsSlots T.eq (hash_in self.new.key T.hash_input) self.new.slots }
        ensures entries { IsPermutation (put T.eq (entries_of self.old.slots) item amount) (entries_of self.new.slots) }
        ensures size { length self.new.slots ≡ length self.old.slots }
        ensures key { self.new.key ≡ self.old.key }
    {
        let hash = hash_of::<T, &T>(self.key(), &item);
        let free_slot = self.as_slices().find_free(&item, hash);
        self.fill(free_slot.index, free_slot.probed, item, amount, hash);
    }

    /// Adds to the item's count, or puts the item into the free slot where its look-up ended. Returns whether it was put.
    #[inline(always)]
    pub(crate) fn put(&mut self, item: T, amount: u64) -> bool
        requires slots { IsSlots T.eq (hash_in self.old.key T.hash_input) self.old.slots }
        requires room { is_tracked T.eq (entries_of self.old.slots) item ≡ false
            → length (entries_of self.old.slots) + 1 < length self.old.slots }
        requires fits { is_tracked T.eq (entries_of self.old.slots) item ≡ true
            → count_of T.eq (entries_of self.old.slots) item + amount < 2 ^ 64 }
        ensures tracked { is_tracked T.eq (entries_of self.old.slots) item ≡ not result }
        ensures slots { IsSlots T.eq (hash_in self.new.key T.hash_input) self.new.slots }
        ensures entries { IsPermutation (put T.eq (entries_of self.old.slots) item amount) (entries_of self.new.slots) }
        ensures size { length self.new.slots ≡ length self.old.slots }
        ensures key { self.new.key ≡ self.old.key }
    {
        let probe = self.find(&item);
        match probe.found {
            Some(_) => {
                self.add_at(probe.index, amount);
                false
            }
            None => {
                self.fill(probe.index, probe.probed, item, amount, probe.hash);
                true
            }
        }
    }

    /// Adds to the count of the item that the key names, or puts the item into the free slot where its look-up ended.
    ///
    /// Returns whether the item was put. Creates and allocates it only then.
    ///
    /// # Errors
    ///
    /// Returns `NoMemory` if the item cannot be allocated. The table is then unchanged.
    #[inline(always)]
    pub(crate) fn put_by_key<K: OwnedKey<T>>(&mut self, key: K, amount: u64) -> Result<bool, Error>
        requires slots { IsSlots T.eq (hash_in self.old.key T.hash_input) self.old.slots }
        requires room { is_tracked_by_key (K.names key) (entries_of self.old.slots) ≡ false
            → length (entries_of self.old.slots) + 1 < length self.old.slots }
        requires fits { is_tracked_by_key (K.names key) (entries_of self.old.slots) ≡ true
            → count_by_key (K.names key) (entries_of self.old.slots) + amount < 2 ^ 64 }
        ensures tracked { IfOk result (λ put. is_tracked_by_key (K.names key) (entries_of self.old.slots) ≡ not put) }
        ensures slots { IsSlots T.eq (hash_in self.new.key T.hash_input) self.new.slots }
        ensures entries { OnOk result (PutsByKey T.eq (K.names key) (entries_of self.old.slots) amount (entries_of self.new.slots)) }
        ensures size { length self.new.slots ≡ length self.old.slots }
        ensures key { self.new.key ≡ self.old.key }
        ensures err { OnErr result (self.new ≡ self.old) }
        ensures memory { IfErr result (λ e. e ≡ no_memory) }
        ensures succeeds { is_tracked_by_key (K.names key) (entries_of self.old.slots) ≡ true → IsOk result }
        ensures infallible { K.needs_no_memory key → IsOk result }
    {
        let probe = self.find(key);
        self.put_at(key, probe, amount)
    }

    /// Does what `put_by_key` does, where `hash` is the key's hash.
    #[inline(always)]
    pub(crate) fn put_hashed<K: OwnedKey<T>>(
        &mut self,
        key: K,
        hash: u64,
        amount: u64,
    ) -> Result<bool, Error>
        requires hash { hash ≡ hashes.hash_of self.old.key (K.bytes key) }
        requires slots { IsSlots T.eq (hash_in self.old.key T.hash_input) self.old.slots }
        requires room { is_tracked_by_key (K.names key) (entries_of self.old.slots) ≡ false
            → length (entries_of self.old.slots) + 1 < length self.old.slots }
        requires fits { is_tracked_by_key (K.names key) (entries_of self.old.slots) ≡ true
            → count_by_key (K.names key) (entries_of self.old.slots) + amount < 2 ^ 64 }
        ensures tracked { IfOk result (λ put. is_tracked_by_key (K.names key) (entries_of self.old.slots) ≡ not put) }
        ensures slots { IsSlots T.eq (hash_in self.new.key T.hash_input) self.new.slots }
        ensures entries { OnOk result (PutsByKey T.eq (K.names key) (entries_of self.old.slots) amount (entries_of self.new.slots)) }
        ensures size { length self.new.slots ≡ length self.old.slots }
        ensures key { self.new.key ≡ self.old.key }
        ensures err { OnErr result (self.new ≡ self.old) }
        ensures memory { IfErr result (λ e. e ≡ no_memory) }
        ensures succeeds { is_tracked_by_key (K.names key) (entries_of self.old.slots) ≡ true → IsOk result }
        ensures infallible { K.needs_no_memory key → IsOk result }
    {
        let probe = self.find_hashed(key, hash);
        self.put_at(key, probe, amount)
    }

    /// Does what `put_by_key` does, where `probe` is the end of the key's look-up.
    #[inline(always)]
    fn put_at<K: OwnedKey<T>>(&mut self, key: K, probe: Probe, amount: u64) -> Result<bool, Error>
        requires probe { IsProbe (K.names key) (hashes.hash_of self.old.key (K.bytes key) % length self.old.slots)
            self.old.slots probe.index probe.found probe.probed }
        requires hash { probe.hash ≡ hashes.hash_of self.old.key (K.bytes key) }
        requires slots { IsSlots T.eq (hash_in self.old.key T.hash_input) self.old.slots }
        requires room { is_tracked_by_key (K.names key) (entries_of self.old.slots) ≡ false
            → length (entries_of self.old.slots) + 1 < length self.old.slots }
        requires fits { is_tracked_by_key (K.names key) (entries_of self.old.slots) ≡ true
            → count_by_key (K.names key) (entries_of self.old.slots) + amount < 2 ^ 64 }
        ensures tracked { IfOk result (λ put. is_tracked_by_key (K.names key) (entries_of self.old.slots) ≡ not put) }
        ensures slots { IsSlots T.eq (hash_in self.new.key T.hash_input) self.new.slots }
        ensures entries { OnOk result (PutsByKey T.eq (K.names key) (entries_of self.old.slots) amount (entries_of self.new.slots)) }
        ensures size { length self.new.slots ≡ length self.old.slots }
        ensures key { self.new.key ≡ self.old.key }
        ensures err { OnErr result (self.new ≡ self.old) }
        ensures memory { IfErr result (λ e. e ≡ no_memory) }
        ensures succeeds { is_tracked_by_key (K.names key) (entries_of self.old.slots) ≡ true → IsOk result }
        ensures infallible { K.needs_no_memory key → IsOk result }
    {
        match probe.found {
            Some(_) => {
                self.add_at(probe.index, amount);
                Ok(false)
            }
            None => {
                let item = key.to_item(self.allocator())?;
                self.fill(probe.index, probe.probed, item, amount, probe.hash);
                Ok(true)
            }
        }
    }

    /// Adds to the count in a slot.
    #[inline(always)]
    fn add_at(&mut self, index: usize, amount: u64)
        requires index { index < length self.old.slots }
        requires fits { CountHasRoom self.old.slots index amount }
        ensures adds { AddsAt self.old.slots index amount self.new.slots }
        ensures size { length self.new.slots ≡ length self.old.slots }
        ensures key { self.new.key ≡ self.old.key }
    {
        if let Slot::Taken { count, .. } = &mut self.slots[index] {
            *count += amount;
        }
    }

    /// Writes an item that is absent, its count and its fingerprint to the first free slot from its home on.
    #[inline(always)]
    fn fill(&mut self, index: usize, probed: usize, item: T, amount: u64, hash: u64)
        requires slots { IsSlots T.eq (hash_in self.old.key T.hash_input) self.old.slots }
        requires absent { is_tracked T.eq (entries_of self.old.slots) item ≡ false }
        requires room { length (entries_of self.old.slots) + 1 < length self.old.slots }
        requires free { IsFreeSlot (home_in (hash_in self.old.key T.hash_input) (length self.old.slots) item) self.old.slots index probed }
        requires hash { hash ≡ hash_in self.old.key T.hash_input item }
        ensures slots { IsSlots T.eq (hash_in self.new.key T.hash_input) self.new.slots }
        ensures entries { IsPermutation (put T.eq (entries_of self.old.slots) item amount) (entries_of self.new.slots) }
        ensures size { length self.new.slots ≡ length self.old.slots }
        ensures key { self.new.key ≡ self.old.key }
    {
        self.slots[index] = Slot::Taken {
            drift: probed as u32,
            count: amount,
            item,
        };
        self.fingerprints[index] = fingerprint(hash);
    }
}
