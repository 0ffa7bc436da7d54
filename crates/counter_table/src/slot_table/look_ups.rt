//! Look-ups: linear probing from an item's home on, wrapping around at the end.
//!
//! Every index from an entry's home to its slot is taken, so a look-up may end at the first free slot.
ghost use Rattle.std.specs.Prelude.{◌≡◌, ◌<◌, ◌%◌, false, length, map, not};
ghost use Rattle.counter_table.specs.Homes.{home_in};
ghost use Rattle.counter_table.specs.Probes.{IsProbe, IsFreeSlot};
ghost use Rattle.counter_table.specs.Slots.{IsTableSize, IsSlots, entries_of, is_taken};
ghost use Rattle.counter_table.specs.TableHashes as hashes;
ghost use Rattle.counter_table.specs.TableHashes.{hash_in};
ghost use Rattle.counter_table.specs.Tables.{count_of};

use crate::fingerprints::{FREE, count_at, fingerprint, hash_of, home, passed_at, probe_at};
use crate::indices::{after, next};
use crate::item_key::ItemKey;
use crate::slot::Slot;
use crate::slot_table::SlotTable;
use crate::table_key::TableKey;
use std::hash::Hash;
use std::marker::Model;

/// The end of a look-up: the item's slot, with its count, or the free slot where the item goes. It also has the item's hash.
#[derive(Drop)]
pub(crate) struct Probe {
    pub(crate) index: usize,
    pub(crate) found: Option<u64>,
    pub(crate) probed: usize,
    pub(crate) hash: u64,
}

/// The first free slot from an item's home on, and the number of slots that were probed to find it.
#[derive(Drop)]
pub(crate) struct FreeSlot {
    pub(crate) index: usize,
    pub(crate) probed: usize,
}

/// The slots of a table and their fingerprints, borrowed for look-ups, with the table's key.
///
/// Contracts see the key and the list of the slots. A loop of look-ups holds both slices, and does not read them from the table each time.
#[derive(Drop)]
pub(crate) struct SlotSlices<'a, T: Eq + Hash> {
    pub(crate) key: TableKey,
    pub(crate) slots: &'a [Slot<T>],
    pub(crate) fingerprints: &'a [u8],
}

impl<'a, T: Eq + Hash> Model for SlotSlices<'a, T> {
    ghost use Rattle.counter_table.specs.Slots.{KeyedSlots};

    ghost Value = { KeyedSlots T };

    ghost use Rattle.counter_table.specs.Fingerprints.{AreFingerprints};
    ghost use Rattle.counter_table.specs.TableHashes.{hash_in};

    ghost view = { λ a. record { key = a.key; slots = a.slots.now } };

    ghost invariant = { λ a. AreFingerprints (hash_in a.key T.hash_input) a.slots.now a.fingerprints.now };
}

impl<'a, T: Eq + Hash> SlotSlices<'a, T> {
    /// Looks up the item that the key names, from its home slot on, with the key's hash.
    ///
    /// The home's fingerprint comes first, since most look-ups of a skewed stream end there. Then up to 16 are passed at once.
    #[inline(always)]
    pub(crate) fn find_from<K: ItemKey<T>>(&self, key: K, hash: u64) -> Probe
        requires slots { IsSlots T.eq (hash_in self.now.key T.hash_input) self.now.slots }
        requires hash { hash ≡ hashes.hash_of self.now.key (K.bytes key) }
        ensures probe { IsProbe (K.names key) (hashes.hash_of self.now.key (K.bytes key) % length self.now.slots)
            self.now.slots result.index result.found result.probed }
        ensures hash { result.hash ≡ hashes.hash_of self.now.key (K.bytes key) }
    {
        let slots = self.slots;
        let fingerprints = self.fingerprints;
        let size = slots.len();
        let mut index = home(hash, size);
        let mut probed = 0;
        'probe: loop {
            let seen = probe_at(fingerprints, index, &mut probed);
            if seen == FREE {
                return Probe {
                    index,
                    found: None,
                    probed,
                    hash,
                };
            }
            let found = count_at(slots, key, hash, index, seen, probed);
            if found.is_some() {
                return Probe {
                    index,
                    found,
                    probed,
                    hash,
                };
            }
            let start = next(index, size);
            let passed = passed_at(fingerprints, start, fingerprint(hash));
            index = after(start, passed, size);
            probed += passed;
        }
    }

    /// Finds the first free slot from the home of an item with this hash on.
    #[inline(always)]
    pub(crate) fn find_free(&self, item: &T, hash: u64) -> FreeSlot
        requires size { IsTableSize (length self.now.slots) }
        requires room { length (entries_of self.now.slots) < length self.now.slots }
        requires hash { hash ≡ hash_in self.now.key T.hash_input item.now }
        ensures { IsFreeSlot (home_in (hash_in self.now.key T.hash_input) (length self.now.slots) item.now)
            self.now.slots result.index result.probed }
    {
        self.find_free_from(item, home(hash, self.slots.len()))
    }

    /// Finds the first free slot from the home of an item on.
    #[inline(always)]
    pub(crate) fn find_free_from(&self, _item: &T, home: usize) -> FreeSlot
        requires size { IsTableSize (length self.now.slots) }
        requires room { length (entries_of self.now.slots) < length self.now.slots }
        requires home { home ≡ home_in (hash_in self.now.key T.hash_input) (length self.now.slots) _item.now }
        ensures { IsFreeSlot (home_in (hash_in self.now.key T.hash_input) (length self.now.slots) _item.now)
            self.now.slots result.index result.probed }
    {
        let fingerprints = self.fingerprints;
        let size = self.slots.len();
        let mut index = home;
        let mut probed = 0;
        'probe: loop {
            if probe_at(fingerprints, index, &mut probed) == FREE {
                return FreeSlot { index, probed };
            }
            index = next(index, size);
        }
    }

    /// Writes the count of each item to `counts`, 0 if it is absent. Requires the key of the table.
    #[inline(always)]
    fn counts_under(&self, key: &TableKey, items: &[T], counts: &mut [u64])
        requires slots { IsSlots T.eq (hash_in self.now.key T.hash_input) self.now.slots }
        requires key { key.now ≡ self.now.key }
        requires same { length counts.old ≡ length items.now }
        ensures { counts.new ≡ map (count_of T.eq (entries_of self.now.slots)) items.now }
    {
        // The label names the loop for its proof.
        'each: for i in 0..items.len() {
            let item = &items[i];
            let probe = self.find_from(item, hash_of::<T, &T>(*key, item));
            counts[i] = probe.found.unwrap_or(0);
        }
    }
}

impl<T: Eq + Hash + Drop> SlotTable<T> {
    /// Looks up the item that the key names, from its home slot on.
    ///
    /// Each kind of hash has a look-up of its own, so that the compiler keeps apart what each of them needs. The hash comes
    /// first, so that nothing of the table waits for it in a register.
    #[inline(always)]
    pub(crate) fn find<K: ItemKey<T>>(&self, key: K) -> Probe
        requires { IsSlots T.eq (hash_in self.now.key T.hash_input) self.now.slots }
        ensures probe { IsProbe (K.names key) (hashes.hash_of self.now.key (K.bytes key) % length self.now.slots)
            self.now.slots result.index result.found result.probed }
        ensures hash { result.hash ≡ hashes.hash_of self.now.key (K.bytes key) }
    {
        match self.key() {
            TableKey::Plain => {
                let hash = hash_of::<T, K>(TableKey::Plain, key);
                self.as_slices().find_from(key, hash)
            }
            TableKey::Keyed(secret) => {
                let hash = hash_of::<T, K>(TableKey::Keyed(secret), key);
                self.as_slices().find_from(key, hash)
            }
        }
    }

    /// Looks up the item that the key names, from its home slot on, with the key's hash.
    #[inline(always)]
    pub(crate) fn find_hashed<K: ItemKey<T>>(&self, key: K, hash: u64) -> Probe
        requires slots { IsSlots T.eq (hash_in self.now.key T.hash_input) self.now.slots }
        requires hash { hash ≡ hashes.hash_of self.now.key (K.bytes key) }
        ensures probe { IsProbe (K.names key) (hashes.hash_of self.now.key (K.bytes key) % length self.now.slots)
            self.now.slots result.index result.found result.probed }
        ensures hash { result.hash ≡ hashes.hash_of self.now.key (K.bytes key) }
    {
        self.as_slices().find_from(key, hash)
    }

    /// Writes the count of each item to `counts`, 0 if it is absent. Each kind of hash has a loop of its own.
    ///
    /// It is not inlined, so that its loops have the processor's registers to themselves.
    #[inline(never)]
    pub(crate) fn counts_of(&self, items: &[T], counts: &mut [u64])
        requires slots { IsSlots T.eq (hash_in self.now.key T.hash_input) self.now.slots }
        requires same { length counts.old ≡ length items.now }
        ensures { counts.new ≡ map (count_of T.eq (entries_of self.now.slots)) items.now }
    {
        let slices = self.as_slices();
        match self.key() {
            TableKey::Plain => slices.counts_under(&TableKey::Plain, items, counts),
            TableKey::Keyed(secret) => slices.counts_under(&TableKey::Keyed(secret), items, counts),
        }
    }
}

/// Returns whether a slot is free.
#[inline(always)]
pub(crate) fn is_free<T>(slots: &[Slot<T>], index: usize) -> bool
    requires { index < length slots.now }
    ensures { result ≡ not (is_taken slots.now index) }
{
    match &slots[index] {
        Slot::Taken { .. } => false,
        Slot::Free => true,
    }
}

/// Returns the index of the last free slot.
pub(crate) fn last_free<T>(slots: &[Slot<T>]) -> usize
    requires { length (entries_of slots.now) < length slots.now }
    ensures below { result < length slots.now }
    ensures free { is_taken slots.now result ≡ false }
{
    let mut index = slots.len() - 1;
    while !is_free(slots, index) {
        index -= 1;
    }
    index
}
