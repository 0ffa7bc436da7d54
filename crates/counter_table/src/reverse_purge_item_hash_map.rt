//! The table of counters.
ghost use Rattle.std.specs.Prelude.{◌≡◌, ℕ, ◌+◌, ◌*◌, ◌/◌, ◌%◌, ◌<◌, ◌≤◌, ◌^◌, true, false, [], length, min, map, IfOk, IfErr, IsOk, IsTrue, IsPermutation, OnOk, OnErr};
ghost use Rattle.std.specs.Int.{is_power_of_two};
ghost use Rattle.std.specs.List.{IsDistinct};
ghost use Rattle.std.specs.Map.{keys_of, lookup};
ghost use Rattle.sketch_base.specs.Errors.{no_memory};
ghost use Rattle.counter_table.specs.Bytes.{table_bytes};
ghost use Rattle.counter_table.specs.Homes.{home_in, IsReach, IsShortOfReach};
ghost use Rattle.counter_table.specs.Samples.{sample_start, IsSampledFrom};
ghost use Rattle.counter_table.specs.Slots.{entries_of};
ghost use Rattle.counter_table.specs.TableHashes.{hash_in, hash_of};
ghost use Rattle.counter_table.specs.Tables.{count_by_key, count_of, is_tracked_by_key, is_tracked, put, purged, IsSampleMiddle, IsSameMap, PutsEqual, PutsByKey};
ghost use Rattle.counter_table.specs.Walk.{entry_of};
ghost use Rattle.counter_table.specs.declared.table_key.TableKey.TheVariants.{Plain};

use crate::equal_clone::EqualClone;
use crate::item_key::{ItemKey, OwnedKey};
use crate::reverse_purge_item_iter::ReversePurgeItemIter;
use crate::sizes::{MAX_SAMPLE_SIZE, bytes_of_table, capacity_of, lg_of};
use crate::slot::Slot;
use crate::slot_table::SlotTable;
use crate::table_key::TableKey;
use sketch_base::Error;
use std::alloc::Global;
use std::hash::Hash;
use std::marker::Model;
use std::mem;

/// A finite map from items to counts of zero or more, in a table of slots that is never full.
///
/// Items are compared by `==` alone. A purge subtracts a middle count of a sample from every count, and drops the entries at
/// or below it.
///
/// A look-up starts at the item's home, the slot that its hash selects. It passes slot by slot and wraps around at the end.
/// The number of slots that it passes for an absent item is a function of the map and its key alone. For a present item it is
/// less than for an absent one with the same home. So earlier purges do not slow it down. Without a key the hash is fixed, so
/// chosen items can form a cluster. Even then a look-up passes at most one slot for each entry and one more.
/// [`with_key`](Self::with_key) creates a map whose homes a caller without the key cannot choose.
///
/// # Examples
///
/// ```
/// use counter_table::ReversePurgeItemHashMap;
///
/// fn counts_visit(visits: &mut ReversePurgeItemHashMap<u64>, page: u64) -> bool {
///     if visits.num_active() >= visits.capacity() || visits.get(&page) == u64::MAX {
///         return false;
///     }
///     visits.adjust_or_put_value(page, 1);
///     true
/// }
/// ```
#[derive(Debug, Drop)]
pub struct ReversePurgeItemHashMap<T: Eq + Hash + Drop> {
    table: SlotTable<T>,
    active: usize,
    /// The number of purges modulo 2^64. It selects the slot at which a keyed table begins the next sample, also after a `clear`.
    purges: u64,
}

impl<T: Eq + Hash + Drop> Model for ReversePurgeItemHashMap<T> {
    ghost use Rattle.counter_table.specs.Tables.{Table};

    ghost Value = { Table T };

    ghost use Rattle.counter_table.specs.Slots.{table_of, IsCounted};
    ghost use Rattle.counter_table.specs.TableHashes.{hash_in};

    ghost view = { λ a. table_of a.table.key a.purges a.table.slots };

    ghost invariant = { λ a. IsCounted T.eq (hash_in a.table.key T.hash_input) a.table.slots a.active };
}

impl<T: Eq + Hash + Drop> ReversePurgeItemHashMap<T> {
    /// Creates an empty map in a table of `map_size` slots, a power of two of at most 2^30.
    ///
    /// Its table is [`TableKey::Plain`]. Allocates the table. Returns `NoMemory` if that fails.
    pub fn new(alloc: Global, map_size: usize) -> Result<Self, Error>
        requires power { IsTrue (is_power_of_two map_size) }
        requires limit { map_size ≤ 2 ^ 30 }
        ensures ok { IfOk result (λ map. map ≡ record { entries = []; size = map_size; key = Plain; purges = 0 }) }
        ensures err { IfErr result (λ e. e ≡ no_memory) }
    {
        Self::with_key(alloc, map_size, TableKey::Plain)
    }

    /// Creates an empty map in a table of `map_size` slots, a power of two of at most 2^30, that hashes under `key`.
    ///
    /// The map keeps the key, and so do its clones. Allocates the table. Returns `NoMemory` if that fails.
    pub fn with_key(alloc: Global, map_size: usize, key: TableKey) -> Result<Self, Error>
        requires power { IsTrue (is_power_of_two map_size) }
        requires limit { map_size ≤ 2 ^ 30 }
        ensures ok { IfOk result (λ map. map ≡ record { entries = []; size = map_size; key = key; purges = 0 }) }
        ensures err { IfErr result (λ e. e ≡ no_memory) }
    {
        let table = SlotTable::new(alloc, key, map_size)?;
        Ok(ReversePurgeItemHashMap {
            table,
            active: 0,
            purges: 0,
        })
    }

    /// Returns the key under which the table hashes.
    pub fn key(&self) -> TableKey
        ensures { result ≡ self.now.key }
    {
        self.table.key()
    }

    /// Returns the count of the item, 0 if it is absent. [`get_counted`](Self::get_counted) also returns the number of slots.
    pub fn get(&self, item: &T) -> u64
        ensures { result ≡ count_of T.eq self.now.entries item.now }
    {
        self.get_counted(item).0
    }

    /// Returns the count of the item, 0 if it is absent, and the number of slots from its home to the one where its look-up
    /// ended, both included.
    ///
    /// A look-up compares the fingerprint of each of these slots. It compares up to 16 at once, and those of slots after its
    /// end are not counted: at most 16 for each slot that is. It reads a slot only if its fingerprint is the item's.
    ///
    /// An index is full if, for some k, at least k + 1 entries have their home among the k + 1 indices that end at it, wrapping
    /// around. An item's reach is the number of indices from its home to the first that is not full, both included.
    ///
    /// If the item is absent, the number is the reach, on which earlier purges have no influence. If it is present, it is from
    /// 1 to the reach less 1. It is at most the number of entries plus 1, and at most the number of slots. Homes are those
    /// under the table's key.
    pub fn get_counted(&self, item: &T) -> (u64, usize)
        ensures count { result.0 ≡ count_of T.eq self.now.entries item.now }
        ensures absent { is_tracked T.eq self.now.entries item.now ≡ false
            → IsReach (home_in (hash_in self.now.key T.hash_input) self.now.size) self.now item.now result.1 }
        ensures present { is_tracked T.eq self.now.entries item.now ≡ true
            → IsShortOfReach (home_in (hash_in self.now.key T.hash_input) self.now.size) self.now item.now result.1 }
        ensures probed { result.1 ≤ length self.now.entries + 1 }
        ensures within { result.1 ≤ self.now.size }
    {
        let probe = self.table.find(item);
        (probe.found.unwrap_or(0), probe.probed)
    }

    /// Writes the count of each item to `counts`, 0 if it is absent, as [`get`](Self::get) returns it.
    ///
    /// Both slices have the same length. It does not allocate.
    ///
    /// # Examples
    ///
    /// ```
    /// use counter_table::ReversePurgeItemHashMap;
    ///
    /// fn visits_of_four(visits: &ReversePurgeItemHashMap<u64>, pages: &[u64; 4]) -> [u64; 4] {
    ///     let mut counts = [0; 4];
    ///     visits.get_all(pages, &mut counts);
    ///     counts
    /// }
    /// ```
    pub fn get_all(&self, items: &[T], counts: &mut [u64])
        requires { length counts.old ≡ length items.now }
        ensures { counts.new ≡ map (count_of T.eq self.now.entries) items.now }
    {
        self.table.counts_of(items, counts);
    }

    /// Adds the amount to the item's count, or inserts the item with the amount as its count.
    ///
    /// An amount of 0 is inserted too. An insertion requires that a slot stays free after it, and an addition requires that the
    /// sum fits.
    #[inline(always)]
    pub fn adjust_or_put_value(&mut self, item: T, adjust_amount: u64)
        requires room { is_tracked T.eq self.old.entries item ≡ false → length self.old.entries + 1 < self.old.size }
        requires fits { is_tracked T.eq self.old.entries item ≡ true
            → count_of T.eq self.old.entries item + adjust_amount < 2 ^ 64 }
        ensures entries { IsPermutation (put T.eq self.old.entries item adjust_amount) self.new.entries }
        ensures size { self.new.size ≡ self.old.size }
        ensures key { self.new.key ≡ self.old.key }
        ensures purges { self.new.purges ≡ self.old.purges }
        ensures distinct { IsDistinct T.eq (keys_of self.new.entries) }
    {
        if self.table.put(item, adjust_amount) {
            self.active += 1;
        }
    }

    /// Adds the amount to the item's count, or inserts a clone of the item with the amount as its count.
    ///
    /// Clones the item only if it has no entry. An amount of 0 is inserted too. An
    /// insertion requires that a slot stays free after it, and an addition requires that the sum fits.
    ///
    /// # Errors
    ///
    /// Returns `NoMemory` if the clone cannot be allocated. The map is then unchanged.
    pub fn adjust_or_put_value_ref(&mut self, item: &T, adjust_amount: u64) -> Result<(), Error>
    where
        T: EqualClone,
        requires room { is_tracked T.eq self.old.entries item.now ≡ false
            → length self.old.entries + 1 < self.old.size }
        requires fits { is_tracked T.eq self.old.entries item.now ≡ true
            → count_of T.eq self.old.entries item.now + adjust_amount < 2 ^ 64 }
        ensures entries { OnOk result (PutsEqual T.eq self.old.entries item.now adjust_amount self.new.entries) }
        ensures size { self.new.size ≡ self.old.size }
        ensures key { self.new.key ≡ self.old.key }
        ensures purges { self.new.purges ≡ self.old.purges }
        ensures distinct { IsDistinct T.eq (keys_of self.new.entries) }
        ensures err { OnErr result (self.new ≡ self.old) }
        ensures memory { IfErr result (λ e. e ≡ no_memory) }
        ensures succeeds { is_tracked T.eq self.old.entries item.now ≡ true → IsOk result }
    {
        self.adjust_or_put_by_key(item, adjust_amount)
    }

    /// Adds the amount to the count of the item that the key names, or inserts the item with the amount as its count.
    ///
    /// Creates and allocates the item only if it has no entry. An amount of 0 is inserted too. An insertion requires
    /// that a slot stays free after it, and an addition requires that the sum fits.
    ///
    /// # Errors
    ///
    /// Returns `NoMemory` if the item cannot be allocated. The table is then unchanged.
    #[inline(always)]
    pub fn adjust_or_put_by_key<K: OwnedKey<T>>(
        &mut self,
        key: K,
        adjust_amount: u64,
    ) -> Result<(), Error>
        requires room { is_tracked_by_key (K.names key) self.old.entries ≡ false
            → length self.old.entries + 1 < self.old.size }
        requires fits { is_tracked_by_key (K.names key) self.old.entries ≡ true
            → count_by_key (K.names key) self.old.entries + adjust_amount < 2 ^ 64 }
        ensures entries { OnOk result (PutsByKey T.eq (K.names key) self.old.entries adjust_amount self.new.entries) }
        ensures size { self.new.size ≡ self.old.size }
        ensures key { self.new.key ≡ self.old.key }
        ensures purges { self.new.purges ≡ self.old.purges }
        ensures distinct { IsDistinct T.eq (keys_of self.new.entries) }
        ensures err { OnErr result (self.new ≡ self.old) }
        ensures memory { IfErr result (λ e. e ≡ no_memory) }
        ensures succeeds { is_tracked_by_key (K.names key) self.old.entries ≡ true → IsOk result }
        ensures infallible { K.needs_no_memory key → IsOk result }
    {
        if self.table.put_by_key(key, adjust_amount)? {
            self.active += 1;
        }
        Ok(())
    }

    /// Does what [`adjust_or_put_by_key`](Self::adjust_or_put_by_key) does, and takes the key's hash.
    ///
    /// The hash is that of the table: SipHash-1-3 under its secret key, or MurmurHash3 under the seed 9001. A caller that knows it before the
    /// look-up saves time.
    ///
    /// # Errors
    ///
    /// Returns `NoMemory` if the item cannot be allocated. The table is then unchanged.
    #[inline(always)]
    pub fn adjust_or_put_hashed<K: OwnedKey<T>>(
        &mut self,
        key: K,
        hash: u64,
        adjust_amount: u64,
    ) -> Result<(), Error>
        requires hash { hash ≡ hash_of self.old.key (K.bytes key) }
        requires room { is_tracked_by_key (K.names key) self.old.entries ≡ false
            → length self.old.entries + 1 < self.old.size }
        requires fits { is_tracked_by_key (K.names key) self.old.entries ≡ true
            → count_by_key (K.names key) self.old.entries + adjust_amount < 2 ^ 64 }
        ensures entries { OnOk result (PutsByKey T.eq (K.names key) self.old.entries adjust_amount self.new.entries) }
        ensures size { self.new.size ≡ self.old.size }
        ensures key { self.new.key ≡ self.old.key }
        ensures purges { self.new.purges ≡ self.old.purges }
        ensures distinct { IsDistinct T.eq (keys_of self.new.entries) }
        ensures err { OnErr result (self.new ≡ self.old) }
        ensures memory { IfErr result (λ e. e ≡ no_memory) }
        ensures succeeds { is_tracked_by_key (K.names key) self.old.entries ≡ true → IsOk result }
        ensures infallible { K.needs_no_memory key → IsOk result }
    {
        if self.table.put_hashed(key, hash, adjust_amount)? {
            self.active += 1;
        }
        Ok(())
    }

    /// Subtracts a middle count m of a sample from every count, drops the entries at or below m, and returns m.
    ///
    /// The sample has `min(sample_size, active, 1024)` entries, and m is the count at half its length in ascending order. It is
    /// taken in the order of the slots, from the first slot on. In a keyed map it begins at a slot that the key and the number
    /// of earlier purges select. A clear and a resize keep this number, and so does a clone.
    ///
    /// Drops at least half of the sample and one entry more. Requires an entry, and a `sample_size` above 0. It does not
    /// allocate.
    // Inlined, it would put its buffer for the sample on the stack of each update.
    #[inline(never)]
    pub fn purge(&mut self, sample_size: usize) -> u64
        requires active { 0 < length self.old.entries }
        requires sample { 0 < sample_size }
        ensures middle { IsSampleMiddle (min sample_size (min (length self.old.entries) 1024)) self.old.entries result }
        ensures start { IsSampledFrom T.eq (hash_in self.old.key T.hash_input) self.old
            (sample_start self.old.key self.old.purges self.old.size)
            (min sample_size (min (length self.old.entries) 1024)) result }
        ensures entries { IsPermutation (purged result self.old.entries) self.new.entries }
        ensures size { self.new.size ≡ self.old.size }
        ensures key { self.new.key ≡ self.old.key }
        ensures purges { self.new.purges ≡ (self.old.purges + 1) % 2 ^ 64 }
        ensures distinct { IsDistinct T.eq (keys_of self.new.entries) }
        ensures room { length self.new.entries + min sample_size (min (length self.old.entries) 1024) / 2 + 1
            ≤ length self.old.entries }
    {
        let size = sample_size.min(self.active.min(MAX_SAMPLE_SIZE));
        let middle = self.table.middle_of(self.purges, size);
        self.purges = self.purges.wrapping_add(1);
        let removed = self.table.lower(middle);
        self.active -= removed;
        middle
    }

    /// Moves the entries to a table of `new_size` slots, a power of two of at most 2^30 above the number of entries.
    ///
    /// Allocates the new table and frees the old one. Returns `NoMemory` if the allocation fails. The map is then unchanged.
    pub fn resize(&mut self, new_size: usize) -> Result<(), Error>
        requires power { IsTrue (is_power_of_two new_size) }
        requires limit { new_size ≤ 2 ^ 30 }
        requires room { length self.old.entries < new_size }
        ensures entries { IsPermutation self.old.entries self.new.entries }
        ensures ok { OnOk result (self.new.size ≡ new_size) }
        ensures key { self.new.key ≡ self.old.key }
        ensures purges { self.new.purges ≡ self.old.purges }
        ensures err { OnErr result (self.new ≡ self.old) }
        ensures memory { IfErr result (λ e. e ≡ no_memory) }
        ensures distinct { IsDistinct T.eq (keys_of self.new.entries) }
    {
        let table = SlotTable::new(self.allocator(), self.key(), new_size)?;
        let old = mem::replace(&mut self.table, table);
        self.table.move_all(old);
        Ok(())
    }

    /// Returns the number of slots, at most 2^30.
    pub fn len(&self) -> usize
        ensures size { result ≡ self.now.size }
        ensures limit { result ≤ 2 ^ 30 }
    {
        self.table.len()
    }

    /// Returns the base-2 logarithm of the number of slots.
    pub fn lg_length(&self) -> u8
        ensures { 2 ^ result ≡ self.now.size }
    {
        lg_of(self.table.len())
    }

    /// Returns the number of entries that a sketch keeps in a table of this size: three quarters of the slots.
    pub fn capacity(&self) -> usize
        ensures { result ≡ self.now.size * 3 / 4 }
    {
        capacity_of(self.table.len())
    }

    /// Returns the number of entries.
    pub fn num_active(&self) -> usize
        ensures active { result ≡ length self.now.entries }
        ensures room { result < self.now.size }
    {
        self.active
    }

    /// Returns a walk that yields every entry once, in an unspecified order.
    pub fn iter(&self) -> ReversePurgeItemIter<'_, T>
        ensures entries { IsPermutation self.now.entries result.rest }
        ensures distinct { IsDistinct T.eq (keys_of result.rest) }
        ensures given { result.given ≡ [] }
        ensures probed { result.probed ≡ 0 }
        ensures size { result.size ≡ self.now.size }
    {
        ReversePurgeItemIter::new(self.table.slots(), self.active)
    }

    /// Returns every entry once, in an unspecified order.
    ///
    /// Allocates the list. Returns `NoMemory` if that fails.
    pub fn active_entries(&self) -> Result<Vec<(&T, u64)>, Error>
        ensures ok { IfOk result (λ found. IsPermutation self.now.entries (map entry_of found.items)) }
        ensures err { IfErr result (λ e. e ≡ no_memory) }
    {
        let found = self.iter().collect(self.allocator())?;
        Ok(found)
    }

    /// Returns an estimate of the table's bytes by a fixed formula: for each slot, the bytes of an `Option<T>` and 12 more.
    /// Returns `usize::MAX` if that would exceed it.
    pub fn estimated_size(&self) -> usize
        ensures { result ≡ table_bytes T.row self.now.size }
    {
        bytes_of_table::<T>(self.table.len())
    }

    /// Returns the same map with clones of the items, in a table of the same size, after the same number of purges.
    ///
    /// Allocates the table and the clones. Returns `NoMemory` if an allocation fails.
    pub fn try_clone(&self) -> Result<Self, Error>
    where
        T: EqualClone,
        ensures entries { IfOk result (λ map. IsSameMap T.eq self.now.entries map.entries) }
        ensures size { IfOk result (λ map. map.size ≡ self.now.size) }
        ensures key { IfOk result (λ map. map.key ≡ self.now.key) }
        ensures purges { IfOk result (λ map. map.purges ≡ self.now.purges) }
        ensures distinct { IfOk result (λ map. IsDistinct T.eq (keys_of map.entries)) }
        ensures err { IfErr result (λ e. e ≡ no_memory) }
    {
        let table = self.table.try_clone()?;
        Ok(ReversePurgeItemHashMap {
            table,
            active: self.active,
            purges: self.purges,
        })
    }

    /// Returns the count of the item, if it has an entry. It does not allocate.
    pub fn look_up(&self, item: &T) -> Option<u64>
        ensures { result ≡ lookup (T.eq item.now) self.now.entries }
    {
        self.table.find(item).found
    }

    /// Returns the count of the item that the key names, if it has an entry. It does not allocate.
    pub fn look_up_by_key<K: ItemKey<T>>(&self, key: K) -> Option<u64>
        ensures { result ≡ lookup (K.names key) self.now.entries }
    {
        self.table.find(key).found
    }

    /// Returns the count of the item that the key names, if it has an entry, where `hash` is the key's hash in this table.
    ///
    /// It is what [`look_up_by_key`](Self::look_up_by_key) returns. It does not allocate.
    #[inline(always)]
    pub fn look_up_hashed<K: ItemKey<T>>(&self, key: K, hash: u64) -> Option<u64>
        requires { hash ≡ hash_of self.now.key (K.bytes key) }
        ensures { result ≡ lookup (K.names key) self.now.entries }
    {
        self.table.find_hashed(key, hash).found
    }

    /// Adds to the item's count if it has an entry, and returns whether it has one.
    ///
    /// Requires that the sum fits. It does not allocate.
    pub fn adjust(&mut self, item: &T, adjust_amount: u64) -> bool
        requires { is_tracked T.eq self.old.entries item.now ≡ true
            → count_of T.eq self.old.entries item.now + adjust_amount < 2 ^ 64 }
        ensures tracked { result ≡ is_tracked T.eq self.old.entries item.now }
        ensures present { result ≡ true
            → IsPermutation (put T.eq self.old.entries item.now adjust_amount) self.new.entries }
        ensures absent { result ≡ false → self.new ≡ self.old }
        ensures size { self.new.size ≡ self.old.size }
        ensures key { self.new.key ≡ self.old.key }
        ensures purges { self.new.purges ≡ self.old.purges }
        ensures distinct { IsDistinct T.eq (keys_of self.new.entries) }
    {
        self.adjust_by_key(item, adjust_amount)
    }

    /// Adds to the count of the item that the key names if it has an entry, and returns whether it has one.
    ///
    /// Requires that the sum fits. It does not allocate.
    pub fn adjust_by_key<K: ItemKey<T>>(&mut self, key: K, adjust_amount: u64) -> bool
        requires { is_tracked_by_key (K.names key) self.old.entries ≡ true
            → count_by_key (K.names key) self.old.entries + adjust_amount < 2 ^ 64 }
        ensures tracked { result ≡ is_tracked_by_key (K.names key) self.old.entries }
        ensures present { result ≡ true → (x : T) → IsTrue (K.names key x)
            → IsPermutation (put T.eq self.old.entries x adjust_amount) self.new.entries }
        ensures absent { result ≡ false → self.new ≡ self.old }
        ensures size { self.new.size ≡ self.old.size }
        ensures key { self.new.key ≡ self.old.key }
        ensures purges { self.new.purges ≡ self.old.purges }
        ensures distinct { IsDistinct T.eq (keys_of self.new.entries) }
    {
        self.table.adjust(key, adjust_amount)
    }

    /// Inserts an item that is absent. Requires that a slot stays free after the insertion. It does not allocate.
    pub fn insert(&mut self, item: T, amount: u64)
        requires absent { is_tracked T.eq self.old.entries item ≡ false }
        requires room { length self.old.entries + 1 < self.old.size }
        ensures entries { IsPermutation (put T.eq self.old.entries item amount) self.new.entries }
        ensures size { self.new.size ≡ self.old.size }
        ensures key { self.new.key ≡ self.old.key }
        ensures purges { self.new.purges ≡ self.old.purges }
        ensures distinct { IsDistinct T.eq (keys_of self.new.entries) }
    {
        self.table.insert(item, amount);
        self.active += 1;
    }

    /// Drops every entry, and sets the number of slots to `size`: a power of two, at most the current number of slots.
    ///
    /// Keeps the memory of the table. It does not allocate.
    pub fn clear(&mut self, size: usize)
        requires power { IsTrue (is_power_of_two size) }
        requires within { size ≤ self.old.size }
        ensures { self.new ≡ record { entries = []; size = size; key = self.old.key; purges = self.old.purges } }
    {
        self.table.clear(size);
        self.active = 0;
    }

    /// Returns the slots of the table, for a caller that writes all entries and keeps none of them.
    pub fn slots(&self) -> &[Slot<T>]
        ensures { entries_of result.now ≡ self.now.entries }
    {
        self.table.slots()
    }

    /// Returns the allocator of the table.
    pub fn allocator(&self) -> Global {
        self.table.allocator()
    }
}

impl<'a, T: Eq + Hash + Drop> IntoIterator for &'a ReversePurgeItemHashMap<T> {
    ghost use Rattle.counter_table.specs.Walk.{StartsWalk};

    type Item = (&'a T, u64);

    type IntoIter = ReversePurgeItemIter<'a, T>;

    ghost into_iter_gives = { λ map walk. StartsWalk T.eq map.now walk };

    /// Returns a walk that yields every entry once, as `iter` does.
    fn into_iter(self) -> ReversePurgeItemIter<'a, T> {
        self.iter()
    }
}
