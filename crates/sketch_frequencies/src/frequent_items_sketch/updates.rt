//! Updates of one item: how it is added.
ghost use Rattle.std.specs.Prelude.{◌≡◌, ◌+◌, ◌*◌, ◌<◌, true, false, length, IfErr, IsOk, IsTrue, OnOk, OnErr, IsErrOf};
ghost use Rattle.sketch_base.specs.Errors.{invalid_argument, no_memory};
ghost use Rattle.sketch_frequencies.specs.Growth.{MakesRoom, Adds, PurgesExcess};
ghost use Rattle.sketch_frequencies.specs.History.FrequentHistory.{Update};
ghost use Rattle.sketch_frequencies.specs.Stands.{Extends, ExtendsBudget};
ghost use Rattle.sketch_frequencies.specs.State.{IsState, capacity, must_double, must_grow, Overflows, TotalHasRoom};
ghost use Rattle.sketch_frequencies.specs.Steps.{Steps, StepsEqual, StepsByKey};
ghost use Rattle.counter_table.specs.Tables.{is_tracked_by_key, is_tracked, put};

use crate::frequent_items_sketch::FrequentItemsSketch;
use counter_table::{EqualClone, ItemKey, OwnedKey, ReversePurgeItemHashMap};
use sketch_base::{Error, Fault};
use std::hash::Hash;

impl<T: Eq + Hash + Drop> FrequentItemsSketch<T> {
    /// Adds 1 to the item's weight.
    ///
    /// Equals [`update_with_count`](Self::update_with_count) with a count of 1, and returns its errors.
    pub fn update(&mut self, item: T) -> Result<(), Error>
        ensures step { OnOk result (Steps T.eq self.old item 1 self.new) }
        ensures state { IsState T.eq self.new }
        ensures stands { OnOk result (Extends T.eq self.old self.new (λ h. Update h item 1)) }
        ensures budget { OnOk result (ExtendsBudget T.eq self.old self.new (λ h. Update h item 1)) }
        ensures err { OnErr result (self.new ≡ self.old) }
        ensures overflow { Overflows self.old 1 → IsErrOf result (invalid_argument Fault.WeightOverflow) }
        ensures memory { TotalHasRoom self.old 1 → IfErr result (λ e. e ≡ no_memory) }
        ensures succeeds { TotalHasRoom self.old 1 → must_double T.eq self.old item ≡ false → IsOk result }
    {
        self.update_with_count(item, 1)
    }

    /// Adds `count` to the item's weight. A count of 0 changes nothing and succeeds.
    ///
    /// Allocates only if the table must double: the item is not tracked, three quarters of the slots are taken, and the table
    /// may still grow.
    ///
    /// # Errors
    ///
    /// Returns `WeightOverflow` if the total weight would exceed `u64::MAX`. Returns `NoMemory` if the table must double and the
    /// allocation fails. After an error the sketch is unchanged.
    pub fn update_with_count(&mut self, item: T, count: u64) -> Result<(), Error>
        ensures zero { count ≡ 0 → IsOk result × (self.new ≡ self.old) }
        ensures step { OnOk result (0 < count → Steps T.eq self.old item count self.new) }
        ensures state { IsState T.eq self.new }

        // A sketch that represents a history represents the extended history, and keeps its tail budget.
        ensures stands { OnOk result (0 < count → Extends T.eq self.old self.new (λ h. Update h item count)) }
        ensures budget { OnOk result (0 < count → ExtendsBudget T.eq self.old self.new (λ h. Update h item count)) }

        // An error changes nothing. `NoMemory` comes only if the table must double.
        ensures err { OnErr result (self.new ≡ self.old) }
        ensures overflow { Overflows self.old count → IsErrOf result (invalid_argument Fault.WeightOverflow) }
        ensures memory { TotalHasRoom self.old count → IfErr result (λ e. e ≡ no_memory) }
        ensures succeeds { TotalHasRoom self.old count → must_double T.eq self.old item ≡ false → IsOk result }
    {
        if count > u64::MAX - self.total {
            return Err(Error::invalid_argument(Fault::WeightOverflow));
        }
        if count == 0 {
            return Ok(());
        }
        if self.map.capacity() > self.map.num_active() {
            self.put(item, count);
            return Ok(());
        }
        if self.map.len() == self.max_size {
            self.add(item, count);
            return Ok(());
        }
        if self.adjust(&item, count) {
            return Ok(());
        }
        self.track(item, count)?;
        Ok(())
    }

    /// Adds 1 to the weight of an item equal to this one.
    ///
    /// Equals [`update_with_count_ref`](Self::update_with_count_ref) with a count of 1, and returns its errors.
    pub fn update_ref(&mut self, item: &T) -> Result<(), Error>
    where
        T: EqualClone,
        ensures step { OnOk result (StepsEqual T.eq self.old item.now 1 self.new) }
        ensures state { IsState T.eq self.new }
        ensures stands { OnOk result (Extends T.eq self.old self.new (λ h. Update h item.now 1)) }
        ensures budget { OnOk result (ExtendsBudget T.eq self.old self.new (λ h. Update h item.now 1)) }
        ensures err { OnErr result (self.new ≡ self.old) }
        ensures overflow { Overflows self.old 1 → IsErrOf result (invalid_argument Fault.WeightOverflow) }
        ensures memory { TotalHasRoom self.old 1 → IfErr result (λ e. e ≡ no_memory) }
        ensures succeeds { TotalHasRoom self.old 1 → is_tracked T.eq self.old.counters item.now ≡ true → IsOk result }
    {
        self.update_item(item)
    }

    /// Adds `count` to the weight of an item equal to this one. A count of 0 changes nothing and succeeds.
    ///
    /// Clones the item only if it is not tracked and `count` is not 0. Allocates for the clone, and for a table of twice the size
    /// if the table must double.
    ///
    /// # Errors
    ///
    /// Returns `WeightOverflow` if the total weight would exceed `u64::MAX`. Returns `NoMemory` if the item is not tracked and an
    /// allocation fails. After an error the sketch is unchanged.
    pub fn update_with_count_ref(&mut self, item: &T, count: u64) -> Result<(), Error>
    where
        T: EqualClone,
        ensures zero { count ≡ 0 → IsOk result × (self.new ≡ self.old) }
        ensures step { OnOk result (0 < count → StepsEqual T.eq self.old item.now count self.new) }
        ensures state { IsState T.eq self.new }

        // A sketch that represents a history represents the extended history, and keeps its tail budget.
        ensures stands { OnOk result (0 < count → Extends T.eq self.old self.new (λ h. Update h item.now count)) }
        ensures budget { OnOk result (0 < count → ExtendsBudget T.eq self.old self.new (λ h. Update h item.now count)) }

        // An error changes nothing. An update of a tracked item never returns `NoMemory`.
        ensures err { OnErr result (self.new ≡ self.old) }
        ensures overflow { Overflows self.old count → IsErrOf result (invalid_argument Fault.WeightOverflow) }
        ensures memory { TotalHasRoom self.old count → IfErr result (λ e. e ≡ no_memory) }
        ensures succeeds { TotalHasRoom self.old count → is_tracked T.eq self.old.counters item.now ≡ true → IsOk result }
    {
        self.update_item_with_count(item, count)
    }

    /// Adds 1 to the weight of the item that the key names.
    ///
    /// Equals [`update_item_with_count`](Self::update_item_with_count) with a count of 1, and returns its errors.
    pub fn update_item<K: OwnedKey<T>>(&mut self, key: K) -> Result<(), Error>
        ensures step { OnOk result (StepsByKey T.eq self.old (K.names key) 1 self.new) }
        ensures state { IsState T.eq self.new }
        ensures stands { OnOk result ((x : T) → IsTrue (K.names key x)
            → Extends T.eq self.old self.new (λ h. Update h x 1)) }
        ensures budget { OnOk result ((x : T) → IsTrue (K.names key x)
            → ExtendsBudget T.eq self.old self.new (λ h. Update h x 1)) }
        ensures err { OnErr result (self.new ≡ self.old) }
        ensures overflow { Overflows self.old 1 → IsErrOf result (invalid_argument Fault.WeightOverflow) }
        ensures memory { TotalHasRoom self.old 1 → IfErr result (λ e. e ≡ no_memory) }
        ensures succeeds { TotalHasRoom self.old 1 → is_tracked_by_key (K.names key) self.old.counters ≡ true → IsOk result }
        ensures infallible { K.needs_no_memory key → TotalHasRoom self.old 1 → must_grow self.old ≡ false → IsOk result }
    {
        self.update_item_with_count(key, 1)
    }

    /// Adds `count` to the weight of the item that the key names. A sketch of `String`s takes a `&str` as the key.
    ///
    /// Creates an owned item only if the key's item is not tracked and `count` is not 0. Allocates for that item, and
    /// for a table of twice the size if the table must double. A count of 0 changes nothing and succeeds.
    ///
    /// # Errors
    ///
    /// Returns `WeightOverflow` if the total weight would exceed `u64::MAX`. Returns `NoMemory` if the key's item is not
    /// tracked and an allocation fails. After an error the sketch is unchanged.
    ///
    /// # Examples
    ///
    /// ```
    /// use sketch_frequencies::{Error, FrequentItemsSketch};
    ///
    /// fn add_word(words: &mut FrequentItemsSketch<String>, word: &str) -> Result<(), Error> {
    ///     words.update_item_with_count(word, 1)
    /// }
    /// ```
    pub fn update_item_with_count<K: OwnedKey<T>>(
        &mut self,
        key: K,
        count: u64,
    ) -> Result<(), Error>
        ensures zero { count ≡ 0 → IsOk result × (self.new ≡ self.old) }
        ensures step { OnOk result (0 < count → StepsByKey T.eq self.old (K.names key) count self.new) }
        ensures state { IsState T.eq self.new }

        // A sketch that represents a history represents the extended history, and keeps its tail budget.
        ensures stands { OnOk result (0 < count → (x : T) → IsTrue (K.names key x)
            → Extends T.eq self.old self.new (λ h. Update h x count)) }
        ensures budget { OnOk result (0 < count → (x : T) → IsTrue (K.names key x)
            → ExtendsBudget T.eq self.old self.new (λ h. Update h x count)) }

        // An error changes nothing. An update of a tracked item never returns `NoMemory`.
        ensures err { OnErr result (self.new ≡ self.old) }
        ensures overflow { Overflows self.old count → IsErrOf result (invalid_argument Fault.WeightOverflow) }
        ensures memory { TotalHasRoom self.old count → IfErr result (λ e. e ≡ no_memory) }
        ensures succeeds { TotalHasRoom self.old count → is_tracked_by_key (K.names key) self.old.counters ≡ true → IsOk result }
        ensures infallible { K.needs_no_memory key → TotalHasRoom self.old count → must_grow self.old ≡ false → IsOk result }
    {
        if count > u64::MAX - self.total {
            return Err(Error::invalid_argument(Fault::WeightOverflow));
        }
        if count == 0 {
            return Ok(());
        }
        if self.map.capacity() > self.map.num_active() {
            self.put_by_key(key, count)?;
            return Ok(());
        }
        if self.map.len() == self.max_size {
            self.add_by_key(key, count)?;
            return Ok(());
        }
        if self.adjust_by_key(key, count) {
            return Ok(());
        }
        let item = key.to_item(self.map.allocator())?;
        self.track(item, count)?;
        Ok(())
    }

    /// Adds to the item's count, or tracks the item if it is not tracked, in one look-up. Requires a free counter.
    #[inline]
    fn put(&mut self, item: T, count: u64)
        requires positive { 0 < count }
        requires fits { TotalHasRoom self.old count }
        requires room { length self.old.counters < capacity self.old.size }
        ensures step { Steps T.eq self.old item count self.new }
        ensures state { IsState T.eq self.new }
    {
        self.map.adjust_or_put_value(item, count);
        self.total += count;
    }

    /// Adds to the count of the item that the key names, or tracks a new item with it, in one look-up.
    ///
    /// Requires a free counter. Returns `NoMemory` and changes nothing if the new item cannot be allocated.
    #[inline]
    fn put_by_key<K: OwnedKey<T>>(&mut self, key: K, count: u64) -> Result<(), Error>
        requires positive { 0 < count }
        requires fits { TotalHasRoom self.old count }
        requires room { length self.old.counters < capacity self.old.size }
        ensures step { OnOk result (StepsByKey T.eq self.old (K.names key) count self.new) }
        ensures state { IsState T.eq self.new }
        ensures err { OnErr result (self.new ≡ self.old) }
        ensures memory { IfErr result (λ e. e ≡ no_memory) }
        ensures succeeds { is_tracked_by_key (K.names key) self.old.counters ≡ true → IsOk result }
        ensures infallible { K.needs_no_memory key → IsOk result }
    {
        self.map.adjust_or_put_by_key(key, count)?;
        self.total += count;
        Ok(())
    }

    /// Adds to the item's count if it is tracked, and returns whether it is.
    fn adjust(&mut self, item: &T, count: u64) -> bool
        requires positive { 0 < count }
        requires fits { TotalHasRoom self.old count }
        ensures tracked { result ≡ is_tracked T.eq self.old.counters item.now }
        ensures present { result ≡ true → Steps T.eq self.old item.now count self.new }
        ensures absent { result ≡ false → self.new ≡ self.old }
        ensures state { IsState T.eq self.new }
    {
        self.adjust_by_key(item, count)
    }

    /// Adds to the count of the item that the key names if it is tracked, and returns whether it is.
    fn adjust_by_key<K: ItemKey<T>>(&mut self, key: K, count: u64) -> bool
        requires positive { 0 < count }
        requires fits { TotalHasRoom self.old count }
        ensures tracked { result ≡ is_tracked_by_key (K.names key) self.old.counters }
        ensures present { result ≡ true → (x : T) → IsTrue (K.names key x) → Steps T.eq self.old x count self.new }
        ensures absent { result ≡ false → self.new ≡ self.old }
        ensures state { IsState T.eq self.new }
    {
        if !self.map.adjust_by_key(key, count) {
            return false;
        }
        self.total += count;
        true
    }

    /// Tracks an item that is not tracked.
    #[inline(never)]
    fn track(&mut self, item: T, count: u64) -> Result<(), Error>
        requires absent { is_tracked T.eq self.old.counters item ≡ false }
        requires positive { 0 < count }
        requires fits { TotalHasRoom self.old count }
        ensures step { OnOk result (Steps T.eq self.old item count self.new) }
        ensures state { IsState T.eq self.new }
        ensures err { OnErr result (self.new ≡ self.old) }
        ensures memory { IfErr result (λ e. e ≡ no_memory) }
        ensures succeeds { must_grow self.old ≡ false → IsOk result }
    {
        // Borrows a field, which brings the invariant of the sketch into the proof.
        let _ = &self.map;
        self.make_room()?;
        self.add(item, count);
        Ok(())
    }

    /// Doubles the table if it must grow for one more counter.
    fn make_room(&mut self) -> Result<(), Error>
        ensures ok { OnOk result (MakesRoom self.old self.new) }
        ensures state { IsState T.eq self.new }
        ensures err { OnErr result (self.new ≡ self.old) }
        ensures memory { IfErr result (λ e. e ≡ no_memory) }
        ensures succeeds { must_grow self.old ≡ false → IsOk result }
    {
        let size = self.map.len();
        if size == self.max_size {
            return Ok(());
        }
        if self.map.num_active() < self.map.capacity() {
            return Ok(());
        }
        self.map.resize(2 * size)?;
        Ok(())
    }

    /// Adds to the item's count, or tracks the item, in one look-up. Purges if there is then one counter too many.
    ///
    /// It is not inlined, so that the look-up of a table with room has the processor's registers to itself.
    #[inline(never)]
    fn add(&mut self, item: T, count: u64)
        requires positive { 0 < count }
        requires fits { TotalHasRoom self.old count }
        requires room { capacity self.old.size < length (put T.eq self.old.counters item count)
            → self.old.size ≡ self.old.max_size }
        ensures adds { Adds T.eq self.old item count self.new }
        ensures state { IsState T.eq self.new }
    {
        self.map.adjust_or_put_value(item, count);
        self.total += count;
        self.error += purge_excess(&mut self.map, self.sample_size);
    }

    /// Adds to the count of the item that the key names, or tracks a new item with it, in one look-up. Purges if there is then
    /// one counter too many.
    ///
    /// Requires a table that may not grow. Returns `NoMemory` and changes nothing if the new item cannot be allocated.
    #[inline]
    fn add_by_key<K: OwnedKey<T>>(&mut self, key: K, count: u64) -> Result<(), Error>
        requires positive { 0 < count }
        requires fits { TotalHasRoom self.old count }
        requires greatest { self.old.size ≡ self.old.max_size }
        ensures step { OnOk result (StepsByKey T.eq self.old (K.names key) count self.new) }
        ensures state { IsState T.eq self.new }
        ensures err { OnErr result (self.new ≡ self.old) }
        ensures memory { IfErr result (λ e. e ≡ no_memory) }
        ensures succeeds { is_tracked_by_key (K.names key) self.old.counters ≡ true → IsOk result }
        ensures infallible { K.needs_no_memory key → IsOk result }
    {
        self.map.adjust_or_put_by_key(key, count)?;
        self.total += count;
        self.error += purge_excess(&mut self.map, self.sample_size);
        Ok(())
    }
}

/// Purges a table with one counter too many, and returns by how much each count was lowered. Returns 0 if there is room.
#[inline]
fn purge_excess<T: Eq + Hash + Drop>(
    map: &mut ReversePurgeItemHashMap<T>,
    sample_size: usize,
) -> u64
    requires { 0 < sample_size }
    ensures { PurgesExcess sample_size map.old map.new result }
{
    if map.num_active() <= map.capacity() {
        return 0;
    }
    map.purge(sample_size)
}
