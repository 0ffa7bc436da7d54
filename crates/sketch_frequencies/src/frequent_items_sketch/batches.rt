//! Updates of many items in one call, and their estimates and bounds.
ghost use Rattle.std.specs.Prelude.{◌≡◌, ◌+◌, ◌^◌, ◌<◌, ◌↔◌, true, length, map, sum, IfErr, IsTrue, OnOk, OnErr, IsErrOf};
ghost use Rattle.std.specs.Iterator.{ExtendsWithItems, IsFiniteIterable};
ghost use Rattle.std.specs.List.{AllZip};
ghost use Rattle.sketch_base.specs.Errors.{invalid_argument, no_memory};
ghost use Rattle.sketch_frequencies.specs.Bounds.{bounds_by_key, BoundWeight};
ghost use Rattle.sketch_frequencies.specs.KeyedBatches.{UpdatesKeys, StopsAtKey, UpdatesSeen, UpdatesWeighedKeys, StopsAtWeighedKey};
ghost use Rattle.sketch_frequencies.specs.Stands.{IsExactOfFew};
ghost use Rattle.sketch_frequencies.specs.State.{IsState, Overflows, TotalHasRoom, estimate_by_key, must_grow};
ghost use Rattle.sketch_frequencies.specs.WeightedBatches.{weighed};

use crate::frequent_items_sketch::FrequentItemsSketch;
use crate::item_bounds::ItemBounds;
use counter_table::{Keys, OwnedKey, TableKey};
use sketch_base::{Error, Fault};
use std::hash::Hash;

impl<T: Eq + Hash + Drop> FrequentItemsSketch<T> {
    /// Adds 1 to the weight of the item that each key names, in order, as [`update_item`](Self::update_item) does.
    ///
    /// Keys are a slice of items or, for a sketch of `String`s, a sequence of strings, such as
    /// [`Words`](sketch_base::Words) of a string.
    ///
    /// # Errors
    ///
    /// Stops at the first key whose update fails, and returns that error: `WeightOverflow` or `NoMemory`. The items of the keys
    /// before it stay added. The items of that key and of the keys after it are not added.
    ///
    /// # Examples
    ///
    /// ```
    /// use sketch_base::Words;
    /// use sketch_frequencies::{Error, FrequentItemsSketch};
    /// use std::alloc::Global;
    ///
    /// fn sketch_of_visitors(
    ///     alloc: Global,
    ///     visitors: &[u64],
    /// ) -> Result<FrequentItemsSketch<u64>, Error> {
    ///     let mut sketch = FrequentItemsSketch::new(alloc, 1024)?;
    ///     sketch.update_all(visitors)?;
    ///     Ok(sketch)
    /// }
    ///
    /// fn words_of_line(alloc: Global, line: &str) -> Result<FrequentItemsSketch<String>, Error> {
    ///     let mut sketch = FrequentItemsSketch::new(alloc, 1024)?;
    ///     sketch.update_all(Words::new(line))?;
    ///     Ok(sketch)
    /// }
    /// ```
    pub fn update_all<K: Keys<T>>(&mut self, mut keys: K) -> Result<(), Error>
    where
        K::Key: OwnedKey<T>,
        ensures updates { OnOk result (UpdatesKeys T.eq self.old (K.names keys) self.new) }
        ensures state { IsState T.eq self.new }
        ensures err { IfErr result (λ e. StopsAtKey T.eq self.old (K.names keys) e self.new) }

        // If keys need no memory, as those of numbers, `NoMemory` comes only where the table must double.
        ensures doubles { ((key : K.Key) → K.Key.needs_no_memory key)
            → OnErr result (TotalHasRoom self.new 1 → must_grow self.new ≡ true) }
    {
        if let TableKey::Keyed(secret) = self.map.key() {
            return self.update_all_keyed(keys, secret);
        }
        // The label names the loop for its proof.
        'each: loop {
            let Some(key) = keys.next_key() else {
                return Ok(());
            };
            self.update_item(key)?;
        }
    }

    /// Adds 1 to the weight of the item that each key of an iterator names, as [`update_item`](Self::update_item) does one after
    /// another.
    ///
    /// The iterator must end. [`update_all`](Self::update_all) takes slices and sequences of strings.
    ///
    /// # Errors
    ///
    /// Stops at the first key whose update fails, and returns that error: `WeightOverflow` or `NoMemory`. The items of the keys
    /// before it stay added. The item of that key is not added, and no key after it is taken.
    ///
    /// # Examples
    ///
    /// ```
    /// use sketch_frequencies::{Error, FrequentItemsSketch};
    ///
    /// fn add_even(sketch: &mut FrequentItemsSketch<u64>, numbers: &[u64]) -> Result<(), Error> {
    ///     sketch.extend(numbers.iter().filter(|n| **n % 2 == 0))
    /// }
    /// ```
    pub fn extend<K: OwnedKey<T>, U: IntoIterator<Item = K>>(
        &mut self,
        keys: U,
    ) -> Result<(), Error>
        requires { IsFiniteIterable U.into_iter_gives U.IntoIter.can_next U.IntoIter.remaining keys }
        ensures updates { ExtendsWithItems U.into_iter_gives U.IntoIter.next_gives
            (λ old seen new. UpdatesSeen T.eq old (map K.names seen) result new) keys self.old self.new result }
        ensures state { IsState T.eq self.new }

        // If keys need no memory, as those of numbers, `NoMemory` comes only where the table must double.
        ensures doubles { ((key : K) → K.needs_no_memory key)
            → OnErr result (TotalHasRoom self.new 1 → must_grow self.new ≡ true) }
    {
        // Borrows a field, which brings the invariant of the sketch into the proof.
        let _ = &self.map;
        for key in keys {
            if let Err(e) = self.update_item(key) {
                return Err(e);
            }
        }
        Ok(())
    }

    /// Adds each count to the weight of the item that the key at its index names, in order.
    ///
    /// There are as many keys as counts. Each update acts as [`update_item_with_count`](Self::update_item_with_count). A count of
    /// 0 changes nothing.
    ///
    /// # Errors
    ///
    /// Returns `WeightOverflow` if the total weight would exceed `u64::MAX` with all counts. The sketch is then unchanged.
    /// Returns `NoMemory` at the first key for which an allocation fails. The items of the keys before it stay added. The items
    /// of that key and of the keys after it are not added.
    ///
    /// # Examples
    ///
    /// ```
    /// use sketch_base::Strs;
    /// use sketch_frequencies::{Error, FrequentItemsSketch};
    ///
    /// fn add_prices(prices: &mut FrequentItemsSketch<String>) -> Result<(), Error> {
    ///     prices.update_all_with_counts(Strs(&["apple", "pear"]), &[30, 45])
    /// }
    /// ```
    pub fn update_all_with_counts<K: Keys<T>>(
        &mut self,
        mut keys: K,
        counts: &[u64],
    ) -> Result<(), Error>
    where
        K::Key: OwnedKey<T>,
        requires same { length counts.now ≡ length (K.names keys) }
        ensures updates { OnOk result (UpdatesWeighedKeys T.eq self.old (weighed (K.names keys) counts.now) self.new) }
        ensures state { IsState T.eq self.new }

        // If the total has no room for all counts, nothing is added.
        ensures overflow { Overflows self.old (sum counts.now) → IsErrOf result (invalid_argument Fault.WeightOverflow) }
        ensures unchanged { Overflows self.old (sum counts.now) → self.new ≡ self.old }

        // Otherwise only an allocation fails: for an item, or where the table must double. The items of the keys before it stay
        // added.
        ensures memory { TotalHasRoom self.old (sum counts.now) → IfErr result (λ e. e ≡ no_memory) }
        ensures stops { TotalHasRoom self.old (sum counts.now)
            → OnErr result (StopsAtWeighedKey T.eq self.old (weighed (K.names keys) counts.now) self.new) }
        ensures doubles { ((key : K.Key) → K.Key.needs_no_memory key) → TotalHasRoom self.old (sum counts.now)
            → OnErr result (must_grow self.new ≡ true) }
    {
        if !counts_fit(self.total, counts) {
            return Err(Error::invalid_argument(Fault::WeightOverflow));
        }
        // The label names the loop for its proof.
        'each: for i in 0..counts.len() {
            let Some(key) = keys.next_key() else {
                return Ok(());
            };
            self.update_item_with_count(key, counts[i])?;
        }
        Ok(())
    }

    /// Writes the estimate of the weight of the item that each key names to `estimates`, as
    /// [`estimate_item`](Self::estimate_item) returns it.
    ///
    /// There are as many keys as `estimates`. It does not allocate.
    ///
    /// # Examples
    ///
    /// ```
    /// use sketch_frequencies::FrequentItemsSketch;
    ///
    /// fn weights_of_four(visits: &FrequentItemsSketch<u64>, pages: &[u64; 4]) -> [u64; 4] {
    ///     let mut weights = [0; 4];
    ///     visits.estimate_all(pages.as_slice(), &mut weights);
    ///     weights
    /// }
    /// ```
    #[inline(never)]
    pub fn estimate_all<K: Keys<T>>(&self, mut keys: K, estimates: &mut [u64])
        requires { length estimates.old ≡ length (K.names keys) }
        ensures value { estimates.new ≡ map (λ names. estimate_by_key names self.now) (K.names keys) }
        ensures exact { AllZip (λ names answer. (x : T) → IsTrue (names x) → IsExactOfFew T.eq self.now x answer)
            (K.names keys) estimates.new }
    {
        if let TableKey::Keyed(secret) = self.map.key() {
            self.estimate_all_keyed(keys, secret, estimates);
            return;
        }
        // The label names the loop for its proof.
        'each: for i in 0..estimates.len() {
            let Some(key) = keys.next_key() else {
                return;
            };
            estimates[i] = self.estimate_item(key);
        }
    }

    /// Writes the bounds and the estimate of the weight of the item that each key names to `bounds`.
    ///
    /// They are those of [`bounds_item`](Self::bounds_item), with one look-up for each key. There are as many keys as `bounds`.
    /// It does not allocate.
    ///
    /// # Examples
    ///
    /// ```
    /// use sketch_base::Strs;
    /// use sketch_frequencies::{FrequentItemsSketch, ItemBounds};
    ///
    /// fn bounds_of_fruit(words: &FrequentItemsSketch<String>, bounds: &mut [ItemBounds; 2]) {
    ///     words.bounds_all(Strs(&["apple", "pear"]), bounds);
    /// }
    /// ```
    #[inline(never)]
    pub fn bounds_all<K: Keys<T>>(&self, mut keys: K, bounds: &mut [ItemBounds])
        requires { length bounds.old ≡ length (K.names keys) }
        ensures value { bounds.new ≡ map (λ names. bounds_by_key names self.now) (K.names keys) }
        ensures bound { AllZip (λ names answer. (x : T) → IsTrue (names x) → BoundWeight T.eq self.now x answer)
            (K.names keys) bounds.new }
    {
        if let TableKey::Keyed(secret) = self.map.key() {
            self.bounds_all_keyed(keys, secret, bounds);
            return;
        }
        // The label names the loop for its proof.
        'each: for i in 0..bounds.len() {
            let Some(key) = keys.next_key() else {
                return;
            };
            bounds[i] = self.bounds_item(key);
        }
    }
}

/// Returns whether the total has room for all counts.
fn counts_fit(total: u64, counts: &[u64]) -> bool
    ensures { IsTrue result ↔ (total + sum counts.now < 2 ^ 64) }
{
    let mut room = u64::MAX - total;
    'each: for i in 0..counts.len() {
        if counts[i] > room {
            return false;
        }
        room -= counts[i];
    }
    true
}
