//! Many items, or many other sketches, in one call.
ghost use Rattle.std.specs.Prelude.{◌≡◌, ℕ, ◌+◌, ◌<◌, ◌≤◌, ◌↔◌, pos, unsigned_abs, ◌-◌, [], length, map, take, sum_by, slice_index_or, All, OnOk, OnErr, IsOk, IsTrue, IsErrOf};
ghost use Rattle.std.specs.Iterator.{ExtendsWithItems, IsFiniteIterable};
ghost use Rattle.std.specs.List.{zip};
ghost use Rattle.sketch_base.specs.Errors.{invalid_argument};
ghost use Rattle.sketch_base.specs.Hashes.{fed_bytes};
ghost use Rattle.sketch_countmin.specs.History.{all_updated, each_updated, all_merged};
ghost use Rattle.sketch_countmin.specs.Iterated.{CountsSeen};
ghost use Rattle.sketch_countmin.specs.Stands.{Extends, ExtendsByAll};
ghost use Rattle.sketch_countmin.specs.State.{IsCountState, SameShape, CountsAll, CountsEach, JoinsEach, IsMinCell};

use crate::count_min_items::CountMinItems;
use crate::count_min_sketch::CountMinSketch;
use crate::count_min_value::CountMinValue;
use crate::row_item::RowItem;
use sketch_base::{Error, Fault, Items};
use std::hash::Hash;

impl<T: CountMinValue> CountMinSketch<T> {
    /// Counts each item with weight 1, as [`update_item`](Self::update_item) does one after another. Does not allocate.
    ///
    /// It passes over a slice once for each row. This is faster than an update for each item if the slice stays in a
    /// cache: pass some thousands of items at a time.
    ///
    /// # Errors
    ///
    /// `WeightOverflow` if the total would exceed the maximum of `T`. The items before the first that does not fit are
    /// then counted, and no others.
    ///
    /// # Examples
    ///
    /// ```
    /// use sketch_base::{Error, Words};
    /// use sketch_countmin::CountMinSketch;
    ///
    /// fn count_batch(visits: &mut CountMinSketch<u32>, users: &[u64]) -> Result<(), Error> {
    ///     visits.update_all(users)
    /// }
    ///
    /// fn count_text(counts: &mut CountMinSketch<u64>, text: &str) -> Result<(), Error> {
    ///     counts.update_all(Words::new(text))
    /// }
    /// ```
    pub fn update_all<I: CountMinItems<T>>(&mut self, items: I) -> Result<(), Error>
        ensures counted { CountsAll self.old (take (T.greatest - self.old.total) (I.list items)) self.new }
        ensures state { IsCountState T.greatest self.new }
        ensures stands { Extends self.old self.new (λ h. all_updated h
            (take (T.greatest - self.old.total) (I.list items))) }

        // The error comes exactly if there are more items than the total has room for.
        ensures overflow { T.greatest < self.old.total + length (I.list items)
            → IsErrOf result (invalid_argument Fault.WeightOverflow) }
        ensures succeeds { self.old.total + length (I.list items) ≤ T.greatest → IsOk result }
    {
        items.count_in(self)
    }

    /// Counts each item of an iterator with weight 1, as [`update_item`](Self::update_item) does one after another. Does not
    /// allocate.
    ///
    /// The iterator must end. [`update_all`](Self::update_all) is faster for slices and strings.
    ///
    /// # Errors
    ///
    /// `WeightOverflow` at the first item for which the total has no room. The items before it are then counted, and no
    /// others.
    ///
    /// # Examples
    ///
    /// ```
    /// use sketch_base::Error;
    /// use sketch_countmin::CountMinSketch;
    ///
    /// fn count_even(counts: &mut CountMinSketch<u64>, numbers: &[u64]) -> Result<(), Error> {
    ///     counts.extend(numbers.iter().filter(|n| **n % 2 == 0))
    /// }
    /// ```
    pub fn extend<R: RowItem<T> + Drop, U: IntoIterator<Item = R>>(
        &mut self,
        items: U,
    ) -> Result<(), Error>
        requires { IsFiniteIterable U.into_iter_gives U.IntoIter.can_next U.IntoIter.remaining items }
        ensures counted { ExtendsWithItems U.into_iter_gives U.IntoIter.next_gives
            (λ old seen new. CountsSeen T.greatest old (map R.bytes seen) result new) items self.old self.new result }
        ensures state { IsCountState T.greatest self.new }
    {
        // For the prover: this read brings in what holds of every sketch.
        let _total = self.total;
        for item in items {
            let Ok(()) = self.update_item(item) else {
                return Err(Error::invalid_argument(Fault::WeightOverflow));
            };
        }
        Ok(())
    }

    /// Counts each item with weight 1, item by item.
    #[inline(always)]
    pub(crate) fn update_each<I: Items<Each: RowItem<T>>>(
        &mut self,
        mut items: I,
    ) -> Result<(), Error>
        ensures counted { CountsAll self.old (take (T.greatest - self.old.total) (I.list items)) self.new }
        ensures state { IsCountState T.greatest self.new }
        ensures stands { Extends self.old self.new (λ h. all_updated h
            (take (T.greatest - self.old.total) (I.list items))) }
        ensures overflow { T.greatest < self.old.total + length (I.list items)
            → IsErrOf result (invalid_argument Fault.WeightOverflow) }
        ensures succeeds { self.old.total + length (I.list items) ≤ T.greatest → IsOk result }
    {
        // For the prover: this read brings in what holds of every sketch.
        let _total = self.total;
        'each: while let Some(item) = items.next() {
            let Ok(()) = self.update_item(item) else {
                return Err(Error::invalid_argument(Fault::WeightOverflow));
            };
        }
        Ok(())
    }

    /// Counts each item of a slice with weight 1, row by row.
    #[inline(always)]
    pub(crate) fn update_slice<I: Hash>(&mut self, items: &[I]) -> Result<(), Error>
        ensures counted { CountsAll self.old
            (take (T.greatest - self.old.total) (map (fed_bytes I.hash_input) items.now)) self.new }
        ensures state { IsCountState T.greatest self.new }
        ensures stands { Extends self.old self.new (λ h. all_updated h
            (take (T.greatest - self.old.total) (map (fed_bytes I.hash_input) items.now))) }
        ensures overflow { T.greatest < self.old.total + length items.now
            → IsErrOf result (invalid_argument Fault.WeightOverflow) }
        ensures succeeds { self.old.total + length items.now ≤ T.greatest → IsOk result }
    {
        let fitting = self.room().min(items.len());
        self.count_fitting(&items[..fitting]);
        if fitting < items.len() {
            return Err(Error::invalid_argument(Fault::WeightOverflow));
        }
        Ok(())
    }

    /// Counts each item with weight 1. The total has room for all.
    fn count_fitting<I: Hash>(&mut self, items: &[I])
        requires { self.old.total + length items.now ≤ T.greatest }
        ensures counted { CountsAll self.old (map (fed_bytes I.hash_input) items.now) self.new }
        ensures state { IsCountState T.greatest self.new }
    {
        self.grid.count_each(items);
        self.total = T::from_number_in_range(self.total.to_number() + items.len() as i128);
    }

    /// Counts each item with its weight, as [`update_item_with_weight`](Self::update_item_with_weight) does one after
    /// another. Does not allocate.
    ///
    /// All items are counted, or none. There are as many `weights` as items.
    ///
    /// # Errors
    ///
    /// `WeightOverflow` if the total plus the absolute values of all weights exceeds the maximum of `T`. The sketch is
    /// then unchanged.
    ///
    /// # Examples
    ///
    /// ```
    /// use sketch_base::{Error, Strs};
    /// use sketch_countmin::CountMinSketch;
    ///
    /// fn count_bytes(
    ///     traffic: &mut CountMinSketch<u64>,
    ///     hosts: &[&str; 2],
    ///     bytes: [u64; 2],
    /// ) -> Result<(), Error> {
    ///     traffic.update_all_with_weights(Strs(hosts), &bytes)
    /// }
    /// ```
    pub fn update_all_with_weights<I: CountMinItems<T>>(
        &mut self,
        mut items: I,
        weights: &[T],
    ) -> Result<(), Error>
        requires { length weights.now ≡ length (I.list items) }
        ensures counted { OnOk result (CountsEach self.old
            (zip (I.list items) (map T.number weights.now)) self.new) }
        ensures state { IsCountState T.greatest self.new }
        ensures stands { OnOk result (Extends self.old self.new (λ h. each_updated h
            (zip (I.list items) (map T.number weights.now)))) }

        // The error comes exactly if the total would exceed the maximum, and leaves the sketch unchanged.
        ensures err { OnErr result (self.new ≡ self.old) }
        ensures overflow { T.greatest < self.old.total + sum_by (λ weight. unsigned_abs (T.number weight)) weights.now
            → IsErrOf result (invalid_argument Fault.WeightOverflow) }
        ensures succeeds { self.old.total + sum_by (λ weight. unsigned_abs (T.number weight)) weights.now ≤ T.greatest
            → IsOk result }
    {
        if !self.has_room_for_weights(weights) {
            return Err(Error::invalid_argument(Fault::WeightOverflow));
        }
        let mut i = 0;
        'each: while let Some(item) = items.next() {
            let _ = self.update_item_with_weight(item, weights[i]);
            i += 1;
        }
        Ok(())
    }

    /// Returns whether the total has room for the absolute values of all weights.
    fn has_room_for_weights(&self, weights: &[T]) -> bool
        ensures fits { IsTrue result
            ↔ (self.now.total + sum_by (λ weight. unsigned_abs (T.number weight)) weights.now ≤ T.greatest) }

        // What holds of every sketch.
        ensures state { IsCountState T.greatest self.now }
    {
        // For the prover: this read brings in what holds of every sketch.
        let _total = self.total;
        let mut room = self.room();
        'each: for i in 0..weights.len() {
            let size = weights[i].to_number().unsigned_abs() as usize;
            if size > room {
                return false;
            }
            room -= size;
        }
        true
    }

    /// Returns the room of the total: the maximum minus the total.
    fn room(&self) -> usize
        ensures { self.now.total + result ≡ T.greatest }
    {
        (T::MAX.to_number() - self.total.to_number()) as usize
    }

    /// Writes the estimate of each item to `estimates`, as [`estimate_item`](Self::estimate_item) returns it. Does not
    /// allocate.
    ///
    /// There are as many `estimates` as items. It passes over a slice once for each row, as
    /// [`update_all`](Self::update_all) does.
    ///
    /// # Examples
    ///
    /// ```
    /// use sketch_countmin::CountMinSketch;
    ///
    /// fn visits_of(visits: &CountMinSketch<u32>, users: &[u64; 2]) -> [u32; 2] {
    ///     let mut estimates = [0; 2];
    ///     visits.estimate_all(users.as_slice(), &mut estimates);
    ///     estimates
    /// }
    /// ```
    pub fn estimate_all<I: CountMinItems<T>>(&self, items: I, estimates: &mut [T])
        requires same_length { length (I.list items) ≡ length estimates.old }
        ensures length { length estimates.new ≡ length (I.list items) }
        ensures least { (i : ℕ) → i < length (I.list items) → IsMinCell self.now
            (slice_index_or (I.list items) i []) (slice_index_or (map T.number estimates.new) i (pos 0)) }
    {
        items.estimate_in(self, estimates)
    }

    /// Writes the estimate of each item, item by item.
    #[inline(always)]
    pub(crate) fn estimate_each<I: Items<Each: RowItem<T>>>(
        &self,
        mut items: I,
        estimates: &mut [T],
    )
        requires same_length { length (I.list items) ≡ length estimates.old }
        ensures length { length estimates.new ≡ length (I.list items) }
        ensures least { (i : ℕ) → i < length (I.list items) → IsMinCell self.now
            (slice_index_or (I.list items) i []) (slice_index_or (map T.number estimates.new) i (pos 0)) }
    {
        let mut i = 0;
        'each: while let Some(item) = items.next() {
            estimates[i] = self.estimate_item(item);
            i += 1;
        }
    }

    /// Writes the estimate of each item of a slice, row by row.
    #[inline(always)]
    pub(crate) fn estimate_slice<I: Hash>(&self, items: &[I], estimates: &mut [T])
        requires same_length { length items.now ≡ length estimates.old }
        ensures length { length estimates.new ≡ length items.now }
        ensures least { (i : ℕ) → i < length items.now → IsMinCell self.now
            (slice_index_or (map (fed_bytes I.hash_input) items.now) i [])
            (slice_index_or (map T.number estimates.new) i (pos 0)) }
    {
        self.grid.min_cells(items, estimates);
    }

    /// Adds the cells and the totals of other sketches of the same shape and seed, as [`merge`](Self::merge) does one
    /// after another. Does not allocate.
    ///
    /// All sketches are added, or none.
    ///
    /// # Errors
    ///
    /// The first of these that applies. The sketch is then unchanged.
    ///
    /// - `Mismatch` if another sketch differs in the number of hashes, the number of buckets or the seed;
    /// - `WeightOverflow` if the sum of all totals exceeds the maximum of `T`.
    ///
    /// # Examples
    ///
    /// ```
    /// use sketch_base::Error;
    /// use sketch_countmin::CountMinSketch;
    ///
    /// fn add_weekend(
    ///     week: &mut CountMinSketch<u64>,
    ///     saturday: &CountMinSketch<u64>,
    ///     sunday: &CountMinSketch<u64>,
    /// ) -> Result<(), Error> {
    ///     week.merge_all(&[saturday, sunday])
    /// }
    /// ```
    pub fn merge_all(&mut self, others: &[&CountMinSketch<T>]) -> Result<(), Error>
        ensures joined { OnOk result (JoinsEach self.old (map (λ other. other.now) others.now) self.new) }
        ensures state { IsCountState T.greatest self.new }
        ensures stands { OnOk result (ExtendsByAll self.old (map (λ other. other.now) others.now) self.new all_merged) }

        // An error comes exactly if a shape or a seed differs or the sum of all totals exceeds the maximum. It leaves
        // the sketch unchanged.
        ensures err { OnErr result (self.new ≡ self.old) }
        ensures mismatch { ¬ All (SameShape self.old) (map (λ other. other.now) others.now)
            → IsErrOf result (invalid_argument Fault.Mismatch) }
        ensures overflow { All (SameShape self.old) (map (λ other. other.now) others.now)
            → T.greatest < self.old.total + sum_by (λ other. other.now.total) others.now
            → IsErrOf result (invalid_argument Fault.WeightOverflow) }
        ensures succeeds { All (SameShape self.old) (map (λ other. other.now) others.now)
            → self.old.total + sum_by (λ other. other.now.total) others.now ≤ T.greatest → IsOk result }
    {
        if !self.has_shape_of_all(others) {
            return Err(Error::invalid_argument(Fault::Mismatch));
        }
        if !self.has_room_for_totals(others) {
            return Err(Error::invalid_argument(Fault::WeightOverflow));
        }
        // The label is for the prover.
        'each: for i in 0..others.len() {
            let _ = self.merge(others[i]);
        }
        Ok(())
    }

    /// Returns whether the numbers of hashes and of buckets and the seed are those of each other sketch.
    fn has_shape_of_all(&self, others: &[&CountMinSketch<T>]) -> bool
        ensures shape { IsTrue result ↔ All (SameShape self.now) (map (λ other. other.now) others.now) }

        // What holds of every sketch.
        ensures state { IsCountState T.greatest self.now }
    {
        // For the prover: this read brings in what holds of every sketch.
        let _total = self.total;
        'each: for i in 0..others.len() {
            if !self.has_shape_of(others[i]) {
                return false;
            }
        }
        true
    }

    /// Returns whether the total has room for the totals of all other sketches.
    fn has_room_for_totals(&self, others: &[&CountMinSketch<T>]) -> bool
        ensures { IsTrue result
            ↔ (self.now.total + sum_by (λ other. other.now.total) others.now ≤ T.greatest) }
    {
        let mut room = self.room();
        // The label is for the prover.
        'each: for i in 0..others.len() {
            let size = others[i].total_weight().to_number() as usize;
            if size > room {
                return false;
            }
            room -= size;
        }
        true
    }
}
