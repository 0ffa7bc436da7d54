//! Estimates, bounds and reports of a sketch's items.
ghost use Rattle.std.specs.Prelude.{◌≡◌, ◌+◌, ◌*◌, ◌<◌, ◌≤◌, ◌^◌, length, map, All, IfOk, IfErr, IsTrue};
ghost use Rattle.std.specs.List.{AllZip};
ghost use Rattle.sketch_base.specs.Errors.{no_memory};
ghost use Rattle.sketch_frequencies.specs.Bounds.{bounds_by_key, bounds_of, BoundWeight};
ghost use Rattle.sketch_frequencies.specs.History.{FrequentHistory, min_size, min_sample, total_weight, HasUsualSamples};
ghost use Rattle.sketch_frequencies.specs.Rows.{ShowsExactly, Descends, MissesNone, ShowsNoneBelow};
ghost use Rattle.sketch_frequencies.specs.Stands.{Encloses, KeepsTailBudget, IsLowerBound, IsUpperBound, IsExactOfFew};
ghost use Rattle.sketch_frequencies.specs.State.{estimate_by_key, estimate_of};
ghost use Rattle.counter_table.specs.Tables.{count_by_key, count_of};

use crate::error_type::ErrorType;
use crate::frequent_items_sketch::FrequentItemsSketch;
use crate::item_bounds::ItemBounds;
use crate::row::Row;
use counter_table::{EqualClone, ItemKey};
use sketch_base::Error;
use std::hash::Hash;

impl<T: Eq + Hash + Drop> FrequentItemsSketch<T> {
    /// Returns the estimate of the item's weight: its count plus the error if it is tracked, else 0.
    ///
    /// Let M be the smallest maximum size of all sketches that took part. The estimate is the true weight if there were at most
    /// three quarters of M distinct items. It does not allocate.
    pub fn estimate(&self, item: &T) -> u64
        ensures value { result ≡ estimate_of T.eq self.now item.now }
        ensures exact { IsExactOfFew T.eq self.now item.now result }
    {
        self.estimate_item(item)
    }

    /// Returns the estimate of the item that the key names. A sketch of `String`s takes a `&str` as the key.
    ///
    /// The estimate is that of [`estimate`](Self::estimate) for an item equal to the key. It does not allocate.
    pub fn estimate_item<K: ItemKey<T>>(&self, key: K) -> u64
        ensures value { result ≡ estimate_by_key (K.names key) self.now }
        ensures item { (x : T) → IsTrue (K.names key x) → result ≡ estimate_of T.eq self.now x }
        ensures exact { (x : T) → IsTrue (K.names key x) → IsExactOfFew T.eq self.now x result }
    {
        // The sum is at most the total, so it fits. Reading the total brings this into the proof.
        let _total = self.total;
        match self.map.look_up_by_key(key) {
            Some(count) => count + self.error,
            None => 0,
        }
    }

    /// Returns the lower bound of the item's true weight: its count, or 0 if it is not tracked.
    pub fn lower_bound(&self, item: &T) -> u64
        ensures value { result ≡ count_of T.eq self.now.counters item.now }
        ensures bound { IsLowerBound T.eq self.now item.now result }
    {
        self.map.get(item)
    }

    /// Returns the upper bound of the item's true weight: its count, or 0 if it is not tracked, plus the error.
    pub fn upper_bound(&self, item: &T) -> u64
        ensures value { result ≡ count_of T.eq self.now.counters item.now + self.now.error }
        ensures bound { IsUpperBound T.eq self.now item.now result }
    {
        // The sum is at most the total, so it fits. Reading the total brings this into the proof.
        let _total = self.total;
        self.map.get(item) + self.error
    }

    /// Returns the lower bound of the weight of the item that the key names.
    ///
    /// It is the item's count, or 0 if the item is not tracked. It does not allocate.
    pub fn lower_bound_item<K: ItemKey<T>>(&self, key: K) -> u64
        ensures value { result ≡ count_by_key (K.names key) self.now.counters }
        ensures bound { (x : T) → IsTrue (K.names key x) → IsLowerBound T.eq self.now x result }
    {
        self.map.look_up_by_key(key).unwrap_or(0)
    }

    /// Returns the upper bound of the weight of the item that the key names.
    ///
    /// It is the item's count, or 0 if the item is not tracked, plus the error. It does not allocate.
    pub fn upper_bound_item<K: ItemKey<T>>(&self, key: K) -> u64
        ensures value { result ≡ count_by_key (K.names key) self.now.counters + self.now.error }
        ensures bound { (x : T) → IsTrue (K.names key x) → IsUpperBound T.eq self.now x result }
    {
        // The sum is at most the total, so it fits. Reading the total brings this into the proof.
        let _total = self.total;
        self.map.look_up_by_key(key).unwrap_or(0) + self.error
    }

    /// Returns both bounds and the estimate of the weight of the item that the key names, with one look-up.
    ///
    /// They are those of [`lower_bound_item`](Self::lower_bound_item), [`estimate_item`](Self::estimate_item)
    /// and [`upper_bound_item`](Self::upper_bound_item). It does not allocate.
    pub fn bounds_item<K: ItemKey<T>>(&self, key: K) -> ItemBounds
        ensures lower { result.lower_bound ≡ count_by_key (K.names key) self.now.counters }
        ensures at_least { (x : T) → IsTrue (K.names key x) → IsLowerBound T.eq self.now x result.lower_bound }
        ensures estimate { result.estimate ≡ estimate_by_key (K.names key) self.now }
        ensures item { (x : T) → IsTrue (K.names key x) → result.estimate ≡ estimate_of T.eq self.now x }
        ensures exact { (x : T) → IsTrue (K.names key x) → IsExactOfFew T.eq self.now x result.estimate }
        ensures upper { result.upper_bound ≡ count_by_key (K.names key) self.now.counters + self.now.error }
        ensures at_most { (x : T) → IsTrue (K.names key x) → IsUpperBound T.eq self.now x result.upper_bound }
    {
        // The sum is at most the total, so it fits. Reading the total brings this into the proof.
        let _total = self.total;
        match self.map.look_up_by_key(key) {
            Some(count) => {
                let upper_bound = count + self.error;
                ItemBounds {
                    lower_bound: count,
                    estimate: upper_bound,
                    upper_bound,
                }
            }
            None => ItemBounds {
                lower_bound: 0,
                estimate: 0,
                upper_bound: self.error,
            },
        }
    }

    /// Returns the error: the difference between each item's upper and lower bound.
    ///
    /// Let W be the total weight, and L the smallest sample size of all sketches that took part since the last reset, also of those
    /// that were set: L * error <= 2 * W. Let `new` have created all of them with no size set, and let M be their smallest maximum
    /// size: 3 * M * error <= 8 * W if M <= 1024, and 512 * error <= W otherwise.
    pub fn maximum_error(&self) -> u64
        ensures value { result ≡ self.now.error }

        // The bounds that the tail budget of a history gives.
        ensures sampled { (h : FrequentHistory T) → Encloses T.eq self.now h → KeepsTailBudget T.eq self.now h
            → min_sample h * result ≤ 2 * total_weight h }
        ensures small { (h : FrequentHistory T) → Encloses T.eq self.now h → KeepsTailBudget T.eq self.now h
            → HasUsualSamples h → min_size h ≤ 1024 → 3 * min_size h * result ≤ 8 * total_weight h }
        ensures large { (h : FrequentHistory T) → Encloses T.eq self.now h → KeepsTailBudget T.eq self.now h
            → HasUsualSamples h → 1024 < min_size h → 512 * result ≤ total_weight h }
    {
        self.error
    }

    /// Returns the tracked items whose bound is above the error, in rows of descending estimate.
    ///
    /// Equals `frequent_items_with_threshold` with the error as the threshold, and returns its errors.
    pub fn frequent_items(&self, error_type: ErrorType) -> Result<Vec<Row<T>>, Error>
    where
        T: EqualClone,
        ensures exact { IfOk result (λ rows. ShowsExactly T.eq error_type self.now.error self.now rows.items) }
        ensures descending { IfOk result (λ rows. Descends rows.items) }
        ensures err { IfErr result (λ e. e ≡ no_memory) }
    {
        self.frequent_items_with_threshold(error_type, self.error)
    }

    /// Returns the tracked items whose bound is above both the threshold and the error, in rows of descending estimate.
    ///
    /// The bound is the upper bound for `NoFalseNegatives`, and the lower bound for `NoFalsePositives`. The order of equal
    /// estimates is unspecified. Allocates the rows and the clones of the items.
    ///
    /// # Errors
    ///
    /// Returns `NoMemory` if the rows or a clone cannot be allocated.
    ///
    /// # Examples
    ///
    /// ```
    /// use sketch_frequencies::{Error, ErrorType, FrequentItemsSketch};
    ///
    /// fn heavier_pages(
    ///     pages: &FrequentItemsSketch<u64>,
    ///     threshold: u64,
    /// ) -> Result<(usize, usize), Error> {
    ///     let surely = pages.frequent_items_with_threshold(ErrorType::NoFalsePositives, threshold)?;
    ///     let perhaps = pages.frequent_items_with_threshold(ErrorType::NoFalseNegatives, threshold)?;
    ///     Ok((surely.len(), perhaps.len()))
    /// }
    /// ```
    pub fn frequent_items_with_threshold(
        &self,
        error_type: ErrorType,
        threshold: u64,
    ) -> Result<Vec<Row<T>>, Error>
    where
        T: EqualClone,
        ensures exact { IfOk result (λ rows. ShowsExactly T.eq error_type threshold self.now rows.items) }
        ensures descending { IfOk result (λ rows. Descends rows.items) }

        // What the rows guarantee, for every history that the sketch represents.
        ensures none_missing { IfOk result (λ rows.
            error_type ≡ ErrorType.NoFalseNegatives → MissesNone T.eq threshold self.now rows.items) }
        ensures none_below { IfOk result (λ rows.
            error_type ≡ ErrorType.NoFalsePositives → ShowsNoneBelow T.eq threshold self.now rows.items) }
        ensures err { IfErr result (λ e. e ≡ no_memory) }
    {
        let mut rows = self.passing_rows(error_type, threshold)?;
        rows.sort_unstable_by(|a, b| b.estimate().cmp(&a.estimate()));
        Ok(rows)
    }

    /// Returns the rows of a report, in the order of a walk.
    fn passing_rows(&self, error_type: ErrorType, threshold: u64) -> Result<Vec<Row<T>>, Error>
    where
        T: EqualClone,
        ensures exact { IfOk result (λ rows. ShowsExactly T.eq error_type threshold self.now rows.items) }
        ensures err { IfErr result (λ e. e ≡ no_memory) }
    {
        // Each count plus the error is at most the total, so it fits. Reading the total brings this into the proof.
        let _total = self.total;
        let error = self.error;
        let floor = threshold.max(error);
        // if each counter gives a row, the room for all of them is allocated at once
        let all_pass = floor == error && error_type == ErrorType::NoFalseNegatives;
        let room = if all_pass { self.map.num_active() } else { 0 };
        let mut rows = Vec::with_capacity(self.map.allocator(), room)?;
        for (item, count) in self.map.iter() {
            let upper_bound = count + error;
            if error_type.is_above(floor, count, upper_bound) {
                rows.push(Row::new(item.clone()?, upper_bound, upper_bound, count))?;
            }
        }
        Ok(rows)
    }
}
