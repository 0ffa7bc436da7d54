//! Merges of sketches.
ghost use Rattle.std.specs.Prelude.{◌≡◌, ◌+◌, ◌*◌, ◌<◌, ◌≤◌, length, All, IfOk, IfErr, IsOk, IsTrue, OnOk, OnErr, IsErrOf};
ghost use Rattle.sketch_base.specs.Errors.{invalid_argument, no_memory};
ghost use Rattle.sketch_frequencies.specs.Growth.{AddsCounters};
ghost use Rattle.sketch_frequencies.specs.History.FrequentHistory.{Merge};
ghost use Rattle.sketch_frequencies.specs.ManyMerges.{states_of, total_of_all, JoinsAll, ExtendsAll, ExtendsAllBudgets};
ghost use Rattle.sketch_frequencies.specs.Stands.{ExtendsBoth, ExtendsBothBudgets};
ghost use Rattle.sketch_frequencies.specs.State.{IsState, Overflows, TotalHasRoom};
ghost use Rattle.sketch_frequencies.specs.Steps.{JoinsEqual};
ghost use Rattle.counter_table.specs.Tables.{sum_of};

use crate::frequent_items_sketch::FrequentItemsSketch;
use counter_table::EqualClone;
use sketch_base::{Error, Fault};
use std::hash::Hash;

impl<T: Eq + Hash + Drop> FrequentItemsSketch<T> {
    /// Merges another sketch into this one, which then represents both streams. Keeps its own maximum size and sample size.
    ///
    /// Adds each counter of the other sketch as an update, in an unspecified order, and then its error and its total. Builds the
    /// result apart from the sketch, and replaces the sketch at the end. Allocates for a clone of the sketch, for clones of the
    /// other's items and for larger tables. An empty other sketch changes nothing, and nothing is allocated.
    ///
    /// # Errors
    ///
    /// Returns `WeightOverflow` if the total weight of both would exceed `u64::MAX`, and `NoMemory` if an allocation fails. After
    /// an error both sketches are unchanged.
    ///
    /// # Examples
    ///
    /// ```
    /// use sketch_frequencies::{Error, FrequentItemsSketch};
    /// use std::alloc::Global;
    ///
    /// fn shop(alloc: Global, apples: u64) -> Result<FrequentItemsSketch<&'static str>, Error> {
    ///     let mut shop = FrequentItemsSketch::with_sample_size(alloc, 1024, 100)?;
    ///     shop.update_with_count("apple", apples)?;
    ///     Ok(shop)
    /// }
    ///
    /// fn apples_of_both_shops(alloc: Global) -> Result<(u64, u64), Error> {
    ///     let mut both = shop(alloc, 30)?;
    ///     both.merge(&shop(alloc, 12)?)?;
    ///     Ok((both.lower_bound(&"apple"), both.upper_bound(&"apple")))
    /// }
    /// ```
    pub fn merge(&mut self, other: &Self) -> Result<(), Error>
    where
        T: EqualClone,
        ensures nothing { other.now.total ≡ 0 → IsOk result × (self.new ≡ self.old) }
        ensures join { OnOk result (JoinsEqual T.eq self.old other.now self.new) }
        ensures state { IsState T.eq self.new }

        // If both sketches represent histories, the result represents the merged one. It keeps the tail budget if both do.
        ensures stands { OnOk result (ExtendsBoth T.eq self.old other.now self.new Merge) }
        ensures budget { OnOk result (ExtendsBothBudgets T.eq self.old other.now self.new Merge) }

        // An error changes nothing.
        ensures err { OnErr result (self.new ≡ self.old) }
        ensures overflow { Overflows self.old other.now.total → IsErrOf result (invalid_argument Fault.WeightOverflow) }
        ensures memory { TotalHasRoom self.old other.now.total → IfErr result (λ e. e ≡ no_memory) }

        // Numbers are merged without an allocation if the table has its maximum size.
        ensures infallible { T.clones_never_fail → self.old.size ≡ self.old.max_size
            → TotalHasRoom self.old other.now.total → IsOk result }
    {
        self.merge_all(&[other])
    }

    /// Merges each of the others into this sketch, in order, as [`merge`](Self::merge) does. Keeps its own maximum size and
    /// sample size.
    ///
    /// Works in place and allocates nothing if the table has its maximum size and no clone of an item can fail, as for numbers.
    /// Otherwise, builds the result apart from the sketch, and replaces the sketch at the end. Then it allocates for one clone of
    /// the sketch, for clones of the others' items and for larger tables. Empty others change nothing. If all are empty, nothing is
    /// allocated.
    ///
    /// # Errors
    ///
    /// Returns `WeightOverflow` if the total weight of all would exceed `u64::MAX`, and `NoMemory` if an allocation fails. After
    /// an error all sketches are unchanged.
    ///
    /// # Examples
    ///
    /// ```
    /// use sketch_frequencies::{Error, FrequentItemsSketch};
    ///
    /// fn visits_of_the_week(
    ///     week: &mut FrequentItemsSketch<u64>,
    ///     days: &[&FrequentItemsSketch<u64>],
    /// ) -> Result<(), Error> {
    ///     week.merge_all(days)
    /// }
    /// ```
    pub fn merge_all(&mut self, others: &[&Self]) -> Result<(), Error>
    where
        T: EqualClone,
        ensures nothing { total_of_all (states_of others.now) ≡ 0 → IsOk result × (self.new ≡ self.old) }
        ensures joins { OnOk result (JoinsAll T.eq self.old (states_of others.now) self.new) }
        ensures state { IsState T.eq self.new }

        // If all sketches represent histories, the result represents the merged one. It keeps the tail budget if all do.
        ensures stands { OnOk result (ExtendsAll T.eq self.old (states_of others.now) self.new) }
        ensures budget { OnOk result (ExtendsAllBudgets T.eq self.old (states_of others.now) self.new) }

        // An error changes nothing.
        ensures err { OnErr result (self.new ≡ self.old) }
        ensures overflow { Overflows self.old (total_of_all (states_of others.now))
            → IsErrOf result (invalid_argument Fault.WeightOverflow) }
        ensures memory { TotalHasRoom self.old (total_of_all (states_of others.now)) → IfErr result (λ e. e ≡ no_memory) }

        // Numbers are merged without an allocation if the table has its maximum size.
        ensures infallible { T.clones_never_fail → self.old.size ≡ self.old.max_size
            → TotalHasRoom self.old (total_of_all (states_of others.now)) → IsOk result }
    {
        let total = self.total_with(others)?;
        if total == self.total {
            return Ok(());
        }
        if !T::may_fail() && self.map.len() == self.max_size {
            return self.absorb_all(others);
        }
        let merged = self.merged_with(others)?;
        *self = merged;
        Ok(())
    }

    /// Returns the total weight of this sketch and the others, or `WeightOverflow` if it would exceed `u64::MAX`.
    fn total_with(&self, others: &[&Self]) -> Result<u64, Error>
        ensures sum { IfOk result (λ total. total ≡ self.now.total + total_of_all (states_of others.now)) }
        ensures room { OnOk result (TotalHasRoom self.now (total_of_all (states_of others.now))) }
        ensures states { OnOk result (All (IsState T.eq) (states_of others.now)) }
        ensures err { IfErr result (λ e. e ≡ invalid_argument Fault.WeightOverflow) }
        ensures over { OnErr result (Overflows self.now (total_of_all (states_of others.now))) }
    {
        let mut total = self.total;
        'each: for i in 0..others.len() {
            let other = others[i];
            if other.total > u64::MAX - total {
                return Err(Error::invalid_argument(Fault::WeightOverflow));
            }
            total += other.total;
        }
        Ok(total)
    }

    /// Returns a clone of the sketch with the others merged into it.
    fn merged_with(&self, others: &[&Self]) -> Result<Self, Error>
    where
        T: EqualClone,
        requires fits { TotalHasRoom self.now (total_of_all (states_of others.now)) }
        requires some { 0 < length others.now }
        ensures joins { IfOk result (λ merged. JoinsAll T.eq self.now (states_of others.now) merged) }
        ensures state { IfOk result (λ merged. IsState T.eq merged) }
        ensures stands { IfOk result (λ merged. ExtendsAll T.eq self.now (states_of others.now) merged) }
        ensures budget { IfOk result (λ merged. ExtendsAllBudgets T.eq self.now (states_of others.now) merged) }
        ensures err { IfErr result (λ e. e ≡ no_memory) }
    {
        // Borrows a field, which brings the invariant of the sketch into the proof.
        let _ = &self.map;
        let mut merged = self.try_clone()?;
        merged.absorb_all(others)?;
        Ok(merged)
    }

    /// Merges the others into this one in place, in order. After an error this one may be changed.
    fn absorb_all(&mut self, others: &[&Self]) -> Result<(), Error>
    where
        T: EqualClone,
        requires fits { TotalHasRoom self.old (total_of_all (states_of others.now)) }
        requires some { 0 < length others.now }
        ensures joins { OnOk result (JoinsAll T.eq self.old (states_of others.now) self.new) }
        ensures state { IsState T.eq self.new }
        ensures stands { OnOk result (ExtendsAll T.eq self.old (states_of others.now) self.new) }
        ensures budget { OnOk result (ExtendsAllBudgets T.eq self.old (states_of others.now) self.new) }
        ensures err { IfErr result (λ e. e ≡ no_memory) }
        ensures infallible { ((x : T) → T.is_infallible x) → self.old.size ≡ self.old.max_size → IsOk result }
    {
        // Borrows a field, which brings the invariant of the sketch into the proof.
        let _ = &self.map;
        'each: for i in 0..others.len() {
            self.absorb(others[i])?;
        }
        Ok(())
    }

    /// Merges another sketch into this one in place. After an error this one may be changed.
    fn absorb(&mut self, other: &Self) -> Result<(), Error>
    where
        T: EqualClone,
        requires fits { TotalHasRoom self.old other.now.total }
        ensures join { OnOk result (JoinsEqual T.eq self.old other.now self.new) }
        ensures total { OnOk result (self.new.total ≡ self.old.total + other.now.total) }
        ensures state { IsState T.eq self.new }
        ensures stands { OnOk result (ExtendsBoth T.eq self.old other.now self.new Merge) }
        ensures budget { OnOk result (ExtendsBothBudgets T.eq self.old other.now self.new Merge) }
        ensures greatest { OnOk result (self.old.size ≡ self.old.max_size → self.new.size ≡ self.new.max_size) }
        ensures err { IfErr result (λ e. e ≡ no_memory) }
        ensures infallible { ((x : T) → T.is_infallible x) → self.old.size ≡ self.old.max_size → IsOk result }
    {
        // Borrows a field, which brings the invariant of the sketch into the proof.
        let _ = &self.map;
        if other.total == 0 {
            return Ok(());
        }
        let total = self.total + other.total;
        self.add_counters(other)?;
        self.settle(other.error, total);
        Ok(())
    }

    /// Adds every counter of the other sketch.
    fn add_counters(&mut self, other: &Self) -> Result<(), Error>
    where
        T: EqualClone,
        requires fits { TotalHasRoom self.old other.now.total }
        ensures ok { OnOk result (AddsCounters T.eq self.old other.now.counters self.new) }
        ensures state { IsState T.eq self.new }
        ensures greatest { OnOk result (self.old.size ≡ self.old.max_size → self.new.size ≡ self.new.max_size) }
        ensures err { IfErr result (λ e. e ≡ no_memory) }
        ensures infallible { ((x : T) → T.is_infallible x) → self.old.size ≡ self.old.max_size → IsOk result }
    {
        // Borrows a field, which brings the invariant of the sketch into the proof.
        let _ = &self.map;
        for (item, count) in other.map.iter() {
            self.update_item_with_count(item, count)?;
        }
        Ok(())
    }

    /// Adds to the error, and sets the total.
    fn settle(&mut self, error: u64, total: u64)
        requires sum { sum_of self.old.counters + self.old.error + error ≤ total }
        requires some { 0 < total }
        ensures settled { self.new ≡ record self.old { error = self.old.error + error; total = total } }
        ensures state { IsState T.eq self.new }
    {
        self.error += error;
        self.total = total;
    }
}
