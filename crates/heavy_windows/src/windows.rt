//! The windows of one tenant.
ghost use Rattle.std.specs.Prelude.{◌≡◌, ◌<◌, ◌≤◌, ◌^◌, ◌+◌, ℕ, [], ◌∷◌, false, None, IfOk, IfErr, IsOk, OnOk, OnErr, IsErrOf};
ghost use Rattle.sketch_base.specs.Errors.{invalid_argument, no_memory};
ghost use Rattle.sketch_frequencies.specs.Sizes.{size_fault};
ghost use Rattle.sketch_frequencies.specs.State.{FrequentState, Overflows, TotalHasRoom, must_double};
ghost use Rattle.heavy_windows.specs.Histories.{added_history};
ghost use Rattle.heavy_windows.specs.Merging.{IsMerged};
ghost use Rattle.heavy_windows.specs.Newest.{newest, turned};
ghost use Rattle.heavy_windows.specs.Stands.{ExtendsEach};
ghost use Rattle.heavy_windows.specs.State.{windows_total};
ghost use Rattle.heavy_windows.specs.Steps.{AddsToNewest};

use sketch_base::{Error, Fault};
use sketch_frequencies::{EqualClone, FrequentItemsSketch, TableKey};
use std::alloc::Global;
use std::collections::VecDeque;
use std::hash::Hash;
use std::marker::Model;
use std::mem::replace;

/// The windows of one tenant, of which there is at least one.
#[derive(Debug, Drop)]
pub struct Windows<T: Eq + Hash + Drop> {
    older: VecDeque<FrequentItemsSketch<T>>,
    newest: FrequentItemsSketch<T>,
}

impl<T: Eq + Hash + Drop> Model for Windows<T> {
    ghost use Rattle.std.specs.Prelude.{List, ◌++◌, ◌∷◌, []};
    ghost use Rattle.sketch_frequencies.specs.State.{FrequentState};

    ghost Value = { List (FrequentState T) };

    ghost view = { λ w. w.older.items ++ w.newest ∷ [] };
}

impl<T: Eq + Hash + Drop> Windows<T> {
    /// Creates windows with one window.
    pub(crate) fn new(alloc: Global, window: FrequentItemsSketch<T>) -> Self
        ensures { result ≡ window ∷ [] }
    {
        Windows {
            older: VecDeque::new(alloc),
            newest: window,
        }
    }

    /// Adds a weight above 0 to the item in the newest window.
    pub(crate) fn add(&mut self, item: T, weight: u64) -> Result<(), Error>
        requires some { 0 < weight }
        ensures adds { OnOk result ((fresh : FrequentState T) → AddsToNewest T.eq fresh self.old item weight self.new) }
        ensures stands { OnOk result ((max_map_size : ℕ)
            → ExtendsEach T.eq max_map_size self.old self.new (added_history max_map_size item weight)) }
        ensures err { OnErr result (self.new ≡ self.old) }
        ensures overflow { (fresh : FrequentState T) → Overflows (newest fresh self.old) weight
            → IsErrOf result (invalid_argument Fault.WeightOverflow) }
        ensures memory { (fresh : FrequentState T) → TotalHasRoom (newest fresh self.old) weight
            → IfErr result (λ e. e ≡ no_memory) }
        ensures succeeds { (fresh : FrequentState T) → TotalHasRoom (newest fresh self.old) weight
            → must_double T.eq (newest fresh self.old) item ≡ false → IsOk result }
    {
        self.newest.update_with_count(item, weight)
    }

    /// Makes `window` the newest, and drops the oldest if there are more than the limit.
    pub(crate) fn turn(&mut self, window: FrequentItemsSketch<T>, limit: usize) -> Result<(), Error>
        ensures turned { OnOk result (self.new ≡ turned limit window self.old) }
        ensures err { OnErr result (self.new ≡ self.old) }
        ensures memory { IfErr result (λ e. e ≡ no_memory) }
    {
        self.older.reserve(1)?;
        let newest = replace(&mut self.newest, window);
        self.older.push_back_reserved(newest);
        if self.older.len() < limit {
            return Ok(());
        }
        let _oldest = self.older.pop_front();
        Ok(())
    }

    /// Returns `WeightOverflow` if the total weight of the windows together exceeds the maximum of `u64`.
    fn check_total(&self) -> Result<(), Error>
        ensures ok { OnOk result (windows_total self.now < 2 ^ 64) }
        ensures err { IfErr result (λ e. e ≡ invalid_argument Fault.WeightOverflow) }
        ensures overflow { OnErr result (2 ^ 64 ≤ windows_total self.now) }
    {
        let mut total = self.newest.total_weight();
        for window in self.older.iter() {
            let weight = window.total_weight();
            if weight > u64::MAX - total {
                return Err(Error::invalid_argument(Fault::WeightOverflow));
            }
            total += weight;
        }
        Ok(())
    }
}

impl<T: EqualClone + Hash + Drop> Windows<T> {
    /// Merges the windows into a new sketch under `key`, oldest first.
    pub(crate) fn merged(
        &self,
        alloc: Global,
        max_map_size: usize,
        key: TableKey,
    ) -> Result<FrequentItemsSketch<T>, Error>
        requires size { size_fault max_map_size ≡ None }
        ensures merged { IfOk result (λ merged. IsMerged T.eq max_map_size key self.now merged) }
        ensures overflow { 2 ^ 64 ≤ windows_total self.now → IsErrOf result (invalid_argument Fault.WeightOverflow) }
        ensures memory { windows_total self.now < 2 ^ 64 → IfErr result (λ e. e ≡ no_memory) }
    {
        self.check_total()?;
        let mut merged = FrequentItemsSketch::with_key(alloc, max_map_size, key)?;
        for window in self.older.iter() {
            merged.merge(window)?;
        }
        merged.merge(&self.newest)?;
        Ok(merged)
    }
}
