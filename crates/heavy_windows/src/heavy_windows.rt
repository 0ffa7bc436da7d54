//! The windows of all tenants.
ghost use Rattle.std.specs.Prelude.{◌≡◌, ℕ, ◌<◌, ◌≤◌, ◌^◌, [], None, IfOk, IfErr, IsOk, OnOk, IsErrOf};
ghost use Rattle.sketch_base.specs.Errors.{invalid_argument, no_memory, refusal_of};
ghost use Rattle.counter_table.specs.declared.table_key.TableKey.TheVariants.{Plain};
ghost use Rattle.heavy_windows.specs.Calls.{IsMade, IsAddition, IsTurn, IsReport};
ghost use Rattle.heavy_windows.specs.Merging.{IsMerged};
ghost use Rattle.heavy_windows.specs.Sizes.{limits_fault};
ghost use Rattle.heavy_windows.specs.Stands.{WindowsStandFor};
ghost use Rattle.heavy_windows.specs.State.{at_tenant, windows_total, IsWindows};

use crate::report::Report;
use crate::windows::Windows;
use sketch_base::{Error, Fault, MapState};
use sketch_frequencies::{EqualClone, ErrorType, FrequentItemsSketch, TableKey, check_map_size};
use std::alloc::Global;
use std::collections::HashMap;
use std::hash::{Hash, RandomState};
use std::marker::Model;

/// The maximum number of windows of a tenant.
const MAX_WINDOWS: usize = 1024;

/// The heavy hitters of each tenant over its last windows.
///
/// A tenant is a number. It is known once a weight above 0 was added for it. Each window of a tenant is a sketch of the
/// weights that were added while it was the newest. A call for one tenant leaves the windows of all others unchanged:
/// this is proved. Its cost does not grow with the number of tenants, except if the hash map of tenants has to grow for
/// a new one: this is not proved.
///
/// # Examples
///
/// ```
/// use heavy_windows::{Error, ErrorType, HeavyWindows, Report};
/// use std::alloc::Global;
///
/// fn load_of_a_customer(alloc: Global) -> Result<Report<&'static str>, Error> {
///     let mut load = HeavyWindows::new(alloc, 24, 1024)?;
///     load.add(7, "/search", 5_300)?;
///     load.turn(7)?;
///     load.add(7, "/search", 1_200)?;
///     load.report(7, ErrorType::NoFalsePositives, 1_000)
/// }
/// ```
#[derive(Debug, Drop)]
pub struct HeavyWindows<T: Eq + Hash + Drop> {
    alloc: Global,
    limit: usize,
    max_map_size: usize,
    key: TableKey,
    tenants: HashMap<u64, Windows<T>, MapState>,
}

impl<T: Eq + Hash + Drop> Model for HeavyWindows<T> {
    ghost use Rattle.heavy_windows.specs.State.{WindowsState, IsWindows, windows_of};

    ghost Value = { WindowsState T };

    ghost view = { λ w. windows_of w.limit w.max_map_size w.key w.tenants };

    ghost invariant = { λ w. IsWindows (windows_of w.limit w.max_map_size w.key w.tenants) };
}

impl<T: Eq + Hash + Drop> HeavyWindows<T> {
    /// Creates an empty store with no known tenant. Does not allocate.
    ///
    /// Each tenant may have up to `windows` windows, from 1 to 1024. Each window may have a table of up to
    /// `max_map_size` slots, a power of two from 8 to 2^30.
    ///
    /// # Errors
    ///
    /// The first of these that applies:
    ///
    /// - `BadWindows` unless `windows` is from 1 to 1024;
    /// - `MapSizeNotPowerOfTwo` unless `max_map_size` is a power of two;
    /// - `MapSizeTooSmall` if it is below 8;
    /// - `MapSizeTooLarge` if it is above 2^30.
    pub fn new(alloc: Global, windows: usize, max_map_size: usize) -> Result<Self, Error>
        ensures call { IsMade windows max_map_size Plain result }
        ensures state { IfOk result IsWindows }
        ensures stands { IfOk result (λ w. (tenant : ℕ) → WindowsStandFor T.eq max_map_size (at_tenant tenant w) []) }
    {
        Self::with_state(
            alloc,
            windows,
            max_map_size,
            TableKey::Plain,
            MapState::fixed(),
        )
    }

    /// Creates an empty store as [`new`](Self::new) does, whose sketches hash under `key`.
    ///
    /// All windows and the merged sketches of reports have tables under the key. With a secret key, no way is known to
    /// choose items that slow them down. This holds for callers who see no images, rows, walks or times of calls of sketches
    /// under the key ([`TableKey`]). A report has rows. The map of tenants hashes as that of `new`. If callers choose the tenants'
    /// numbers, use [`with_key_and_hasher`](Self::with_key_and_hasher).
    ///
    /// # Errors
    ///
    /// Returns those of `new`.
    ///
    /// # Examples
    ///
    /// ```
    /// use heavy_windows::{Error, HashKey, HeavyWindows, TableKey};
    /// use std::alloc::Global;
    ///
    /// fn keyed_load(alloc: Global, random: &[u8; 16]) -> Result<HeavyWindows<String>, Error> {
    ///     let key = TableKey::Keyed(HashKey::from_bytes(random));
    ///     HeavyWindows::with_key(alloc, 24, 1024, key)
    /// }
    /// ```
    pub fn with_key(
        alloc: Global,
        windows: usize,
        max_map_size: usize,
        key: TableKey,
    ) -> Result<Self, Error>
        ensures call { IsMade windows max_map_size key result }
        ensures state { IfOk result IsWindows }
        ensures stands { IfOk result (λ w. (tenant : ℕ) → WindowsStandFor T.eq max_map_size (at_tenant tenant w) []) }
    {
        Self::with_state(alloc, windows, max_map_size, key, MapState::fixed())
    }

    /// Creates an empty store as [`with_key`](Self::with_key) does, whose map of tenants hashes under `hash_builder`.
    ///
    /// With secret keys, no way is known to choose tenants that slow down the calls for others.
    ///
    /// # Errors
    ///
    /// Returns those of `new`.
    ///
    /// # Examples
    ///
    /// ```
    /// use heavy_windows::{Error, HashKey, HeavyWindows, TableKey};
    /// use std::alloc::Global;
    /// use std::hash::RandomState;
    ///
    /// fn load_of_strangers(
    ///     alloc: Global,
    ///     random: &[u8; 16],
    ///     hash_builder: RandomState,
    /// ) -> Result<HeavyWindows<String>, Error> {
    ///     let key = TableKey::Keyed(HashKey::from_bytes(random));
    ///     HeavyWindows::with_key_and_hasher(alloc, 24, 1024, key, hash_builder)
    /// }
    /// ```
    pub fn with_key_and_hasher(
        alloc: Global,
        windows: usize,
        max_map_size: usize,
        key: TableKey,
        hash_builder: RandomState,
    ) -> Result<Self, Error>
        ensures call { IsMade windows max_map_size key result }
        ensures hasher { IfOk result (λ w. w.hasher ≡ MapState.Random hash_builder) }
        ensures state { IfOk result IsWindows }
        ensures stands { IfOk result (λ w. (tenant : ℕ) → WindowsStandFor T.eq max_map_size (at_tenant tenant w) []) }
    {
        let state = MapState::Random(hash_builder);
        Self::with_state(alloc, windows, max_map_size, key, state)
    }

    /// Creates an empty store with these keys.
    fn with_state(
        alloc: Global,
        windows: usize,
        max_map_size: usize,
        key: TableKey,
        state: MapState,
    ) -> Result<Self, Error>
        ensures call { IsMade windows max_map_size key result }
        ensures hasher { IfOk result (λ w. w.hasher ≡ state) }
        ensures state { IfOk result IsWindows }
        ensures stands { IfOk result (λ w. (tenant : ℕ) → WindowsStandFor T.eq max_map_size (at_tenant tenant w) []) }
    {
        check_limits(windows, max_map_size)?;
        Ok(HeavyWindows {
            alloc,
            limit: windows,
            max_map_size,
            key,
            tenants: HashMap::with_hasher(alloc, state),
        })
    }

    /// Adds `weight` to the item in the tenant's newest window. An unknown tenant becomes known, and gets a first
    /// window.
    ///
    /// A weight of 0 changes nothing, makes no tenant known and succeeds.
    ///
    /// # Errors
    ///
    /// All windows are unchanged after an error, and an unknown tenant is still unknown.
    ///
    /// - `WeightOverflow` if the total weight of the window would exceed the maximum of `u64`;
    /// - `NoMemory` if a first window with its entry, or a table of twice the size for the newest window, cannot be
    ///   allocated.
    pub fn add(&mut self, tenant: u64, item: T, weight: u64) -> Result<(), Error>
        ensures call { IsAddition T.eq tenant weight item self.old result self.new }
        ensures state { IsWindows self.new }
    {
        // For the prover: this read brings in what holds of all windows.
        let _ = &self.tenants;
        if weight == 0 {
            return Ok(());
        }
        if let Some(windows) = self.tenants.get_mut(&tenant) {
            return windows.add(item, weight);
        }
        let mut window = FrequentItemsSketch::with_key(self.alloc, self.max_map_size, self.key)?;
        window.update_with_count(item, weight)?;
        let windows = Windows::new(self.alloc, window);
        self.tenants.insert(tenant, windows)?;
        Ok(())
    }

    /// Opens an empty window for the tenant, and drops the oldest if there are then more than the maximum.
    ///
    /// For an unknown tenant it does nothing and succeeds.
    ///
    /// # Errors
    ///
    /// `NoMemory` if the window, or the room to append it, cannot be allocated. All windows are then unchanged.
    pub fn turn(&mut self, tenant: u64) -> Result<(), Error>
        ensures call { IsTurn T.eq tenant self.old result self.new }
        ensures state { IsWindows self.new }
    {
        let Some(windows) = self.tenants.get_mut(&tenant) else {
            return Ok(());
        };
        let window = FrequentItemsSketch::with_key(self.alloc, self.max_map_size, self.key)?;
        windows.turn(window, self.limit)
    }

    /// Returns the heavy hitters of the tenant over all its windows.
    ///
    /// The windows are merged into one new sketch, oldest first (mergeable summaries, Agarwal et al. 2012). The report
    /// has the rows that [`frequent_items_with_threshold`](FrequentItemsSketch::frequent_items_with_threshold) returns
    /// for it, its error and its total weight. The rows are those of the items whose bound is above both the threshold
    /// and the error. For an unknown tenant there are no rows, and error and total are 0. Items are cloned, and their
    /// clones equal them ([`EqualClone`]).
    ///
    /// It is proved that
    ///
    /// - each row's bounds enclose the weight of its item in the windows together;
    /// - with `NoFalseNegatives` no item with a weight above both the threshold and the error is missing;
    /// - with `NoFalsePositives` each item in the rows has a weight above both;
    /// - for each set of at most h items, (h - size of the set) * error is at most the weight of all other items
    ///   (Berinde, Indyk, Cormode & Strauss 2009). Here h is half of the maximum sample of a purge, min(1024, 3/4 of
    ///   `max_map_size`).
    ///
    /// # Errors
    ///
    /// - `WeightOverflow` if the total weight of the windows together exceeds the maximum of `u64`; nothing is then
    ///   allocated;
    /// - `NoMemory` if the merged sketch or the rows cannot be allocated.
    pub fn report(
        &self,
        tenant: u64,
        error_type: ErrorType,
        threshold: u64,
    ) -> Result<Report<T>, Error>
    where
        T: EqualClone,
        ensures call { IsReport T.eq tenant error_type threshold self.now result }
    {
        let merged = self.merged(tenant)?;
        let rows = merged.frequent_items_with_threshold(error_type, threshold)?;
        Ok(Report {
            rows,
            maximum_error: merged.maximum_error(),
            total_weight: merged.total_weight(),
        })
    }

    /// Merges the tenant's windows into a new sketch, oldest first.
    fn merged(&self, tenant: u64) -> Result<FrequentItemsSketch<T>, Error>
    where
        T: EqualClone,
        ensures merged { IfOk result (λ merged.
            IsMerged T.eq self.now.max_map_size self.now.key (at_tenant tenant self.now) merged) }
        ensures overflow { 2 ^ 64 ≤ windows_total (at_tenant tenant self.now)
            → IsErrOf result (invalid_argument Fault.WeightOverflow) }
        ensures memory { windows_total (at_tenant tenant self.now) < 2 ^ 64 → IfErr result (λ e. e ≡ no_memory) }
    {
        match self.tenants.get(&tenant) {
            Some(windows) => windows.merged(self.alloc, self.max_map_size, self.key),
            None => FrequentItemsSketch::with_key(self.alloc, self.max_map_size, self.key),
        }
    }
}

/// Checks the number of windows and the maximum table size.
fn check_limits(windows: usize, max_map_size: usize) -> Result<(), Error>
    ensures ok { OnOk result (limits_fault windows max_map_size ≡ None) }
    ensures accepted { limits_fault windows max_map_size ≡ None → IsOk result }
    ensures refused { IfErr result (λ e. e ≡ refusal_of (limits_fault windows max_map_size)) }
{
    if windows == 0 || windows > MAX_WINDOWS {
        return Err(Error::invalid_argument(Fault::BadWindows));
    }
    check_map_size(max_map_size)
}
