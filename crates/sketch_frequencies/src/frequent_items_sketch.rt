//! The sketch of frequent items.
ghost use Rattle.std.specs.Prelude.{◌≡◌, ◌+◌, ◌<◌, ◌≤◌, ◌^◌, ◌↔◌, None, length, IfOk, IfErr, IsOk, OnErr, OnOk, IsTrue};
ghost use Rattle.sketch_base.specs.Errors.{invalid_argument, no_memory, refusal_of};
ghost use Rattle.counter_table.specs.Bytes.{table_bytes};
ghost use Rattle.counter_table.specs.declared.table_key.TableKey.TheVariants.{Plain};
ghost use Rattle.sketch_frequencies.specs.History.{FrequentHistory, total_weight};
ghost use Rattle.sketch_frequencies.specs.History.FrequentHistory.{New, Merge, Reset};
ghost use Rattle.sketch_frequencies.specs.Sizes.{sample_fault, size_fault, sizes_fault};
ghost use Rattle.sketch_frequencies.specs.Stands.{StandsFor, KeepsTailBudget, Extends, ExtendsBudget};
ghost use Rattle.sketch_frequencies.specs.State.{IsState, capacity, max_sample_size, empty_state, emptied};
ghost use Rattle.sketch_frequencies.specs.Steps.{IsSameState};

mod batches;
mod images;
mod keyed_batches;
mod merging;
mod reports;
mod updates;

use crate::frequent_items_sizes::FrequentItemsSizes;
use crate::sizes::{MIN_MAP_SIZE, check_map_size, check_sample_size};
use counter_table::{EqualClone, ReversePurgeItemHashMap, TableKey, capacity_of, lg_of};
use sketch_base::{Error, Fault};
use std::alloc::{AllocError, Global};
use std::hash::Hash;
use std::marker::Model;

/// A sketch of the most frequent items of a weighted stream, in bounded memory.
///
/// It keeps at most three quarters of its maximum table size in counters. If an update needs one more, a purge subtracts
/// a middle count of a sample from every counter. It drops the counters that are left with nothing, and adds that count
/// to the error. So each item's true weight lies between its `lower_bound` and its `upper_bound`, which differ by
/// `maximum_error`.
///
/// The sample size is the number of counters that a purge samples. Constructors choose it, and
/// [`set_sample_size`](Self::set_sample_size) changes it. A small sample makes a purge cheap, and a large one keeps the error
/// small. The tail budget may set aside half as many items as the smallest sample size that the sketch had since its last reset.
///
/// # Examples
///
/// ```
/// use sketch_frequencies::{Error, ErrorType, FrequentItemsSketch};
/// use std::alloc::{AllocError, Global};
///
/// fn heaviest(alloc: Global, numbers: &[u64]) -> Result<Option<u64>, Error> {
///     let mut sketch = FrequentItemsSketch::new(alloc, 64)?;
///     for number in numbers {
///         sketch.update(*number)?;
///     }
///     let rows = sketch.frequent_items(ErrorType::NoFalsePositives)?;
///     Ok(rows.first().map(|row| row.estimate()))
/// }
/// ```
#[derive(Debug, Drop)]
pub struct FrequentItemsSketch<T: Eq + Hash + Drop> {
    map: ReversePurgeItemHashMap<T>,
    error: u64,
    total: u64,
    max_size: usize,
    sample_size: usize,
}

impl<T: Eq + Hash + Drop> Model for FrequentItemsSketch<T> {
    ghost use Rattle.sketch_frequencies.specs.State.{FrequentState, IsState, state_of};

    ghost Value = { FrequentState T };

    ghost view = { λ a. state_of a.map a.error a.total a.max_size a.sample_size };

    ghost invariant = { λ a. IsState T.eq (state_of a.map a.error a.total a.max_size a.sample_size) };
}

impl<T: Eq + Hash + Drop> FrequentItemsSketch<T> {
    /// Creates an empty sketch whose table has 8 slots and may grow to `max_map_size`, a power of two from 8 to 2^30.
    ///
    /// Its sample size is the maximum: three quarters of `max_map_size`, at most 1024. Equals `with_sample_size` with that
    /// sample size. Allocates the table.
    ///
    /// # Errors
    ///
    /// Returns `MapSizeNotPowerOfTwo`, `MapSizeTooSmall` below 8 or `MapSizeTooLarge` above 2^30, checked in this order.
    /// Returns `NoMemory` if the table cannot be allocated.
    pub fn new(alloc: Global, max_map_size: usize) -> Result<Self, Error>
        ensures ok { IfOk result (λ sketch. sketch ≡ empty_state max_map_size (max_sample_size max_map_size) Plain) }
        ensures state { IfOk result (λ sketch. IsState T.eq sketch) }
        ensures stands { IfOk result (λ sketch.
            StandsFor T.eq sketch (New max_map_size (max_sample_size max_map_size))) }
        ensures budget { IfOk result (λ sketch.
            KeepsTailBudget T.eq sketch (New max_map_size (max_sample_size max_map_size))) }
        ensures accepted { IsOk result → size_fault max_map_size ≡ None }
        ensures refused { IfErr result (λ e. e ≡ refusal_of (size_fault max_map_size)) }
    {
        Self::with_key(alloc, max_map_size, TableKey::Plain)
    }

    /// Creates an empty sketch whose table has 8 slots and may grow to `max_map_size`, a power of two from 8 to 2^30.
    ///
    /// Its purges sample `sample_size` counters: an even number from 2 to three quarters of `max_map_size`, at most 1024. A
    /// small sample makes a purge cheap and costs accuracy: `sample_size` * error is at most twice the total weight.
    /// Allocates the table.
    ///
    /// # Errors
    ///
    /// Returns `MapSizeNotPowerOfTwo`, `MapSizeTooSmall` below 8 or `MapSizeTooLarge` above 2^30, checked in this order.
    /// Then returns `BadSampleSize` if `sample_size` is out of range or odd, and `NoMemory` if the table cannot be allocated.
    pub fn with_sample_size(
        alloc: Global,
        max_map_size: usize,
        sample_size: usize,
    ) -> Result<Self, Error>
        ensures ok { IfOk result (λ sketch. sketch ≡ empty_state max_map_size sample_size Plain) }
        ensures state { IfOk result (λ sketch. IsState T.eq sketch) }
        ensures stands { IfOk result (λ sketch. StandsFor T.eq sketch (New max_map_size sample_size)) }
        ensures budget { IfOk result (λ sketch. KeepsTailBudget T.eq sketch (New max_map_size sample_size)) }
        ensures accepted { IsOk result → sizes_fault max_map_size sample_size ≡ None }
        ensures refused { IfErr result (λ e. e ≡ refusal_of (sizes_fault max_map_size sample_size)) }
    {
        let sizes = FrequentItemsSizes {
            max_map_size,
            sample_size,
        };
        Self::with_sizes(alloc, sizes, TableKey::Plain)
    }

    /// Creates an empty sketch as [`new`](Self::new) does, whose table hashes under `key`.
    ///
    /// With a secret key, no way is known to choose items that slow the sketch down. This holds for callers who see no images,
    /// rows, walks or times of calls of sketches under the key ([`TableKey`]). The sketch and its clones keep the key. No image
    /// contains it.
    ///
    /// # Errors
    ///
    /// Returns those of `new`.
    ///
    /// # Examples
    ///
    /// ```
    /// use sketch_frequencies::{Error, FrequentItemsSketch, HashKey, TableKey};
    /// use std::alloc::Global;
    ///
    /// fn senders(alloc: Global, random: &[u8; 16]) -> Result<FrequentItemsSketch<u64>, Error> {
    ///     let key = TableKey::Keyed(HashKey::from_bytes(random));
    ///     FrequentItemsSketch::with_key(alloc, 1024, key)
    /// }
    /// ```
    pub fn with_key(alloc: Global, max_map_size: usize, key: TableKey) -> Result<Self, Error>
        ensures ok { IfOk result (λ sketch. sketch ≡ empty_state max_map_size (max_sample_size max_map_size) key) }
        ensures state { IfOk result (λ sketch. IsState T.eq sketch) }
        ensures stands { IfOk result (λ sketch.
            StandsFor T.eq sketch (New max_map_size (max_sample_size max_map_size))) }
        ensures budget { IfOk result (λ sketch.
            KeepsTailBudget T.eq sketch (New max_map_size (max_sample_size max_map_size))) }
        ensures accepted { IsOk result → size_fault max_map_size ≡ None }
        ensures refused { IfErr result (λ e. e ≡ refusal_of (size_fault max_map_size)) }
    {
        Self::with_sizes(alloc, FrequentItemsSizes::new(max_map_size), key)
    }

    /// Creates an empty sketch of these sizes, whose table hashes under `key`, as that of [`with_key`](Self::with_key).
    ///
    /// # Errors
    ///
    /// Returns those of `with_sample_size`.
    pub fn with_sizes(
        alloc: Global,
        sizes: FrequentItemsSizes,
        key: TableKey,
    ) -> Result<Self, Error>
        ensures ok { IfOk result (λ sketch. sketch ≡ empty_state sizes.max_map_size sizes.sample_size key) }
        ensures state { IfOk result (λ sketch. IsState T.eq sketch) }
        ensures stands { IfOk result (λ sketch. StandsFor T.eq sketch (New sizes.max_map_size sizes.sample_size)) }
        ensures budget { IfOk result (λ sketch.
            KeepsTailBudget T.eq sketch (New sizes.max_map_size sizes.sample_size)) }
        ensures accepted { IsOk result → sizes_fault sizes.max_map_size sizes.sample_size ≡ None }
        ensures refused { IfErr result (λ e. e ≡ refusal_of (sizes_fault sizes.max_map_size sizes.sample_size)) }
    {
        check_map_size(sizes.max_map_size)?;
        check_sample_size(sizes.max_map_size, sizes.sample_size)?;
        let map = ReversePurgeItemHashMap::with_key(alloc, MIN_MAP_SIZE, key)?;
        Ok(FrequentItemsSketch {
            map,
            error: 0,
            total: 0,
            max_size: sizes.max_map_size,
            sample_size: sizes.sample_size,
        })
    }

    /// Removes all items, and sets the total weight and the error to 0. Keeps the maximum size, the sample size, the key and the
    /// number of purges, which with the key selects where the next purge samples.
    ///
    /// Does not allocate. The table keeps its array and uses 8 slots of it. When the table next doubles, it allocates an array
    /// of the new size and frees the kept one.
    pub fn reset(&mut self)
        ensures empty { self.new ≡ emptied self.old }
        ensures state { IsState T.eq self.new }
        ensures stands { Extends T.eq self.old self.new Reset }
        ensures budget { (h : FrequentHistory T) → KeepsTailBudget T.eq self.new (Reset h) }

        // Whatever came before, also an untrusted image, the sketch represents the history of a new one.
        ensures renewed { StandsFor T.eq self.new (New self.old.max_size self.old.sample_size) }
        ensures renewed_budget { KeepsTailBudget T.eq self.new (New self.old.max_size self.old.sample_size) }
    {
        self.map.clear(MIN_MAP_SIZE);
        self.error = 0;
        self.total = 0;
    }

    /// Returns the total weight of all items.
    pub fn total_weight(&self) -> u64
        ensures { result ≡ self.now.total }
    {
        self.total
    }

    /// Returns whether the total weight is 0. A purge can drop every counter of a sketch that is not empty.
    pub fn is_empty(&self) -> bool
        ensures { IsTrue result ↔ (self.now.total ≡ 0) }
    {
        self.total == 0
    }

    /// Returns the number of tracked items: at most three quarters of the maximum table size.
    pub fn num_active_items(&self) -> usize
        ensures active { result ≡ length self.now.counters }
        ensures few { result ≤ capacity self.now.max_size }

        // The invariant of every sketch.
        ensures state { IsState T.eq self.now }
    {
        self.map.num_active()
    }

    /// Returns the maximum number of tracked items: three quarters of the maximum table size.
    pub fn maximum_map_capacity(&self) -> usize
        ensures { result ≡ capacity self.now.max_size }
    {
        capacity_of(self.max_size)
    }

    /// Returns the maximum number of tracked items at the table's current size: three quarters of it.
    pub fn current_map_capacity(&self) -> usize
        ensures { result ≡ capacity self.now.size }
    {
        self.map.capacity()
    }

    /// Returns the maximum table size, in slots.
    pub fn max_map_size(&self) -> usize
        ensures { result ≡ self.now.max_size }
    {
        self.max_size
    }

    /// Returns the number of counters that a purge samples.
    ///
    /// It is an even number from 2 to three quarters of the maximum table size, at most 1024.
    pub fn sample_size(&self) -> usize
        ensures { result ≡ self.now.sample_size }
    {
        self.sample_size
    }

    /// Returns the key under which the table hashes.
    pub fn key(&self) -> TableKey
        ensures { result ≡ self.now.key }
    {
        self.map.key()
    }

    /// Sets the number of counters that later purges sample: an even number from 2 to three quarters of the maximum table
    /// size, at most 1024. Nothing else changes.
    ///
    /// The sketch then represents a merge of its history into a new sketch of its maximum size and this sample size. An image
    /// does not contain the sample size, so this call restores it after `deserialize`.
    ///
    /// # Errors
    ///
    /// Returns `BadSampleSize` if `sample_size` is out of range or odd. The sketch is then unchanged.
    pub fn set_sample_size(&mut self, sample_size: usize) -> Result<(), Error>
        ensures ok { OnOk result (self.new ≡ record self.old { sample_size = sample_size }) }
        ensures state { IsState T.eq self.new }
        ensures stands { OnOk result (Extends T.eq self.old self.new
            (λ h. Merge (New self.old.max_size sample_size) h)) }
        ensures budget { OnOk result (ExtendsBudget T.eq self.old self.new
            (λ h. Merge (New self.old.max_size sample_size) h)) }
        ensures accepted { IsOk result ↔ (sample_fault self.old.max_size sample_size ≡ None) }
        ensures refused { IfErr result (λ e. e ≡ invalid_argument Fault.BadSampleSize) }
        ensures err { OnErr result (self.new ≡ self.old) }
    {
        check_sample_size(self.max_size, sample_size)?;
        self.sample_size = sample_size;
        Ok(())
    }

    /// Returns the base-2 logarithm of the maximum table size.
    pub fn lg_max_map_size(&self) -> u8
        ensures { 2 ^ result ≡ self.now.max_size }
    {
        lg_of(self.max_size)
    }

    /// Returns the base-2 logarithm of the table's current size.
    pub fn lg_cur_map_size(&self) -> u8
        ensures { 2 ^ result ≡ self.now.size }
    {
        self.map.lg_length()
    }

    /// Returns an estimate of the table's bytes by a fixed formula: for each slot, the bytes of an `Option<T>` and 12 more.
    /// Returns `usize::MAX` if that would exceed it.
    pub fn estimated_size(&self) -> usize
        ensures { result ≡ table_bytes T.row self.now.size }
    {
        self.map.estimated_size()
    }

    /// Returns the same sketch with clones of the items, after the same number of purges.
    ///
    /// Allocates a table of the same size and the clones.
    ///
    /// # Errors
    ///
    /// Returns `NoMemory` if the table or a clone cannot be allocated.
    pub fn try_clone(&self) -> Result<Self, Error>
    where
        T: EqualClone,
        ensures same { IfOk result (λ sketch. IsSameState T.eq self.now sketch) }
        ensures state { IfOk result (λ sketch. IsState T.eq sketch) }
        ensures stands { IfOk result (λ sketch. Extends T.eq self.now sketch (λ h. h)) }
        ensures budget { IfOk result (λ sketch.
            (h : FrequentHistory T) → KeepsTailBudget T.eq self.now h → KeepsTailBudget T.eq sketch h) }
        ensures err { IfErr result (λ e. e ≡ no_memory) }
    {
        let map = self.map.try_clone()?;
        Ok(FrequentItemsSketch {
            map,
            error: self.error,
            total: self.total,
            max_size: self.max_size,
            sample_size: self.sample_size,
        })
    }
}

impl<T: EqualClone + Hash> Clone for FrequentItemsSketch<T> {
    ghost is_clone = { IsSameState T.eq };

    /// Clones the sketch as [`try_clone`](FrequentItemsSketch::try_clone) does.
    fn clone(&self) -> Result<Self, AllocError> {
        match self.try_clone() {
            Ok(copy) => Ok(copy),
            Err(_) => Err(AllocError),
        }
    }
}
