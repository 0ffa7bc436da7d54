//! The Count-Min sketch.
ghost use Rattle.std.specs.Prelude.{◌≡◌, ◌≢◌, ℕ, ◌+◌, ◌*◌, ◌<◌, ◌≤◌, ◌↔◌, None, false, ℤ, pos, ◌≤ℤ◌, ◌-ℤ◌, unsigned_abs, OnOk, OnErr, IfOk, IfErr, IsOk, IsTrue, IsErrOf};
ghost use Rattle.sketch_base.specs.Errors.{invalid_argument, no_memory, refusal_of};
ghost use Rattle.sketch_base.specs.Hashes.{fed_bytes, seed_hash};
ghost use Rattle.sketch_countmin.specs.History.{CountHistory, IsNonnegative, IsExact, own_value, others_share};
ghost use Rattle.sketch_countmin.specs.History.CountHistory.{New, Update, Merge};
ghost use Rattle.sketch_countmin.specs.Rows.{cell_at};
ghost use Rattle.sketch_countmin.specs.Shapes.{shape_fault};
ghost use Rattle.sketch_countmin.specs.Stands.{StandsFor, Extends, ExtendsBoth};
ghost use Rattle.sketch_countmin.specs.State.{IsCountState, SameShape, Counts, Joins, IsMin, IsMinCell, empty_state, upper_bound_of};

mod aging;
mod batches;
mod images;

use crate::cells::zeros;
use crate::count_min_bounds::CountMinBounds;
use crate::count_min_sizes::CountMinSizes;
use crate::count_min_value::CountMinValue;
use crate::grid::Grid;
use crate::limits::{MAX_TABLE_ENTRIES, MIN_NUM_BUCKETS};
use crate::margin::with_margin;
use crate::row_item::RowItem;
use sketch_base::{DEFAULT_UPDATE_SEED, Error, ErrorKind, Fault, compute_seed_hash};
use std::alloc::{AllocError, Global};
use std::fmt;
use std::hash::Hash;
use std::marker::Model;

/// A Count-Min sketch of the weights of items (Cormode & Muthukrishnan 2005): a table with a row of cells for each
/// hash.
///
/// An item has one cell in each row, at its bucket. The bucket is the first half of MurmurHash3 x64 128 of the bytes
/// that the item's `Hash` feeds, under the row's seed, modulo the number of buckets. The seed of a row is the first
/// half of the same hash of the row's number, from 0 on, under the sketch's seed. The number is hashed as eight bytes,
/// little-endian. Items that feed the same bytes are the same item.
///
/// No cell is further from zero than the total weight.
///
/// # Examples
///
/// ```
/// use sketch_base::Error;
/// use sketch_countmin::CountMinSketch;
/// use std::alloc::Global;
///
/// fn bytes_of_apple(alloc: Global) -> Result<u64, Error> {
///     let mut traffic: CountMinSketch<u64> = CountMinSketch::new(alloc, 4, 128)?;
///     traffic.update_with_weight("apple", 90)?;
///     traffic.halve();
///     Ok(traffic.estimate("apple"))
/// }
/// ```
#[derive(Drop)]
pub struct CountMinSketch<T: CountMinValue> {
    grid: Grid<T>,
    total: T,
    seed: u64,
}

impl<T: CountMinValue> Model for CountMinSketch<T> {
    ghost use Rattle.sketch_countmin.specs.State.{CountState};
    ghost use Rattle.sketch_countmin.specs.Table.{IsTable, state_of};

    ghost Value = { CountState };

    ghost view = { λ a. state_of a.grid.row_seeds a.grid.buckets a.seed (T.number a.total) a.grid.cells };

    ghost invariant = { λ a.
        IsTable T.greatest a.grid.row_seeds a.grid.buckets a.seed (T.number a.total) a.grid.cells };
}

impl<T: CountMinValue> CountMinSketch<T> {
    /// Creates an empty sketch with the default seed 9001, as [`with_seed`](Self::with_seed) does.
    pub fn new(alloc: Global, num_hashes: u8, num_buckets: u32) -> Result<Self, Error>
        ensures ok { IfOk result (λ sketch. sketch ≡ empty_state num_hashes num_buckets DEFAULT_UPDATE_SEED) }
        ensures state { IfOk result (λ sketch. IsCountState T.greatest sketch) }
        ensures stands { IfOk result (λ sketch. StandsFor sketch (New num_hashes num_buckets DEFAULT_UPDATE_SEED)) }
        ensures accepted { IsOk result → shape_fault num_hashes num_buckets DEFAULT_UPDATE_SEED ≡ None }
        ensures refused { IfErr result (λ e. e ≡ refusal_of (shape_fault num_hashes num_buckets DEFAULT_UPDATE_SEED)) }
    {
        Self::with_seed(alloc, num_hashes, num_buckets, DEFAULT_UPDATE_SEED)
    }

    /// Creates an empty sketch with `num_hashes` rows of `num_buckets` cells.
    ///
    /// [`suggest_num_hashes`](crate::suggest_num_hashes) and [`suggest_num_buckets`](crate::suggest_num_buckets) return
    /// both sizes for an error target.
    ///
    /// # Errors
    ///
    /// The first of these that applies:
    ///
    /// - `BadNumHashes` for 0 hashes;
    /// - `BadNumBuckets` for fewer than 3 buckets;
    /// - `TableTooLarge` for 2^30 cells or more;
    /// - `ZeroSeedHash` if the 16-bit hash of the seed is 0;
    /// - `NoMemory` if the cells or the seeds of the rows cannot be allocated.
    pub fn with_seed(
        alloc: Global,
        num_hashes: u8,
        num_buckets: u32,
        seed: u64,
    ) -> Result<Self, Error>
        ensures ok { IfOk result (λ sketch. sketch ≡ empty_state num_hashes num_buckets seed) }
        ensures state { IfOk result (λ sketch. IsCountState T.greatest sketch) }
        ensures stands { IfOk result (λ sketch. StandsFor sketch (New num_hashes num_buckets seed)) }
        ensures accepted { IsOk result → shape_fault num_hashes num_buckets seed ≡ None }
        ensures refused { IfErr result (λ e. e ≡ refusal_of (shape_fault num_hashes num_buckets seed)) }
    {
        if num_hashes == 0 {
            return Err(Error::invalid_argument(Fault::BadNumHashes));
        }
        if num_buckets < MIN_NUM_BUCKETS {
            return Err(Error::invalid_argument(Fault::BadNumBuckets));
        }
        let size = num_hashes as usize * num_buckets as usize;
        if size >= MAX_TABLE_ENTRIES {
            return Err(Error::invalid_argument(Fault::TableTooLarge));
        }
        compute_seed_hash(seed, ErrorKind::InvalidArgument)?;
        Self::empty(alloc, num_hashes, num_buckets, seed)
    }

    /// Creates an empty sketch of these sizes and this seed, as [`with_seed`](Self::with_seed) does.
    pub fn with_sizes(alloc: Global, sizes: CountMinSizes) -> Result<Self, Error>
        ensures ok { IfOk result (λ sketch. sketch ≡ empty_state sizes.num_hashes sizes.num_buckets sizes.seed) }
        ensures state { IfOk result (λ sketch. IsCountState T.greatest sketch) }
        ensures stands { IfOk result (λ sketch. StandsFor sketch (New sizes.num_hashes sizes.num_buckets sizes.seed)) }
        ensures accepted { IsOk result → shape_fault sizes.num_hashes sizes.num_buckets sizes.seed ≡ None }
        ensures refused { IfErr result (λ e. e
            ≡ refusal_of (shape_fault sizes.num_hashes sizes.num_buckets sizes.seed)) }
    {
        Self::with_seed(alloc, sizes.num_hashes, sizes.num_buckets, sizes.seed)
    }

    /// Creates an empty sketch of an allowed shape and seed.
    fn empty(alloc: Global, num_hashes: u8, num_buckets: u32, seed: u64) -> Result<Self, Error>
        requires some_hashes { 1 ≤ num_hashes }
        requires some_buckets { MIN_NUM_BUCKETS ≤ num_buckets }
        requires few_cells { num_hashes * num_buckets < MAX_TABLE_ENTRIES }
        requires seeded { seed_hash seed ≢ 0 }
        ensures ok { IfOk result (λ sketch. sketch ≡ empty_state num_hashes num_buckets seed) }
        ensures state { IfOk result (λ sketch. IsCountState T.greatest sketch) }
        ensures stands { IfOk result (λ sketch. StandsFor sketch (New num_hashes num_buckets seed)) }
        ensures err { IfErr result (λ e. e ≡ no_memory) }
    {
        let counts = zeros(alloc, num_hashes as usize * num_buckets as usize)?;
        let grid = Grid::new(alloc, num_hashes, num_buckets, seed, counts)?;
        Ok(CountMinSketch {
            grid,
            total: T::ZERO,
            seed,
        })
    }

    /// Returns the number of hashes, which is the number of rows.
    pub fn num_hashes(&self) -> u8
        ensures hashes { result ≡ self.now.hashes }

        // What holds of every sketch.
        ensures state { IsCountState T.greatest self.now }
    {
        self.grid.num_rows() as u8
    }

    /// Returns the number of cells in a row.
    pub fn num_buckets(&self) -> u32
        ensures { result ≡ self.now.buckets }
    {
        self.grid.buckets().divisor() as u32
    }

    /// Returns the seed.
    pub fn seed(&self) -> u64
        ensures { result ≡ self.now.seed }
    {
        self.seed
    }

    /// Returns the total weight: the sum of the absolute weights of all updates, also those of merged sketches, halved
    /// and decayed as the cells were.
    pub fn total_weight(&self) -> T
        ensures { T.number result ≡ pos self.now.total }
    {
        self.total
    }

    /// Returns whether the total weight is 0. Every cell is then 0.
    pub fn is_empty(&self) -> bool
        ensures empty { IsTrue result ↔ (self.now.total ≡ 0) }
        ensures cells { self.now.total ≡ 0 → (r b : ℕ) → cell_at self.now.rows r b ≡ pos 0 }
    {
        self.total.to_number() == 0
    }

    /// Counts the item with weight 1, as [`update_with_weight`](Self::update_with_weight) does.
    #[inline(always)]
    pub fn update<I: Hash + Drop>(&mut self, item: I) -> Result<(), Error>
        ensures counted { OnOk result (Counts self.old (fed_bytes I.hash_input item) (pos 1) self.new) }
        ensures state { IsCountState T.greatest self.new }
        ensures stands { OnOk result (Extends self.old self.new (λ h. Update h (fed_bytes I.hash_input item) (pos 1))) }
        ensures err { OnErr result (self.new ≡ self.old) }
        ensures overflow { T.greatest < self.old.total + 1 → IsErrOf result (invalid_argument Fault.WeightOverflow) }
        ensures succeeds { self.old.total + 1 ≤ T.greatest → IsOk result }
    {
        self.update_item(&item)
    }

    /// Adds `weight` to the item's cell in each row, and its absolute value to the total. Does not allocate.
    ///
    /// A weight of 0 changes nothing.
    ///
    /// # Errors
    ///
    /// `WeightOverflow` if the absolute value is not in the range of `T`, or if the total would exceed the maximum of
    /// `T`. The sketch is then unchanged.
    #[inline(always)]
    pub fn update_with_weight<I: Hash + Drop>(&mut self, item: I, weight: T) -> Result<(), Error>
        ensures zero { T.number weight ≡ pos 0 → IsOk result × (self.new ≡ self.old) }
        ensures counted { OnOk result (Counts self.old (fed_bytes I.hash_input item) (T.number weight) self.new) }
        ensures state { IsCountState T.greatest self.new }
        ensures stands { OnOk result (Extends self.old self.new
            (λ h. Update h (fed_bytes I.hash_input item) (T.number weight))) }

        // The error comes exactly if the total would exceed the maximum, and leaves the sketch unchanged.
        ensures err { OnErr result (self.new ≡ self.old) }
        ensures overflow { T.greatest < self.old.total + unsigned_abs (T.number weight)
            → IsErrOf result (invalid_argument Fault.WeightOverflow) }
        ensures succeeds { self.old.total + unsigned_abs (T.number weight) ≤ T.greatest → IsOk result }
    {
        self.update_item_with_weight(&item, weight)
    }

    /// Counts the item with weight 1, as [`update`](Self::update) does. For `&str` it takes less time. Does not allocate.
    ///
    /// # Errors
    ///
    /// `WeightOverflow` if the total would exceed the maximum of `T`. The sketch is then unchanged.
    ///
    /// # Examples
    ///
    /// ```
    /// use sketch_base::Error;
    /// use sketch_countmin::CountMinSketch;
    ///
    /// fn count_page(visits: &mut CountMinSketch<u64>, page: &str) -> Result<(), Error> {
    ///     visits.update_item(page)
    /// }
    /// ```
    #[inline(always)]
    pub fn update_item<R: RowItem<T> + Drop>(&mut self, item: R) -> Result<(), Error>
        ensures counted { OnOk result (Counts self.old (R.bytes item) (pos 1) self.new) }
        ensures state { IsCountState T.greatest self.new }
        ensures stands { OnOk result (Extends self.old self.new (λ h. Update h (R.bytes item) (pos 1))) }
        ensures err { OnErr result (self.new ≡ self.old) }
        ensures overflow { T.greatest < self.old.total + 1 → IsErrOf result (invalid_argument Fault.WeightOverflow) }
        ensures succeeds { self.old.total + 1 ≤ T.greatest → IsOk result }
    {
        self.update_item_with_weight(item, T::ONE)
    }

    /// Adds `weight` to the item's cell in each row, as [`update_with_weight`](Self::update_with_weight) does. For
    /// `&str` it takes less time. Does not allocate.
    ///
    /// # Errors
    ///
    /// `WeightOverflow` if the absolute value is not in the range of `T`, or if the total would exceed the maximum of
    /// `T`. The sketch is then unchanged.
    ///
    /// # Examples
    ///
    /// ```
    /// use sketch_base::Error;
    /// use sketch_countmin::CountMinSketch;
    ///
    /// fn sell(stock: &mut CountMinSketch<i64>, fruit: &str, pieces: i64) -> Result<(), Error> {
    ///     stock.update_item_with_weight(fruit, pieces)
    /// }
    /// ```
    #[inline(always)]
    pub fn update_item_with_weight<R: RowItem<T> + Drop>(
        &mut self,
        item: R,
        weight: T,
    ) -> Result<(), Error>
        ensures zero { T.number weight ≡ pos 0 → IsOk result × (self.new ≡ self.old) }
        ensures counted { OnOk result (Counts self.old (R.bytes item) (T.number weight) self.new) }
        ensures state { IsCountState T.greatest self.new }
        ensures stands { OnOk result (Extends self.old self.new (λ h. Update h (R.bytes item) (T.number weight))) }

        // The error comes exactly if the total would exceed the maximum, and leaves the sketch unchanged.
        ensures err { OnErr result (self.new ≡ self.old) }
        ensures overflow { T.greatest < self.old.total + unsigned_abs (T.number weight)
            → IsErrOf result (invalid_argument Fault.WeightOverflow) }
        ensures succeeds { self.old.total + unsigned_abs (T.number weight) ≤ T.greatest → IsOk result }
    {
        let total = self.total_with(weight)?;
        if weight.to_number() == 0 {
            return Ok(());
        }
        item.add_to(&mut self.grid, weight);
        self.total = total;
        Ok(())
    }

    /// Returns the total plus the absolute value of a weight, or `WeightOverflow` if it exceeds the maximum.
    #[inline(always)]
    fn total_with(&self, weight: T) -> Result<T, Error>
        ensures sum { IfOk result (λ total. T.number total ≡ pos (self.now.total + unsigned_abs (T.number weight))) }
        ensures fits { OnOk result (self.now.total + unsigned_abs (T.number weight) ≤ T.greatest) }
        ensures refused { IfErr result (λ e. e ≡ invalid_argument Fault.WeightOverflow) }
        ensures overflow { OnErr result (T.greatest < self.now.total + unsigned_abs (T.number weight)) }

        // What holds of every sketch.
        ensures state { IsCountState T.greatest self.now }
    {
        // For the prover: this read brings in what holds of every sketch.
        let total = self.total;
        let Some(size) = weight.checked_abs() else {
            return Err(Error::invalid_argument(Fault::WeightOverflow));
        };
        match total.checked_add(size) {
            Some(sum) => Ok(sum),
            None => Err(Error::invalid_argument(Fault::WeightOverflow)),
        }
    }

    /// Returns the estimate of the item's weight: the minimum of its cells. Does not allocate.
    ///
    /// The own share of an item is the sum of its weights, halved and decayed as the cells were. If no weight is
    /// negative, the estimate is at least the own share and at most the total: this is proved (`encloses`). If nothing
    /// was halved or decayed, it is proved by how much the estimate exceeds the own share (`raised`). How likely a
    /// large excess is, is not proved: see [`suggest_num_hashes`](crate::suggest_num_hashes).
    #[inline(always)]
    pub fn estimate<I: Hash + Drop>(&self, item: I) -> T
        ensures least { IsMinCell self.now (fed_bytes I.hash_input item) (T.number result) }

        // If no weight is negative, the item's own share is at most the estimate, and this is at most the total.
        ensures encloses { (h : CountHistory) → StandsFor self.now h → IsNonnegative h
            → (own_value h (fed_bytes I.hash_input item) ≤ℤ T.number result)
            × (T.number result ≤ℤ pos self.now.total) }

        // If nothing was halved or decayed, the estimate exceeds the own share by the minimum, over the rows, of the
        // other items' share of the bucket.
        ensures raised { (h : CountHistory) → StandsFor self.now h → IsExact h
            → let bytes = fed_bytes I.hash_input item in
            IsMin self.now.hashes (others_share self.now.buckets self.now.seed h bytes)
            (T.number result -ℤ own_value h bytes) }
    {
        self.estimate_item(&item)
    }

    /// Returns the estimate of the item's weight, as [`estimate`](Self::estimate) does. For `&str` it takes less time.
    /// Does not allocate.
    ///
    /// # Examples
    ///
    /// ```
    /// use sketch_countmin::CountMinSketch;
    ///
    /// fn visits_of_page(visits: &CountMinSketch<u64>, page: &str) -> u64 {
    ///     visits.estimate_item(page)
    /// }
    /// ```
    #[inline(always)]
    pub fn estimate_item<R: RowItem<T> + Drop>(&self, item: R) -> T
        ensures least { IsMinCell self.now (R.bytes item) (T.number result) }
        ensures encloses { (h : CountHistory) → StandsFor self.now h → IsNonnegative h
            → (own_value h (R.bytes item) ≤ℤ T.number result) × (T.number result ≤ℤ pos self.now.total) }
        ensures raised { (h : CountHistory) → StandsFor self.now h → IsExact h
            → IsMin self.now.hashes (others_share self.now.buckets self.now.seed h (R.bytes item))
            (T.number result -ℤ own_value h (R.bytes item)) }
    {
        self.grid.min_cell(&item)
    }

    /// Returns the estimate. It is no lower bound of the item's true weight: collisions can raise it above that.
    #[inline]
    pub fn lower_bound<I: Hash + Drop>(&self, item: I) -> T
        ensures { IsMinCell self.now (fed_bytes I.hash_input item) (T.number result) }
    {
        self.estimate(item)
    }

    /// Returns the estimate plus a margin, or the maximum of `T` if this exceeds it.
    ///
    /// The margin is `total * 2718281828459045235 / (10^18 * buckets)`, rounded down. It is e times the mean weight of
    /// a bucket, the error bound of Cormode & Muthukrishnan 2005.
    pub fn upper_bound<I: Hash + Drop>(&self, item: I) -> T
        ensures { (estimate : ℤ) → IsMinCell self.now (fed_bytes I.hash_input item) estimate
            → T.number result ≡ upper_bound_of T.greatest self.now estimate }
    {
        self.upper_bound_item(&item)
    }

    /// Returns the estimate plus a margin, as [`upper_bound`](Self::upper_bound) does. For `&str` it takes less time.
    /// Does not allocate.
    ///
    /// # Examples
    ///
    /// ```
    /// use sketch_countmin::CountMinSketch;
    ///
    /// fn most_visits_of_page(visits: &CountMinSketch<u64>, page: &str) -> u64 {
    ///     visits.upper_bound_item(page)
    /// }
    /// ```
    #[inline(always)]
    pub fn upper_bound_item<R: RowItem<T> + Drop>(&self, item: R) -> T
        ensures { (estimate : ℤ) → IsMinCell self.now (R.bytes item) estimate
            → T.number result ≡ upper_bound_of T.greatest self.now estimate }
    {
        self.bounds_item(item).upper_bound
    }

    /// Returns the estimate and the upper bound of the item's weight, as [`estimate_item`](Self::estimate_item) and
    /// [`upper_bound_item`](Self::upper_bound_item) do. Hashes the item once. Does not allocate.
    #[inline(always)]
    pub fn bounds_item<R: RowItem<T> + Drop>(&self, item: R) -> CountMinBounds<T>
        ensures least { IsMinCell self.now (R.bytes item) (T.number result.estimate) }
        ensures encloses { (h : CountHistory) → StandsFor self.now h → IsNonnegative h
            → (own_value h (R.bytes item) ≤ℤ T.number result.estimate)
            × (T.number result.estimate ≤ℤ pos self.now.total) }
        ensures raised { (h : CountHistory) → StandsFor self.now h → IsExact h
            → IsMin self.now.hashes (others_share self.now.buckets self.now.seed h (R.bytes item))
            (T.number result.estimate -ℤ own_value h (R.bytes item)) }
        ensures upper { T.number result.upper_bound
            ≡ upper_bound_of T.greatest self.now (T.number result.estimate) }
    {
        let estimate = self.estimate_item(item);
        let upper_bound = with_margin(estimate, self.total, self.grid.buckets());
        CountMinBounds {
            estimate,
            upper_bound,
        }
    }

    /// Adds the cells and the total of another sketch of the same shape and seed. Does not allocate.
    ///
    /// # Errors
    ///
    /// The first of these that applies. The sketch is then unchanged.
    ///
    /// - `Mismatch` if the numbers of hashes, the numbers of buckets or the seeds differ;
    /// - `WeightOverflow` if the sum of the totals exceeds the maximum of `T`.
    ///
    /// # Examples
    ///
    /// ```
    /// use sketch_base::Error;
    /// use sketch_countmin::CountMinSketch;
    /// use std::alloc::Global;
    ///
    /// fn apples_of_both_days(alloc: Global) -> Result<(u64, u64), Error> {
    ///     let mut monday: CountMinSketch<u64> = CountMinSketch::new(alloc, 4, 128)?;
    ///     let mut tuesday: CountMinSketch<u64> = CountMinSketch::new(alloc, 4, 128)?;
    ///     monday.update("apple")?;
    ///     tuesday.update_with_weight("apple", 9)?;
    ///     monday.merge(&tuesday)?;
    ///     Ok((monday.lower_bound("apple"), monday.upper_bound("apple")))
    /// }
    /// ```
    pub fn merge(&mut self, other: &CountMinSketch<T>) -> Result<(), Error>
        ensures joined { OnOk result (Joins self.old other.now self.new) }
        ensures state { IsCountState T.greatest self.new }
        ensures stands { OnOk result (ExtendsBoth self.old other.now self.new Merge) }

        // An error comes exactly if shapes or seeds differ or the sum of the totals exceeds the maximum. It leaves the
        // sketch unchanged.
        ensures err { OnErr result (self.new ≡ self.old) }
        ensures mismatch { ¬ SameShape self.old other.now → IsErrOf result (invalid_argument Fault.Mismatch) }
        ensures overflow { SameShape self.old other.now → T.greatest < self.old.total + other.now.total
            → IsErrOf result (invalid_argument Fault.WeightOverflow) }
        ensures succeeds { SameShape self.old other.now → self.old.total + other.now.total ≤ T.greatest → IsOk result }
    {
        // For the prover: this read brings in what holds of every sketch.
        let total = self.total;
        if !self.has_shape_of(other) {
            return Err(Error::invalid_argument(Fault::Mismatch));
        }
        let Some(total) = total.checked_add(other.total) else {
            return Err(Error::invalid_argument(Fault::WeightOverflow));
        };
        self.grid.add_all(&other.grid);
        self.total = total;
        Ok(())
    }

    /// Returns whether the numbers of hashes and of buckets and the seed are those of another sketch.
    fn has_shape_of(&self, other: &CountMinSketch<T>) -> bool
        ensures { IsTrue result ↔ SameShape self.now other.now }
    {
        self.grid.num_rows() == other.grid.num_rows()
            && self.grid.buckets().divisor() == other.grid.buckets().divisor()
            && self.seed == other.seed
    }

    /// Sets all cells and the total to 0. The sizes and the seed are unchanged. Does not allocate.
    ///
    /// # Examples
    ///
    /// ```
    /// use sketch_countmin::CountMinSketch;
    ///
    /// fn begin_next_day(visits: &mut CountMinSketch<u64>) -> u64 {
    ///     let visits_of_day = visits.total_weight();
    ///     visits.reset();
    ///     visits_of_day
    /// }
    /// ```
    pub fn reset(&mut self)
        ensures cleared { self.new ≡ empty_state self.old.hashes self.old.buckets self.old.seed }
        ensures state { IsCountState T.greatest self.new }
        ensures stands { StandsFor self.new (New self.old.hashes self.old.buckets self.old.seed) }
    {
        self.grid.clear();
        self.total = T::ZERO;
    }

    /// Returns an estimate of the sketch's size in bytes: hashes times buckets times the size of `T`, and 8 for each
    /// hash.
    pub fn estimated_size(&self) -> usize
        ensures { result ≡ self.now.hashes * self.now.buckets * T.SIZE + 8 * self.now.hashes }
    {
        self.grid.num_cells() * T::SIZE + 8 * self.grid.num_rows()
    }

    /// Clones the sketch with memory of its own, as [`clone`](Clone::clone) does.
    ///
    /// # Errors
    ///
    /// `NoMemory` if the clone cannot be allocated.
    pub fn try_clone(&self) -> Result<Self, Error>
        ensures same { IfOk result (λ copy. copy ≡ self.now) }
        ensures err { IfErr result (λ e. e ≡ no_memory) }
    {
        Ok(self.clone()?)
    }
}

/// Clones the sketch with memory of its own. The clone equals the sketch. The only error is a failed allocation.
impl<T: CountMinValue> Clone for CountMinSketch<T> {
    ghost is_clone = { λ sketch copy. copy ≡ sketch };

    fn clone(&self) -> Result<Self, AllocError> {
        Ok(CountMinSketch {
            grid: self.grid.clone()?,
            total: self.total,
            seed: self.seed,
        })
    }
}

/// Compares shape, seed, total and cells.
impl<T: CountMinValue> PartialEq for CountMinSketch<T> {
    ghost use Rattle.std.specs.Prelude.{◌≡◌, ◌↔◌, IsTrue};
    ghost use Rattle.sketch_countmin.specs.Equality.{same_state, same_state_partial};

    ghost eq = { same_state };

    ghost laws = { same_state_partial };

    fn eq(&self, other: &CountMinSketch<T>) -> bool
        ensures value { result ≡ same_state self.now other.now }
        ensures same { IsTrue result ↔ (self.now ≡ other.now) }
    {
        if !self.has_shape_of(other) || self.total.to_number() != other.total.to_number() {
            return false;
        }
        self.grid.has_cells_of(&other.grid)
    }
}

impl<T: CountMinValue> Eq for CountMinSketch<T> {
    ghost use Rattle.sketch_countmin.specs.Equality.{same_state_equivalence};

    ghost laws = { same_state_equivalence };
}

impl<T: CountMinValue + fmt::Debug> fmt::Debug for CountMinSketch<T> {
    fn fmt<W: fmt::Write>(&self, f: &mut fmt::Formatter<W>) -> fmt::Result {
        f.debug_struct("CountMinSketch")
            .field("num_hashes", &self.grid.num_rows())
            .field("num_buckets", &self.grid.buckets().divisor())
            .field("seed", &self.seed)
            .field("total_weight", &self.total)
            .field("counts", &self.grid.counts())
            .finish()
    }
}
