//! A Count-Min sketch in the bytes of its image.
ghost use Rattle.std.specs.Prelude.{◌≡◌, ℕ, ◌+◌, ◌*◌, ◌<◌, ◌≤◌, [], None, Some, false, if◌then◌else◌, length, take, drop, slice_index, ℤ, pos, ◌≤ℤ◌, ◌-ℤ◌, unsigned_abs, IfOk, IfErr, OnOk};
ghost use Rattle.sketch_base.specs.Checks.{first_failing};
ghost use Rattle.sketch_base.specs.Errors.{invalid_data};
ghost use Rattle.sketch_base.specs.Hashes.{fed_bytes};
ghost use Rattle.sketch_countmin.specs.Buckets.{row_seed};
ghost use Rattle.sketch_countmin.specs.History.{CountHistory, IsNonnegative, IsExact, own_value, others_share};
ghost use Rattle.sketch_countmin.specs.Image.{IsImage, Restores, total_at, total_checks};
ghost use Rattle.sketch_countmin.specs.Stands.{StandsFor};
ghost use Rattle.sketch_countmin.specs.State.{CountState, IsCountState, IsMin, IsMinCell, upper_bound_of};
ghost use Rattle.sketch_countmin.specs.View.{view_at, view_fault};

use crate::cell_list::ByteCells;
use crate::count_min_value::CountMinValue;
use crate::image::{read_preamble, read_total};
use crate::limits::MAX_TABLE_ENTRIES;
use crate::margin::with_margin;
use crate::row_cells::RowCells;
use crate::row_item::RowItem;
use crate::rows::bucket_count;
use sketch_base::{DEFAULT_UPDATE_SEED, Divisor, Error, murmur3_of_u64};
use std::hash::Hash;
use std::marker::Model;

/// The maximum number of hashes.
const MAX_NUM_HASHES: usize = 255;

/// A Count-Min sketch in the bytes of its image, as of a mapped file or of a database's column.
///
/// Nothing is copied. Its calls return the same as those of the [`CountMinSketch`](crate::CountMinSketch) that
/// [`deserialize`](crate::CountMinSketch::deserialize) reads from the image. The bytes need not be aligned.
///
/// Cells are not checked when a view is created. A cell that `deserialize` rejects is read as the nearest value that it
/// accepts: in the range of `T`, and no further from zero than the total.
///
/// # Examples
///
/// ```
/// use sketch_base::Error;
/// use sketch_countmin::CountMinView;
///
/// fn visits_of_user(image: &[u8], user: u64) -> Result<u32, Error> {
///     let visits: CountMinView<u32> = CountMinView::new(image)?;
///     Ok(visits.estimate(user))
/// }
/// ```
#[derive(Drop)]
pub struct CountMinView<'a, T: CountMinValue> {
    // The bytes of the cells, or none if the image is marked empty.
    bytes: &'a [u8],
    buckets: Divisor,
    num_hashes: u8,
    // The seeds of the rows, and zeros.
    row_seeds: [u64; MAX_NUM_HASHES],
    total: T,
    seed: u64,
}

impl<'a, T: CountMinValue> Model for CountMinView<'a, T> {
    ghost use Rattle.std.specs.Prelude.{◌*◌, length, take, unsigned_abs};
    ghost use Rattle.sketch_countmin.specs.State.{CountState};
    ghost use Rattle.sketch_countmin.specs.Table.{state_of};
    ghost use Rattle.sketch_countmin.specs.View.{IsView, cells_shown};

    ghost Value = { CountState };

    ghost view = { λ v. state_of (take v.num_hashes v.row_seeds) v.buckets v.seed (T.number v.total)
        (cells_shown T.least (unsigned_abs (T.number v.total)) (length (take v.num_hashes v.row_seeds) * v.buckets)
        v.bytes.now) };

    ghost invariant = { λ v. IsView T.least T.greatest v.num_hashes (take v.num_hashes v.row_seeds) v.buckets v.seed
        (T.number v.total) v.bytes.now };
}

/// Returns the seeds of the rows, and zeros after them.
fn row_seeds_of(num_hashes: u8, seed: u64) -> [u64; MAX_NUM_HASHES]
    ensures rows { num_hashes ≤ length result }
    ensures seeds { (r : ℕ) → r < num_hashes → slice_index result r ≡ row_seed r seed }
{
    let mut seeds = [0; MAX_NUM_HASHES];
    // The label is for the prover.
    'rows: for row in 0..num_hashes {
        seeds[row as usize] = murmur3_of_u64(row as u64, seed).0;
    }
    seeds
}

/// Returns the bytes of the cells, or none if the image is marked empty.
fn bytes_of_cells(image: &[u8], is_empty: bool, num_cells: usize) -> &[u8]
    requires there { is_empty ≡ false → 24 + 8 * num_cells ≤ length image.now }
    requires few { num_cells < MAX_TABLE_ENTRIES }
    ensures { result.now ≡ if is_empty then [] else take (8 * num_cells) (drop 24 image.now) }
{
    if is_empty {
        &image[..0]
    } else {
        &image[24..24 + 8 * num_cells]
    }
}

/// Reads the total of an image, and checks that it is in range and not negative. It is 0 if the image is marked empty.
fn total_of<T: CountMinValue>(image: &[u8], is_empty: bool) -> Result<T, Error>
    requires { is_empty ≡ false → 24 ≤ length image.now }
    ensures value { IfOk result (λ total. T.number total ≡ if is_empty then pos 0 else total_at T.least image.now) }
    ensures checks { OnOk result
        (first_failing (if is_empty then [] else total_checks T.least T.greatest (total_at T.least image.now)) ≡ None) }
    ensures not_negative { IfOk result (λ total. T.number total ≡ pos (unsigned_abs (T.number total))) }
    ensures fits { IfOk result (λ total. unsigned_abs (T.number total) ≤ T.greatest) }
    ensures err { IfErr result (λ e. (e ≡ invalid_data e.fault)
        × (first_failing (if is_empty then [] else total_checks T.least T.greatest (total_at T.least image.now))
        ≡ Some e.fault)) }
{
    if is_empty {
        return Ok(T::ZERO);
    }
    read_total(image)
}

impl<'a, T: CountMinValue> CountMinView<'a, T> {
    /// Creates a view of an image with the default seed 9001, as [`with_seed`](Self::with_seed) does.
    pub fn new(image: &'a [u8]) -> Result<Self, Error>
        ensures value { IfOk result (λ view. view ≡ view_at T.least DEFAULT_UPDATE_SEED image.now) }
        ensures reads { IfOk result (λ view. (sketch : CountState)
            → IsImage T.least T.greatest DEFAULT_UPDATE_SEED image.now sketch → view ≡ sketch) }
        ensures state { IfOk result (λ view. IsCountState T.greatest view) }
        ensures stands { IfOk result (λ view. Restores T.least T.greatest DEFAULT_UPDATE_SEED image.now view) }
        ensures checks { OnOk result (view_fault T.least T.greatest DEFAULT_UPDATE_SEED image.now ≡ None) }
        ensures err { IfErr result (λ e. (e ≡ invalid_data e.fault)
            × (view_fault T.least T.greatest DEFAULT_UPDATE_SEED image.now ≡ Some e.fault)) }
    {
        Self::with_seed(image, DEFAULT_UPDATE_SEED)
    }

    /// Creates a view of the image of a sketch with this seed. Does not allocate.
    ///
    /// It hashes a number for each row, and takes constant time otherwise. It checks what
    /// [`CountMinSketch::deserialize_with_seed`](crate::CountMinSketch::deserialize_with_seed) checks, but no cells. If
    /// `deserialize_with_seed` accepts the image, the view is the sketch that it returns.
    ///
    /// # Errors
    ///
    /// The errors of `deserialize_with_seed`, in its order, but neither those of cells nor `NoMemory`.
    pub fn with_seed(image: &'a [u8], seed: u64) -> Result<Self, Error>
        ensures value { IfOk result (λ view. view ≡ view_at T.least seed image.now) }
        ensures reads { IfOk result (λ view. (sketch : CountState)
            → IsImage T.least T.greatest seed image.now sketch → view ≡ sketch) }
        ensures state { IfOk result (λ view. IsCountState T.greatest view) }
        ensures stands { IfOk result (λ view. Restores T.least T.greatest seed image.now view) }

        // The error comes exactly if a check of `deserialize_with_seed` before the cells fails.
        ensures checks { OnOk result (view_fault T.least T.greatest seed image.now ≡ None) }
        ensures err { IfErr result (λ e. (e ≡ invalid_data e.fault)
            × (view_fault T.least T.greatest seed image.now ≡ Some e.fault)) }
    {
        let preamble = read_preamble(image, seed)?;
        let total = total_of::<T>(image, preamble.is_empty)?;
        let num_hashes = preamble.num_hashes;
        let num_cells = num_hashes as usize * preamble.num_buckets as usize;
        Ok(CountMinView {
            bytes: bytes_of_cells(image, preamble.is_empty, num_cells),
            buckets: bucket_count(preamble.num_buckets),
            num_hashes,
            row_seeds: row_seeds_of(num_hashes, seed),
            total,
            seed,
        })
    }

    /// Returns the estimate of the item's weight: the minimum of its cells. Does not allocate.
    ///
    /// See [`CountMinSketch::estimate`](crate::CountMinSketch::estimate) on its bounds.
    #[inline(always)]
    pub fn estimate<I: Hash + Drop>(&self, item: I) -> T
        ensures least { IsMinCell self.now (fed_bytes I.hash_input item) (T.number result) }

        // If no weight is negative, the item's own share is at most the estimate, and this is at most the total.
        ensures encloses { (h : CountHistory) → StandsFor self.now h → IsNonnegative h
            → (own_value h (fed_bytes I.hash_input item) ≤ℤ T.number result)
            × (T.number result ≤ℤ pos self.now.total) }

        // If nothing was halved or decayed, the estimate exceeds the own share by the minimum, over the rows, of the
        // other items' share of the bucket.
        ensures raised { (h : CountHistory) → StandsFor self.now h → IsExact h
            → let bytes = fed_bytes I.hash_input item in
            IsMin self.now.hashes (others_share self.now.buckets self.now.seed h bytes)
            (T.number result -ℤ own_value h bytes) }
    {
        self.estimate_item(&item)
    }

    /// Returns the estimate of the item's weight, as [`estimate`](Self::estimate) does. For `&str` it takes less time.
    /// Does not allocate.
    ///
    /// # Examples
    ///
    /// ```
    /// use sketch_countmin::CountMinView;
    ///
    /// fn visits_of_site(visits: &CountMinView<u64>, site: &str) -> u64 {
    ///     visits.estimate_item(site)
    /// }
    /// ```
    #[inline(always)]
    pub fn estimate_item<R: RowItem<T> + Drop>(&self, item: R) -> T
        ensures least { IsMinCell self.now (R.bytes item) (T.number result) }
        ensures encloses { (h : CountHistory) → StandsFor self.now h → IsNonnegative h
            → (own_value h (R.bytes item) ≤ℤ T.number result) × (T.number result ≤ℤ pos self.now.total) }
        ensures raised { (h : CountHistory) → StandsFor self.now h → IsExact h
            → IsMin self.now.hashes (others_share self.now.buckets self.now.seed h (R.bytes item))
            (T.number result -ℤ own_value h (R.bytes item)) }
    {
        self.min_cell(&item)
    }

    /// Returns the minimum of the item's cells.
    #[inline(always)]
    fn min_cell<R: RowItem<T>>(&self, item: &R) -> T
        ensures least { IsMinCell self.now (R.bytes item.now) (T.number result) }

        // What holds of every view.
        ensures state { IsCountState T.greatest self.now }
    {
        if self.bytes.is_empty() {
            return T::ZERO;
        }
        let cells = ByteCells::new(self.bytes, self.total);
        let row_seeds = &self.row_seeds[..self.num_hashes as usize];
        item.min_cell(RowCells::new(cells, self.buckets, row_seeds))
    }

    /// Returns the estimate plus a margin, or the maximum of `T` if this exceeds it, as
    /// [`CountMinSketch::upper_bound`](crate::CountMinSketch::upper_bound) does.
    pub fn upper_bound<I: Hash + Drop>(&self, item: I) -> T
        ensures { (estimate : ℤ) → IsMinCell self.now (fed_bytes I.hash_input item) estimate
            → T.number result ≡ upper_bound_of T.greatest self.now estimate }
    {
        with_margin(self.estimate(item), self.total, self.buckets)
    }

    /// Returns the number of hashes, which is the number of rows.
    pub fn num_hashes(&self) -> u8
        ensures hashes { result ≡ self.now.hashes }

        // What holds of every view.
        ensures state { IsCountState T.greatest self.now }
    {
        self.num_hashes
    }

    /// Returns the number of cells in a row.
    pub fn num_buckets(&self) -> u32
        ensures { result ≡ self.now.buckets }
    {
        self.buckets.divisor() as u32
    }

    /// Returns the seed.
    pub fn seed(&self) -> u64
        ensures { result ≡ self.now.seed }
    {
        self.seed
    }

    /// Returns the total weight, as [`CountMinSketch::total_weight`](crate::CountMinSketch::total_weight) does.
    pub fn total_weight(&self) -> T
        ensures { T.number result ≡ pos self.now.total }
    {
        self.total
    }
}
