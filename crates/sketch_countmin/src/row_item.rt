//! The cells of one item, one in each row.
//!
//! An item of few bytes is fed once, and each row hashes these bytes under its own seed. A string, or an item given by
//! its bytes, is hashed straight from its bytes. Whether the number of buckets is a power of two is tested once, outside all loops. Four rows, the
//! most common number beside three and five, have no loop: all four indices are computed before the first cell is
//! accessed.
ghost use Rattle.std.specs.Prelude.{ℕ, ◌≤◌, ◌+ℤ◌, unsigned_abs};
ghost use Rattle.sketch_base.specs.Hashes.{fed_bytes};
ghost use Rattle.sketch_countmin.specs.Cells.{cell_in};
ghost use Rattle.sketch_countmin.specs.Grid.{AddsItem, IsMinIn};

use crate::count_min_value::CountMinValue;
use crate::grid::Grid;
use crate::row_cells::ReadRows;
use sketch_base::{
    FedBytes, Item, Rehashable, RehashableBytes, RehashableItem, RehashableStr, murmur3_of,
};
use std::hash::Hash;

/// An item that a Count-Min sketch counts: `&I` for each type `I` that can be hashed, `&str`, or [`FedBytes`].
///
/// `&str` is hashed straight from its bytes, in less time than `&&str`. Both are the same item. The methods are for the
/// sketches' own use.
///
/// # Examples
///
/// ```
/// use sketch_countmin::{CountMinSketch, RowItem};
///
/// fn visits_of_both<R: RowItem<u32> + Copy + Drop>(
///     today: &CountMinSketch<u32>,
///     before: &CountMinSketch<u32>,
///     page: R,
/// ) -> u32 {
///     today
///         .estimate_item(page)
///         .saturating_add(before.estimate_item(page))
/// }
/// ```
pub trait RowItem<T: CountMinValue>: Item {
    /// Adds the weight at the item's bucket of each row.
    fn add_to(&self, grid: &mut Grid<T>, weight: T)
        requires { (k : ℕ) → unsigned_abs (cell_in grid.old.cells k +ℤ T.number weight) ≤ T.greatest }
        ensures { AddsItem (Self.bytes self.now) (T.number weight) grid.old grid.new };

    /// Returns the minimum of the item's cells.
    fn min_cell<C: ReadRows<T> + Drop>(&self, cells: C) -> T
        ensures { IsMinIn (C.grid cells) (Self.bytes self.now) (T.number result) };
}

/// An item that is fed again for each hash.
#[derive(Drop)]
pub struct FedAgain<'a, I: Hash> {
    pub item: &'a I,
}

impl<'a, I: Hash> Rehashable for FedAgain<'a, I> {
    ghost bytes = { λ row. fed_bytes I.hash_input row.item.now };

    ghost can_hash = { λ _. Unit {0} };

    #[inline(always)]
    fn murmur3(&self, seed: u64) -> (u64, u64) {
        murmur3_of(self.item, seed)
    }
}

impl<'a, T: CountMinValue, I: Hash> RowItem<T> for &'a I {
    #[inline(always)]
    fn add_to(&self, grid: &mut Grid<T>, weight: T) {
        let hashed = RehashableItem::new(*self);
        match hashed.short() {
            Some(bytes) if !grid.buckets().is_power_of_two() => {
                grid.add_to_each(false, bytes, weight)
            }
            Some(bytes) if grid.num_rows() == 4 => grid.add_to_four(bytes, weight),
            Some(bytes) => grid.add_to_each(true, bytes, weight),
            None => add_long(grid, *self, weight),
        }
    }

    #[inline(always)]
    fn min_cell<C: ReadRows<T> + Drop>(&self, cells: C) -> T {
        let hashed = RehashableItem::new(*self);
        let Some(bytes) = hashed.short() else {
            return min_long(cells, *self);
        };
        if !cells.buckets().is_power_of_two() {
            cells.min_of_each(false, bytes)
        } else if cells.num_rows() == 4 {
            cells.min_of_four(bytes)
        } else {
            cells.min_of_each(true, bytes)
        }
    }
}

impl<'a, T: CountMinValue> RowItem<T> for &'a str {
    #[inline]
    fn add_to(&self, grid: &mut Grid<T>, weight: T) {
        add_rehashed(grid, RehashableStr::new(*self), weight);
    }

    #[inline(always)]
    fn min_cell<C: ReadRows<T> + Drop>(&self, cells: C) -> T {
        min_rehashed(cells, RehashableStr::new(*self))
    }
}

impl<'a, T: CountMinValue> RowItem<T> for FedBytes<'a> {
    #[inline]
    fn add_to(&self, grid: &mut Grid<T>, weight: T) {
        add_rehashed(grid, RehashableBytes::new(self.0), weight);
    }

    #[inline(always)]
    fn min_cell<C: ReadRows<T> + Drop>(&self, cells: C) -> T {
        min_rehashed(cells, RehashableBytes::new(self.0))
    }
}

/// Adds the weight at the bucket of hashed bytes in each row.
#[inline(always)]
fn add_rehashed<T: CountMinValue, R: Rehashable + Drop>(grid: &mut Grid<T>, bytes: R, weight: T)
    requires room { (k : ℕ) → unsigned_abs (cell_in grid.old.cells k +ℤ T.number weight) ≤ T.greatest }
    requires hashable { R.can_hash bytes }
    ensures { AddsItem (R.bytes bytes) (T.number weight) grid.old grid.new }
{
    if !grid.buckets().is_power_of_two() {
        grid.add_to_each(false, &bytes, weight);
    } else if grid.num_rows() == 4 {
        grid.add_to_four(&bytes, weight);
    } else {
        grid.add_to_each(true, &bytes, weight);
    }
}

/// Returns the minimum of the cells of hashed bytes.
#[inline(always)]
fn min_rehashed<T: CountMinValue, C: ReadRows<T> + Drop, R: Rehashable + Drop>(
    cells: C,
    bytes: R,
) -> T
    requires { R.can_hash bytes }
    ensures { IsMinIn (C.grid cells) (R.bytes bytes) (T.number result) }
{
    if !cells.buckets().is_power_of_two() {
        cells.min_of_each(false, &bytes)
    } else if cells.num_rows() == 4 {
        cells.min_of_four(&bytes)
    } else {
        cells.min_of_each(true, &bytes)
    }
}

/// Adds the weight at the bucket of an item of many bytes in each row. The item is fed again for each row.
#[inline(never)]
fn add_long<T: CountMinValue, I: Hash>(grid: &mut Grid<T>, item: &I, weight: T)
    requires { (k : ℕ) → unsigned_abs (cell_in grid.old.cells k +ℤ T.number weight) ≤ T.greatest }
    ensures { AddsItem (fed_bytes I.hash_input item.now) (T.number weight) grid.old grid.new }
{
    let masked = grid.buckets().is_power_of_two();
    grid.add_to_each(masked, &FedAgain { item }, weight);
}

/// Returns the minimum of the cells of an item of many bytes, which is fed again for each row.
#[inline(never)]
fn min_long<T: CountMinValue, C: ReadRows<T> + Drop, I: Hash>(cells: C, item: &I) -> T
    ensures { IsMinIn (C.grid cells) (fed_bytes I.hash_input item.now) (T.number result) }
{
    let masked = cells.buckets().is_power_of_two();
    cells.min_of_each(masked, &FedAgain { item })
}
