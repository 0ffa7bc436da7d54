//! The cells of a sketch, for reading: in memory, or in the bytes of an image.
//!
//! The loops over many items go row by row, so that the cells of one row stay in a cache for all items.
ghost use Rattle.std.specs.Prelude.{◌≡◌, ℕ, ◌*◌, ◌^◌, ◌<◌, [], map, length, slice_index, slice_index_or, pos, IsTrue};
ghost use Rattle.std.specs.Int.{is_power_of_two};
ghost use Rattle.sketch_base.specs.Hashes.{fed_bytes};
ghost use Rattle.sketch_countmin.specs.Cells.{flat_at, IsLesser};
ghost use Rattle.sketch_countmin.specs.Buckets.{buckets_by};
ghost use Rattle.sketch_countmin.specs.Grid.{GridState, grid_of, IsMinIn};
ghost use Rattle.sketch_countmin.specs.Items.{IsItemMin};

use crate::cell_list::CellList;
use crate::count_min_value::CountMinValue;
use crate::row_item::FedAgain;
use crate::rows::Rows;
use sketch_base::{Divisor, Rehashable};
use std::hash::Hash;
use std::marker::PhantomData;

/// Rows of cells that can be read.
pub trait ReadRows<T: CountMinValue> {
    // The grid that they are of.
    ghost grid: { Self → GridState };

    /// Returns the number of rows.
    fn num_rows(&self) -> usize
        ensures { result ≡ length (grid self.now).row_seeds };

    /// Returns the number of buckets.
    fn buckets(&self) -> Divisor
        ensures { result ≡ (grid self.now).buckets };

    /// Returns the minimum of the cells of hashed bytes in four rows. The number of buckets is a power of two.
    fn min_of_four<R: Rehashable>(&self, bytes: &R) -> T
        requires power { IsTrue (is_power_of_two (grid self.now).buckets) }
        requires hashable { R.can_hash bytes.now }
        requires four { length (grid self.now).row_seeds ≡ 4 }
        ensures { IsMinIn (grid self.now) (R.bytes bytes.now) (T.number result) };

    /// Returns the minimum of the cells of hashed bytes. `masked` requires a power of two of buckets.
    fn min_of_each<R: Rehashable>(&self, masked: bool, bytes: &R) -> T
        requires masked { IsTrue masked → IsTrue (is_power_of_two (grid self.now).buckets) }
        requires hashable { R.can_hash bytes.now }
        ensures { IsMinIn (grid self.now) (R.bytes bytes.now) (T.number result) };
}

/// The cells of all rows.
#[derive(Drop)]
pub struct RowCells<'a, T: CountMinValue, C: CellList<T> + Drop> {
    rows: Rows<'a>,
    cells: C,
    values: PhantomData<T>,
    ghost shape: { length (C.list cells) ≡ length rows.seeds.now * rows.buckets },
}

impl<'a, T: CountMinValue, C: CellList<T> + Drop> RowCells<'a, T, C> {
    /// Creates the cells of these rows.
    #[inline(always)]
    pub fn new(cells: C, buckets: Divisor, seeds: &'a [u64]) -> Self
        requires some { 0 < length seeds.now }
        requires fits { length seeds.now * buckets < 2 ^ 64 }
        requires shape { length (C.list cells) ≡ length seeds.now * buckets }
        ensures cells { result.cells ≡ cells }
        ensures buckets { result.rows.buckets ≡ buckets }
        ensures seeds { result.rows.seeds.now ≡ seeds.now }
    {
        RowCells {
            rows: Rows { seeds, buckets },
            cells,
            values: PhantomData,
        }
    }

    /// Writes the minimum of each item's cells.
    #[inline]
    pub fn min_cells<I: Hash>(&self, items: &[I], least: &mut [T])
        requires same { length least.old ≡ length items.now }
        ensures { (i : ℕ) → i < length items.now → IsItemMin self.now.rows.buckets self.now.rows.seeds.now
            (slice_index_or (map (fed_bytes I.hash_input) items.now) i [])
            (C.list self.now.cells) (slice_index_or (map T.number least.new) i (pos 0)) }
    {
        self.first_cells(items, least);
        for row in 1..self.rows.seeds.len() {
            self.lesser_cells(row, items, least);
        }
    }

    /// Writes each item's cell of the first row.
    #[inline]
    fn first_cells<I: Hash>(&self, items: &[I], cells: &mut [T])
        requires same { length cells.old ≡ length items.now }
        ensures { (i : ℕ) → i < length items.now → slice_index_or (map T.number cells.new) i (pos 0)
            ≡ flat_at self.now.rows.buckets (C.list self.now.cells) 0
            (buckets_by self.now.rows.buckets self.now.rows.seeds.now
            (slice_index_or (map (fed_bytes I.hash_input) items.now) i []) 0) }
    {
        let masked = self.rows.buckets.is_power_of_two();
        let seed = self.rows.seeds[0];
        for (i, item) in items.iter().enumerate() {
            cells[i] = self.item_cell(masked, item, 0, seed);
        }
    }

    /// Replaces each number by the minimum of it and the item's cell of a row.
    #[inline]
    fn lesser_cells<I: Hash>(&self, row: usize, items: &[I], least: &mut [T])
        requires row { row < length self.now.rows.seeds.now }
        requires same { length least.old ≡ length items.now }
        ensures { (i : ℕ) → i < length items.now → IsLesser
            (slice_index_or (map T.number least.old) i (pos 0))
            (flat_at self.now.rows.buckets (C.list self.now.cells) row
            (buckets_by self.now.rows.buckets self.now.rows.seeds.now
            (slice_index_or (map (fed_bytes I.hash_input) items.now) i []) row))
            (slice_index_or (map T.number least.new) i (pos 0)) }
    {
        let masked = self.rows.buckets.is_power_of_two();
        let seed = self.rows.seeds[row];
        for (i, item) in items.iter().enumerate() {
            let cell = self.item_cell(masked, item, row, seed);
            least[i] = least[i].min(cell);
        }
    }

    /// Returns the item's cell of a row. `masked` requires a power of two of buckets.
    #[inline(always)]
    fn item_cell<I: Hash>(&self, masked: bool, item: &I, row: usize, seed: u64) -> T
        requires masked { IsTrue masked → IsTrue (is_power_of_two self.now.rows.buckets) }
        requires row { row < length self.now.rows.seeds.now }
        requires seed { seed ≡ slice_index self.now.rows.seeds.now row }
        ensures { T.number result ≡ flat_at self.now.rows.buckets (C.list self.now.cells) row
            (buckets_by self.now.rows.buckets self.now.rows.seeds.now (fed_bytes I.hash_input item.now) row) }
    {
        let index = self
            .rows
            .index_by_seed(masked, &FedAgain { item }, row, seed);
        self.cells.cell(index)
    }
}

impl<'a, T: CountMinValue, C: CellList<T> + Drop> ReadRows<T> for RowCells<'a, T, C> {
    ghost grid = { λ cells. grid_of cells.rows.seeds.now cells.rows.buckets (C.list cells.cells) };

    #[inline(always)]
    fn num_rows(&self) -> usize {
        self.rows.seeds.len()
    }

    #[inline(always)]
    fn buckets(&self) -> Divisor {
        self.rows.buckets
    }

    #[inline(always)]
    fn min_of_four<R: Rehashable>(&self, bytes: &R) -> T {
        let first = self.rows.index(true, bytes, 0);
        let second = self.rows.index(true, bytes, 1);
        let third = self.rows.index(true, bytes, 2);
        let fourth = self.rows.index(true, bytes, 3);
        let one = self.cells.cell(first);
        let two = one.min(self.cells.cell(second));
        let three = two.min(self.cells.cell(third));
        three.min(self.cells.cell(fourth))
    }

    #[inline(always)]
    fn min_of_each<R: Rehashable>(&self, masked: bool, bytes: &R) -> T {
        let first = self.rows.index(masked, bytes, 0);
        let mut least = self.cells.cell(first);
        for row in 1..self.rows.seeds.len() {
            let index = self.rows.index(masked, bytes, row);
            let cell = self.cells.cell(index);
            least = least.min(cell);
        }
        least
    }
}
