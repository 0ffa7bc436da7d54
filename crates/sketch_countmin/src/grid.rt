//! The grid of a sketch: a row of cells for each hash.
ghost use Rattle.std.specs.Prelude.{◌≡◌, ℕ, ◌+◌, ◌*◌, ◌<◌, ◌≤◌, ◌↔◌, [], IsTrue, IfOk, length, map, replicate, pos, ◌+ℤ◌, ◌≤ℤ◌, unsigned_abs, slice_index_or};
ghost use Rattle.std.specs.Int.{is_power_of_two};
ghost use Rattle.sketch_base.specs.Hashes.{fed_bytes};
ghost use Rattle.sketch_countmin.specs.Cells.{cell_in, flat_at};
ghost use Rattle.sketch_countmin.specs.Grid.{IsGridOf, IsMinIn, KeepsShape, AddsItem, CountsInRow, CountsInRows};
ghost use Rattle.sketch_countmin.specs.Values.{scaled, halved};

use crate::cells::{add_all, add_at, clear_all, halve_all, same_cells, scale_all};
use crate::count_min_value::CountMinValue;
use crate::limits::{MAX_TABLE_ENTRIES, MIN_NUM_BUCKETS};
use crate::row_cells::RowCells;
use crate::row_item::{FedAgain, RowItem};
use crate::rows::{Rows, bucket_count, row_seeds};
use crate::unsigned_count_min_value::UnsignedCountMinValue;
use sketch_base::{Divisor, Rehashable};
use std::alloc::{AllocError, Global};
use std::hash::Hash;
use std::marker::Model;

/// Cells in rows, with a seed for each row. Each row has a cell for each bucket.
#[derive(Drop)]
pub struct Grid<T: CountMinValue> {
    buckets: Divisor,
    row_seeds: Vec<u64>,
    counts: Vec<T>,
}

impl<T: CountMinValue> Model for Grid<T> {
    ghost use Rattle.std.specs.Prelude.{map};
    ghost use Rattle.sketch_countmin.specs.Grid.{GridState, IsGrid, grid_of};

    ghost Value = { GridState };

    ghost view = { λ g. grid_of g.row_seeds.items g.buckets (map T.number g.counts.items) };

    ghost invariant = { λ g. IsGrid (grid_of g.row_seeds.items g.buckets (map T.number g.counts.items)) };
}

impl<T: CountMinValue> Grid<T> {
    /// Creates the grid with these cells, whose rows have the seeds of a sketch with this seed.
    pub fn new(
        alloc: Global,
        num_hashes: u8,
        num_buckets: u32,
        seed: u64,
        counts: Vec<T>,
    ) -> Result<Self, AllocError>
        requires some_hashes { 1 ≤ num_hashes }
        requires some_buckets { MIN_NUM_BUCKETS ≤ num_buckets }
        requires few_cells { num_hashes * num_buckets < MAX_TABLE_ENTRIES }
        requires size { length (map T.number counts.items) ≡ num_hashes * num_buckets }
        ensures { IfOk result (IsGridOf num_hashes num_buckets seed (map T.number counts.items)) }
    {
        Ok(Grid {
            buckets: bucket_count(num_buckets),
            row_seeds: row_seeds(alloc, num_hashes, seed)?,
            counts,
        })
    }

    /// Returns the number of rows.
    #[inline(always)]
    pub fn num_rows(&self) -> usize
        ensures { result ≡ length self.now.row_seeds }
    {
        self.row_seeds.len()
    }

    /// Returns the number of buckets.
    #[inline(always)]
    pub fn buckets(&self) -> Divisor
        ensures { result ≡ self.now.buckets }
    {
        self.buckets
    }

    /// Returns the number of cells.
    #[inline(always)]
    pub fn num_cells(&self) -> usize
        ensures { result ≡ length self.now.cells }
    {
        self.counts.len()
    }

    /// Returns the cells, row by row.
    #[inline(always)]
    pub fn counts(&self) -> &[T]
        ensures { map T.number result.now ≡ self.now.cells }
    {
        self.counts.as_slice()
    }

    /// Returns the allocator of the cells.
    pub fn allocator(&self) -> Global {
        *self.counts.allocator()
    }

    /// Adds the weight at the bucket of hashed bytes in each of four rows. The number of buckets is a power of two.
    #[inline(always)]
    pub fn add_to_four<R: Rehashable>(&mut self, bytes: &R, weight: T)
        requires power { IsTrue (is_power_of_two self.old.buckets) }
        requires hashable { R.can_hash bytes.now }
        requires four { length self.old.row_seeds ≡ 4 }
        requires room { (k : ℕ) → unsigned_abs (cell_in self.old.cells k +ℤ T.number weight) ≤ T.greatest }
        ensures { AddsItem (R.bytes bytes.now) (T.number weight) self.old self.new }
    {
        let rows = Rows {
            seeds: &self.row_seeds,
            buckets: self.buckets,
        };
        let first = rows.index(true, bytes, 0);
        let second = rows.index(true, bytes, 1);
        let third = rows.index(true, bytes, 2);
        let fourth = rows.index(true, bytes, 3);
        let counts = self.counts.as_mut_slice();
        add_at(counts, first, weight);
        add_at(counts, second, weight);
        add_at(counts, third, weight);
        add_at(counts, fourth, weight);
    }

    /// Adds the weight at the bucket of hashed bytes in each row. `masked` requires a power of two of buckets.
    #[inline(always)]
    pub fn add_to_each<R: Rehashable>(&mut self, masked: bool, bytes: &R, weight: T)
        requires masked { IsTrue masked → IsTrue (is_power_of_two self.old.buckets) }
        requires hashable { R.can_hash bytes.now }
        requires room { (k : ℕ) → unsigned_abs (cell_in self.old.cells k +ℤ T.number weight) ≤ T.greatest }
        ensures { AddsItem (R.bytes bytes.now) (T.number weight) self.old self.new }
    {
        let rows = Rows {
            seeds: &self.row_seeds,
            buckets: self.buckets,
        };
        let counts = self.counts.as_mut_slice();
        for row in 0..rows.seeds.len() {
            let index = rows.index(masked, bytes, row);
            add_at(counts, index, weight);
        }
    }

    /// Adds 1 to each item's cell in each row.
    #[inline]
    pub fn count_each<I: Hash>(&mut self, items: &[I])
        requires room { (k : ℕ) → unsigned_abs (cell_in self.old.cells k) + length items.now ≤ T.greatest }
        ensures { CountsInRows (map (fed_bytes I.hash_input) items.now) (length self.old.row_seeds)
            self.old self.new }
    {
        // The label is for the prover.
        'rows: for row in 0..self.row_seeds.len() {
            self.count_in_row(row, items);
        }
    }

    /// Adds 1 to each item's cell in one row.
    #[inline]
    fn count_in_row<I: Hash>(&mut self, row: usize, items: &[I])
        requires row { row < length self.old.row_seeds }
        requires room { (b : ℕ) → b < self.old.buckets
            → unsigned_abs (flat_at self.old.buckets self.old.cells row b) + length items.now ≤ T.greatest }
        ensures { CountsInRow (map (fed_bytes I.hash_input) items.now) row self.old self.new }
    {
        let rows = Rows {
            seeds: &self.row_seeds,
            buckets: self.buckets,
        };
        let masked = rows.buckets.is_power_of_two();
        let seed = rows.seeds[row];
        let counts = self.counts.as_mut_slice();
        for item in items {
            let index = rows.index_by_seed(masked, &FedAgain { item }, row, seed);
            add_at(counts, index, T::ONE);
        }
    }

    /// Returns the minimum of the item's cells.
    #[inline(always)]
    pub fn min_cell<R: RowItem<T>>(&self, item: &R) -> T
        ensures { IsMinIn self.now (R.bytes item.now) (T.number result) }
    {
        let cells = RowCells::new(self.counts.as_slice(), self.buckets, &self.row_seeds);
        item.min_cell(cells)
    }

    /// Writes the minimum of each item's cells.
    #[inline]
    pub fn min_cells<I: Hash>(&self, items: &[I], least: &mut [T])
        requires same { length least.old ≡ length items.now }
        ensures { (i : ℕ) → i < length items.now → IsMinIn self.now
            (slice_index_or (map (fed_bytes I.hash_input) items.now) i [])
            (slice_index_or (map T.number least.new) i (pos 0)) }
    {
        let cells = RowCells::new(self.counts.as_slice(), self.buckets, &self.row_seeds);
        cells.min_cells(items, least);
    }

    /// Adds the cells of another grid, index by index.
    #[inline(always)]
    pub fn add_all(&mut self, other: &Grid<T>)
        requires same { length self.old.cells ≡ length other.now.cells }
        requires room { (k : ℕ)
            → unsigned_abs (cell_in self.old.cells k +ℤ cell_in other.now.cells k) ≤ T.greatest }
        ensures added { (k : ℕ) → cell_in self.new.cells k
            ≡ cell_in self.old.cells k +ℤ cell_in other.now.cells k }
        ensures shape { KeepsShape self.old self.new }
    {
        add_all(&mut self.counts, &other.counts);
    }

    /// Sets each cell to zero.
    #[inline(always)]
    pub fn clear(&mut self)
        ensures { self.new ≡ record self.old { cells = replicate (length self.old.cells) (pos 0) } }
    {
        clear_all(&mut self.counts);
    }

    /// Returns whether two grids have the same cells.
    pub fn has_cells_of(&self, other: &Grid<T>) -> bool
        ensures { IsTrue result ↔ (self.now.cells ≡ other.now.cells) }
    {
        same_cells(&self.counts, &other.counts)
    }
}

impl<T: UnsignedCountMinValue> Grid<T> {
    /// Halves each cell, rounded down.
    #[inline(always)]
    pub fn halve(&mut self)
        ensures halved { self.new ≡ record self.old { cells = map halved self.old.cells } }
        ensures positive { (k : ℕ) → pos 0 ≤ℤ cell_in self.old.cells k }
    {
        halve_all(&mut self.counts);
    }

    /// Multiplies each cell by `numerator / denominator`, rounded down.
    #[inline(always)]
    pub fn scale(&mut self, numerator: u64, denominator: u64)
        requires positive { 0 < numerator }
        requires at_most_one { numerator ≤ denominator }
        ensures scaled { self.new ≡ record self.old { cells = map (scaled numerator denominator) self.old.cells } }
        ensures positive { (k : ℕ) → pos 0 ≤ℤ cell_in self.old.cells k }
    {
        scale_all(&mut self.counts, numerator, denominator);
    }
}

impl<T: CountMinValue> Clone for Grid<T> {
    ghost is_clone = { λ grid copy. copy ≡ grid };

    fn clone(&self) -> Result<Self, AllocError> {
        let alloc = *self.counts.allocator();
        let row_seeds = Vec::from_slice(alloc, &self.row_seeds)?;
        let counts = Vec::from_slice(alloc, &self.counts)?;
        Ok(Grid {
            buckets: self.buckets,
            row_seeds,
            counts,
        })
    }
}
