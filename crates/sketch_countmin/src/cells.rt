//! Loops over the cells of a sketch, which are stored row by row in one slice.
ghost use Rattle.std.specs.Prelude.{◌≡◌, ℕ, ◌<◌, ◌≤◌, map, length, slice_set, pos, ◌+ℤ◌, unsigned_abs, replicate, IfOk, IsTrue, ◌↔◌};
ghost use Rattle.sketch_countmin.specs.Values.{scaled, halved};
ghost use Rattle.sketch_countmin.specs.Cells.{cell_in};

use crate::count_min_value::CountMinValue;
use crate::fraction::Fraction;
use crate::unsigned_count_min_value::UnsignedCountMinValue;
use std::alloc::{AllocError, Global};

/// Returns `size` zeros.
pub fn zeros<T: CountMinValue>(alloc: Global, size: usize) -> Result<Vec<T>, AllocError>
    ensures { IfOk result (λ v. map T.number v.items ≡ replicate size (pos 0)) }
{
    let mut counts = Vec::with_capacity(alloc, size)?;
    while counts.len() < size {
        counts.push(T::ZERO)?;
    }
    Ok(counts)
}

/// Adds the weight to the cell at `index`.
#[inline(always)]
pub(crate) fn add_at<T: CountMinValue>(counts: &mut [T], index: usize, weight: T)
    requires bounds { index < length counts.old }
    requires room { unsigned_abs (cell_in (map T.number counts.old) index +ℤ T.number weight) ≤ T.greatest }
    ensures { let cells = map T.number counts.old in
        map T.number counts.new ≡ slice_set cells index (cell_in cells index +ℤ T.number weight) }
{
    let sum = counts[index].to_number() + weight.to_number();
    counts[index] = T::from_number_in_range(sum);
}

/// Adds the cells of another table, index by index.
pub fn add_all<T: CountMinValue>(counts: &mut [T], other: &[T])
    requires same { length counts.old ≡ length other.now }
    requires room { (k : ℕ)
        → unsigned_abs (cell_in (map T.number counts.old) k +ℤ cell_in (map T.number other.now) k) ≤ T.greatest }
    ensures { (k : ℕ) → cell_in (map T.number counts.new) k
        ≡ cell_in (map T.number counts.old) k +ℤ cell_in (map T.number other.now) k }
{
    for index in 0..other.len() {
        add_at(counts, index, other[index]);
    }
}

/// Sets each cell to zero.
pub fn clear_all<T: CountMinValue>(counts: &mut [T])
    ensures { map T.number counts.new ≡ replicate (length counts.old) (pos 0) }
{
    for value in counts.iter_mut() {
        *value = T::ZERO;
    }
}

/// Halves each cell, rounded down.
pub fn halve_all<T: UnsignedCountMinValue>(counts: &mut [T])
    ensures { map T.number counts.new ≡ map halved (map T.number counts.old) }
{
    for value in counts.iter_mut() {
        *value = value.halve();
    }
}

/// Multiplies each cell by `numerator / denominator`, rounded down.
pub fn scale_all<T: UnsignedCountMinValue>(counts: &mut [T], numerator: u64, denominator: u64)
    requires positive { 0 < numerator }
    requires at_most_one { numerator ≤ denominator }
    ensures { map T.number counts.new ≡ map (scaled numerator denominator) (map T.number counts.old) }
{
    if numerator == denominator {
        return;
    }
    let fraction = Fraction::new(numerator, denominator);
    for value in counts.iter_mut() {
        *value = scale_by(*value, &fraction);
    }
}

/// Returns the value times the fraction, rounded down.
#[inline(always)]
fn scale_by<T: UnsignedCountMinValue>(value: T, fraction: &Fraction) -> T
    requires positive { 0 < fraction.now.0 }
    requires below_one { fraction.now.0 < fraction.now.1 }
    ensures { T.number result ≡ scaled fraction.now.0 fraction.now.1 (T.number value) }
{
    let scaled = fraction.of(value.to_number() as u64);
    T::from_number_in_range(scaled as i128)
}

/// Returns whether two tables have the same numbers.
pub fn same_cells<T: CountMinValue>(first: &[T], second: &[T]) -> bool
    ensures { IsTrue result ↔ (map T.number first.now ≡ map T.number second.now) }
{
    if first.len() != second.len() {
        return false;
    }
    for index in 0..first.len() {
        if first[index].to_number() != second[index].to_number() {
            return false;
        }
    }
    true
}
