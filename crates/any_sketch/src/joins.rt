//! Calls that combine a sketch with another of its kind, or compare two.
ghost use Rattle.sketch_bloom.specs.History.BloomHistory.{Difference, Intersection, Union};
ghost use Rattle.sketch_bloom.specs.State.{intersected, subtracted, united};
ghost use Rattle.any_sketch.specs.Joins.{Combines, Compares, Intersects, Merges, MergesCounts, MergesFrequent, Subtracts, TellsWhetherSame};

use crate::any_error::AnyError;
use crate::any_sketch::AnySketch;
use sketch_bloom::BloomFilter;
use sketch_countmin::{CountMinSketch, CountMinValue};
use sketch_frequencies::{EqualClone, FrequentItemsSketch};
use std::hash::Hash;

/// Adds the other filter's positions.
fn unite(filter: &mut BloomFilter, other: &BloomFilter) -> Result<(), AnyError>
    ensures { Combines united Union filter.old other.now filter.new result }
{
    match filter.union(other) {
        Ok(()) => Ok(()),
        Err(error) => Err(AnyError::Sketch(error)),
    }
}

/// Keeps the positions that both filters have.
fn intersect(filter: &mut BloomFilter, other: &BloomFilter) -> Result<(), AnyError>
    ensures { Combines intersected Intersection filter.old other.now filter.new result }
{
    match filter.intersect(other) {
        Ok(()) => Ok(()),
        Err(error) => Err(AnyError::Sketch(error)),
    }
}

/// Removes the other filter's positions.
fn subtract(filter: &mut BloomFilter, other: &BloomFilter) -> Result<(), AnyError>
    ensures { Combines subtracted Difference filter.old other.now filter.new result }
{
    match filter.difference(other) {
        Ok(()) => Ok(()),
        Err(error) => Err(AnyError::Sketch(error)),
    }
}

/// Adds the other Count-Min sketch's cells and total.
fn merge_counts<V: CountMinValue>(
    sketch: &mut CountMinSketch<V>,
    other: &CountMinSketch<V>,
) -> Result<(), AnyError>
    ensures { MergesCounts V.greatest sketch.old other.now sketch.new result }
{
    match sketch.merge(other) {
        Ok(()) => Ok(()),
        Err(error) => Err(AnyError::Sketch(error)),
    }
}

/// Merges the other sketch of frequent items.
fn merge_frequent<T: EqualClone + Hash + Drop>(
    sketch: &mut FrequentItemsSketch<T>,
    other: &FrequentItemsSketch<T>,
) -> Result<(), AnyError>
    ensures { MergesFrequent T.eq T.clones_never_fail sketch.old other.now sketch.new result }
{
    match sketch.merge(other) {
        Ok(()) => Ok(()),
        Err(error) => Err(AnyError::Sketch(error)),
    }
}

/// Returns whether two filters are equal.
fn same_filters(filter: &BloomFilter, other: &BloomFilter) -> Result<bool, AnyError>
    ensures { TellsWhetherSame filter.now other.now result }
{
    Ok(*filter == *other)
}

/// Returns whether two Count-Min sketches are equal.
fn same_counts<V: CountMinValue>(
    sketch: &CountMinSketch<V>,
    other: &CountMinSketch<V>,
) -> Result<bool, AnyError>
    ensures { TellsWhetherSame sketch.now other.now result }
{
    Ok(*sketch == *other)
}

impl AnySketch {
    /// Merges another sketch of the same kind into this one, which then stands for both histories. A filter gets the other's positions, a
    /// Count-Min sketch its cells and total. A sketch of frequent items keeps its own sizes.
    ///
    /// Only a sketch of frequent items allocates.
    ///
    /// # Errors
    ///
    /// The first of these that applies. The sketch is then unchanged.
    ///
    /// - `WrongKind` if the kinds differ;
    /// - `Mismatch` if two filters or two Count-Min sketches differ in their sizes or seeds;
    /// - `WeightOverflow` if both totals exceed `u64::MAX`, or `i64::MAX` for weights in `i64`;
    /// - `NoMemory` if an allocation fails.
    pub fn merge(&mut self, other: &AnySketch) -> Result<(), AnyError>
        ensures { Merges self.old other.now self.new result }
    {
        match self {
            AnySketch::Filter(sketch) => match other {
                AnySketch::Filter(other) => unite(sketch, other),
                _ => Err(AnyError::WrongKind),
            },
            AnySketch::CountI64(sketch) => match other {
                AnySketch::CountI64(other) => merge_counts(sketch, other),
                _ => Err(AnyError::WrongKind),
            },
            AnySketch::CountU64(sketch) => match other {
                AnySketch::CountU64(other) => merge_counts(sketch, other),
                _ => Err(AnyError::WrongKind),
            },
            AnySketch::FrequentI64(sketch) => match other {
                AnySketch::FrequentI64(other) => merge_frequent(sketch, other),
                _ => Err(AnyError::WrongKind),
            },
            AnySketch::FrequentU64(sketch) => match other {
                AnySketch::FrequentU64(other) => merge_frequent(sketch, other),
                _ => Err(AnyError::WrongKind),
            },
            AnySketch::FrequentStrings(sketch) => match other {
                AnySketch::FrequentStrings(other) => merge_frequent(sketch, other),
                _ => Err(AnyError::WrongKind),
            },
        }
    }

    /// Keeps the positions that this filter and another one have. Does not allocate.
    ///
    /// # Errors
    ///
    /// The first of these that applies. The sketch is then unchanged.
    ///
    /// - `WrongKind` if one is no filter;
    /// - `Mismatch` if the numbers of bits, the numbers of hashes, or the seeds differ.
    pub fn intersect(&mut self, other: &AnySketch) -> Result<(), AnyError>
        ensures { Intersects self.old other.now self.new result }
    {
        match self {
            AnySketch::Filter(sketch) => match other {
                AnySketch::Filter(other) => intersect(sketch, other),
                _ => Err(AnyError::WrongKind),
            },
            _ => Err(AnyError::WrongKind),
        }
    }

    /// Removes another filter's positions from this filter. Does not allocate.
    ///
    /// # Errors
    ///
    /// Those of [`intersect`](Self::intersect). The sketch is then unchanged.
    pub fn difference(&mut self, other: &AnySketch) -> Result<(), AnyError>
        ensures { Subtracts self.old other.now self.new result }
    {
        match self {
            AnySketch::Filter(sketch) => match other {
                AnySketch::Filter(other) => subtract(sketch, other),
                _ => Err(AnyError::WrongKind),
            },
            _ => Err(AnyError::WrongKind),
        }
    }

    /// Returns whether two filters, or two Count-Min sketches of one kind, are equal: in sizes, seed, and positions or total and cells.
    /// Does not allocate.
    ///
    /// # Errors
    ///
    /// `WrongKind` if the kinds differ, or the sketches are of frequent items. Two of these may differ after the same updates.
    pub fn equals(&self, other: &AnySketch) -> Result<bool, AnyError>
        ensures { Compares self.now other.now result }
    {
        match self {
            AnySketch::Filter(sketch) => match other {
                AnySketch::Filter(other) => same_filters(sketch, other),
                _ => Err(AnyError::WrongKind),
            },
            AnySketch::CountI64(sketch) => match other {
                AnySketch::CountI64(other) => same_counts(sketch, other),
                _ => Err(AnyError::WrongKind),
            },
            AnySketch::CountU64(sketch) => match other {
                AnySketch::CountU64(other) => same_counts(sketch, other),
                _ => Err(AnyError::WrongKind),
            },
            _ => Err(AnyError::WrongKind),
        }
    }
}
