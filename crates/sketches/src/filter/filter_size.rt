//! The filter of a run.
ghost use Rattle.std.specs.Prelude.{◌≡◌, ◌≤◌, IfErr, IfOk, IsErrOf};
ghost use Rattle.sketches.specs.Failures.{FailsFilter};
ghost use Rattle.sketches.specs.FilterSizes.{HasNoSize, IsFilterOf, IsShapeFor};

use crate::failure::Failure;
use sketch_bloom::{BloomFilter, BloomFilterBuilder, suggest_num_bits, suggest_num_hashes};
use std::alloc::Global;
use std::num::{nearest_u64_to_f64, nearest_usize_to_f64, saturating_f64_to_u64};

/// The size of a filter.
#[derive(Clone, Copy)]
pub enum FilterSize {
    /// The size for an error target.
    Target(ErrorTarget),
    /// A given size.
    Shape(Shape),
}

/// An error target.
#[derive(Clone, Copy)]
pub struct ErrorTarget {
    /// The number of distinct items that the filter is made for.
    pub items: u64,
    /// The filter contains one of this number of items that were not inserted.
    pub questions: u64,
}

/// The numbers of bits and of hashes.
#[derive(Clone, Copy)]
pub struct Shape {
    pub bits: u64,
    pub hashes: u16,
}

/// Creates an empty filter of a size, with this seed.
///
/// # Errors
///
/// Returns `BadSize` if the size is not allowed, and `Memory` if the filter cannot be allocated.
pub fn filter_of(alloc: Global, size: FilterSize, seed: u64) -> Result<BloomFilter, Failure>
    ensures made { IfOk result (IsFilterOf size seed) }
    ensures bad_size { HasNoSize size → IsErrOf result Failure.BadSize }
    ensures failed { IfErr result (FailsFilter size) }
{
    match size {
        FilterSize::Target(target) => filter_for(alloc, target, seed),
        FilterSize::Shape(shape) => filter_with(alloc, shape, seed),
    }
}

/// The minimum number of bits of a filter for an error target. With fewer bits, two hashes repeat so often that the rate is missed.
const MIN_NUM_BITS: u64 = 65536;

/// Creates an empty filter for an error target.
fn filter_for(alloc: Global, target: ErrorTarget, seed: u64) -> Result<BloomFilter, Failure>
    ensures made { IfOk result (IsFilterOf (FilterSize.Target target) seed) }
    ensures bad_size { HasNoSize (FilterSize.Target target) → IsErrOf result Failure.BadSize }
    ensures failed { IfErr result (FailsFilter (FilterSize.Target target)) }
{
    let shape = shape_for(target)?;
    Ok(
        BloomFilterBuilder::with_size(shape.bits, shape.hashes)
            .seed(seed)
            .build(alloc)?,
    )
}

/// Returns the numbers of bits and of hashes for an error target.
fn shape_for(target: ErrorTarget) -> Result<Shape, Failure>
    ensures made { IfOk result (IsShapeFor target.items target.questions) }
    ensures allowed { IfOk result (λ shape. (1 ≤ shape.bits) × (shape.bits ≤ 137438953152) × (1 ≤ shape.hashes) × (shape.hashes ≤ 32767)) }
    ensures bad_size { HasNoSize (FilterSize.Target target) → IsErrOf result Failure.BadSize }
    ensures failed { IfErr result (FailsFilter (FilterSize.Target target)) }
{
    let num_bits = suggest_num_bits(target.items, target.questions)?;
    let hashes = suggest_num_hashes(num_bits, target.items)?;
    Ok(Shape {
        bits: num_bits.max(MIN_NUM_BITS),
        hashes,
    })
}

/// Creates an empty filter of a given size.
fn filter_with(alloc: Global, shape: Shape, seed: u64) -> Result<BloomFilter, Failure>
    ensures made { IfOk result (IsFilterOf (FilterSize.Shape shape) seed) }
    ensures bad_size { HasNoSize (FilterSize.Shape shape) → IsErrOf result Failure.BadSize }
    ensures failed { IfErr result (FailsFilter (FilterSize.Shape shape)) }
{
    Ok(
        BloomFilterBuilder::with_size(shape.bits, shape.hashes)
            .seed(seed)
            .build(alloc)?,
    )
}

/// Returns whether a filter has the numbers of bits and of hashes of a size.
pub fn has_size_of(filter: &BloomFilter, size: FilterSize) -> bool {
    let shape = match size {
        FilterSize::Shape(shape) => shape,
        FilterSize::Target(target) => match shape_for(target) {
            Ok(shape) => shape,
            Err(_) => return false,
        },
    };
    shape.bits.div_ceil(64) == filter.capacity() as u64 / 64 && shape.hashes == filter.num_hashes()
}

/// Returns the number of items that were not inserted of which the filter contains about one, or `None` if it is above 10^12.
///
/// This holds under ideal hashes. It is not proved. Positions are two hashes modulo the number of bits, so an item that was not inserted
/// meets the pair of an inserted one at least once in the square of this number for each item and each direction.
pub fn questions_of(filter: &BloomFilter) -> Option<u64> {
    let load = load_of(filter);
    let rate = load.powi(i32::from(filter.num_hashes()));
    let bits = nearest_usize_to_f64(filter.capacity());
    let items = nearest_u64_to_f64(filter.bits_used().max(1)) / f64::from(filter.num_hashes());
    let pairs = bits * bits / (2.0 * items.max(1.0));
    let questions = (1.0 / rate).min(pairs).round();
    if questions > 1e12 {
        return None;
    }
    Some(saturating_f64_to_u64(questions))
}

/// Returns whether the filter is past what it is made for: it has more than three times the rate of false positives that it has if half of
/// its bits are set.
///
/// This holds under ideal hashes. It is not proved.
pub fn is_past(filter: &BloomFilter) -> bool {
    (2.0 * load_of(filter)).powi(i32::from(filter.num_hashes())) > 3.0
}

/// Returns how full the filter is, in percent, rounded.
pub fn percent_of(filter: &BloomFilter) -> u64 {
    saturating_f64_to_u64((100.0 * load_of(filter)).round())
}

/// Returns the share of the filter's bits that are set.
fn load_of(filter: &BloomFilter) -> f64 {
    nearest_u64_to_f64(filter.bits_used()) / nearest_usize_to_f64(filter.capacity())
}
