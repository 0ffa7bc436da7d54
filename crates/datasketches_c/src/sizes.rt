//! Sizes from error targets.
ghost use Rattle.std.specs.Prelude.{◌≡◌, ℕ, ◌*◌, ◌^◌, ◌≤◌};
ghost use Rattle.datasketches_c.specs.Sizes.{Suggests, SuggestsBits, SuggestsBuckets, SuggestsCountHashes, SuggestsFilterHashes, SuggestsMaxMapSize, SuggestsMinBits, WritesSize, size_numbered};

use crate::codes::write;
use crate::status_code::BAD_ARGUMENT;
use any_sketch::AnyError;
use sketch_base::{Error, Fault};
use sketch_frequencies::suggest_max_map_size;

/// A size that a target asks for.
#[derive(Clone, Copy)]
pub enum Size {
    /// The maximum size of a sketch of frequent items.
    MaxMapSize,
    /// The buckets in a row of a Count-Min sketch.
    NumBuckets,
    /// The hashes of a Count-Min sketch.
    CountHashes,
    /// The bits of a filter.
    NumBits,
    /// The least bits of a filter for few items or a low rate.
    MinNumBits,
    /// The hashes of a filter.
    FilterHashes,
}

/// Returns the size that one of `DS_SIZE_MAX_MAP_SIZE` and so on of C names, or `None` if it is none of them.
fn size_numbered(size: i32) -> Option<Size>
    ensures { result ≡ size_numbered size }
{
    match size {
        1 => Some(Size::MaxMapSize),
        2 => Some(Size::NumBuckets),
        3 => Some(Size::CountHashes),
        4 => Some(Size::NumBits),
        5 => Some(Size::MinNumBits),
        6 => Some(Size::FilterHashes),
        _ => None,
    }
}

/// Returns the smallest maximum size of a sketch of frequent items with this guarantee for every stream: the error is at most the
/// total weight over `parts`.
fn max_map_size(parts: u64) -> Result<u64, AnyError>
    ensures { SuggestsMaxMapSize parts result }
{
    Ok(suggest_max_map_size(parts as usize)? as u64)
}

/// Returns the number of buckets of a Count-Min sketch for an error of the total over `parts`.
fn num_buckets(parts: u64) -> Result<u64, AnyError>
    ensures { SuggestsBuckets parts result }
{
    Ok(sketch_countmin::suggest_num_buckets(parts)? as u64)
}

/// Returns the number of hashes of a Count-Min sketch for a probability of 1 in `questions`.
fn count_hashes(questions: u64) -> Result<u64, AnyError>
    ensures { SuggestsCountHashes questions result }
{
    Ok(sketch_countmin::suggest_num_hashes(questions)? as u64)
}

/// Returns the number of bits of a filter of `num_items` items for a rate of 1 in `questions`.
fn num_bits(num_items: u64, questions: u64) -> Result<u64, AnyError>
    ensures { SuggestsBits num_items questions result }
{
    Ok(sketch_bloom::suggest_num_bits(num_items, questions)?)
}

/// Returns the number of hashes of a filter of `num_bits` bits for `num_items` items.
fn filter_hashes(num_bits: u64, num_items: u64) -> Result<u64, AnyError>
    ensures { SuggestsFilterHashes num_bits num_items result }
{
    Ok(sketch_bloom::suggest_num_hashes(num_bits, num_items)? as u64)
}

/// Returns the square root of a number, rounded up.
fn root_rounded_up(n: u128) -> u128
    ensures enough { n ≤ result * result }
    ensures least { (m : ℕ) → n ≤ m * m → result ≤ m }
    ensures bound { result ≤ 2 ^ 64 }
{
    let root = n.isqrt();
    if root * root < n {
        return root + 1;
    }
    root
}

/// Returns the least bits of a filter that keep the two hashes of items apart: 4 times the square root of `num_items` times
/// `questions`, rounded up.
fn min_num_bits(num_items: u64, questions: u64) -> Result<u64, AnyError>
    ensures { SuggestsMinBits num_items questions result }
{
    let product = num_items as u128 * questions as u128;
    if product >= 1 << 124 {
        return Err(AnyError::Sketch(Error::invalid_argument(Fault::BadNumBits)));
    }
    let least = root_rounded_up(16 * product);
    if least > 137438953152 {
        return Err(AnyError::Sketch(Error::invalid_argument(Fault::BadNumBits)));
    }
    Ok(least as u64)
}

/// Returns a size for one target or two.
fn suggested(size: Size, first: u64, second: u64) -> Result<u64, AnyError>
    ensures { Suggests size first second result }
{
    match size {
        Size::MaxMapSize => max_map_size(first),
        Size::NumBuckets => num_buckets(first),
        Size::CountHashes => count_hashes(first),
        Size::NumBits => num_bits(first, second),
        Size::MinNumBits => min_num_bits(first, second),
        Size::FilterHashes => filter_hashes(first, second),
    }
}

/// Writes a size for error targets. Those of the sizes 1, 2 and 3 are `first` alone.
///
/// | `size` | what is written | errors |
/// |---|---|---|
/// | 1 | the smallest maximum size of a sketch of frequent items whose error is at most the total weight over `first`, for every stream | `MapSizeTooLarge` if `first` exceeds 512 |
/// | 2 | the buckets of a Count-Min sketch by the published formula: e times `first`, rounded up | `BadNumBuckets` for 0, and `TableTooLarge` for 2^30 buckets or more |
/// | 3 | the hashes of a Count-Min sketch by the published formula: the natural logarithm of `first`, rounded up | `BadNumHashes` for 0 and 1 |
/// | 4 | the bits of a filter by the published formula: `first` items times ln `second` over the square of ln 2. The binary logarithm is rounded up to 64ths. Under ideal hashes the false-positive rate is about 1/`second` | `BadNumBits` for 0 items, for `second` of 0 and 1, and above 137438953152 bits |
/// | 5 | the least bits of a filter: 4 times the square root of `first` items times `second`, rounded up. It exceeds the number above for few items or a low rate | `BadNumBits` above 137438953152 bits |
/// | 6 | the hashes of a filter by the published formula: `first` bits over `second` items times ln 2, rounded up | `BadNumBits` unless there are 1 to 137438953152 bits, and `BadNumHashes` for 0 items and above 32767 hashes |
///
/// Returns `BAD_ARGUMENT` for another `size`. After an error nothing is written.
///
/// An item's positions are two hashes modulo the number of bits. In a filter of few bits they repeat those of an inserted item so often
/// that its false-positive rate is above 1/`second`. The rate with at least the bits of the size 5 is not proved. As measured, it is at
/// most 1.3/`second`.
#[unsafe(no_mangle)]
pub extern "C" fn ds_suggest(size: i32, first: u64, second: u64, found: &mut u64) -> i32
    ensures { WritesSize (size_numbered size) first second found.old found.new result }
{
    match size_numbered(size) {
        Some(size) => write(suggested(size, first, second), found),
        None => BAD_ARGUMENT,
    }
}
