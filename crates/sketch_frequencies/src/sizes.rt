//! The sizes that a sketch may have.
ghost use Rattle.std.specs.Prelude.{◌≡◌, ◌↔◌, ℕ, ◌<◌, ◌≤◌, None, IfOk, IfErr, IsOk, OnOk};
ghost use Rattle.sketch_base.specs.Errors.{invalid_argument, refusal_of};
ghost use Rattle.sketch_frequencies.specs.Sizes.{size_fault, sample_fault};
ghost use Rattle.sketch_frequencies.specs.State.{IsSampleSize, max_sample_size};
ghost use Rattle.sketch_frequencies.specs.SuggestedSizes.{usual_budget};

use counter_table::{MAX_SAMPLE_SIZE, capacity_of};
use sketch_base::{Error, Fault};

/// The table size of a new sketch, and the minimum of the maximum size.
pub(crate) const MIN_MAP_SIZE: usize = 8;

/// The maximum number of slots of a table.
const MAX_MAP_SIZE: usize = 1 << 30;

/// The minimum number of counters that a purge may sample.
const MIN_SAMPLE_SIZE: usize = 2;

/// Returns the maximum number of counters that a purge may sample in a sketch of this maximum size.
pub(crate) fn max_sample_of(max_size: usize) -> usize
    ensures { result ≡ max_sample_size max_size }
{
    capacity_of(max_size.min(MAX_MAP_SIZE)).min(MAX_SAMPLE_SIZE)
}

/// Checks that `max_map_size` is a valid maximum size: a power of two from 8 to 2^30.
///
/// # Errors
///
/// Returns `MapSizeNotPowerOfTwo`, `MapSizeTooSmall` below 8 or `MapSizeTooLarge` above 2^30, checked in this order.
pub fn check_map_size(max_map_size: usize) -> Result<(), Error>
    ensures accepted { IsOk result ↔ (size_fault max_map_size ≡ None) }
    ensures refused { IfErr result (λ e. e ≡ refusal_of (size_fault max_map_size)) }
{
    if !max_map_size.is_power_of_two() {
        return Err(Error::invalid_argument(Fault::MapSizeNotPowerOfTwo));
    }
    if max_map_size < MIN_MAP_SIZE {
        return Err(Error::invalid_argument(Fault::MapSizeTooSmall));
    }
    if max_map_size > MAX_MAP_SIZE {
        return Err(Error::invalid_argument(Fault::MapSizeTooLarge));
    }
    Ok(())
}

/// Checks that purges of a sketch of this maximum size may sample `sample_size` counters.
///
/// It has to be an even number from 2 to three quarters of the maximum size, at most 1024. Otherwise returns `BadSampleSize`.
pub(crate) fn check_sample_size(max_map_size: usize, sample_size: usize) -> Result<(), Error>
    ensures accepted { IsOk result ↔ (sample_fault max_map_size sample_size ≡ None) }
    ensures sample { OnOk result (IsSampleSize max_map_size sample_size) }
    ensures refused { IfErr result (λ e. e ≡ invalid_argument Fault.BadSampleSize) }
{
    if sample_size < MIN_SAMPLE_SIZE
        || sample_size % 2 != 0
        || sample_size > max_sample_of(max_map_size)
    {
        return Err(Error::invalid_argument(Fault::BadSampleSize));
    }
    Ok(())
}

/// Returns the smallest maximum size for which `parts` * error is at most the total weight, for every stream.
///
/// The size is for [`new`](crate::FrequentItemsSketch::new), which chooses the maximum sample size. Half of that is at least
/// `parts` with this maximum size, and with no smaller one. The bound is proved for every order of the items, and for merges
/// of sketches that `new` created with this size or a larger one ([`map_size_bounds`](crate::laws::map_size_bounds)). For
/// 0 parts the size is the minimum, 8.
///
/// # Errors
///
/// Returns `MapSizeTooLarge` if `parts` is above 512. No maximum size gives that bound, since a purge samples at most 1024
/// counters.
///
/// # Examples
///
/// ```
/// use sketch_frequencies::{Error, FrequentItemsSketch, suggest_max_map_size};
/// use std::alloc::Global;
///
/// fn visits_within_a_percent(alloc: Global) -> Result<FrequentItemsSketch<u64>, Error> {
///     FrequentItemsSketch::new(alloc, suggest_max_map_size(100)?)
/// }
/// ```
pub fn suggest_max_map_size(parts: usize) -> Result<usize, Error>
    ensures enough { IfOk result (λ size. parts ≤ usual_budget size) }
    ensures least { IfOk result (λ size. (m : ℕ) → size_fault m ≡ None → parts ≤ usual_budget m → size ≤ m) }
    ensures allowed { IfOk result (λ size. size_fault size ≡ None) }
    ensures refused { IfErr result (λ e.
        (e ≡ invalid_argument Fault.MapSizeTooLarge) × ((m : ℕ) → usual_budget m < parts)) }
{
    if parts > MAX_SAMPLE_SIZE / 2 {
        return Err(Error::invalid_argument(Fault::MapSizeTooLarge));
    }
    // eight slots set three items aside, and twice the slots twice as many
    let eighth = parts.div_ceil(3).next_power_of_two();
    Ok(8 * eighth)
}
