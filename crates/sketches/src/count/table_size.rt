//! The size of a table for an error.
ghost use Rattle.std.specs.Prelude.{◌≡◌, ℕ, ◌*◌, ◌^◌, ◌<◌, ◌≤◌, None, IfErr, IfOk};
ghost use Rattle.sketch_frequencies.specs.Sizes.{size_fault};
ghost use Rattle.sketch_frequencies.specs.SuggestedSizes.{usual_budget};

use crate::failure::Failure;
use crate::print::percent::{Percent, WHOLE};
use sketch_frequencies::suggest_max_map_size;

/// Returns the smallest size of a table whose error is at most a percentage of the total weight.
///
/// # Errors
///
/// Returns `BadSize` if no size has that bound.
pub fn size_for(error: Percent) -> Result<usize, Failure>
    ensures allowed { IfOk result (λ size. size_fault size ≡ None) }
    ensures share { IfOk result (λ size. (n total : ℕ) → usual_budget size * n ≤ total → 10 ^ 8 * n ≤ error.millionths * total) }
    ensures least { IfOk result (λ size. (m : ℕ) → size_fault m ≡ None → 10 ^ 8 ≤ error.millionths * usual_budget m → size ≤ m) }
    ensures refused { IfErr result (λ failure. (failure ≡ Failure.BadSize) × ((m : ℕ) → error.millionths * usual_budget m < 10 ^ 8)) }
{
    if error.millionths == 0 {
        return Err(Failure::BadSize);
    }
    let parts = WHOLE.div_ceil(error.millionths);
    match suggest_max_map_size(parts as usize) {
        Ok(size) => Ok(size),
        Err(_) => Err(Failure::BadSize),
    }
}
