//! The margin of an upper bound.
ghost use Rattle.std.specs.Prelude.{◌≡◌, ◌*◌, ◌/◌, pos, ◌+ℤ◌, unsigned_abs};
ghost use Rattle.std.specs.Int.{int_min};

use crate::count_min_value::CountMinValue;
use sketch_base::Divisor;

/// The numerator of the fraction that approximates e in an upper bound.
const E_NUMERATOR: u128 = 2_718_281_828_459_045_235;

/// The denominator of that fraction.
const E_DENOMINATOR: u128 = 1_000_000_000_000_000_000;

/// Returns an estimate plus the margin of a sketch with this total, or the maximum of `T` if this exceeds it.
pub fn with_margin<T: CountMinValue>(estimate: T, total: T, buckets: Divisor) -> T
    requires { T.number total ≡ pos (unsigned_abs (T.number total)) }
    ensures { T.number result
        ≡ int_min (T.number estimate +ℤ pos (unsigned_abs (T.number total) * E_NUMERATOR / (E_DENOMINATOR * buckets)))
        (pos T.greatest) }
{
    let scale = E_DENOMINATOR * buckets.divisor() as u128;
    let margin = total.to_number() as u128 * E_NUMERATOR / scale;
    let bound = estimate.to_number() + margin as i128;
    match T::from_number(bound) {
        Some(value) => value,
        None => T::MAX,
    }
}
