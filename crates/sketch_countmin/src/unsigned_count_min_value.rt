//! The requirements of halving and decay on the value type.
ghost use Rattle.std.specs.Prelude.{◌≡◌, pos, ◌≤ℤ◌};
ghost use Rattle.sketch_countmin.specs.Values.{halved};

use crate::count_min_value::CountMinValue;

/// An unsigned type that a [`CountMinSketch`](crate::CountMinSketch) can count in: `u8` to `u64`.
///
/// # Examples
///
/// ```
/// use sketch_countmin::{CountMinSketch, UnsignedCountMinValue};
///
/// fn halve<T: UnsignedCountMinValue>(counts: &mut CountMinSketch<T>) {
///     counts.halve();
/// }
/// ```
pub trait UnsignedCountMinValue: CountMinValue {
    /// Returns half of the value, rounded down.
    #[inline(always)]
    fn halve(self) -> Self
        ensures { Self.number result ≡ halved (Self.number self) }
    {
        let half = self.to_number() as u128 / 2;
        Self::from_number_in_range(half as i128)
    }

    ghost unsigned: { (x : Self) → pos 0 ≤ℤ Self.number x };
}
