//! The requirements of a sketch on its value type.
ghost use Rattle.std.specs.Prelude.{◌≡◌, ℕ, ◌+◌, ◌^◌, ◌<◌, ◌≤◌, ℤ, pos, negsuc, ◌≤ℤ◌, ◌<ℤ◌, ◌+ℤ◌, unsigned_abs, MatchResult};
ghost use Rattle.std.specs.Ordering.{MatchOrdering};
ghost use Rattle.sketch_base.specs.Errors.{invalid_data};
ghost use Rattle.sketch_countmin.specs.ValueLaws.{ValueLaws};
ghost use Rattle.sketch_countmin.specs.Values.{InRange, Checks, scaled, bytes_of, number_in};

use sketch_base::{Error, Fault};

/// A type of integers that a [`CountMinSketch`](crate::CountMinSketch) can count in: `i8` to `i64` and `u8` to `u64`.
///
/// In contracts `number` is the integer of a value, `least` is the minimum of the type, and `greatest` is its maximum.
///
/// # Examples
///
/// ```
/// use sketch_countmin::{CountMinSketch, CountMinValue};
///
/// fn weight_of_all<T: CountMinValue>(counts: &CountMinSketch<T>) -> T {
///     counts.total_weight()
/// }
/// ```
pub trait CountMinValue: Copy + Ord {
    /// Zero.
    const ZERO: Self;
    /// One.
    const ONE: Self;
    /// The maximum of the type.
    const MAX: Self;
    /// The minimum of the type.
    const MIN: Self;
    /// The size of a value in bytes.
    const SIZE: usize;

    ghost ZERO: { Self };

    ghost ONE: { Self };

    ghost MAX: { Self };

    ghost MIN: { Self };

    ghost SIZE: { ℕ };

    ghost number: { Self → ℤ };

    ghost least: { ℤ };

    ghost greatest: { ℕ };

    /// Returns the value as an integer.
    fn to_number(self) -> i128
        ensures value { result ≡ number self }
        ensures in_range { InRange least greatest (number self) }
        ensures narrow { unsigned_abs result < 2 ^ 64 };

    /// Returns the value of an integer, or `None` exactly if it is out of range.
    fn from_number(whole: i128) -> Option<Self>
        ensures { Checks number least greatest whole result };

    /// Returns the value of an integer, which is in range.
    fn from_number_in_range(whole: i128) -> Self
        requires { InRange least greatest whole }
        ensures { number result ≡ whole };

    /// Returns the absolute value, or `None` exactly if it is out of range: for the minimum of a signed type.
    #[inline(always)]
    fn checked_abs(self) -> Option<Self>
        ensures { Checks number least greatest (pos (unsigned_abs (number self))) result }
    {
        Self::from_number(self.to_number().abs())
    }

    /// Returns the sum, or `None` exactly if it is out of range.
    #[inline(always)]
    fn checked_add(self, other: Self) -> Option<Self>
        ensures { Checks number least greatest (number self +ℤ number other) result }
    {
        Self::from_number(self.to_number() + other.to_number())
    }

    /// Returns the value times `numerator / denominator`, rounded down. The product is computed in 128 bits.
    ///
    /// The value is not negative, and `0 < numerator <= denominator`.
    #[inline]
    fn scale_nonnegative(self, numerator: u64, denominator: u128) -> Self
        requires nonnegative { pos 0 ≤ℤ number self }
        requires positive { 0 < numerator }
        requires at_most_one { numerator ≤ denominator }
        ensures { number result ≡ scaled numerator denominator (number self) }
    {
        let product = self.to_number() as u128 * numerator as u128;
        Self::from_number_in_range((product / denominator) as i128)
    }

    /// Returns the value as the eight bytes of an `i64`, or of a `u64` if the type is unsigned, little-endian.
    #[inline]
    fn to_bytes(self) -> [u8; 8]
        ensures value { result ≡ bytes_of (number self) }
        ensures reads_back { number_in least result ≡ number self }
        ensures in_range { InRange least greatest (number self) }
    {
        let low = self.to_number().cast_unsigned() & 0xFFFF_FFFF_FFFF_FFFF;
        (low as u64).to_le_bytes()
    }

    /// Reads a value from eight bytes, as [`to_bytes`](CountMinValue::to_bytes) writes it.
    ///
    /// # Errors
    ///
    /// [`ValueOutOfRange`](Fault::ValueOutOfRange) of the kind `InvalidData` if the number is out of range.
    #[inline]
    fn try_from_bytes(bytes: [u8; 8]) -> Result<Self, Error>
        ensures { MatchResult result
            (λ v. (number v ≡ number_in least bytes) × InRange least greatest (number_in least bytes))
            (λ e. (e ≡ invalid_data Fault.ValueOutOfRange) × ¬ InRange least greatest (number_in least bytes)) }
    {
        let word = u64::from_le_bytes(bytes);
        let number = if Self::MIN.to_number() < 0 {
            word.cast_signed() as i128
        } else {
            word as i128
        };
        match Self::from_number(number) {
            Some(value) => Ok(value),
            None => Err(Error::invalid_data(Fault::ValueOutOfRange)),
        }
    }

    // The laws of the members, as one record: an `impl` proves it, and the laws below are its parts.
    ghost laws: { ValueLaws number ZERO ONE MAX MIN SIZE least greatest Self.cmp };

    ghost zero_is: { number ZERO ≡ pos 0 } = { laws.zero_is };

    ghost one_is: { number ONE ≡ pos 1 } = { laws.one_is };

    ghost max_is: { number MAX ≡ pos greatest } = { laws.max_is };

    ghost min_is: { number MIN ≡ least } = { laws.min_is };

    ghost size_fits: { SIZE ≤ 8 } = { laws.size_fits };

    // Values are ordered as their integers.
    ghost ordered: { (x y : Self)
        → MatchOrdering (Self.cmp x y) (number x <ℤ number y) (number x ≡ number y) (number y <ℤ number x) } = { laws.ordered };

    // Zero is in range, and so is each sum that is no further from zero than the maximum.
    ghost zero_fits: { least ≤ℤ pos 0 } = { laws.zero_fits };

    ghost sum_fits: { (x y : Self)
        → unsigned_abs (number x +ℤ number y) ≤ greatest → InRange least greatest (number x +ℤ number y) } = { laws.sum_fits };

    // Each integer in range is read back from its bytes.
    ghost bytes_fit: { (z : ℤ) → InRange least greatest z → number_in least (bytes_of z) ≡ z } = { laws.bytes_fit };
}
