//! Remainders by a precomputed divisor, without a division.
ghost use Rattle.std.specs.Prelude.{◌≡◌, ◌%◌, ◌<◌, IsTrue};
ghost use Rattle.std.specs.Int.{is_power_of_two};
ghost use Rattle.sketch_base.specs.Reciprocal.{reciprocal};

use std::marker::Model;

/// A divisor above 1 with a precomputed multiplier of 64 bits, which computes remainders without a division.
///
/// Contracts see the divisor as a number. A remainder by a power of two is a mask. Any other remainder takes two
/// products.
///
/// The multiplier is 2^64 - 1 divided by the divisor, rounded down. The upper half of its product with `a` is the
/// quotient or one less. So `a` minus this estimate times the divisor is below twice the divisor, and at most one
/// subtraction remains. It is proved for every divisor above 1 and every `u64` that [`rem`](Self::rem) returns the
/// remainder. On remainders without a division see Lemire, Kaser & Kurz 2019.
///
/// # Examples
///
/// ```
/// use sketch_base::Divisor;
///
/// fn bucket(hash: u64) -> u64 {
///     let buckets = Divisor::new(128);
///     buckets.rem(hash)
/// }
/// ```
#[derive(Clone, Copy, Debug)]
pub struct Divisor {
    divisor: u64,
    multiplier: u64,
}

impl Model for Divisor {
    ghost use Rattle.std.specs.Prelude.{ℕ};
    ghost use Rattle.sketch_base.specs.Reciprocal.{reciprocal, IsReciprocal};

    ghost Value = { ℕ };

    ghost view = { λ d. d.divisor };

    ghost invariant = { λ d. IsReciprocal d.divisor d.multiplier };

    ghost inverse = { λ n. record { divisor = n; multiplier = reciprocal n } };

    ghost inverse_ok = { λ d h i. record { divisor = d.divisor; multiplier = h.value i } };
}

impl Divisor {
    /// Creates a divisor, which is above 1.
    pub fn new(divisor: u64) -> Self
        requires { 1 < divisor }
        ensures { result ≡ divisor }
    {
        Divisor {
            divisor,
            multiplier: u64::MAX / divisor,
        }
    }

    /// Returns the divisor as a number.
    #[inline(always)]
    pub fn divisor(self) -> u64
        ensures value { result ≡ self }
        ensures above_one { 1 < result }
    {
        self.divisor
    }

    /// Returns `a` modulo the divisor.
    #[inline(always)]
    pub fn rem(self, a: u64) -> u64
        ensures value { result ≡ a % self }
        ensures below { result < self }
    {
        if self.is_power_of_two() {
            self.rem_by_mask(a)
        } else {
            self.rem_by_reciprocal(a)
        }
    }

    /// Returns whether the divisor is a power of two.
    ///
    /// In a loop, test this once and call [`rem_by_mask`](Self::rem_by_mask) or
    /// [`rem_by_reciprocal`](Self::rem_by_reciprocal).
    #[inline(always)]
    pub fn is_power_of_two(self) -> bool
        ensures { result ≡ is_power_of_two self }
    {
        self.divisor.is_power_of_two()
    }

    /// Returns `a` modulo the divisor by a mask. The divisor is a power of two.
    #[inline(always)]
    pub fn rem_by_mask(self, a: u64) -> u64
        requires { IsTrue (is_power_of_two self) }
        ensures value { result ≡ a % self }
        ensures below { result < self }
    {
        a & self.divisor - 1
    }

    /// Returns `a` modulo the divisor by two products. Every divisor is allowed.
    #[inline(always)]
    pub fn rem_by_reciprocal(self, a: u64) -> u64
        ensures value { result ≡ a % self }
        ensures below { result < self }
    {
        direct_remainder(a, self.multiplier, self.divisor)
    }
}

/// Returns the remainder from the multiplier, without a division.
///
/// The subtraction wraps if it is not needed, and the minimum of both numbers is the remainder. This compiles to a
/// conditional move, and an `if` to a branch that no processor predicts.
#[inline(always)]
fn direct_remainder(a: u64, multiplier: u64, divisor: u64) -> u64
    requires positive { 0 < divisor }
    requires multiplier { reciprocal divisor ≡ multiplier }
    ensures { result ≡ a % divisor }
{
    let quotient = (a as u128 * multiplier as u128 >> 64) as u64;
    let rest = a - quotient * divisor;
    rest.min(rest.wrapping_sub(divisor))
}
