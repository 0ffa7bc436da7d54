//! Multiplication by a fraction below one, without a division.
ghost use Rattle.std.specs.Prelude.{◌≡◌, ◌*◌, ◌/◌, ◌<◌};
ghost use Rattle.sketch_countmin.specs.Fractions.{IsShortUpTo};

use std::marker::Model;

/// 2^64.
const WORD: u128 = 1 << 64;

/// A fraction below one with a precomputed multiplier of 128 bits, which multiplies by it without a division.
///
/// Contracts see its numerator and its denominator. A product takes two multiplications.
///
/// The multiplier is 2^128 times the fraction, rounded down, plus one. Its product with a number of 64 bits exceeds
/// 2^128 times the exact product by at most the number, which is less than 2^128 over the denominator. So the whole
/// parts are equal, for each fraction and each number of 64 bits.
///
/// For the same reason a multiplier of 64 bits, and one multiplication, suffice for numbers below 2^64 over the
/// denominator. They suffice for all numbers if 2^64 times the fraction is whole.
#[derive(Drop)]
pub struct Fraction {
    numerator: u64,
    denominator: u64,
    // Both halves of the multiplier.
    upper: u64,
    lower: u64,
    // The multiplier of 64 bits, and the maximum number for which it is exact.
    short: u64,
    limit: u64,
}

impl Model for Fraction {
    ghost use Rattle.std.specs.Prelude.{ℕ, ◌<◌};
    ghost use Rattle.sketch_countmin.specs.Fractions.{IsMultiplier, IsShortUpTo};

    ghost Value = { ℕ × ℕ };

    ghost view = { λ f. (f.numerator, f.denominator) };

    ghost invariant = { λ f. (f.numerator < f.denominator) × IsMultiplier f.numerator f.denominator f.upper f.lower
        × IsShortUpTo f.limit f.numerator f.denominator f.short };
}

impl Fraction {
    /// Creates a fraction. The numerator is below the denominator.
    pub fn new(numerator: u64, denominator: u64) -> Self
        requires { numerator < denominator }
        ensures { result ≡ (numerator, denominator) }
    {
        let divisor = denominator as u128;
        let shifted = numerator as u128 * WORD;
        let upper = shifted / divisor;
        let lower = shifted % divisor * WORD / divisor;
        let multiplier = upper * WORD + lower + 1;
        let (short, limit) = short_multiplier(numerator, denominator);
        Fraction {
            numerator,
            denominator,
            upper: (multiplier / WORD) as u64,
            lower: (multiplier % WORD) as u64,
            short,
            limit,
        }
    }

    /// Returns the value times the fraction, rounded down.
    #[inline(always)]
    pub fn of(&self, value: u64) -> u64
        ensures { result ≡ value * self.now.0 / self.now.1 }
    {
        if value <= self.limit {
            return (value as u128 * self.short as u128 >> 64) as u64;
        }
        let low = value as u128 * self.lower as u128 >> 64;
        (value as u128 * self.upper as u128 + low >> 64) as u64
    }
}

/// Returns the multiplier of 64 bits, and the maximum number for which it is exact.
fn short_multiplier(numerator: u64, denominator: u64) -> (u64, u64)
    requires { numerator < denominator }
    ensures { IsShortUpTo result.1 numerator denominator result.0 }
{
    let shifted = numerator as u128 * WORD;
    let upper = (shifted / denominator as u128) as u64;
    if shifted % denominator as u128 == 0 {
        (upper, u64::MAX)
    } else {
        (upper + 1, u64::MAX / denominator)
    }
}
