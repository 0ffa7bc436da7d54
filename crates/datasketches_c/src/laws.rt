//! Laws of the items that calls take.
ghost use Rattle.std.specs.Hash as fed;
ghost use Rattle.std.specs.Int.{cast_unsigned, w64};
ghost use Rattle.std.specs.Prelude.{ℕ, ℤ, pos, ◌≡◌, ◌≤◌};
ghost use Rattle.sketch_base.specs.Hashes.{fed_bytes};
ghost use Rattle.any_sketch.specs.Updates.{max_i64};

/// States which bytes numbers feed. It does nothing.
///
/// A number from 0 to 2^63 - 1 feeds the same bytes as `u64` and as `i64`. So calls of both types mean the same item. Any `i64` feeds
/// the bytes of the `u64` of the same bits. So a call for `u64` takes an `i64` that C casts.
pub fn numbers_feed_bytes()
    ensures same { (n : ℕ) → n ≤ max_i64 → fed_bytes fed.u64 n ≡ fed_bytes fed.i64 (pos n) }
    ensures cast { (z : ℤ) → fed_bytes fed.i64 z ≡ fed_bytes fed.u64 (cast_unsigned w64 z) }
{}
