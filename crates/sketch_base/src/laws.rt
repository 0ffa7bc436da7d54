//! The values of the constants and the bytes that items feed, as theorems. The functions here do nothing: their clauses are the laws.
ghost use Rattle.std.specs.Prelude.{◌≡◌, ℕ, List, ◌∷◌, [], ◌++◌, ◌+◌, ◌-◌, ◌<◌, ◌^◌, pos, negsuc};
ghost use Rattle.std.specs.Hash as fed;
ghost use Rattle.std.specs.Int.{w64, to_le_bytes};
ghost use Rattle.sketch_base.specs.Hashes.{fed_bytes};

use crate::family::Family;
use crate::image::SERIAL_VERSION;
use crate::murmurhash::DEFAULT_UPDATE_SEED;

/// States the constants that images and default hashes use.
///
/// They are the id of each family with the range of its preamble's longs, the version of the formats, and the default
/// seed.
pub fn constants()
    ensures frequency { Family.FREQUENCY ≡ record { id = 10; min_pre_longs = 1; max_pre_longs = 4 } }
    ensures countmin { Family.COUNTMIN ≡ record { id = 18; min_pre_longs = 2; max_pre_longs = 2 } }
    ensures bloomfilter { Family.BLOOMFILTER ≡ record { id = 21; min_pre_longs = 3; max_pre_longs = 4 } }
    ensures version { SERIAL_VERSION ≡ 1 }
    ensures seed { DEFAULT_UPDATE_SEED ≡ 9001 }
{}

/// States what a `u64`, an `i64` and a string feed a hasher.
///
/// A number feeds its eight bytes, the lowest first, as `to_le_bytes` returns them. A negative one feeds those of its two's
/// complement. A string feeds its bytes, and then the byte 255. So [`FedBytes`](crate::FedBytes) of these bytes is the same item.
pub fn bytes_of_items()
    ensures unsigned { (n : ℕ) → n < 2 ^ 64 → fed_bytes fed.u64 n ≡ to_le_bytes w64 n }
    ensures signed { (n : ℕ) → n < 2 ^ 63 → fed_bytes fed.i64 (pos n) ≡ to_le_bytes w64 n }
    ensures negative { (n : ℕ) → n < 2 ^ 63 → fed_bytes fed.i64 (negsuc n) ≡ to_le_bytes w64 (2 ^ 64 - (n + 1)) }
    ensures string { (bytes : List ℕ) → fed_bytes fed.str bytes ≡ bytes ++ 255 ∷ [] }
{}
