//! SipHash-1-3 of two items at a time, each in a lane of its own.
//!
//! A rotation of both lanes takes two shifts. One of a number is slow on the processors for which the library is built by default.
ghost use Rattle.std.specs.Prelude.{◌≡◌, ◌<◌, ◌-◌, ℕ, [], ◌∷◌, bit_xor};
ghost use Rattle.std.specs.Int.{w64, rotate_left};
ghost use Rattle.sketch_base.specs.MachineWords.{wrapping_add};
ghost use Rattle.sketch_base.specs.SipHash as spec;
ghost use Rattle.sketch_base.specs.SipHashLanes.{lanes_of};

use crate::sip_hash::{HashKey, initialization};
use std::simd::prelude::*;

/// The states of two hashes: v0, v1, v2 and v3, with a lane for each hash.
type Lanes = (u64x2, u64x2, u64x2, u64x2);

#[inline(always)]
fn add_lanes(x: u64x2, y: u64x2) -> u64x2
    ensures { (a b c d : ℕ) → x ≡ a ∷ b ∷ [] → y ≡ c ∷ d ∷ [] → result ≡ wrapping_add a c ∷ wrapping_add b d ∷ [] }
{
    x + y
}

#[inline(always)]
fn xor_lanes(x: u64x2, y: u64x2) -> u64x2
    ensures { (a b c d : ℕ) → x ≡ a ∷ b ∷ [] → y ≡ c ∷ d ∷ [] → result ≡ bit_xor a c ∷ bit_xor b d ∷ [] }
{
    x ^ y
}

/// Rotates both lanes left by `n` bits, from 1 to 63.
#[inline(always)]
fn rotate_lanes(x: u64x2, n: u64) -> u64x2
    requires above { 0 < n }
    requires below { n < 64 }
    ensures { (a b : ℕ) → x ≡ a ∷ b ∷ [] → result ≡ rotate_left w64 a n ∷ rotate_left w64 b n ∷ [] }
{
    x << u64x2::splat(n) | x >> u64x2::splat(64 - n)
}

#[inline(always)]
fn sip_round(v: Lanes) -> Lanes
    ensures { (a b : spec.State) → v ≡ lanes_of a b → result ≡ lanes_of (spec.sip_round a) (spec.sip_round b) }
{
    let a0 = add_lanes(v.0, v.1);
    let a1 = xor_lanes(rotate_lanes(v.1, 13), a0);
    let a2 = add_lanes(v.2, v.3);
    let a3 = xor_lanes(rotate_lanes(v.3, 16), a2);
    let b2 = add_lanes(a2, a1);
    let b1 = xor_lanes(rotate_lanes(a1, 17), b2);
    let b0 = add_lanes(rotate_lanes(a0, 32), a3);
    let b3 = xor_lanes(rotate_lanes(a3, 21), b0);
    (b0, b1, rotate_lanes(b2, 32), b3)
}

/// Returns the states after one word of each.
#[inline(always)]
fn compression(v: Lanes, words: u64x2) -> Lanes
    ensures { (a b : spec.State) (m n : ℕ) → v ≡ lanes_of a b → words ≡ m ∷ n ∷ []
        → result ≡ lanes_of (spec.compression 1 a m) (spec.compression 1 b n) }
{
    let after = sip_round((v.0, v.1, v.2, xor_lanes(v.3, words)));
    (xor_lanes(after.0, words), after.1, after.2, after.3)
}

/// Returns the hashes, from the states after all words.
#[inline(always)]
fn finalization(v: Lanes) -> u64x2
    ensures { (a b : spec.State) → v ≡ lanes_of a b → result ≡ spec.finalization 3 a ∷ spec.finalization 3 b ∷ [] }
{
    let start = (v.0, v.1, xor_lanes(v.2, u64x2::splat(0xFF)), v.3);
    let after = sip_round(sip_round(sip_round(start)));
    xor_lanes(xor_lanes(xor_lanes(after.0, after.1), after.2), after.3)
}

/// Returns the states of a key before any word.
#[inline(always)]
fn initialization_of_two(key: HashKey) -> Lanes
    ensures { result ≡ lanes_of (spec.initialization key) (spec.initialization key) }
{
    let v = initialization(key);
    (
        u64x2::splat(v.0),
        u64x2::splat(v.1),
        u64x2::splat(v.2),
        u64x2::splat(v.3),
    )
}

/// Returns the hashes of two items of two words each.
#[inline(always)]
pub(crate) fn hashes_of_two_words(key: HashKey, firsts: (u64, u64), lasts: (u64, u64)) -> (u64, u64)
    ensures { result ≡ (
      spec.finalization 3 (spec.compression 1 (spec.compression 1 (spec.initialization key) firsts.0) lasts.0),
      spec.finalization 3 (spec.compression 1 (spec.compression 1 (spec.initialization key) firsts.1) lasts.1),
    ) }
{
    let start = initialization_of_two(key);
    let begun = compression(start, u64x2::from_array([firsts.0, firsts.1]));
    let hashes = finalization(compression(begun, u64x2::from_array([lasts.0, lasts.1])));
    let [first, second] = hashes.to_array();
    (first, second)
}
