//! Loops over sets of numbers in words of 64 bits.
//!
//! A number `p` is in the set if bit `p % 64` of word `p / 64` is set. Two sets are combined in blocks of eight words,
//! then at most one block of four, then at most three words one by one.
ghost use Rattle.std.specs.Prelude.{◌≡◌, ◌+◌, ◌*◌, ◌/◌, ◌%◌, ◌^◌, ◌<◌, ◌≤◌, ◌==◌, ◌↔◌, All, IsTrue, length, take, drop, count_ones};
ghost use Rattle.std.specs.List.{sum_by};
ghost use Rattle.std.specs.FinSet as set;
ghost use Rattle.std.specs.Simd.Lanes.{zip2, chunk, put_chunk};
ghost use Rattle.sketch_bloom.specs.BitSet.{set_of};
ghost use Rattle.sketch_bloom.specs.Operations.{on_sets, on_words};
ghost use Rattle.sketch_bloom.specs.Positions.{positions};

use crate::limits::MAX_NUM_WORDS;
use crate::set_operation::SetOperation;
use sketch_base::Divisor;
use std::simd::prelude::*;

/// Returns the position of a sum of hashes: its half, modulo the capacity.
#[inline(always)]
pub fn index_of(hash: u64, capacity: Divisor) -> u64
    ensures value { result ≡ hash / 2 % capacity }
    ensures below { result < capacity }
{
    capacity.rem(hash >> 1)
}

/// Inserts all positions of two hashes. Returns the number of new positions.
#[inline(always)]
pub fn insert_positions(
    words: &mut [u64],
    capacity: Divisor,
    num_hashes: u16,
    h0: u64,
    h1: u64,
) -> u64
    requires { capacity ≡ 64 * length words.old }
    ensures union { set_of words.new
        ≡ set.union (set_of words.old) (positions capacity num_hashes h0 h1) }
    ensures added { set.len (set_of words.new) ≡ set.len (set_of words.old) + result }
    ensures contained { set.is_subset (positions capacity num_hashes h0 h1) (set_of words.old)
        ≡ (result == 0) }
{
    let mut added = 0;
    let mut hash = h0;
    // The label is for the prover.
    'inserts: for _i in 0..num_hashes {
        hash = hash.wrapping_add(h1);
        let index = index_of(hash, capacity);
        let at = (index / 64) as usize;
        let word = words[at];
        words[at] = word | 1 << (index % 64);
        added += (word >> (index % 64) & 1 == 0) as u64;
    }
    added
}

/// Returns whether both sets are equal.
pub fn is_same(words: &[u64], other: &[u64]) -> bool
    requires { length words.now ≡ length other.now }
    ensures { IsTrue result ↔ (set_of words.now ≡ set_of other.now) }
{
    for (i, word) in words.iter().enumerate() {
        if *word != other[i] {
            return false;
        }
    }
    true
}

/// Removes all numbers from the set.
pub fn clear(words: &mut [u64])
    ensures { set_of words.new ≡ set.empty }
{
    words.fill(0);
}

/// Combines the set with another, and returns the size of the result.
///
/// It takes blocks of eight words, then of four, then single words.
#[inline(always)]
pub fn combine(words: &mut [u64], other: &[u64], operation: SetOperation) -> u64
    requires same { length other.now ≡ length words.old }
    requires few { length words.old ≤ MAX_NUM_WORDS }
    ensures combined { set_of words.new ≡ on_sets operation (set_of words.old) (set_of other.now) }
    ensures size { result ≡ set.len (set_of words.new) }
{
    let mut size = 0;
    let eights = words.len() / 8;
    // The labels are for the prover.
    'eights: for b in 0..eights {
        let at = 8 * b;
        combine_block::<8>(words, other, at, operation);
        size += ones_of_eight(words, at);
    }
    let fours = words.len() / 4;
    'fours: for b in 2 * eights..fours {
        let at = 4 * b;
        combine_block::<4>(words, other, at, operation);
        size += ones_of_four(words, at);
    }
    'rest: for i in 4 * fours..words.len() {
        words[i] = operation.word(words[i], other[i]);
        size += words[i].count_ones() as u64;
    }
    size
}

/// Combines `N` words from the index `at` on.
#[inline(always)]
fn combine_block<const N: usize>(
    words: &mut [u64],
    other: &[u64],
    at: usize,
    operation: SetOperation,
)
    requires mine { at + N ≤ length words.old }
    requires theirs { at + N ≤ length other.now }
    ensures { words.new
        ≡ put_chunk at words.old (zip2 (on_words operation) (chunk at N words.old) (chunk at N other.now)) }
{
    let combined = operation.words(
        Simd::<u64, N>::from_slice(&words[at..]),
        Simd::<u64, N>::from_slice(&other[at..]),
    );
    combined.copy_to_slice(&mut words[at..]);
}

/// Returns the number of set bits in eight words from the index `at` on.
#[inline(always)]
fn ones_of_eight(words: &[u64], at: usize) -> u64
    requires { at + 8 ≤ length words.now }
    ensures count { result ≡ sum_by count_ones (take 8 (drop at words.now)) }
    ensures few { result ≤ 512 }
{
    ones_of_four(words, at) + ones_of_four(words, at + 4)
}

/// Returns the number of set bits in four words from the index `at` on.
#[inline(always)]
fn ones_of_four(words: &[u64], at: usize) -> u64
    requires { at + 4 ≤ length words.now }
    ensures count { result ≡ sum_by count_ones (take 4 (drop at words.now)) }
    ensures few { result ≤ 256 }
{
    let low = words[at].count_ones() + words[at + 1].count_ones();
    let high = words[at + 2].count_ones() + words[at + 3].count_ones();
    (low + high) as u64
}

/// Does nothing. For a caller's proof, its clause says what the type says of the words.
#[inline(always)]
pub fn have_range(words: &[u64])
    ensures { All (λ word. word < 2 ^ 64) words.now }
{}
