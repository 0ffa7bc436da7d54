//! The bits of a filter: in memory, or in the bytes of an image.
ghost use Rattle.std.specs.Prelude.{◌≡◌, ◌+◌, ◌^◌, ◌<◌, ◌≤◌, ◌==◌, ◌↔◌, true, IsTrue, map, length};
ghost use Rattle.std.specs.FinSet as set;
ghost use Rattle.sketch_bloom.specs.Image.{AreWordsOf};
ghost use Rattle.sketch_bloom.specs.Fields.{state_of};
ghost use Rattle.sketch_bloom.specs.Operations.{on_sets};
ghost use Rattle.sketch_bloom.specs.Pairs.{contains_pair, with_pair};
ghost use Rattle.sketch_bloom.specs.Positions.{position, positions};
ghost use Rattle.sketch_bloom.specs.State.{IsFilterState, capacity_of, contains_item, cleared};

use crate::bit_set;
use crate::hashes::{BLOCK, hashes_of, next_pairs};
use crate::limits::{MAX_NUM_HASHES, MAX_NUM_WORDS};
use crate::set_operation::SetOperation;
use crate::words::Words;
use sketch_base::{Divisor, Item, Items};
use std::alloc::{AllocError, Global};
use std::marker::Model;

/// A set of positions as bits, and the number of hashes and the seed that the positions of items come from.
///
/// A position `p` is in the set if bit `p % 64` of word `p / 64` is set. The capacity is 64 for each word.
#[derive(Drop)]
pub struct Bits<W: Words + Drop> {
    words: W,
    capacity: Divisor,
    num_hashes: u16,
    seed: u64,
}

impl<W: Words + Drop> Model for Bits<W> {
    ghost use Rattle.sketch_bloom.specs.State.{FilterState, state_code};

    ghost Value = { FilterState };

    ghost coded = { state_code };

    ghost use Rattle.sketch_bloom.specs.Fields.{AreBits, state_of};

    ghost view = { λ b. state_of (W.list b.words) b.num_hashes b.seed };

    ghost invariant = { λ b. AreBits (W.list b.words) b.capacity b.num_hashes };
}

impl<W: Words + Drop> Bits<W> {
    /// Creates the bits in these words, of which there are `num_words`.
    #[inline]
    pub fn new(words: W, num_words: usize, num_hashes: u16, seed: u64) -> Self
        requires num_words { length (W.list words) ≡ num_words }
        requires some_words { 1 ≤ num_words }
        requires few_words { num_words ≤ MAX_NUM_WORDS }
        requires some_hashes { 1 ≤ num_hashes }
        requires few_hashes { num_hashes ≤ MAX_NUM_HASHES }
        ensures value { result ≡ state_of (W.list words) num_hashes seed }
        ensures state { IsFilterState result }
    {
        Bits {
            words,
            capacity: Divisor::new(64 * num_words as u64),
            num_hashes,
            seed,
        }
    }

    /// Returns the number of words.
    #[inline(always)]
    pub fn num_words(&self) -> usize
        ensures value { result ≡ self.now.num_words }

        // What holds of all bits.
        ensures state { IsFilterState self.now }
    {
        (self.capacity.divisor() / 64) as usize
    }

    /// Returns the number of positions of each item.
    #[inline(always)]
    pub fn num_hashes(&self) -> u16
        ensures { result ≡ self.now.num_hashes }
    {
        self.num_hashes
    }

    /// Returns the seed of the hashes.
    #[inline(always)]
    pub fn seed(&self) -> u64
        ensures { result ≡ self.now.seed }
    {
        self.seed
    }

    /// Returns whether all positions of the item are in the set.
    #[inline(always)]
    pub fn contains_item<X: Item>(&self, item: &X) -> bool
        ensures { result ≡ contains_item self.now (X.bytes item.now) }
    {
        self.contains_pair(hashes_of(item, self.seed))
    }

    /// Returns whether all positions of two hashes are in the set.
    #[inline(always)]
    fn contains_pair(&self, pair: (u64, u64)) -> bool
        ensures { result ≡ contains_pair self.now pair }
    {
        self.contains_others(0, pair.0, pair.1)
    }

    /// Returns whether all positions of two hashes are in the set, given that the first `probed` are. Stops at the first
    /// that is not.
    #[inline(always)]
    fn contains_others(&self, probed: u16, h0: u64, h1: u64) -> bool
        requires few { probed ≤ self.now.num_hashes }
        requires found { set.is_subset (positions (capacity_of self.now) probed h0 h1) self.now.set ≡ true }
        ensures { result ≡ contains_pair self.now (h0, h1) }
    {
        let mut hash = h0.wrapping_add(h1.wrapping_mul(probed as u64));
        // The label is for the prover.
        'probes: for _i in probed..self.num_hashes {
            hash = hash.wrapping_add(h1);
            let index = bit_set::index_of(hash, self.capacity);
            let word = self.words.word((index / 64) as usize);
            if word >> (index % 64) & 1 == 0 {
                return false;
            }
        }
        true
    }

    /// Returns whether the first position of two hashes is in the set.
    #[inline(always)]
    fn contains_first(&self, h0: u64, h1: u64) -> bool
        ensures { result ≡ set.contains self.now.set (position (capacity_of self.now) h0 h1 1) }
    {
        let index = bit_set::index_of(h0.wrapping_add(h1), self.capacity);
        self.words.word((index / 64) as usize) >> (index % 64) & 1 != 0
    }

    /// Returns whether all positions of two hashes are in the set, given in `found` whether the first is.
    #[inline(always)]
    fn contains_behind(&self, h0: u64, h1: u64, found: bool) -> bool
        requires { found ≡ set.contains self.now.set (position (capacity_of self.now) h0 h1 1) }
        ensures { result ≡ contains_pair self.now (h0, h1) }
    {
        // For the prover: this read brings in the range of the number of hashes.
        let _num_hashes = self.num_hashes;
        found && self.contains_others(1, h0, h1)
    }

    /// Writes for each pair of hashes whether all its positions are in the set.
    ///
    /// The first positions of all pairs are probed before any other, so that the processor loads their words in
    /// parallel.
    #[inline(always)]
    fn contains_pairs(&self, pairs: &[(u64, u64)], answers: &mut [bool])
        requires { length answers.old ≡ length pairs.now }
        ensures { answers.new ≡ map (contains_pair self.now) pairs.now }
    {
        // The labels are for the prover.
        'firsts: for i in 0..pairs.len() {
            answers[i] = self.contains_first(pairs[i].0, pairs[i].1);
        }
        'others: for i in 0..pairs.len() {
            let found = answers[i];
            answers[i] = self.contains_behind(pairs[i].0, pairs[i].1, found);
        }
    }

    /// Writes for each item whether all its positions are in the set.
    #[inline(always)]
    pub fn contains_all<I: Items>(&self, mut items: I, answers: &mut [bool])
        requires { length answers.old ≡ length (I.list items) }
        ensures { answers.new ≡ map (contains_item self.now) (I.list items) }
    {
        let seed = self.seed;
        let mut pairs = [(0, 0); BLOCK];
        let mut from = 0;
        // The label is for the prover.
        'each: loop {
            let count = next_pairs(&mut items, seed, &mut pairs);
            self.contains_pairs(&pairs[..count], &mut answers[from..from + count]);
            from += count;
            if count < BLOCK {
                return;
            }
        }
    }
}

impl<'a> Bits<&'a [u8]> {
    /// Copies the bits, but not the words. A loop keeps the copy in registers.
    #[inline(always)]
    pub fn copied(&self) -> Bits<&'a [u8]>
        ensures { result ≡ self.now }
    {
        Bits {
            words: self.words,
            capacity: self.capacity,
            num_hashes: self.num_hashes,
            seed: self.seed,
        }
    }
}

impl Bits<Vec<u64>> {
    /// Borrows the bits. A loop keeps what is borrowed in registers.
    #[inline(always)]
    pub fn borrowed(&self) -> Bits<&[u64]>
        ensures { result ≡ self.now }
    {
        Bits {
            words: self.words.as_slice(),
            capacity: self.capacity,
            num_hashes: self.num_hashes,
            seed: self.seed,
        }
    }

    /// Returns the words.
    #[inline(always)]
    pub fn words(&self) -> &[u64]
        ensures { AreWordsOf self.now result.now }
    {
        let words = self.words.as_slice();
        bit_set::have_range(words);
        words
    }

    /// Returns the allocator of the words.
    pub fn allocator(&self) -> Global {
        *self.words.allocator()
    }

    /// Inserts the positions of two hashes. Returns the number of new positions.
    #[inline(always)]
    pub fn insert_pair(&mut self, pair: (u64, u64)) -> u64
        ensures insertion { self.new ≡ with_pair self.old pair }
        ensures state { IsFilterState self.new }
        ensures added { set.len self.new.set ≡ set.len self.old.set + result }
        ensures few { set.len self.new.set < 2 ^ 64 }
        ensures contained { contains_pair self.old pair ≡ (result == 0) }
    {
        bit_set::insert_positions(
            &mut self.words,
            self.capacity,
            self.num_hashes,
            pair.0,
            pair.1,
        )
    }

    /// Removes all positions from the set.
    pub fn clear(&mut self)
        ensures cleared { self.new ≡ cleared self.old }
        ensures state { IsFilterState self.new }
    {
        bit_set::clear(&mut self.words);
    }

    /// Combines the set with another, and returns the size of the result.
    #[inline(always)]
    pub fn combine(&mut self, other: &Bits<Vec<u64>>, operation: SetOperation) -> u64
        requires { self.old.num_words ≡ other.now.num_words }
        ensures combined { self.new ≡ record self.old { set = on_sets operation self.old.set other.now.set } }
        ensures state { IsFilterState self.new }
        ensures size { result ≡ set.len self.new.set }
    {
        bit_set::combine(&mut self.words, &other.words, operation)
    }

    /// Returns whether both sets are equal.
    pub fn is_same(&self, other: &Bits<Vec<u64>>) -> bool
        requires { self.now.num_words ≡ other.now.num_words }
        ensures { IsTrue result ↔ (self.now.set ≡ other.now.set) }
    {
        bit_set::is_same(&self.words, &other.words)
    }
}

impl Clone for Bits<Vec<u64>> {
    ghost is_clone = { λ bits copy. copy ≡ bits };

    fn clone(&self) -> Result<Self, AllocError> {
        Ok(Bits {
            words: self.words.clone()?,
            capacity: self.capacity,
            num_hashes: self.num_hashes,
            seed: self.seed,
        })
    }
}
