//! The Bloom filter.
ghost use Rattle.std.specs.Prelude.{◌≡◌, ◌*◌, ◌≤◌, ◌↔◌, IfOk, IfErr, IsOk, IsTrue, OnOk, OnErr};
ghost use Rattle.std.specs.FinSet as set;
ghost use Rattle.sketch_base.specs.Errors.{invalid_argument, no_memory};
ghost use Rattle.sketch_base.specs.Hashes.{fed_bytes};
ghost use Rattle.sketch_bloom.specs.History.BloomHistory.{New, Insert, Union, Intersection, Difference, Reset};
ghost use Rattle.sketch_bloom.specs.Operations.{on_sets};
ghost use Rattle.sketch_bloom.specs.Pairs.{contains_pair, with_pair};
ghost use Rattle.sketch_bloom.specs.Stands.{StandsFor, Extends, ExtendsBoth};
ghost use Rattle.sketch_bloom.specs.State.{IsFilterState, IsCompatible, capacity_of, empty_state, contains_item, inserted, cleared, united, intersected, subtracted};

mod batches;
mod images;

use crate::bits::Bits;
use crate::hashes::hashes_of;
use crate::limits::{MAX_NUM_HASHES, MAX_NUM_WORDS};
use crate::set_operation::SetOperation;
use sketch_base::{Error, Fault, Item};
use std::alloc::{AllocError, Global};
use std::fmt;
use std::hash::Hash;
use std::marker::Model;

/// A Bloom filter (Bloom 1970): a set of positions, into which items are inserted.
///
/// A filter has 64 positions for each word, a number of hashes and a seed. The positions of an item come from two
/// hashes of the bytes that its `Hash` feeds (double hashing, Kirsch & Mitzenmacher 2008):
///
/// - `h0` is the XXH64 of the bytes under the seed;
/// - `h1` is the XXH64 of the bytes under `h0`;
/// - position `i` is `(h0 + i * h1) / 2` modulo the capacity, for `i` from 1 to the number of hashes. The sum wraps at
///   2^64.
///
/// A filter contains an item if all positions of the item are in the set. So an inserted item is contained until
/// [`reset`](Self::reset), [`intersect`](Self::intersect) or [`difference`](Self::difference) removes positions. An
/// item that was not inserted may be contained too, a false positive. How rare these are is not proved: see
/// [`suggest_num_bits`](crate::suggest_num_bits).
///
/// # Examples
///
/// ```
/// use sketch_base::Error;
/// use sketch_bloom::BloomFilterBuilder;
/// use std::alloc::Global;
///
/// fn seen_by_both(alloc: Global) -> Result<bool, Error> {
///     let mut today = BloomFilterBuilder::with_size(959, 7).build(alloc)?;
///     let mut yesterday = BloomFilterBuilder::with_size(959, 7).build(alloc)?;
///     today.insert("apple");
///     yesterday.insert("apple");
///     today.intersect(&yesterday)?;
///     Ok(today.contains(&"apple"))
/// }
/// ```
#[derive(Drop)]
pub struct BloomFilter {
    bits: Bits<Vec<u64>>,
    bits_used: u64,
}

impl Model for BloomFilter {
    ghost use Rattle.sketch_bloom.specs.State.{FilterState, state_code};

    ghost Value = { FilterState };

    ghost coded = { state_code };

    ghost use Rattle.sketch_bloom.specs.Fields.{IsFilter};

    ghost view = { λ f. f.bits };

    ghost invariant = { λ f. IsFilter f.bits f.bits_used };
}

impl BloomFilter {
    /// Creates an empty filter with this number of words and of hashes.
    pub(crate) fn with_words(
        alloc: Global,
        num_words: usize,
        num_hashes: u16,
        seed: u64,
    ) -> Result<Self, Error>
        requires some_words { 1 ≤ num_words }
        requires few_words { num_words ≤ MAX_NUM_WORDS }
        requires some_hashes { 1 ≤ num_hashes }
        requires few_hashes { num_hashes ≤ MAX_NUM_HASHES }
        ensures ok { IfOk result (λ filter. filter ≡ empty_state num_words num_hashes seed) }
        ensures state { IfOk result (λ filter. IsFilterState filter) }
        ensures err { IfErr result (λ e. e ≡ no_memory) }
    {
        let words = vec![in alloc; 0; num_words]?;
        Ok(BloomFilter {
            bits: Bits::new(words, num_words, num_hashes, seed),
            bits_used: 0,
        })
    }

    /// Returns whether all positions of the item are in the set. Stops at the first that is not. Does not allocate.
    #[inline]
    pub fn contains<T: Hash>(&self, item: &T) -> bool
        ensures { result ≡ contains_item self.now (fed_bytes T.hash_input item.now) }
    {
        self.contains_item(item)
    }

    /// Inserts the item's positions, and returns whether all of them were in the set before. Does not allocate.
    ///
    /// # Examples
    ///
    /// ```
    /// use sketch_bloom::BloomFilter;
    ///
    /// fn is_first_visit(seen: &mut BloomFilter, visitor: u64) -> bool {
    ///     !seen.contains_and_insert(&visitor)
    /// }
    /// ```
    #[inline]
    pub fn contains_and_insert<T: Hash>(&mut self, item: &T) -> bool
        ensures answer { result ≡ contains_item self.old (fed_bytes T.hash_input item.now) }
        ensures insertion { self.new ≡ inserted self.old (fed_bytes T.hash_input item.now) }
        ensures state { IsFilterState self.new }
        ensures stands { Extends self.old self.new (λ h. Insert h (fed_bytes T.hash_input item.now)) }
    {
        self.contains_and_insert_item(item)
    }

    /// Inserts the item's positions. Does not allocate.
    #[inline]
    pub fn insert<T: Hash + Drop>(&mut self, item: T)
        ensures insertion { self.new ≡ inserted self.old (fed_bytes T.hash_input item) }
        ensures state { IsFilterState self.new }
        ensures stands { Extends self.old self.new (λ h. Insert h (fed_bytes T.hash_input item)) }
    {
        self.insert_item(&item);
    }

    /// Returns whether all positions of the item are in the set, as [`contains`](Self::contains) does. Does not
    /// allocate.
    ///
    /// It takes any [`Item`]. A string passed as `&str` is hashed straight from its bytes, which is faster than
    /// `contains`.
    ///
    /// # Examples
    ///
    /// ```
    /// use sketch_bloom::BloomFilter;
    ///
    /// fn is_blocked(blocked: &BloomFilter, name: &str) -> bool {
    ///     blocked.contains_item(name)
    /// }
    /// ```
    #[inline]
    pub fn contains_item<X: Item + Drop>(&self, item: X) -> bool
        ensures { result ≡ contains_item self.now (X.bytes item) }
    {
        self.bits.contains_item(&item)
    }

    /// Inserts the item's positions, and returns whether all of them were in the set before, as
    /// [`contains_and_insert`](Self::contains_and_insert) does. Does not allocate.
    ///
    /// It takes any [`Item`]. A string passed as `&str` is hashed straight from its bytes, which is faster than
    /// `contains_and_insert`.
    ///
    /// # Examples
    ///
    /// ```
    /// use sketch_bloom::BloomFilter;
    ///
    /// fn is_repeated(seen: &mut BloomFilter, name: &str) -> bool {
    ///     seen.contains_and_insert_item(name)
    /// }
    /// ```
    #[inline]
    pub fn contains_and_insert_item<X: Item + Drop>(&mut self, item: X) -> bool
        ensures answer { result ≡ contains_item self.old (X.bytes item) }
        ensures insertion { self.new ≡ inserted self.old (X.bytes item) }
        ensures state { IsFilterState self.new }
        ensures stands { Extends self.old self.new (λ h. Insert h (X.bytes item)) }
    {
        let seed = self.bits.seed();
        self.insert_pair(hashes_of(&item, seed))
    }

    /// Inserts the item's positions, as [`insert`](Self::insert) does. Does not allocate.
    ///
    /// It takes any [`Item`]. A string passed as `&str` is hashed straight from its bytes, which is faster than
    /// `insert`.
    ///
    /// # Examples
    ///
    /// ```
    /// use sketch_bloom::BloomFilter;
    ///
    /// fn block(blocked: &mut BloomFilter, name: &str) {
    ///     blocked.insert_item(name);
    /// }
    /// ```
    #[inline]
    pub fn insert_item<X: Item + Drop>(&mut self, item: X)
        ensures insertion { self.new ≡ inserted self.old (X.bytes item) }
        ensures state { IsFilterState self.new }
        ensures stands { Extends self.old self.new (λ h. Insert h (X.bytes item)) }
    {
        self.contains_and_insert_item(item);
    }

    /// Inserts the positions of two hashes, and returns whether all of them were in the set before.
    #[inline(always)]
    fn insert_pair(&mut self, pair: (u64, u64)) -> bool
        ensures answer { result ≡ contains_pair self.old pair }
        ensures insertion { self.new ≡ with_pair self.old pair }
        ensures state { IsFilterState self.new }
    {
        let added = self.bits.insert_pair(pair);
        self.bits_used += added;
        added == 0
    }

    /// Removes all positions from the set. Shape, seed and memory are kept.
    pub fn reset(&mut self)
        ensures cleared { self.new ≡ cleared self.old }
        ensures state { IsFilterState self.new }
        ensures stands { Extends self.old self.new Reset }
        // Whatever came before, also an untrusted image, the filter stands for the history of a new one.
        ensures renewed { StandsFor self.new (New self.old.num_words self.old.num_hashes self.old.seed) }
    {
        self.bits.clear();
        self.bits_used = 0;
    }

    /// Adds all positions of the other filter's set. Does not allocate.
    ///
    /// # Errors
    ///
    /// `Mismatch` if the filters differ in shape or seed. The filter is then unchanged.
    ///
    /// # Examples
    ///
    /// ```
    /// use sketch_base::Error;
    /// use sketch_bloom::BloomFilterBuilder;
    /// use std::alloc::Global;
    ///
    /// fn contained_in_union(alloc: Global) -> Result<bool, Error> {
    ///     let mut all = BloomFilterBuilder::with_size(959, 7).build(alloc)?;
    ///     let mut new = BloomFilterBuilder::with_size(959, 7).build(alloc)?;
    ///     new.insert("apple");
    ///     all.union(&new)?;
    ///     Ok(all.contains(&"apple"))
    /// }
    /// ```
    pub fn union(&mut self, other: &BloomFilter) -> Result<(), Error>
        ensures ok { OnOk result (self.new ≡ united self.old other.now) }
        ensures state { IsFilterState self.new }
        ensures stands { OnOk result (ExtendsBoth self.old other.now self.new Union) }

        // The error comes exactly if the filters are not compatible, and leaves the filter unchanged.
        ensures accepted { IsOk result ↔ IsCompatible self.old other.now }
        ensures refused { IfErr result (λ e. e ≡ invalid_argument Fault.Mismatch) }
        ensures err { OnErr result (self.new ≡ self.old) }
    {
        self.combine(other, SetOperation::Union)
    }

    /// Removes all positions that are not in the other filter's set. Does not allocate.
    ///
    /// # Errors
    ///
    /// `Mismatch` if the filters differ in shape or seed. The filter is then unchanged.
    pub fn intersect(&mut self, other: &BloomFilter) -> Result<(), Error>
        ensures ok { OnOk result (self.new ≡ intersected self.old other.now) }
        ensures state { IsFilterState self.new }
        ensures stands { OnOk result (ExtendsBoth self.old other.now self.new Intersection) }

        // The error comes exactly if the filters are not compatible, and leaves the filter unchanged.
        ensures accepted { IsOk result ↔ IsCompatible self.old other.now }
        ensures refused { IfErr result (λ e. e ≡ invalid_argument Fault.Mismatch) }
        ensures err { OnErr result (self.new ≡ self.old) }
    {
        self.combine(other, SetOperation::Intersection)
    }

    /// Removes all positions that are in the other filter's set. Does not allocate.
    ///
    /// An item that was inserted into this filter is no longer contained if any of its positions is in the other set:
    /// this call can cause false negatives.
    ///
    /// # Errors
    ///
    /// `Mismatch` if the filters differ in shape or seed. The filter is then unchanged.
    pub fn difference(&mut self, other: &BloomFilter) -> Result<(), Error>
        ensures ok { OnOk result (self.new ≡ subtracted self.old other.now) }
        ensures state { IsFilterState self.new }
        ensures stands { OnOk result (ExtendsBoth self.old other.now self.new Difference) }

        // The error comes exactly if the filters are not compatible, and leaves the filter unchanged.
        ensures accepted { IsOk result ↔ IsCompatible self.old other.now }
        ensures refused { IfErr result (λ e. e ≡ invalid_argument Fault.Mismatch) }
        ensures err { OnErr result (self.new ≡ self.old) }
    {
        self.combine(other, SetOperation::Difference)
    }

    /// Combines the filter's set with that of a compatible filter, or returns `Mismatch`.
    #[inline(always)]
    fn combine(&mut self, other: &BloomFilter, operation: SetOperation) -> Result<(), Error>
        ensures ok { OnOk result (self.new ≡ record self.old { set = on_sets operation self.old.set other.now.set }) }
        ensures state { IsFilterState self.new }
        ensures accepted { IsOk result ↔ IsCompatible self.old other.now }
        ensures refused { IfErr result (λ e. e ≡ invalid_argument Fault.Mismatch) }
        ensures err { OnErr result (self.new ≡ self.old) }
    {
        if !self.is_compatible(other) {
            return Err(Error::invalid_argument(Fault::Mismatch));
        }
        self.bits_used = self.bits.combine(&other.bits, operation);
        Ok(())
    }

    /// Returns whether both filters have the same number of words, number of hashes and seed.
    pub fn is_compatible(&self, other: &Self) -> bool
        ensures { IsTrue result ↔ IsCompatible self.now other.now }
    {
        self.bits.num_words() == other.bits.num_words()
            && self.bits.num_hashes() == other.bits.num_hashes()
            && self.bits.seed() == other.bits.seed()
    }

    /// Returns whether the set is empty.
    pub fn is_empty(&self) -> bool
        ensures { IsTrue result ↔ (self.now.set ≡ set.empty) }
    {
        self.bits_used == 0
    }

    /// Returns the number of positions in the set.
    pub fn bits_used(&self) -> u64
        ensures { result ≡ set.len self.now.set }
    {
        self.bits_used
    }

    /// Returns the capacity, which is the number of positions: 64 for each word.
    pub fn capacity(&self) -> usize
        ensures value { result ≡ capacity_of self.now }

        // What holds of every filter.
        ensures state { IsFilterState self.now }
    {
        64 * self.bits.num_words()
    }

    /// Returns the number of positions of each item. They need not be distinct.
    pub fn num_hashes(&self) -> u16
        ensures { result ≡ self.now.num_hashes }
    {
        self.bits.num_hashes()
    }

    /// Returns the seed of the hashes.
    pub fn seed(&self) -> u64
        ensures { result ≡ self.now.seed }
    {
        self.bits.seed()
    }

    /// Returns an estimate of the filter's size in bytes: 8 for each word.
    pub fn estimated_size(&self) -> usize
        ensures { result ≡ 8 * self.now.num_words }
    {
        8 * self.bits.num_words()
    }

    /// Clones the filter with memory of its own, as [`clone`](Clone::clone) does.
    ///
    /// # Errors
    ///
    /// `NoMemory` if the words cannot be allocated.
    pub fn try_clone(&self) -> Result<Self, Error>
        ensures ok { IfOk result (λ filter. filter ≡ self.now) }
        ensures err { IfErr result (λ e. e ≡ no_memory) }
    {
        Ok(self.clone()?)
    }
}

/// Clones the filter with memory of its own. The clone equals the filter. The only error is a failed allocation.
impl Clone for BloomFilter {
    ghost is_clone = { λ filter copy. copy ≡ filter };

    fn clone(&self) -> Result<Self, AllocError> {
        Ok(BloomFilter {
            bits: self.bits.clone()?,
            bits_used: self.bits_used,
        })
    }
}

/// Compares the number of words, the number of hashes, the seed and the set.
impl PartialEq for BloomFilter {
    ghost use Rattle.std.specs.Cmp.{partial_equiv_from_equiv};
    ghost use Rattle.sketch_bloom.specs.State.{same_filter};
    ghost use Rattle.sketch_bloom.specs.Equality.{same_filter_equivalence};

    ghost eq = { same_filter };

    ghost laws = { partial_equiv_from_equiv same_filter_equivalence };

    fn eq(&self, other: &BloomFilter) -> bool {
        self.is_compatible(other) && self.bits.is_same(&other.bits)
    }
}

impl Eq for BloomFilter {
    ghost use Rattle.sketch_bloom.specs.Equality.{same_filter_equivalence};

    ghost laws = { same_filter_equivalence };
}

impl fmt::Debug for BloomFilter {
    fn fmt<W: fmt::Write>(&self, f: &mut fmt::Formatter<W>) -> fmt::Result {
        f.debug_struct("BloomFilter")
            .field("capacity", &self.capacity())
            .field("num_hashes", &self.num_hashes())
            .field("seed", &self.seed())
            .field("bits_used", &self.bits_used)
            .finish_non_exhaustive()
    }
}
