//! Many items, or many other filters, in one call.
ghost use Rattle.std.specs.Prelude.{◌≡◌, ◌↔◌, map, fold, length, All, IfErr, IsOk, IsTrue, OnOk, OnErr};
ghost use Rattle.std.specs.Iterator.{ExtendsWithItems, IsFiniteIterable};
ghost use Rattle.sketch_base.specs.Errors.{invalid_argument};
ghost use Rattle.sketch_bloom.specs.History.{all_inserted_after, all_united_after};
ghost use Rattle.sketch_bloom.specs.Pairs.{with_pair, pairs_contained};
ghost use Rattle.sketch_bloom.specs.Stands.{Extends, ExtendsByAll};
ghost use Rattle.sketch_bloom.specs.State.{IsFilterState, IsCompatible, contains_item, answers_in_turn, all_inserted, all_united};

use crate::bloom_filter::BloomFilter;
use crate::hashes::{BLOCK, next_pairs};
use crate::set_operation::SetOperation;
use sketch_base::{Error, Fault, Item, Items};
use std::alloc::AllocError;

impl BloomFilter {
    /// Inserts the positions of all items, as [`insert_item`](Self::insert_item) does one after another. Does not
    /// allocate.
    ///
    /// It takes any [`Items`]: a slice, or the words or lines of a string. It is faster than a call for each item: the
    /// hashes of several items are computed before their words are needed.
    ///
    /// # Examples
    ///
    /// ```
    /// use sketch_base::{Error, Lines, OffsetStrings, Words};
    /// use sketch_bloom::BloomFilter;
    ///
    /// fn insert_numbers(filter: &mut BloomFilter, numbers: &[u64]) {
    ///     filter.insert_all(numbers);
    /// }
    ///
    /// fn vocabulary_has(vocabulary: &mut BloomFilter, text: &str, word: &str) -> bool {
    ///     vocabulary.insert_all(Words::new(text));
    ///     vocabulary.contains_item(word)
    /// }
    ///
    /// fn block_list_has(blocked: &mut BloomFilter, list: &str, name: &str) -> bool {
    ///     blocked.insert_all(Lines::new(list));
    ///     blocked.contains_item(name)
    /// }
    ///
    /// fn block_names(blocked: &mut BloomFilter, names: &[u8], ends: &[u64]) -> Result<(), Error> {
    ///     blocked.insert_all(OffsetStrings::new(names, ends)?);
    ///     Ok(())
    /// }
    /// ```
    pub fn insert_all<I: Items>(&mut self, mut items: I)
        ensures insertions { self.new ≡ all_inserted self.old (I.list items) }
        ensures state { IsFilterState self.new }
        ensures stands { Extends self.old self.new (λ h. all_inserted_after h (I.list items)) }
    {
        let seed = self.bits.seed();
        let mut pairs = [(0, 0); BLOCK];
        // The label is for the prover.
        'each: loop {
            let count = next_pairs(&mut items, seed, &mut pairs);
            self.insert_pairs(&pairs[..count]);
            if count < BLOCK {
                return;
            }
        }
    }

    /// Writes for each item to `answers` whether all its positions are in the set, as
    /// [`contains_item`](Self::contains_item) returns it. There is one answer for each item. Does not allocate.
    ///
    /// It takes any [`Items`]. It is faster than a call for each item: the hashes of several items are computed before
    /// their words are needed.
    ///
    /// # Examples
    ///
    /// ```
    /// use sketch_base::Strs;
    /// use sketch_bloom::BloomFilter;
    ///
    /// fn known_of_four(seen: &BloomFilter, visitors: &[u64; 4]) -> [bool; 4] {
    ///     let mut known = [false; 4];
    ///     seen.contains_all(visitors.as_slice(), &mut known);
    ///     known
    /// }
    ///
    /// fn are_blocked(blocked: &BloomFilter, names: &[&str; 4]) -> [bool; 4] {
    ///     let mut answers = [false; 4];
    ///     blocked.contains_all(Strs(names), &mut answers);
    ///     answers
    /// }
    /// ```
    pub fn contains_all<I: Items>(&self, items: I, answers: &mut [bool])
        requires { length answers.old ≡ length (I.list items) }
        ensures { answers.new ≡ map (contains_item self.now) (I.list items) }
    {
        self.bits.borrowed().contains_all(items, answers);
    }

    /// Inserts the positions of all items, and writes for each item to `answers` whether it was contained before, as
    /// [`contains_and_insert_item`](Self::contains_and_insert_item) does one after another.
    ///
    /// So an item that occurs twice is contained the second time. There is one answer for each item. Does not allocate.
    ///
    /// It takes any [`Items`]. It is faster than a call for each item: the hashes of several items are computed before
    /// their words are needed.
    ///
    /// # Examples
    ///
    /// ```
    /// use sketch_base::Strs;
    /// use sketch_bloom::BloomFilter;
    ///
    /// fn repeated_of_four(seen: &mut BloomFilter, visitors: &[u64; 4]) -> [bool; 4] {
    ///     let mut repeated = [false; 4];
    ///     seen.contains_and_insert_all(visitors.as_slice(), &mut repeated);
    ///     repeated
    /// }
    ///
    /// fn repeated_names(seen: &mut BloomFilter, names: &[&str; 4]) -> [bool; 4] {
    ///     let mut repeated = [false; 4];
    ///     seen.contains_and_insert_all(Strs(names), &mut repeated);
    ///     repeated
    /// }
    /// ```
    pub fn contains_and_insert_all<I: Items>(&mut self, mut items: I, answers: &mut [bool])
        requires { length answers.old ≡ length (I.list items) }
        ensures answers { answers.new ≡ answers_in_turn self.old (I.list items) }
        ensures insertions { self.new ≡ all_inserted self.old (I.list items) }
        ensures state { IsFilterState self.new }
        ensures stands { Extends self.old self.new (λ h. all_inserted_after h (I.list items)) }
    {
        let seed = self.bits.seed();
        let mut pairs = [(0, 0); BLOCK];
        let mut from = 0;
        // The label is for the prover.
        'each: loop {
            let count = next_pairs(&mut items, seed, &mut pairs);
            self.contains_and_insert_pairs(&pairs[..count], &mut answers[from..from + count]);
            from += count;
            if count < BLOCK {
                return;
            }
        }
    }

    /// Inserts the positions of all pairs of hashes.
    #[inline(always)]
    fn insert_pairs(&mut self, pairs: &[(u64, u64)])
        ensures { self.new ≡ fold with_pair self.old pairs.now }
    {
        // The label is for the prover.
        'pairs: for i in 0..pairs.len() {
            self.insert_pair(pairs[i]);
        }
    }

    /// Inserts the positions of all pairs of hashes, and writes for each pair, in turn, whether all were in the set
    /// before.
    #[inline(always)]
    fn contains_and_insert_pairs(&mut self, pairs: &[(u64, u64)], answers: &mut [bool])
        requires { length answers.old ≡ length pairs.now }
        ensures answers { answers.new ≡ pairs_contained self.old pairs.now }
        ensures insertions { self.new ≡ fold with_pair self.old pairs.now }
    {
        // The label is for the prover.
        'pairs: for i in 0..pairs.len() {
            answers[i] = self.insert_pair(pairs[i]);
        }
    }

    /// Adds all positions of the other filters' sets, as [`union`](Self::union) does one after another. Does not
    /// allocate.
    ///
    /// # Errors
    ///
    /// `Mismatch` if another filter differs from this one in shape or seed. This filter is then unchanged.
    ///
    /// # Examples
    ///
    /// ```
    /// use sketch_base::Error;
    /// use sketch_bloom::BloomFilter;
    ///
    /// fn add_visitors_of_weekend(
    ///     week: &mut BloomFilter,
    ///     saturday: &BloomFilter,
    ///     sunday: &BloomFilter,
    /// ) -> Result<(), Error> {
    ///     week.union_all(&[saturday, sunday])
    /// }
    /// ```
    pub fn union_all(&mut self, others: &[&BloomFilter]) -> Result<(), Error>
        ensures ok { OnOk result (self.new ≡ all_united self.old (map (λ other. other.now) others.now)) }
        ensures state { IsFilterState self.new }
        ensures stands { OnOk result (ExtendsByAll self.old (map (λ other. other.now) others.now) self.new all_united_after) }

        // The error comes exactly if a filter is not compatible, and leaves this filter unchanged.
        ensures accepted { IsOk result ↔ All (IsCompatible self.old) (map (λ other. other.now) others.now) }
        ensures refused { IfErr result (λ e. e ≡ invalid_argument Fault.Mismatch) }
        ensures err { OnErr result (self.new ≡ self.old) }
    {
        if !self.is_compatible_with_all(others) {
            return Err(Error::invalid_argument(Fault::Mismatch));
        }
        // The label is for the prover.
        'each: for i in 0..others.len() {
            let _ = self.combine(others[i], SetOperation::Union);
        }
        Ok(())
    }

    /// Returns whether each other filter has this filter's number of words, number of hashes and seed.
    fn is_compatible_with_all(&self, others: &[&BloomFilter]) -> bool
        ensures compatible { IsTrue result ↔ All (IsCompatible self.now) (map (λ other. other.now) others.now) }

        // What holds of every filter.
        ensures state { IsFilterState self.now }
    {
        // For the prover: this read brings in what holds of every filter.
        let _bits_used = self.bits_used;
        'each: for i in 0..others.len() {
            if !self.is_compatible(others[i]) {
                return false;
            }
        }
        true
    }
}

/// Inserts the items of an iterator, as [`insert_item`](BloomFilter::insert_item) does one after another.
///
/// Always returns `Ok`. Does not allocate. [`insert_all`](BloomFilter::insert_all) is faster for slices and strings.
///
/// # Examples
///
/// ```
/// use sketch_base::Error;
/// use sketch_bloom::BloomFilter;
///
/// fn insert_even(filter: &mut BloomFilter, numbers: &[u64]) -> Result<(), Error> {
///     filter.extend(numbers.iter().filter(|n| **n % 2 == 0))?;
///     Ok(())
/// }
/// ```
impl<X: Item + Drop> Extend<X> for BloomFilter {
    ghost extend_gives = { λ old items new. new ≡ all_inserted old (map X.bytes items) };

    fn extend<U: IntoIterator<Item = X>>(&mut self, items: U) -> Result<(), AllocError>
        requires { IsFiniteIterable U.into_iter_gives U.IntoIter.can_next U.IntoIter.remaining items }
        ensures ran { ExtendsWithItems U.into_iter_gives U.IntoIter.next_gives
            (λ old seen new. new ≡ all_inserted old (map X.bytes seen)) items self.old self.new result }
        ensures infallible { IsOk result }
    {
        for item in items {
            self.insert_item(item);
        }
        Ok(())
    }
}
