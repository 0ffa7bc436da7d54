//! Items, one by one and in sequences.
ghost use Rattle.std.specs.Hash as fed;
ghost use Rattle.std.specs.Prelude.{◌≡◌, ℕ, List, [], ◌∷◌, map, MatchOption};
ghost use Rattle.sketch_base.specs.Hashes.{fed_bytes};
ghost use Rattle.sketch_base.specs.Murmur3.{murmur3_x64_128};
ghost use Rattle.sketch_base.specs.SipHash.{sip_hash_1_3};
ghost use Rattle.sketch_base.specs.Xxh64.{xxh64};

use crate::item_hash::{keyed_hash_of, keyed_hashes_of, murmur3_of, xxh64_of};
use crate::sip_hash::HashKey;
use crate::str_hash::{keyed_hash_of_str, murmur3_of_str, xxh64_of_str};
use std::hash::Hash;

/// An item that a sketch takes, as the bytes that its `Hash` feeds.
///
/// It is implemented by `&T` for each type `T` that can be hashed, by `&str`, which is hashed straight from its bytes, and by
/// [`FedBytes`](crate::FedBytes).
///
/// # Examples
///
/// ```
/// use sketch_base::Item;
///
/// fn shard_of<X: Item>(user: &X) -> u64 {
///     user.murmur3(9001).0 % 100
/// }
/// ```
pub trait Item {
    // The bytes.
    ghost bytes: { Self → List ℕ };

    /// Returns XXH64 of the bytes, under a seed. Does not allocate.
    fn xxh64(&self, seed: u64) -> u64
        ensures { result ≡ xxh64 (bytes self.now) seed };

    /// Returns both halves of MurmurHash3 x64 128 of the bytes, under a seed. Does not allocate.
    fn murmur3(&self, seed: u64) -> (u64, u64)
        ensures { result ≡ murmur3_x64_128 (bytes self.now) seed };

    /// Returns SipHash-1-3 of the bytes, under a secret key. Does not allocate.
    fn keyed_hash(&self, key: HashKey) -> u64
        ensures { result ≡ sip_hash_1_3 key (bytes self.now) };

    /// Returns the [`keyed_hash`](Self::keyed_hash) of each of two items. For numbers it takes less time than both hashes.
    #[inline(always)]
    fn keyed_hashes(&self, other: &Self, key: HashKey) -> (u64, u64)
        ensures { result ≡ (sip_hash_1_3 key (bytes self.now), sip_hash_1_3 key (bytes other.now)) }
    {
        (self.keyed_hash(key), other.keyed_hash(key))
    }
}

impl<'a, T: Hash> Item for &'a T {
    ghost bytes = { λ item. fed_bytes T.hash_input item.now };

    #[inline(always)]
    fn xxh64(&self, seed: u64) -> u64 {
        xxh64_of(*self, seed)
    }

    #[inline(always)]
    fn murmur3(&self, seed: u64) -> (u64, u64) {
        murmur3_of(*self, seed)
    }

    #[inline(always)]
    fn keyed_hash(&self, key: HashKey) -> u64 {
        keyed_hash_of(key, *self)
    }

    #[inline(always)]
    fn keyed_hashes(&self, other: &Self, key: HashKey) -> (u64, u64) {
        keyed_hashes_of(key, *self, *other)
    }
}

impl<'a> Item for &'a str {
    ghost bytes = { λ item. fed_bytes fed.str item.now };

    #[inline(always)]
    fn xxh64(&self, seed: u64) -> u64 {
        xxh64_of_str(self, seed)
    }

    #[inline(always)]
    fn murmur3(&self, seed: u64) -> (u64, u64) {
        murmur3_of_str(self, seed)
    }

    #[inline(always)]
    fn keyed_hash(&self, key: HashKey) -> u64 {
        keyed_hash_of_str(key, self)
    }
}

/// Items in order, which a sketch takes in one call.
///
/// It is implemented by slices, by all that are [`Strings`](crate::Strings), and by [`FedItems`](crate::FedItems).
///
/// # Examples
///
/// ```
/// use sketch_base::{Items, Words};
///
/// fn number_of_words(text: &str) -> u64 {
///     let mut words = Words::new(text);
///     let mut count: u64 = 0;
///     while let Some(_) = words.next() {
///         count = count.saturating_add(1);
///     }
///     count
/// }
/// ```
pub trait Items: Drop {
    type Each: Item + Drop;

    // The bytes of each item.
    ghost list: { Self → List (List ℕ) };

    /// Takes the first item, or returns `None` if there is none.
    fn next(&mut self) -> Option<Self::Each>
        ensures { MatchOption result ((list self.old ≡ []) × (list self.new ≡ []))
            (λ item. list self.old ≡ Self.Each.bytes item ∷ list self.new) };
}

impl<'a, T: Hash> Items for &'a [T] {
    type Each = &'a T;

    ghost list = { λ items. map (fed_bytes T.hash_input) items.now };

    #[inline(always)]
    fn next(&mut self) -> Option<&'a T> {
        let (first, rest) = self.split_first()?;
        *self = rest;
        Some(first)
    }
}
