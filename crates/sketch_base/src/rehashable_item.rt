//! Items that are hashed under several seeds.
ghost use Rattle.std.specs.Prelude.{◌≡◌, ◌<◌, ◌≤◌, ℕ, List, IfSome, IfNone, length};
ghost use Rattle.sketch_base.specs.Hashes.{fed_bytes};
ghost use Rattle.sketch_base.specs.Murmur3.{murmur3_x64_128};
ghost use Rattle.sketch_base.specs.SipHash.{sip_hash_1_3};

use crate::item_hash::{keyed_hash_of_many, murmur3_of};
use crate::short_bytes::ShortBytes;
use crate::sip_hash::HashKey;
use std::hash::Hash;
use std::marker::Model;

/// Bytes that are hashed under several seeds: [`ShortBytes`] of fewer than 16 bytes, a
/// [`RehashableStr`](crate::RehashableStr) or [`RehashableBytes`](crate::RehashableBytes).
///
/// # Examples
///
/// ```
/// use sketch_base::{Rehashable, RehashableStr};
///
/// fn shard_of_name(user: &str) -> u64 {
///     let user = RehashableStr::new(user);
///     user.murmur3(9001).0 % 100
/// }
/// ```
pub trait Rehashable {
    // The bytes.
    ghost bytes: { Self → List ℕ };

    // What a hash requires.
    ghost can_hash: { Self → Type 0 };

    /// Returns both halves of MurmurHash3 x64 128 of the bytes, under a seed. Does not allocate.
    fn murmur3(&self, seed: u64) -> (u64, u64)
        requires { can_hash self.now }
        ensures { result ≡ murmur3_x64_128 (bytes self.now) seed };
}

impl Rehashable for ShortBytes {
    ghost bytes = { λ s. s };

    ghost can_hash = { λ s. length s < 16 };

    #[inline(always)]
    fn murmur3(&self, seed: u64) -> (u64, u64) {
        ShortBytes::murmur3(self, seed)
    }
}

/// An item that is hashed under several seeds, and fed only once if it has few bytes.
///
/// Contracts see it as the bytes that the item's `Hash` feeds. If they are fewer than 16, as for numbers, they are fed
/// once, and each hash is only the finalization. Otherwise each hash feeds them again. It does not allocate.
///
/// # Examples
///
/// ```
/// use sketch_base::RehashableItem;
///
/// fn hashes_of_both_rows(user: u64, seeds: (u64, u64)) -> (u64, u64) {
///     let item = RehashableItem::new(&user);
///     (item.murmur3(seeds.0).0, item.murmur3(seeds.1).0)
/// }
/// ```
#[derive(Drop)]
pub struct RehashableItem<'a, T: Hash> {
    item: &'a T,
    short: ShortBytes,
}

impl<'a, T: Hash> Model for RehashableItem<'a, T> {
    ghost use Rattle.std.specs.Prelude.{ℕ, List};
    ghost use Rattle.sketch_base.specs.Hashes.{fed_bytes};
    ghost use Rattle.sketch_base.specs.ShortBytes.{Keeps};

    ghost Value = { List ℕ };

    ghost view = { λ s. fed_bytes T.hash_input s.item.now };

    ghost invariant = { λ s. Keeps (fed_bytes T.hash_input s.item.now) s.short };
}

impl<'a, T: Hash> RehashableItem<'a, T> {
    /// Creates it from an item. This feeds the item's bytes once, and keeps them if they are fewer than 16.
    #[inline(always)]
    pub fn new(item: &'a T) -> Self
        ensures { result ≡ fed_bytes T.hash_input item.now }
    {
        let mut short = ShortBytes::new();
        item.hash(&mut short);
        RehashableItem { item, short }
    }

    /// Returns the item's bytes if they are fewer than 16. Each hash of them is only the finalization.
    #[inline(always)]
    pub fn short(&self) -> Option<&ShortBytes>
        ensures bytes { IfSome result (λ bytes. bytes.now ≡ self.now) }
        ensures few { IfSome result (λ bytes. length bytes.now < 16) }
        ensures many { IfNone result (16 ≤ length self.now) }
    {
        if self.short.len() < 16 {
            Some(&self.short)
        } else {
            None
        }
    }

    /// Returns both halves of MurmurHash3 x64 128 of all bytes that the item's `Hash` feeds, under a seed.
    #[inline(always)]
    pub fn murmur3(&self, seed: u64) -> (u64, u64)
        ensures { result ≡ murmur3_x64_128 self.now seed }
    {
        if self.short.len() < 16 {
            self.short.murmur3(seed)
        } else {
            murmur3_of(self.item, seed)
        }
    }

    /// Returns SipHash-1-3 under a key of all bytes that the item's `Hash` feeds.
    #[inline(always)]
    pub fn keyed_hash(&self, key: HashKey) -> u64
        ensures { result ≡ sip_hash_1_3 key self.now }
    {
        if self.short.len() < 16 {
            self.short.keyed_hash(key)
        } else {
            keyed_hash_of_many(key, self.item)
        }
    }

    /// Returns SipHash-1-3 under a key of all bytes that each item's `Hash` feeds.
    #[inline(always)]
    pub(crate) fn keyed_hashes(&self, other: &Self, key: HashKey) -> (u64, u64)
        ensures { result ≡ (sip_hash_1_3 key self.now, sip_hash_1_3 key other.now) }
    {
        if self.short.len() < 16 && other.short.len() < 16 {
            self.short.keyed_hashes(&other.short, key)
        } else {
            (self.keyed_hash(key), other.keyed_hash(key))
        }
    }
}
