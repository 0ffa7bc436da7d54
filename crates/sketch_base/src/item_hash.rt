//! The hashes of whole items, over the bytes that their `Hash` feeds.
ghost use Rattle.std.specs.Prelude.{◌≡◌};
ghost use Rattle.sketch_base.specs.Hashes.{fed_bytes, le64};
ghost use Rattle.sketch_base.specs.Murmur3.{murmur3_x64_128};
ghost use Rattle.sketch_base.specs.SipHash.{sip_hash_1_3};
ghost use Rattle.sketch_base.specs.Xxh64.{xxh64};

use crate::murmurhash::MurmurHash3X64128;
use crate::rehashable_item::RehashableItem;
use crate::sip_hash::HashKey;
use crate::sip_hasher::SipHasher13;
use crate::xxhash::XxHash64;
use std::hash::{Hash, Hasher};

/// Returns XXH64 of all bytes that the `Hash` of `item` feeds, under a seed. Does not allocate.
#[inline(always)]
pub fn xxh64_of<T: Hash>(item: &T, seed: u64) -> u64
    ensures { result ≡ xxh64 (fed_bytes T.hash_input item.now) seed }
{
    let mut hasher = XxHash64::with_seed(seed);
    item.hash(&mut hasher);
    hasher.finish()
}

/// Returns both halves of MurmurHash3 x64 128 of all bytes that the `Hash` of `item` feeds, under a seed. Does not
/// allocate.
#[inline(always)]
pub fn murmur3_of<T: Hash>(item: &T, seed: u64) -> (u64, u64)
    ensures { result ≡ murmur3_x64_128 (fed_bytes T.hash_input item.now) seed }
{
    let mut hasher = MurmurHash3X64128::with_seed(seed);
    item.hash(&mut hasher);
    hasher.finish128()
}

/// Returns both halves of MurmurHash3 x64 128 of the eight bytes of `n`, little-endian, under a seed. Does not
/// allocate.
#[inline(always)]
pub fn murmur3_of_u64(n: u64, seed: u64) -> (u64, u64)
    ensures { result ≡ murmur3_x64_128 (le64 n) seed }
{
    murmur3_of(&n, seed)
}

/// Returns SipHash-1-3 under a key of all bytes that the `Hash` of `item` feeds. Does not allocate.
///
/// Fewer than 16 bytes, as those of a number, are hashed in one piece.
///
/// # Examples
///
/// ```
/// use sketch_base::{HashKey, keyed_hash_of};
///
/// fn shard_of(key: HashKey, user: u64) -> u64 {
///     keyed_hash_of(key, &user) % 100
/// }
/// ```
#[inline(always)]
pub fn keyed_hash_of<T: Hash>(key: HashKey, item: &T) -> u64
    ensures { result ≡ sip_hash_1_3 key (fed_bytes T.hash_input item.now) }
{
    RehashableItem::new(item).keyed_hash(key)
}

/// Returns the [`keyed_hash_of`] of each of two items. Does not allocate.
///
/// It takes less time than both hashes if the items have from 8 to 15 bytes, as numbers have.
///
/// # Examples
///
/// ```
/// use sketch_base::{HashKey, keyed_hashes_of};
///
/// fn are_in_one_shard(key: HashKey, users: (u64, u64)) -> bool {
///     let hashes = keyed_hashes_of(key, &users.0, &users.1);
///     hashes.0 % 100 == hashes.1 % 100
/// }
/// ```
#[inline(always)]
pub fn keyed_hashes_of<T: Hash>(key: HashKey, first: &T, second: &T) -> (u64, u64)
    ensures { result ≡ (
      sip_hash_1_3 key (fed_bytes T.hash_input first.now),
      sip_hash_1_3 key (fed_bytes T.hash_input second.now),
    ) }
{
    RehashableItem::new(first).keyed_hashes(&RehashableItem::new(second), key)
}

/// Returns SipHash-1-3 under a key of all bytes that the `Hash` of `item` feeds, which may be many.
#[inline(never)]
pub(crate) fn keyed_hash_of_many<T: Hash>(key: HashKey, item: &T) -> u64
    ensures { result ≡ sip_hash_1_3 key (fed_bytes T.hash_input item.now) }
{
    let mut hasher = SipHasher13::with_key(key);
    item.hash(&mut hasher);
    hasher.digest()
}
