//! Items given by the bytes that their `Hash` feeds.
ghost use Rattle.std.specs.Prelude.{◌≡◌, map};

use crate::items::{Item, Items};
use crate::rehashable_bytes::RehashableBytes;
use crate::rehashable_item::Rehashable;
use crate::sip_hash::{HashKey, keyed_hash};
use crate::xxhash::XxHash64;
use std::hash::Hasher;

/// An item given by the bytes that its `Hash` feeds.
///
/// A caller who has these bytes, and not a value of the type, counts or looks up the same item.
/// [`bytes_of_items`](crate::laws::bytes_of_items) states the bytes of numbers and strings.
///
/// # Examples
///
/// ```
/// use sketch_base::{FedBytes, Item};
///
/// fn is_same_item(number: u32, seed: u64) -> bool {
///     FedBytes(&number.to_le_bytes()).xxh64(seed) == (&number).xxh64(seed)
/// }
/// ```
#[derive(Clone, Copy, Drop)]
pub struct FedBytes<'a>(pub &'a [u8]);

impl<'a> Item for FedBytes<'a> {
    ghost bytes = { λ item. item.0.now };

    #[inline(always)]
    fn xxh64(&self, seed: u64) -> u64 {
        let mut hasher = XxHash64::with_seed(seed);
        hasher.write(self.0);
        hasher.finish()
    }

    #[inline(always)]
    fn murmur3(&self, seed: u64) -> (u64, u64) {
        RehashableBytes::new(self.0).murmur3(seed)
    }

    #[inline(always)]
    fn keyed_hash(&self, key: HashKey) -> u64 {
        keyed_hash(key, self.0)
    }
}

/// Items in order, each given by the bytes that its `Hash` feeds, as [`FedBytes`].
///
/// # Examples
///
/// ```
/// use sketch_base::{FedItems, Items};
///
/// fn has_items(mut items: FedItems<'_>) -> bool {
///     items.next().is_some()
/// }
/// ```
#[derive(Drop)]
pub struct FedItems<'a>(pub &'a [&'a [u8]]);

impl<'a> Items for FedItems<'a> {
    type Each = FedBytes<'a>;

    ghost list = { λ s. map (λ item. item.now) s.0.now };

    #[inline(always)]
    fn next(&mut self) -> Option<FedBytes<'a>> {
        let (first, rest) = self.0.split_first()?;
        *self = FedItems(rest);
        Some(FedBytes(*first))
    }
}
