//! The bytes of an item, kept while there are fewer than a block of MurmurHash3.
ghost use Rattle.std.specs.Prelude.{◌≡◌, ◌^◌, ◌<◌, ◌≤◌, [], length, ℕ};
ghost use Rattle.sketch_base.specs.Murmur3.{murmur3_x64_128};
ghost use Rattle.sketch_base.specs.ShortBytes as short;
ghost use Rattle.sketch_base.specs.SipHash as sip;
ghost use Rattle.sketch_base.specs.SipHash.{sip_hash_1_3};

use crate::machine_words::word_at;
use crate::murmurhash::finalization;
use crate::short_copy::copy_short;
use crate::sip_hash::{HashKey, begun_word, hash_of_two_words, hash_of_word};
use crate::sip_hash_of_two::hashes_of_two_words;
use std::hash::Hasher;
use std::marker::Model;

/// The bytes that an item feeds, kept while there are fewer than 16.
///
/// [`RehashableItem::short`](crate::RehashableItem::short) returns them. As a `Hasher` it only collects bytes: its `finish`
/// returns their number, which is no hash.
///
/// # Examples
///
/// ```
/// use sketch_base::RehashableItem;
///
/// fn kept_bytes(user: u64) -> Option<usize> {
///     let item = RehashableItem::new(&user);
///     item.short().map(|bytes| bytes.len())
/// }
/// ```
#[derive(Drop)]
pub struct ShortBytes {
    // The bytes, then zeros.
    buffer: [u8; 16],
    // The number of bytes, or 16 if there were too many.
    len: usize,
}

impl Model for ShortBytes {
    ghost use Rattle.std.specs.Prelude.{◌≡◌, ◌-◌, ◌≤◌, ℕ, List, take, drop, replicate};

    ghost Value = { List ℕ };

    ghost view = { λ s. take s.len s.buffer };

    ghost invariant = { λ s. (s.len ≤ 16) × (drop s.len s.buffer ≡ replicate (16 - s.len) 0) };
}

impl ShortBytes {
    /// Creates it with no bytes.
    #[inline(always)]
    pub fn new() -> Self
        ensures { result ≡ [] }
    {
        ShortBytes {
            buffer: [0; 16],
            len: 0,
        }
    }

    /// Returns the number of bytes kept, or 16 if there were too many.
    #[inline(always)]
    pub fn len(&self) -> usize
        ensures { result ≡ length self.now }
    {
        self.len
    }

    /// Returns both halves of MurmurHash3 x64 128 of the bytes, which are fewer than 16, under a seed.
    #[inline(always)]
    pub fn murmur3(&self, seed: u64) -> (u64, u64)
        requires { length self.now < 16 }
        ensures { result ≡ murmur3_x64_128 self.now seed }
    {
        finalization((seed, seed), &self.buffer, self.len as u64)
    }

    /// Returns SipHash-1-3 of the bytes, which are fewer than 16, under a key.
    #[inline(always)]
    pub fn keyed_hash(&self, key: HashKey) -> u64
        requires { length self.now < 16 }
        ensures { result ≡ sip_hash_1_3 key self.now }
    {
        if self.len < 8 {
            let size = (self.len as u64) << 56;
            hash_of_word(key, begun_word(&self.buffer[..8], self.len) + size)
        } else {
            let (first, last) = self.two_words();
            hash_of_two_words(key, first, last)
        }
    }

    /// Returns the two words of SipHash of the bytes, which are from 8 to 15.
    #[inline(always)]
    fn two_words(&self) -> (u64, u64)
        requires many { 8 ≤ length self.now }
        requires few { length self.now < 16 }
        ensures { (key : ℕ × ℕ) → sip.finalization 3 (sip.compression 1 (sip.compression 1 (sip.initialization key) result.0) result.1)
            ≡ sip_hash_1_3 key self.now }
    {
        let size = (self.len as u64) << 56;
        let last = begun_word(&self.buffer[8..], self.len - 8) + size;
        (word_at(&self.buffer, 0), last)
    }

    /// Returns SipHash-1-3 of both lists of bytes, which are fewer than 16, under a key. It takes less time than both hashes if both
    /// have at least 8 bytes.
    #[inline(always)]
    pub(crate) fn keyed_hashes(&self, other: &ShortBytes, key: HashKey) -> (u64, u64)
        requires here { length self.now < 16 }
        requires there { length other.now < 16 }
        ensures { result ≡ (sip_hash_1_3 key self.now, sip_hash_1_3 key other.now) }
    {
        if self.len < 8 || other.len < 8 {
            return (self.keyed_hash(key), other.keyed_hash(key));
        }
        let (here, there) = (self.two_words(), other.two_words());
        hashes_of_two_words(key, (here.0, there.0), (here.1, there.1))
    }
}

impl Hasher for ShortBytes {
    ghost write = { short.keep };

    ghost finish = { length };

    /// Returns the number of bytes kept, which is no hash.
    #[inline(always)]
    fn finish(&self) -> u64 {
        self.len as u64
    }

    #[inline(always)]
    fn write(&mut self, bytes: &[u8]) {
        let used = self.len;
        if bytes.len() < 16 - used {
            copy_short(&mut self.buffer[used..used + bytes.len()], bytes);
            self.len = used + bytes.len();
        } else {
            self.len = 16;
        }
    }
}
