//! SipHash-1-3 of bytes under a secret key.
ghost use Rattle.std.specs.Prelude.{◌≡◌, ◌-◌, ◌*◌, ◌/◌, ◌^◌, ◌<◌, length, drop, replicate};
ghost use Rattle.std.specs.Int.{w64};
ghost use Rattle.std.specs.List.{fold};
ghost use Rattle.sketch_base.specs.Fields.{le_at};
ghost use Rattle.sketch_base.specs.MachineWords.{le_number};
ghost use Rattle.sketch_base.specs.MachineWords as words;
ghost use Rattle.sketch_base.specs.SipHash as spec;
ghost use Rattle.sketch_base.specs.SipHash.{sip_hash_1_3};

use crate::image::u64_at;
use crate::machine_words::word_at;
use crate::str_hash::word_end;
use std::marker::Model;

/// A secret key of 128 bits for [`keyed_hash`].
///
/// Choose it at random, and keep it from those who choose the items. Contracts see it as a pair of words. It has no
/// `Debug`, so it is not printed by mistake.
///
/// # Examples
///
/// ```
/// use sketch_base::{HashKey, keyed_hash};
///
/// fn hash_of_user(random: &[u8; 16], user: &str) -> u64 {
///     keyed_hash(HashKey::from_bytes(random), user.as_bytes())
/// }
/// ```
#[derive(Clone, Copy)]
pub struct HashKey {
    k0: u64,
    k1: u64,
}

impl Model for HashKey {
    ghost use Rattle.std.specs.Prelude.{ℕ};

    ghost Value = { ℕ × ℕ };

    ghost view = { λ key. (key.k0, key.k1) };

    ghost inverse = { λ words. record { k0 = words.0; k1 = words.1 } };
}

impl HashKey {
    /// Creates a key from its two words.
    #[inline]
    pub fn new(k0: u64, k1: u64) -> Self
        ensures { result ≡ (k0, k1) }
    {
        HashKey { k0, k1 }
    }

    /// Creates a key from its 16 bytes, which are two little-endian words.
    #[inline]
    pub fn from_bytes(bytes: &[u8; 16]) -> Self
        ensures { result ≡ (words.word_at bytes.now 0, words.word_at bytes.now 8) }
    {
        HashKey {
            k0: word_at(bytes, 0),
            k1: word_at(bytes, 8),
        }
    }
}

/// The state of SipHash: v0, v1, v2 and v3.
pub(crate) type State = (u64, u64, u64, u64);

/// Returns the state of a key before any word.
#[tactic(auto, unfolding(crate::specs::SipHash::initialization))]
#[inline(always)]
pub(crate) fn initialization(key: HashKey) -> State
    ensures { result ≡ spec.initialization key }
{
    (
        key.k0 ^ 0x736F_6D65_7073_6575,
        key.k1 ^ 0x646F_7261_6E64_6F6D,
        key.k0 ^ 0x6C79_6765_6E65_7261,
        key.k1 ^ 0x7465_6462_7974_6573,
    )
}

#[tactic(auto, unfolding(crate::specs::SipHash::sip_round))]
#[inline(always)]
fn sip_round(v: State) -> State
    ensures { result ≡ spec.sip_round v }
{
    let a0 = v.0.wrapping_add(v.1);
    let a1 = v.1.rotate_left(13) ^ a0;
    let a2 = v.2.wrapping_add(v.3);
    let a3 = v.3.rotate_left(16) ^ a2;
    let b2 = a2.wrapping_add(a1);
    let b1 = a1.rotate_left(17) ^ b2;
    let b0 = a0.rotate_left(32).wrapping_add(a3);
    let b3 = a3.rotate_left(21) ^ b0;
    (b0, b1, b2.rotate_left(32), b3)
}

/// Returns the state after one word.
#[tactic(auto, unfolding(crate::specs::SipHash::compression, crate::specs::SipHash::sip_rounds))]
#[inline(always)]
pub(crate) fn compression(v: State, word: u64) -> State
    ensures { result ≡ spec.compression 1 v word }
{
    let after = sip_round((v.0, v.1, v.2, v.3 ^ word));
    (after.0 ^ word, after.1, after.2, after.3)
}

/// Returns the state after all whole words of `bytes`.
#[inline(always)]
pub(crate) fn compress_words(start: State, bytes: &[u8]) -> State
    ensures { result ≡ fold (spec.compression 1) start (spec.words (length bytes.now / 8) bytes.now) }
{
    let mut v = start;
    let count = bytes.len() / 8;
    // The label is for the prover.
    'each: for i in 0..count {
        v = compression(v, u64_at(bytes, 8 * i));
    }
    v
}

/// Returns the last word: the bytes after the last whole word, zeros, and the number of all bytes modulo 256.
#[inline(always)]
pub(crate) fn last_word(bytes: &[u8]) -> u64
    ensures { result ≡ le_number (drop (8 * (length bytes.now / 8)) (spec.padded bytes.now)) }
{
    let n = bytes.len();
    // The byte 255 after the bytes is not part of this word.
    let rest = word_end(bytes) - (255 << 8 * (n % 8));
    rest + (((n % 256) as u64) << 56)
}

/// Returns the hash, from the state after all words.
#[tactic(auto, unfolding(crate::specs::SipHash::finalization, crate::specs::SipHash::sip_rounds))]
#[inline(always)]
pub(crate) fn finalization(v: State) -> u64
    ensures { result ≡ spec.finalization 3 v }
{
    let after = sip_round(sip_round(sip_round((v.0, v.1, v.2 ^ 0xFF, v.3))));
    after.0 ^ after.1 ^ after.2 ^ after.3
}

/// Returns the number of the bytes of a word that is not whole yet. `_used` is their number, and zeros follow them.
#[inline(always)]
pub(crate) fn begun_word(word: &[u8], _used: usize) -> u64
    requires word { length word.now ≡ 8 }
    requires used { _used < 8 }
    requires zeros { drop _used word.now ≡ replicate (8 - _used) 0 }
    ensures word { result ≡ le_at w64 word.now 0 }
    ensures below { result < 2 ^ 56 }
{
    u64_at(word, 0)
}

/// Returns the hash of one word, the last.
///
/// It is not inlined, and neither is that of two words. A caller with another hash beside this one keeps its registers.
#[inline(never)]
pub(crate) fn hash_of_word(key: HashKey, last: u64) -> u64
    ensures { result ≡ spec.finalization 3 (spec.compression 1 (spec.initialization key) last) }
{
    finalization(compression(initialization(key), last))
}

/// Returns the hash of two words.
#[inline(never)]
pub(crate) fn hash_of_two_words(key: HashKey, first: u64, last: u64) -> u64
    ensures { result
        ≡ spec.finalization 3 (spec.compression 1 (spec.compression 1 (spec.initialization key) first) last) }
{
    finalization(compression(compression(initialization(key), first), last))
}

/// Returns SipHash-1-3 of bytes under a key. Does not allocate.
///
/// A caller who chooses the items of a sketch can choose ones whose hashes collide. Insert this hash in place of such an
/// item: without the key, no way is known to choose items that collide. Sketches that are merged need the same key.
///
/// The hash function is that of Aumasson & Bernstein 2012, with one round for each word and three at the end.
///
/// # Examples
///
/// ```
/// use sketch_base::{HashKey, keyed_hash};
///
/// fn are_alike(k0: u64, k1: u64, first: &str, second: &str) -> bool {
///     let key = HashKey::new(k0, k1);
///     keyed_hash(key, first.as_bytes()) == keyed_hash(key, second.as_bytes())
/// }
/// ```
#[inline]
pub fn keyed_hash(key: HashKey, bytes: &[u8]) -> u64
    ensures { result ≡ sip_hash_1_3 key bytes.now }
{
    let after = compress_words(initialization(key), bytes);
    finalization(compression(after, last_word(bytes)))
}
