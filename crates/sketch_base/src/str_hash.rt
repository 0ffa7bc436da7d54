//! The hashes of a string, straight from its bytes, and of bytes.
//!
//! A string feeds its bytes and then the byte 255. The last bytes and this byte are read as one number, by loads that
//! may overlap.
ghost use Rattle.std.specs.Prelude.{◌≡◌, ◌+◌, ◌-◌, ◌*◌, ◌/◌, ◌%◌, ◌^◌, ◌<◌, ◌≤◌, [], ◌∷◌, ◌++◌, length, drop, nat_lt, if◌then◌else◌};
ghost use Rattle.std.specs.List.{fold};
ghost use Rattle.std.specs.Hash.{le_bytes};
ghost use Rattle.std.specs.Hash as fed;
ghost use Rattle.sketch_base.specs.Hashes.{fed_bytes};
ghost use Rattle.sketch_base.specs.MachineWords.{le_number};
ghost use Rattle.sketch_base.specs.Murmur3.{murmur3_x64_128};
ghost use Rattle.sketch_base.specs.SipHash.{sip_hash_1_3};
ghost use Rattle.sketch_base.specs.Xxh64 as spec;
ghost use Rattle.sketch_base.specs.Xxh64.{xxh64};

use crate::image::{u32_at, u64_at};
use crate::machine_words::word_at;
use crate::murmurhash::{block_of_words, body, finish_words};
use crate::sip_hash::{HashKey, compress_words, compression, finalization, initialization};
use crate::xxhash::{
    PRIME64_5, avalanche, consume_byte, consume_half_word, consume_word, consume_words,
    convergence, initial_accumulators, stripe_of_words, stripes,
};

/// Returns the number of one to three bytes, the lowest first.
#[inline(always)]
fn few_bytes(bytes: &[u8]) -> u64
    requires some { 0 < length bytes.now }
    requires few { length bytes.now < 4 }
    ensures { result ≡ le_number bytes.now }
{
    let n = bytes.len();
    // For fewer than three bytes, some of these are the same byte.
    bytes[0] as u64 | (bytes[n / 2] as u64) << 8 * (n / 2) | (bytes[n - 1] as u64) << 8 * (n - 1)
}

/// Returns the number of fewer than eight bytes and the byte 255, the lowest first.
#[inline(always)]
fn short_end(bytes: &[u8]) -> u64
    requires { length bytes.now < 8 }
    ensures { result ≡ le_number (bytes.now ++ 255 ∷ []) }
{
    let n = bytes.len();
    if n >= 4 {
        // The first four bytes and the last four may overlap.
        let last = (u32_at(bytes, n - 4) as u64 >> 8) + (255 << 24);
        u32_at(bytes, 0) as u64 + (last >> 8 * (7 - n) << 32)
    } else if n > 0 {
        few_bytes(bytes) + (255 << 8 * n)
    } else {
        255
    }
}

/// Returns the number of the bytes after the last whole word and the byte 255, the lowest first. It is read from the
/// last eight bytes.
#[inline(always)]
fn last_word_end(bytes: &[u8]) -> u64
    requires { 8 ≤ length bytes.now }
    ensures { result ≡ le_number (drop (8 * (length bytes.now / 8)) bytes.now ++ 255 ∷ []) }
{
    let n = bytes.len();
    ((u64_at(bytes, n - 8) >> 8) + (255 << 56)) >> 8 * (7 - n % 8)
}

/// Returns the number of the bytes after the last whole word and the byte 255, the lowest first.
#[inline(always)]
pub(crate) fn word_end(bytes: &[u8]) -> u64
    ensures { result ≡ le_number (drop (8 * (length bytes.now / 8)) bytes.now ++ 255 ∷ []) }
{
    if bytes.len() >= 8 {
        last_word_end(bytes)
    } else {
        short_end(bytes)
    }
}

/// Returns the number of the bytes after the last block of 16 and the byte 255, the lowest first. It is read from the
/// last 16 bytes.
#[inline(always)]
fn last_block_end(bytes: &[u8]) -> u128
    requires { 16 ≤ length bytes.now }
    ensures { result ≡ le_number (drop (16 * (length bytes.now / 16)) bytes.now ++ 255 ∷ []) }
{
    let n = bytes.len();
    let last = u64_at(bytes, n - 16) as u128 + ((u64_at(bytes, n - 8) as u128) << 64);
    ((last >> 8) + (255 << 120)) >> 8 * (15 - n % 16)
}

/// Returns the number of the bytes after the last block of 16 and the byte 255, the lowest first.
#[inline(always)]
pub(crate) fn block_end(bytes: &[u8]) -> u128
    ensures { result ≡ le_number (drop (16 * (length bytes.now / 16)) bytes.now ++ 255 ∷ []) }
{
    let n = bytes.len();
    if n >= 16 {
        last_block_end(bytes)
    } else if n >= 8 {
        u64_at(bytes, 0) as u128 + ((last_word_end(bytes) as u128) << 64)
    } else {
        short_end(bytes) as u128
    }
}

/// Returns both halves of MurmurHash3 x64 128 of all bytes that the `Hash` of a string feeds, under a seed. Does not
/// allocate.
///
/// It returns what [`murmur3_of`](crate::murmur3_of) returns for the string, in less time.
///
/// # Examples
///
/// ```
/// use sketch_base::murmur3_of_str;
///
/// fn shard_of(user: &str) -> u64 {
///     murmur3_of_str(user, 9001).0 % 100
/// }
/// ```
#[inline(always)]
pub fn murmur3_of_str(text: &str, seed: u64) -> (u64, u64)
    ensures { result ≡ murmur3_x64_128 (fed_bytes fed.str text.now) seed }
{
    let bytes = text.as_bytes();
    murmur3_with_end(bytes, block_end(bytes), seed)
}

/// Returns both halves of MurmurHash3 x64 128 of bytes and the byte 255, under a seed. `end` is the number of the bytes
/// after the last block of 16 and the byte 255, the lowest first.
#[inline(always)]
pub(crate) fn murmur3_with_end(bytes: &[u8], end: u128, seed: u64) -> (u64, u64)
    requires { end ≡ le_number (drop (16 * (length bytes.now / 16)) bytes.now ++ 255 ∷ []) }
    ensures { result ≡ murmur3_x64_128 (fed_bytes fed.str bytes.now) seed }
{
    let h = body((seed, seed), bytes);
    let k1 = (end & 0xFFFF_FFFF_FFFF_FFFF) as u64;
    let k2 = (end >> 64) as u64;
    let len = (bytes.len() as u64).wrapping_add(1);
    if bytes.len() % 16 == 15 {
        // The byte 255 completes a block.
        finish_words(block_of_words(h, k1, k2), 0, 0, len)
    } else {
        finish_words(h, k1, k2, len)
    }
}

/// Returns the number of the bytes after the last block of 16, the lowest first.
#[inline(always)]
pub(crate) fn rest_number(bytes: &[u8]) -> u128
    ensures { result ≡ le_number (drop (16 * (length bytes.now / 16)) bytes.now) }
{
    block_end(bytes) - (255 << 8 * (bytes.len() % 16))
}

/// Returns both halves of MurmurHash3 x64 128 of bytes, under a seed. `rest` is the number of the bytes after the last block
/// of 16, the lowest first.
#[inline(always)]
pub(crate) fn murmur3_with_rest(bytes: &[u8], rest: u128, seed: u64) -> (u64, u64)
    requires { rest ≡ le_number (drop (16 * (length bytes.now / 16)) bytes.now) }
    ensures { result ≡ murmur3_x64_128 bytes.now seed }
{
    let h = body((seed, seed), bytes);
    let k1 = (rest & 0xFFFF_FFFF_FFFF_FFFF) as u64;
    let k2 = (rest >> 64) as u64;
    finish_words(h, k1, k2, bytes.len() as u64)
}

/// Mixes the lowest `count` bytes of a number, fewer than four, into a hash of XXH64.
#[inline(always)]
fn consume_lowest(h: u64, number: u64, count: usize) -> u64
    requires { count < 4 }
    ensures { result ≡ fold spec.consume_byte h (le_bytes count number) }
{
    if count == 0 {
        return h;
    }
    let one = consume_byte(h, (number & 255) as u8);
    if count == 1 {
        return one;
    }
    let two = consume_byte(one, (number >> 8 & 255) as u8);
    if count == 2 {
        return two;
    }
    consume_byte(two, (number >> 16 & 255) as u8)
}

/// Mixes the lowest `count` bytes of a number, fewer than eight, into a hash of XXH64.
#[inline(always)]
fn consume_number(h: u64, number: u64, count: usize) -> u64
    requires { count < 8 }
    ensures many { 4 ≤ count → result
        ≡ fold spec.consume_byte (spec.consume_half_word h (number % 2 ^ 32)) (le_bytes (count - 4) (number / 2 ^ 32)) }
    ensures few { count < 4 → result ≡ fold spec.consume_byte h (le_bytes count number) }
{
    if count >= 4 {
        consume_lowest(
            consume_half_word(h, number & 0xFFFF_FFFF),
            number >> 32,
            count - 4,
        )
    } else {
        consume_lowest(h, number, count)
    }
}

/// Returns the hash after all whole stripes of XXH64, before the length is added.
#[inline(always)]
fn converged(bytes: &[u8], seed: u64) -> u64
    ensures { result ≡ (if nat_lt 0 (length bytes.now / 32)
        then spec.convergence (spec.stripes (length bytes.now / 32) (spec.initial_accumulators seed) bytes.now)
        else ((seed + spec.prime64_5) % 2 ^ 64)) }
{
    if bytes.len() >= 32 {
        convergence(stripes(initial_accumulators(seed), bytes))
    } else {
        seed.wrapping_add(PRIME64_5)
    }
}

/// Returns XXH64 of all bytes that the `Hash` of a string feeds, under a seed. Does not allocate.
///
/// It returns what [`xxh64_of`](crate::xxh64_of) returns for the string, in less time.
///
/// # Examples
///
/// ```
/// use sketch_base::xxh64_of_str;
///
/// fn checksum_of(line: &str) -> u64 {
///     xxh64_of_str(line, 0)
/// }
/// ```
#[inline(always)]
pub fn xxh64_of_str(text: &str, seed: u64) -> u64
    ensures { result ≡ xxh64 (fed_bytes fed.str text.now) seed }
{
    let bytes = text.as_bytes();
    let n = bytes.len();
    let len = (n as u64).wrapping_add(1);
    let rest = &bytes[n / 32 * 32..];
    let end = word_end(bytes);
    if n % 32 == 31 {
        // The byte 255 completes a stripe.
        let acc = stripes(initial_accumulators(seed), bytes);
        let lanes = (word_at(rest, 0), word_at(rest, 8), word_at(rest, 16), end);
        return avalanche(convergence(stripe_of_words(acc, lanes)).wrapping_add(len));
    }
    let h = consume_words(converged(bytes, seed).wrapping_add(len), rest);
    if n % 8 == 7 {
        // The byte 255 completes a word.
        avalanche(consume_word(h, end))
    } else {
        avalanche(consume_number(h, end, n % 8 + 1))
    }
}

/// Returns SipHash-1-3 under a key of all bytes that the `Hash` of a string feeds. Does not allocate.
///
/// It returns what [`keyed_hash_of`](crate::keyed_hash_of) returns for the string, in less time.
///
/// # Examples
///
/// ```
/// use sketch_base::{HashKey, keyed_hash_of_str};
///
/// fn shard_of_name(key: HashKey, user: &str) -> u64 {
///     keyed_hash_of_str(key, user) % 100
/// }
/// ```
#[inline(always)]
pub fn keyed_hash_of_str(key: HashKey, text: &str) -> u64
    ensures { result ≡ sip_hash_1_3 key (fed_bytes fed.str text.now) }
{
    keyed_hash_of_ended(key, text.as_bytes())
}

/// Returns SipHash-1-3 of bytes and the byte 255, under a key.
///
/// It is not inlined. A caller with another hash beside this one keeps its registers.
#[inline(never)]
fn keyed_hash_of_ended(key: HashKey, bytes: &[u8]) -> u64
    ensures { result ≡ sip_hash_1_3 key (fed_bytes fed.str bytes.now) }
{
    let whole = compress_words(initialization(key), bytes);
    let end = word_end(bytes);
    let size = (((bytes.len() % 256 + 1) % 256) as u64) << 56;
    if bytes.len() % 8 == 7 {
        // The byte 255 completes a word.
        finalization(compression(compression(whole, end), size))
    } else {
        finalization(compression(whole, end + size))
    }
}
