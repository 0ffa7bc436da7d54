//! Reading and writing the images of filters.
ghost use Rattle.std.specs.Prelude.{◌≡◌, ◌+◌, ◌*◌, ◌≤◌, ◌++◌, ◌==◌, if◌then◌else◌, None, Some, false, length, drop, IfOk, IfErr, OnOk};
ghost use Rattle.std.specs.FinSet as set;
ghost use Rattle.std.specs.Int.{w64, to_le_bytes};
ghost use Rattle.sketch_base.specs.Errors.{invalid_data};
ghost use Rattle.sketch_base.specs.Fields.{bytes_of_words, words_in};
ghost use Rattle.sketch_bloom.specs.BitSet.{set_of};
ghost use Rattle.sketch_bloom.specs.Image.{early_fault, preamble};
ghost use Rattle.sketch_bloom.specs.Preamble.{IsPreamble};

use crate::limits::{MAX_NUM_HASHES, MAX_NUM_WORDS};
use sketch_base::image::{SERIAL_VERSION, opening_fault, u16_at, u32_at, u64_at};
use sketch_base::{Error, Family, Fault};
use std::alloc::{AllocError, Global};

/// The preamble longs of an empty filter.
pub const PREAMBLE_LONGS_EMPTY: u8 = 3;

/// The preamble longs of a filter that is not empty.
pub const PREAMBLE_LONGS_NONEMPTY: u8 = 4;

/// The flag of an empty filter.
pub const EMPTY_FLAG_MASK: u8 = 4;

/// The stored bit count of a filter whose bits were not counted.
pub const UNCOUNTED: u64 = u64::MAX;

/// The fields in the first bytes of an image.
#[derive(Clone, Copy)]
pub struct Preamble {
    pub is_empty: bool,
    pub num_hashes: u16,
    pub seed: u64,
    pub num_words: usize,
}

/// Reads the fields before the words, and checks that the words are there.
pub fn read_preamble(image: &[u8]) -> Result<Preamble, Error>
    ensures checks { OnOk result (early_fault image.now ≡ None) }
    ensures fields { IfOk result (IsPreamble image.now) }
    ensures long { OnOk result (24 ≤ length image.now) }
    ensures words { IfOk result (λ p. p.is_empty ≡ false → 32 + 8 * p.num_words ≤ length image.now) }
    ensures some_words { IfOk result (λ p. 1 ≤ p.num_words) }
    ensures few_words { IfOk result (λ p. p.num_words ≤ MAX_NUM_WORDS) }
    ensures some_hashes { IfOk result (λ p. 1 ≤ p.num_hashes) }
    ensures few_hashes { IfOk result (λ p. p.num_hashes ≤ MAX_NUM_HASHES) }
    ensures err { IfErr result (λ e. (e ≡ invalid_data e.fault) × (early_fault image.now ≡ Some e.fault)) }
{
    if let Some(fault) = fault_of(image) {
        return Err(Error::invalid_data(fault));
    }
    Ok(Preamble {
        is_empty: image[3] & EMPTY_FLAG_MASK != 0,
        num_hashes: u16_at(image, 4),
        seed: u64_at(image, 8),
        num_words: u32_at(image, 16) as usize,
    })
}

/// Returns the fault of the first failing check among those before the allocation.
fn fault_of(image: &[u8]) -> Option<Fault>
    ensures { result ≡ early_fault image.now }
{
    if let Some(fault) = opening_fault(image, 4, Family::BLOOMFILTER) {
        return Some(fault);
    }
    if image[0] != PREAMBLE_LONGS_EMPTY && image[0] != PREAMBLE_LONGS_NONEMPTY {
        return Some(Fault::BadPreamble);
    }
    if image.len() < 6 {
        return Some(Fault::InsufficientData);
    }
    let num_hashes = u16_at(image, 4);
    if num_hashes == 0 || num_hashes > MAX_NUM_HASHES {
        return Some(Fault::BadNumHashes);
    }
    if image.len() < 24 {
        return Some(Fault::InsufficientData);
    }
    let num_words = u32_at(image, 16) as usize;
    if num_words == 0 || num_words > MAX_NUM_WORDS {
        return Some(Fault::BadNumWords);
    }
    let is_empty = image[3] & EMPTY_FLAG_MASK != 0;
    if !is_empty && image.len() < 32 + 8 * num_words {
        return Some(Fault::InsufficientData);
    }
    None
}

/// Reads the words after the preamble, and counts the set bits.
///
/// Both are done in one pass: a large image has left the cache before a second one.
pub fn read_words(
    alloc: Global,
    image: &[u8],
    num_words: usize,
) -> Result<(Vec<u64>, u64), AllocError>
    requires there { 32 + 8 * num_words ≤ length image.now }
    requires few { num_words ≤ MAX_NUM_WORDS }
    ensures words { IfOk result (λ read. read.0.items ≡ words_in num_words (drop 32 image.now)) }
    ensures count { IfOk result (λ read. length read.0.items ≡ num_words) }
    ensures size { IfOk result (λ read. read.1 ≡ set.len (set_of read.0.items)) }
{
    let mut words = Vec::with_capacity(alloc, num_words)?;
    let mut size = 0;
    // The label is for the prover.
    'reads: for i in 0..num_words {
        let word = u64_at(image, 32 + 8 * i);
        words.push_reserved(word);
        size += word.count_ones() as u64;
    }
    Ok((words, size))
}

/// Returns the length of the image of a filter with these words, of which `bits_used` bits are set.
pub fn image_length(words: &[u64], bits_used: u64) -> usize
    requires { length words.now ≤ MAX_NUM_WORDS }
    ensures { result ≡ (if bits_used == 0 then 24 else 32 + 8 * length words.now) }
{
    if bits_used == 0 {
        24
    } else {
        32 + 8 * words.len()
    }
}

/// Writes the image of an empty filter to `out`, which has its length.
pub fn write_empty(out: &mut [u8], num_hashes: u16, seed: u64, num_words: usize)
    requires room { length out.old ≡ 24 }
    requires few_words { num_words ≤ MAX_NUM_WORDS }
    ensures { out.new ≡ preamble 3 4 num_hashes seed num_words }
{
    let longs = PREAMBLE_LONGS_EMPTY;
    out.copy_from_slice(&preamble_bytes(longs, EMPTY_FLAG_MASK, num_hashes, seed, num_words));
}

/// Writes the image of a filter that is not empty to `out`, which has its length.
pub fn write_full(out: &mut [u8], num_hashes: u16, seed: u64, bits_used: u64, words: &[u64])
    requires room { length out.old ≡ 32 + 8 * length words.now }
    requires few_words { length words.now ≤ MAX_NUM_WORDS }
    ensures { out.new ≡ preamble 4 0 num_hashes seed (length words.now) ++ to_le_bytes w64 bits_used
        ++ bytes_of_words words.now }
{
    let longs = PREAMBLE_LONGS_NONEMPTY;
    out[..24].copy_from_slice(&preamble_bytes(longs, 0, num_hashes, seed, words.len()));
    out[24..32].copy_from_slice(&bits_used.to_le_bytes());
    write_words(&mut out[32..], words);
}

/// Returns the image of an empty filter. Allocates it.
pub fn empty_image(
    alloc: Global,
    num_hashes: u16,
    seed: u64,
    num_words: usize,
) -> Result<Vec<u8>, AllocError>
    requires { num_words ≤ MAX_NUM_WORDS }
    ensures { IfOk result (λ image. image.items ≡ preamble 3 4 num_hashes seed num_words) }
{
    let longs = PREAMBLE_LONGS_EMPTY;
    let mut image = Vec::with_capacity(alloc, 24)?;
    image.extend_from_slice(&preamble_bytes(longs, EMPTY_FLAG_MASK, num_hashes, seed, num_words))?;
    Ok(image)
}

/// Returns the image of a filter that is not empty. Allocates it once, and writes each of its bytes once.
///
/// [`write_full`] needs a buffer with the image's length, so all of it would be zeroed first.
pub fn full_image(
    alloc: Global,
    num_hashes: u16,
    seed: u64,
    bits_used: u64,
    words: &[u64],
) -> Result<Vec<u8>, AllocError>
    requires { length words.now ≤ MAX_NUM_WORDS }
    ensures { IfOk result (λ image. image.items ≡ preamble 4 0 num_hashes seed (length words.now)
        ++ to_le_bytes w64 bits_used ++ bytes_of_words words.now) }
{
    let longs = PREAMBLE_LONGS_NONEMPTY;
    let mut image = Vec::with_capacity(alloc, 32 + 8 * words.len())?;
    image.extend_from_slice(&preamble_bytes(longs, 0, num_hashes, seed, words.len()))?;
    image.extend_from_slice(&bits_used.to_le_bytes())?;
    append_words(&mut image, words)?;
    Ok(image)
}

/// The number of words that are appended at once.
const BLOCK: usize = 64;

/// Appends the bytes of the words to `image`, 8 for each.
fn append_words(image: &mut Vec<u8>, words: &[u64]) -> Result<(), AllocError>
    ensures { OnOk result (image.new.items ≡ image.old.items ++ bytes_of_words words.now) }
{
    let mut block = [0; 512];
    let mut start = 0;
    'appends: while start < words.len() {
        let count = BLOCK.min(words.len() - start);
        let bytes = &mut block[..8 * count];
        write_words(bytes, &words[start..start + count]);
        image.extend_from_slice(bytes)?;
        start += count;
    }
    Ok(())
}

/// Returns the bytes of an image's preamble.
fn preamble_bytes(longs: u8, flags: u8, num_hashes: u16, seed: u64, num_words: usize) -> [u8; 24]
    requires { num_words ≤ MAX_NUM_WORDS }
    ensures { result ≡ preamble longs flags num_hashes seed num_words }
{
    let version = SERIAL_VERSION;
    let family = Family::BLOOMFILTER.id;
    let hashes = num_hashes.to_le_bytes();
    let seed = seed.to_le_bytes();
    let words = (num_words as u32).to_le_bytes();
    [
        longs, version, family, flags, hashes[0], hashes[1], 0, 0, seed[0], seed[1], seed[2],
        seed[3], seed[4], seed[5], seed[6], seed[7], words[0], words[1], words[2], words[3], 0, 0,
        0, 0,
    ]
}

/// Writes the words to `out`, which has 8 bytes for each.
fn write_words(out: &mut [u8], words: &[u64])
    requires { length out.old ≡ 8 * length words.now }
    ensures { out.new ≡ bytes_of_words words.now }
{
    for i in 0..words.len() {
        out[8 * i..8 * i + 8].copy_from_slice(&words[i].to_le_bytes());
    }
}
