//! MurmurHash3 x64 128 as a hasher of bytes that arrive in pieces.
ghost use Rattle.std.specs.Prelude.{◌≡◌, ℕ, ◌+◌, ◌/◌, ◌≤◌, List, [], ◌++◌, length};
ghost use Rattle.sketch_base.specs.Murmur3 as spec;
ghost use Rattle.sketch_base.specs.Murmur3State as pieces;

use crate::machine_words::{rotate_left, word_at};
use crate::short_copy::copy_short;
use std::hash::Hasher;
use std::marker::Model;

/// The default seed of sketches.
pub const DEFAULT_UPDATE_SEED: u64 = 9001;

const C1: u64 = 0x87C3_7B91_1142_53D5;

const C2: u64 = 0x4CF5_AD43_2745_937F;

#[tactic(auto, unfolding(crate::specs::Murmur3::mix_k1))]
#[inline(always)]
fn mix_k1(k: u64) -> u64
    ensures { result ≡ spec.mix_k1 k }
{
    rotate_left(k.wrapping_mul(C1), 31).wrapping_mul(C2)
}

#[tactic(auto, unfolding(crate::specs::Murmur3::mix_k2))]
#[inline(always)]
fn mix_k2(k: u64) -> u64
    ensures { result ≡ spec.mix_k2 k }
{
    rotate_left(k.wrapping_mul(C2), 33).wrapping_mul(C1)
}

#[tactic(auto, unfolding(crate::specs::Murmur3::block_of_words))]
#[inline(always)]
pub(crate) fn block_of_words(h: (u64, u64), k1: u64, k2: u64) -> (u64, u64)
    ensures { result ≡ spec.block_of_words h k1 k2 }
{
    let h1 = (h.0 ^ mix_k1(k1))
        .rotate_left(27)
        .wrapping_add(h.1)
        .wrapping_mul(5)
        .wrapping_add(0x52DC_E729);
    let h2 = (h.1 ^ mix_k2(k2))
        .rotate_left(31)
        .wrapping_add(h1)
        .wrapping_mul(5)
        .wrapping_add(0x3849_5AB5);
    (h1, h2)
}

#[tactic(auto, unfolding(crate::specs::Murmur3::block))]
#[inline(always)]
fn block(h: (u64, u64), bytes: &[u8]) -> (u64, u64)
    requires { length bytes.now ≡ 16 }
    ensures { result ≡ spec.block h bytes.now }
{
    block_of_words(h, word_at(bytes, 0), word_at(bytes, 8))
}

// Hashes all whole blocks of `bytes`.
#[inline]
pub(crate) fn body(start: (u64, u64), bytes: &[u8]) -> (u64, u64)
    ensures { result ≡ spec.body (length bytes.now / 16) start bytes.now }
{
    let mut h = start;
    let count = bytes.len() / 16;
    // The label is for the prover.
    'each: for i in 0..count {
        h = block(h, &bytes[16 * i..16 * i + 16]);
    }
    h
}

#[tactic(auto, unfolding(crate::specs::Murmur3::fmix64))]
#[inline(always)]
fn fmix64(k: u64) -> u64
    ensures { result ≡ spec.fmix64 k }
{
    let a = (k ^ k >> 33).wrapping_mul(0xFF51_AFD7_ED55_8CCD);
    let b = (a ^ a >> 33).wrapping_mul(0xC4CE_B9FE_1A85_EC53);
    b ^ b >> 33
}

#[tactic(auto, unfolding(crate::specs::Murmur3::finish_words))]
#[inline(always)]
pub(crate) fn finish_words(h: (u64, u64), k1: u64, k2: u64, len: u64) -> (u64, u64)
    ensures { result ≡ spec.finish_words h k1 k2 len }
{
    let h1 = h.0 ^ mix_k1(k1) ^ len;
    let h2 = h.1 ^ mix_k2(k2) ^ len;
    let sum = h1.wrapping_add(h2);
    let a = fmix64(sum);
    let b = fmix64(h2.wrapping_add(sum));
    let first = a.wrapping_add(b);
    (first, b.wrapping_add(first))
}

#[tactic(auto, unfolding(crate::specs::Murmur3::finalization))]
#[inline(always)]
pub(crate) fn finalization(h: (u64, u64), rest: &[u8], len: u64) -> (u64, u64)
    requires { length rest.now ≡ 16 }
    ensures { result ≡ spec.finalization h rest.now len }
{
    finish_words(h, word_at(rest, 0), word_at(rest, 8), len)
}

/// A hasher for MurmurHash3 x64 128 with a seed of 64 bits.
///
/// It has a fixed size and does not allocate. The hash is that of all bytes fed, however they are cut into pieces: this
/// is proved. The hash function is Austin Appleby's, of the file `MurmurHash3.cpp`, with both halves initialized to the
/// seed.
///
/// # Examples
///
/// ```
/// use sketch_base::MurmurHash3X64128;
/// use std::hash::Hash;
///
/// fn halves_of<T: Hash>(item: &T) -> (u64, u64) {
///     let mut hasher = MurmurHash3X64128::default();
///     item.hash(&mut hasher);
///     hasher.finish128()
/// }
/// ```
#[derive(Clone, Debug, Drop)]
pub struct MurmurHash3X64128 {
    halves: (u64, u64),
    // The bytes since the last whole block, then zeros.
    buffer: [u8; 16],
    total: u64,
}

impl Model for MurmurHash3X64128 {
    ghost use Rattle.std.specs.Prelude.{◌≡◌, ◌-◌, ◌%◌, take, drop, replicate};
    ghost use Rattle.sketch_base.specs.Murmur3State.{Murmur3State};

    ghost Value = { Murmur3State };

    ghost view = { λ s. record { halves = s.halves; tail = take (s.total % 16) s.buffer; total = s.total } };

    ghost invariant = { λ s. drop (s.total % 16) s.buffer ≡ replicate (16 - s.total % 16) 0 };
}

impl MurmurHash3X64128 {
    /// Creates a hasher with a seed, which was fed no bytes.
    #[inline(always)]
    pub fn with_seed(seed: u64) -> Self
        ensures { pieces.HasFed seed [] result }
    {
        MurmurHash3X64128 {
            halves: (seed, seed),
            buffer: [0; 16],
            total: 0,
        }
    }

    /// Returns both halves of the hash of all bytes fed so far. The hasher can be fed further.
    #[inline(always)]
    pub fn finish128(&self) -> (u64, u64)
        ensures state { result ≡ pieces.finish128 self.now }
        ensures hash { (seed : ℕ) (fed : List ℕ) → pieces.HasFed seed fed self.now
            → result ≡ spec.murmur3_x64_128 fed seed }
    {
        finalization(self.halves, &self.buffer, self.total)
    }

    #[inline(always)]
    fn absorb(&mut self, bytes: &[u8])
        ensures { self.new ≡ pieces.write self.old bytes.now }
    {
        let used = (self.total % 16) as usize;
        let len = bytes.len();
        if len < 16 - used {
            copy_short(&mut self.buffer[used..used + len], bytes);
            self.total = self.total.wrapping_add(len as u64);
        } else if len == 16 - used {
            self.fill_block(bytes);
        } else if used == 0 {
            self.write_aligned(bytes);
        } else {
            self.write_straddling(bytes);
        }
    }

    // Writes a piece that exactly completes the pending block.
    #[inline(always)]
    fn fill_block(&mut self, bytes: &[u8])
        requires { length self.old.tail + length bytes.now ≡ 16 }
        ensures { self.new ≡ pieces.write self.old bytes.now }
    {
        let used = (self.total % 16) as usize;
        copy_short(&mut self.buffer[used..], bytes);
        self.halves = block(self.halves, &self.buffer);
        self.total = self.total.wrapping_add(bytes.len() as u64);
        self.buffer = [0; 16];
    }

    // Writes a piece if no block is pending.
    #[inline]
    fn write_aligned(&mut self, bytes: &[u8])
        requires { length self.old.tail ≡ 0 }
        ensures { self.new ≡ pieces.write self.old bytes.now }
    {
        self.halves = body(self.halves, bytes);
        self.total = self.total.wrapping_add(bytes.len() as u64);
        let tail = &bytes[bytes.len() / 16 * 16..];
        self.buffer = [0; 16];
        copy_short(&mut self.buffer[..tail.len()], tail);
    }

    // Writes a piece that completes the pending block.
    #[inline(never)]
    fn write_straddling(&mut self, bytes: &[u8])
        requires { 16 ≤ length self.old.tail + length bytes.now }
        ensures { self.new ≡ pieces.write self.old bytes.now }
    {
        let used = (self.total % 16) as usize;
        let room = 16 - used;
        copy_short(&mut self.buffer[used..], &bytes[..room]);
        let rest = &bytes[room..];
        self.halves = body(block(self.halves, &self.buffer), rest);
        self.total = self.total.wrapping_add(bytes.len() as u64);
        let tail = &rest[rest.len() / 16 * 16..];
        self.buffer = [0; 16];
        copy_short(&mut self.buffer[..tail.len()], tail);
    }
}

/// Creates a hasher with the seed [`DEFAULT_UPDATE_SEED`].
impl Default for MurmurHash3X64128 {
    ghost is_default = { pieces.HasFed 9001 [] };

    fn default() -> Self {
        MurmurHash3X64128::with_seed(DEFAULT_UPDATE_SEED)
    }
}

impl Hasher for MurmurHash3X64128 {
    ghost write = { pieces.write };

    ghost finish = { pieces.finish };

    /// Returns the first half of the hash of all bytes fed so far.
    #[inline(always)]
    fn finish(&self) -> u64
        ensures state { result ≡ pieces.finish self.now }
        ensures hash { (seed : ℕ) (fed : List ℕ) → pieces.HasFed seed fed self.now
            → result ≡ (spec.murmur3_x64_128 fed seed).0 }
    {
        self.finish128().0
    }

    #[inline(always)]
    fn write(&mut self, bytes: &[u8])
        ensures state { self.new ≡ pieces.write self.old bytes.now }
        ensures fed { (seed : ℕ) (before : List ℕ) → pieces.HasFed seed before self.old
            → pieces.HasFed seed (before ++ bytes.now) self.new }
    {
        self.absorb(bytes);
    }
}
