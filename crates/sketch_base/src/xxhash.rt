//! XXH64 as a hasher of bytes that arrive in pieces.
ghost use Rattle.std.specs.Prelude.{◌≡◌, ℕ, ◌+◌, ◌/◌, ◌≤◌, List, [], ◌++◌, length, bit_xor};
ghost use Rattle.std.specs.Int.{w64, rotate_left};
ghost use Rattle.std.specs.List.{fold};
ghost use Rattle.sketch_base.specs.MachineWords.{wrapping_mul};
ghost use Rattle.sketch_base.specs.Xxh64 as spec;
ghost use Rattle.sketch_base.specs.Xxh64State as pieces;

use crate::machine_words::{half_word_at, rotate_left, word_at};
use crate::short_copy::copy_short;
use std::hash::Hasher;
use std::marker::Model;

const PRIME64_1: u64 = 0x9E37_79B1_85EB_CA87;

const PRIME64_2: u64 = 0xC2B2_AE3D_27D4_EB4F;

const PRIME64_3: u64 = 0x1656_67B1_9E37_79F9;

const PRIME64_4: u64 = 0x85EB_CA77_C2B2_AE63;

pub(crate) const PRIME64_5: u64 = 0x27D4_EB2F_1656_67C5;

pub(crate) type Accumulators = (u64, u64, u64, u64);

#[tactic(auto, unfolding(crate::specs::Xxh64::round))]
#[inline(always)]
fn round(acc: u64, lane: u64) -> u64
    ensures { result ≡ spec.round acc lane }
{
    rotate_left(acc.wrapping_add(lane.wrapping_mul(PRIME64_2)), 31).wrapping_mul(PRIME64_1)
}

#[tactic(auto, unfolding(crate::specs::Xxh64::initial_accumulators))]
#[inline(always)]
pub(crate) fn initial_accumulators(seed: u64) -> Accumulators
    ensures { result ≡ spec.initial_accumulators seed }
{
    (
        seed.wrapping_add(PRIME64_1.wrapping_add(PRIME64_2)),
        seed.wrapping_add(PRIME64_2),
        seed,
        seed.wrapping_sub(PRIME64_1),
    )
}

#[inline(always)]
pub(crate) fn stripe_of_words(acc: Accumulators, lanes: Accumulators) -> Accumulators
    ensures { result ≡ spec.stripe_of_words acc lanes }
{
    (
        round(acc.0, lanes.0),
        round(acc.1, lanes.1),
        round(acc.2, lanes.2),
        round(acc.3, lanes.3),
    )
}

#[tactic(auto, unfolding(crate::specs::Xxh64::stripe))]
#[inline(always)]
fn stripe(acc: Accumulators, bytes: &[u8]) -> Accumulators
    requires { length bytes.now ≡ 32 }
    ensures { result ≡ spec.stripe acc bytes.now }
{
    stripe_of_words(
        acc,
        (
            word_at(bytes, 0),
            word_at(bytes, 8),
            word_at(bytes, 16),
            word_at(bytes, 24),
        ),
    )
}

// Hashes all whole stripes of `bytes`.
#[inline]
pub(crate) fn stripes(start: Accumulators, bytes: &[u8]) -> Accumulators
    ensures { result ≡ spec.stripes (length bytes.now / 32) start bytes.now }
{
    let mut acc = start;
    let count = bytes.len() / 32;
    // The label is for the prover.
    'each: for i in 0..count {
        acc = stripe(acc, &bytes[32 * i..32 * i + 32]);
    }
    acc
}

#[tactic(auto, unfolding(crate::specs::Xxh64::merge_accumulator))]
#[inline(always)]
fn merge_accumulator(h: u64, acc: u64) -> u64
    ensures { result ≡ spec.merge_accumulator h acc }
{
    (h ^ round(0, acc))
        .wrapping_mul(PRIME64_1)
        .wrapping_add(PRIME64_4)
}

#[tactic(auto, unfolding(crate::specs::Xxh64::convergence))]
#[inline(always)]
pub(crate) fn convergence(acc: Accumulators) -> u64
    ensures { result ≡ spec.convergence acc }
{
    let sum = acc
        .0
        .rotate_left(1)
        .wrapping_add(acc.1.rotate_left(7))
        .wrapping_add(acc.2.rotate_left(12))
        .wrapping_add(acc.3.rotate_left(18));
    let h = merge_accumulator(merge_accumulator(sum, acc.0), acc.1);
    merge_accumulator(merge_accumulator(h, acc.2), acc.3)
}

// Mixes `part` into a hash, then rotates and multiplies.
#[inline(always)]
fn mixed(h: u64, part: u64, turn: u32, factor: u64) -> u64
    ensures { result ≡ wrapping_mul (rotate_left w64 (bit_xor h part) turn) factor }
{
    (h ^ part).rotate_left(turn).wrapping_mul(factor)
}

#[tactic(auto, unfolding(crate::specs::Xxh64::consume_word))]
#[inline(always)]
pub(crate) fn consume_word(h: u64, lane: u64) -> u64
    ensures { result ≡ spec.consume_word h lane }
{
    mixed(h, round(0, lane), 27, PRIME64_1).wrapping_add(PRIME64_4)
}

#[tactic(auto, unfolding(crate::specs::Xxh64::consume_half_word))]
#[inline(always)]
pub(crate) fn consume_half_word(h: u64, lane: u64) -> u64
    ensures { result ≡ spec.consume_half_word h lane }
{
    mixed(h, lane.wrapping_mul(PRIME64_1), 23, PRIME64_2).wrapping_add(PRIME64_3)
}

#[tactic(auto, unfolding(crate::specs::Xxh64::consume_byte))]
#[inline(always)]
pub(crate) fn consume_byte(h: u64, lane: u8) -> u64
    ensures { result ≡ spec.consume_byte h lane }
{
    mixed(h, (lane as u64).wrapping_mul(PRIME64_5), 11, PRIME64_1)
}

#[inline(always)]
fn fold_bytes(h: u64, rest: &[u8]) -> u64
    ensures { result ≡ fold spec.consume_byte h rest.now }
{
    let mut h = h;
    for lane in rest {
        h = consume_byte(h, *lane);
    }
    h
}

#[tactic(auto, unfolding(crate::specs::Xxh64::consume_bytes))]
#[inline(always)]
fn consume_bytes(h: u64, rest: &[u8]) -> u64
    ensures { result ≡ spec.consume_bytes h rest.now }
{
    if rest.len() >= 4 {
        fold_bytes(consume_half_word(h, half_word_at(rest, 0)), &rest[4..])
    } else {
        fold_bytes(h, rest)
    }
}

#[inline(always)]
pub(crate) fn consume_words(h: u64, rest: &[u8]) -> u64
    ensures { result ≡ spec.consume_words (length rest.now / 8) h rest.now }
{
    let mut h = h;
    let count = rest.len() / 8;
    // The label is for the prover.
    'each: for i in 0..count {
        h = consume_word(h, word_at(rest, 8 * i));
    }
    h
}

#[tactic(auto, unfolding(crate::specs::Xxh64::avalanche))]
#[inline(always)]
pub(crate) fn avalanche(h: u64) -> u64
    ensures { result ≡ spec.avalanche h }
{
    let a = (h ^ h >> 33).wrapping_mul(PRIME64_2);
    let b = (a ^ a >> 29).wrapping_mul(PRIME64_3);
    b ^ b >> 32
}

#[tactic(auto, unfolding(crate::specs::Xxh64::finalization))]
#[inline(always)]
fn finalization(h: u64, rest: &[u8]) -> u64
    ensures { result ≡ spec.finalization h rest.now }
{
    let words = rest.len() / 8;
    avalanche(consume_bytes(consume_words(h, rest), &rest[8 * words..]))
}

/// A hasher for XXH64 with a seed of 64 bits.
///
/// It has a fixed size and does not allocate. The hash is that of all bytes fed, however they are cut into pieces: this
/// is proved. The hash function is Yann Collet's, of the description 'xxHash fast digest algorithm'.
///
/// # Examples
///
/// ```
/// use sketch_base::XxHash64;
/// use std::hash::Hasher;
///
/// fn hash_of_both(first: &[u8], second: &[u8]) -> u64 {
///     let mut hasher = XxHash64::with_seed(9001);
///     hasher.write(first);
///     hasher.write(second);
///     hasher.finish()
/// }
/// ```
#[derive(Clone, Debug, Drop)]
pub struct XxHash64 {
    seed: u64,
    accumulators: Accumulators,
    // It begins with the bytes since the last whole stripe. The rest has no meaning.
    buffer: [u8; 32],
    total: u64,
    // Whether there was a whole stripe. The total wraps, so it does not show this.
    is_long: bool,
}

impl Model for XxHash64 {
    ghost use Rattle.std.specs.Prelude.{◌%◌, take};
    ghost use Rattle.sketch_base.specs.Xxh64State.{Xxh64State};

    ghost Value = { Xxh64State };

    ghost view = { λ s. record {
      seed = s.seed;
      accumulators = s.accumulators;
      is_long = s.is_long;
      tail = take (s.total % 32) s.buffer;
      total = s.total;
    } };
}

impl XxHash64 {
    /// Creates a hasher with a seed, which was fed no bytes.
    #[inline(always)]
    pub fn with_seed(seed: u64) -> Self
        ensures { pieces.HasFed seed [] result }
    {
        XxHash64 {
            seed,
            accumulators: initial_accumulators(seed),
            buffer: [0; 32],
            total: 0,
            is_long: false,
        }
    }

    #[tactic(auto, unfolding(crate::specs::Xxh64State::finish))]
    #[inline(always)]
    fn hash(&self) -> u64
        ensures { result ≡ pieces.finish self.now }
    {
        let used = (self.total % 32) as usize;
        let h = if self.is_long {
            convergence(self.accumulators)
        } else {
            self.seed.wrapping_add(PRIME64_5)
        };
        finalization(h.wrapping_add(self.total), &self.buffer[..used])
    }

    #[inline(always)]
    fn absorb(&mut self, bytes: &[u8])
        ensures { self.new ≡ pieces.write self.old bytes.now }
    {
        let used = (self.total % 32) as usize;
        let len = bytes.len();
        if len < 32 - used {
            copy_short(&mut self.buffer[used..used + len], bytes);
            self.total = self.total.wrapping_add(len as u64);
        } else if used == 0 {
            self.write_aligned(bytes);
        } else {
            self.write_straddling(bytes);
        }
    }

    // Writes a piece of a whole stripe or more if no stripe is pending.
    #[inline(always)]
    fn write_aligned(&mut self, bytes: &[u8])
        requires none_begun { length self.old.tail ≡ 0 }
        requires whole { 32 ≤ length bytes.now }
        ensures { self.new ≡ pieces.write self.old bytes.now }
    {
        self.accumulators = stripes(self.accumulators, bytes);
        self.is_long = true;
        self.total = self.total.wrapping_add(bytes.len() as u64);
        let tail = &bytes[bytes.len() / 32 * 32..];
        copy_short(&mut self.buffer[..tail.len()], tail);
    }

    // Writes a piece that completes the pending stripe.
    #[inline(never)]
    fn write_straddling(&mut self, bytes: &[u8])
        requires { 32 ≤ length self.old.tail + length bytes.now }
        ensures { self.new ≡ pieces.write self.old bytes.now }
    {
        let used = (self.total % 32) as usize;
        let room = 32 - used;
        copy_short(&mut self.buffer[used..], &bytes[..room]);
        let rest = &bytes[room..];
        self.accumulators = stripes(stripe(self.accumulators, &self.buffer), rest);
        self.is_long = true;
        self.total = self.total.wrapping_add(bytes.len() as u64);
        let tail = &rest[rest.len() / 32 * 32..];
        copy_short(&mut self.buffer[..tail.len()], tail);
    }
}

impl Hasher for XxHash64 {
    ghost write = { pieces.write };

    ghost finish = { pieces.finish };

    /// Returns the hash of all bytes fed so far.
    #[inline(always)]
    fn finish(&self) -> u64
        ensures state { result ≡ pieces.finish self.now }
        ensures hash { (seed : ℕ) (fed : List ℕ) → pieces.HasFed seed fed self.now
            → result ≡ spec.xxh64 fed seed }
    {
        self.hash()
    }

    #[inline(always)]
    fn write(&mut self, bytes: &[u8])
        ensures state { self.new ≡ pieces.write self.old bytes.now }
        ensures fed { (seed : ℕ) (before : List ℕ) → pieces.HasFed seed before self.old
            → pieces.HasFed seed (before ++ bytes.now) self.new }
    {
        self.absorb(bytes);
    }
}
