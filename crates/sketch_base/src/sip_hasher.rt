//! SipHash-1-3 as a hasher of bytes that arrive in pieces.
ghost use Rattle.std.specs.Prelude.{◌≡◌, ℕ, ◌+◌, ◌≤◌, List, [], length};
ghost use Rattle.sketch_base.specs.SipHash.{sip_hash_1_3};
ghost use Rattle.sketch_base.specs.SipHashState as pieces;

use crate::image::u64_at;
use crate::short_copy::copy_short;
use crate::sip_hash::{
    HashKey, State, begun_word, compress_words, compression, finalization, initialization,
};
use std::hash::Hasher;
use std::marker::Model;

/// A hasher for SipHash-1-3 under a key.
///
/// The hash is that of all bytes fed, however they are cut into pieces. It is for items of 16 bytes and more.
/// [`keyed_hash_of`](crate::keyed_hash_of) hashes shorter ones in one piece.
#[derive(Drop)]
pub(crate) struct SipHasher13 {
    state: State,
    // The bytes since the last whole word, then zeros.
    buffer: [u8; 8],
    total: u64,
}

impl Model for SipHasher13 {
    ghost use Rattle.std.specs.Prelude.{◌≡◌, ◌-◌, ◌%◌, take, drop, replicate};
    ghost use Rattle.sketch_base.specs.SipHashState.{SipHashState};

    ghost Value = { SipHashState };

    ghost view = { λ s. record { state = s.state; tail = take (s.total % 8) s.buffer; total = s.total } };

    ghost invariant = { λ s. drop (s.total % 8) s.buffer ≡ replicate (8 - s.total % 8) 0 };
}

impl SipHasher13 {
    /// Creates a hasher with a key, which was fed no bytes.
    #[inline(always)]
    pub(crate) fn with_key(key: HashKey) -> Self
        ensures { pieces.HasFed key [] result }
    {
        SipHasher13 {
            state: initialization(key),
            buffer: [0; 8],
            total: 0,
        }
    }

    /// Returns the hash of all bytes fed so far.
    #[inline(always)]
    pub(crate) fn digest(&self) -> u64
        ensures state { result ≡ pieces.finish self.now }
        ensures hash { (key : ℕ × ℕ) (fed : List ℕ) → pieces.HasFed key fed self.now → result ≡ sip_hash_1_3 key fed }
    {
        let left = begun_word(&self.buffer, (self.total % 8) as usize);
        finalization(compression(self.state, left + (self.total % 256 << 56)))
    }

    #[inline(always)]
    fn absorb(&mut self, bytes: &[u8])
        ensures { self.new ≡ pieces.write self.old bytes.now }
    {
        let used = (self.total % 8) as usize;
        let len = bytes.len();
        if len < 8 - used {
            copy_short(&mut self.buffer[used..used + len], bytes);
            self.total = self.total.wrapping_add(len as u64);
        } else if used == 0 {
            self.write_aligned(bytes);
        } else {
            self.write_straddling(bytes);
        }
    }

    // Writes a piece if no word is pending.
    #[inline]
    fn write_aligned(&mut self, bytes: &[u8])
        requires { length self.old.tail ≡ 0 }
        ensures { self.new ≡ pieces.write self.old bytes.now }
    {
        self.state = compress_words(self.state, bytes);
        self.total = self.total.wrapping_add(bytes.len() as u64);
        let tail = &bytes[bytes.len() / 8 * 8..];
        self.buffer = [0; 8];
        copy_short(&mut self.buffer[..tail.len()], tail);
    }

    // Writes a piece that completes the pending word.
    #[inline(never)]
    fn write_straddling(&mut self, bytes: &[u8])
        requires { 8 ≤ length self.old.tail + length bytes.now }
        ensures { self.new ≡ pieces.write self.old bytes.now }
    {
        let used = (self.total % 8) as usize;
        let room = 8 - used;
        copy_short(&mut self.buffer[used..], &bytes[..room]);
        let rest = &bytes[room..];
        self.state = compress_words(compression(self.state, u64_at(&self.buffer, 0)), rest);
        self.total = self.total.wrapping_add(bytes.len() as u64);
        let tail = &rest[rest.len() / 8 * 8..];
        self.buffer = [0; 8];
        copy_short(&mut self.buffer[..tail.len()], tail);
    }
}

impl Hasher for SipHasher13 {
    ghost write = { pieces.write };

    ghost finish = { pieces.finish };

    #[inline(always)]
    fn finish(&self) -> u64 {
        self.digest()
    }

    #[inline(always)]
    fn write(&mut self, bytes: &[u8])
        ensures state { self.new ≡ pieces.write self.old bytes.now }
    {
        self.absorb(bytes);
    }
}
