//! A string that is hashed under several seeds.
ghost use Rattle.std.specs.Prelude.{◌≡◌};
ghost use Rattle.std.specs.Hash as fed;
ghost use Rattle.sketch_base.specs.Hashes.{fed_bytes};

use crate::rehashable_item::Rehashable;
use crate::str_hash::{block_end, murmur3_with_end};
use std::marker::Model;

/// A string that is hashed under several seeds, straight from its bytes.
///
/// Contracts see it as the bytes that the string's `Hash` feeds. The bytes after the last block of 16 are read once, for
/// all hashes. It does not allocate.
///
/// # Examples
///
/// ```
/// use sketch_base::{Rehashable, RehashableStr};
///
/// fn hashes_of_name(user: &str, seeds: (u64, u64)) -> (u64, u64) {
///     let user = RehashableStr::new(user);
///     (user.murmur3(seeds.0).0, user.murmur3(seeds.1).0)
/// }
/// ```
#[derive(Drop)]
pub struct RehashableStr<'a> {
    text: &'a str,
    // The bytes after the last block of 16 and the byte 255, as a number.
    end: u128,
}

impl<'a> Model for RehashableStr<'a> {
    ghost use Rattle.std.specs.Prelude.{◌≡◌, ◌*◌, ◌/◌, ℕ, List, [], ◌∷◌, ◌++◌, length, drop};
    ghost use Rattle.std.specs.Hash as fed;
    ghost use Rattle.sketch_base.specs.Hashes.{fed_bytes};
    ghost use Rattle.sketch_base.specs.MachineWords.{le_number};

    ghost Value = { List ℕ };

    ghost view = { λ s. fed_bytes fed.str s.text.now };

    ghost invariant = { λ s. s.end ≡ le_number (drop (16 * (length s.text.now / 16)) s.text.now ++ 255 ∷ []) };
}

impl<'a> RehashableStr<'a> {
    /// Creates it from a string.
    #[inline(always)]
    pub fn new(text: &'a str) -> Self
        ensures { result ≡ fed_bytes fed.str text.now }
    {
        RehashableStr {
            text,
            end: block_end(text.as_bytes()),
        }
    }
}

impl<'a> Rehashable for RehashableStr<'a> {
    ghost bytes = { λ s. s };

    ghost can_hash = { λ _. Unit {0} };

    #[inline(always)]
    fn murmur3(&self, seed: u64) -> (u64, u64) {
        murmur3_with_end(self.text.as_bytes(), self.end, seed)
    }
}
