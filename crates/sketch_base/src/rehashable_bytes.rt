//! Bytes that are hashed under several seeds.
ghost use Rattle.std.specs.Prelude.{◌≡◌};

use crate::rehashable_item::Rehashable;
use crate::str_hash::{murmur3_with_rest, rest_number};
use std::marker::Model;

/// Bytes that are hashed under several seeds, where they are.
///
/// The bytes after the last block of 16 are read once, for all hashes. It does not allocate.
///
/// # Examples
///
/// ```
/// use sketch_base::{Rehashable, RehashableBytes};
///
/// fn hashes_of_address(address: &[u8; 4], seeds: (u64, u64)) -> (u64, u64) {
///     let address = RehashableBytes::new(address);
///     (address.murmur3(seeds.0).0, address.murmur3(seeds.1).0)
/// }
/// ```
#[derive(Drop)]
pub struct RehashableBytes<'a> {
    bytes: &'a [u8],
    // The bytes after the last block of 16, as a number.
    rest: u128,
}

impl<'a> Model for RehashableBytes<'a> {
    ghost use Rattle.std.specs.Prelude.{◌≡◌, ◌*◌, ◌/◌, ℕ, List, length, drop};
    ghost use Rattle.sketch_base.specs.MachineWords.{le_number};

    ghost Value = { List ℕ };

    ghost view = { λ s. s.bytes.now };

    ghost invariant = { λ s. s.rest ≡ le_number (drop (16 * (length s.bytes.now / 16)) s.bytes.now) };
}

impl<'a> RehashableBytes<'a> {
    /// Creates it from bytes.
    #[inline(always)]
    pub fn new(bytes: &'a [u8]) -> Self
        ensures { result ≡ bytes.now }
    {
        RehashableBytes {
            bytes,
            rest: rest_number(bytes),
        }
    }
}

impl<'a> Rehashable for RehashableBytes<'a> {
    ghost bytes = { λ s. s };

    ghost can_hash = { λ _. Unit {0} };

    #[inline(always)]
    fn murmur3(&self, seed: u64) -> (u64, u64) {
        murmur3_with_rest(self.bytes, self.rest, seed)
    }
}
