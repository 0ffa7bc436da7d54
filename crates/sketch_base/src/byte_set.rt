//! Sets of bytes, and the search for the first byte of a set.
ghost use Rattle.std.specs.Prelude.{ℕ, Bool, ◌≡◌, ◌==◌, ◌+◌, ◌≤◌, length, map};
ghost use Rattle.std.specs.List.{position_or_len, slice_range};
ghost use Rattle.std.specs.Simd.Lanes.{mask_l};
ghost use Rattle.sketch_base.specs.Split.{IsFirstMarked};

use std::simd::prelude::*;

/// A set of bytes.
pub trait ByteSet: Copy {
    // Whether a byte is in the set.
    ghost member: { Self → ℕ → Bool };

    /// Returns whether a byte is in the set.
    fn contains(self, byte: u8) -> bool
        ensures { result ≡ member self byte };

    /// Returns a number whose bit `i` is set exactly if lane `i` of 16 is in the set.
    fn marks_of_16(self, lanes: Simd<u8, 16>) -> u64
        requires { length lanes ≡ 16 }
        ensures { result ≡ mask_l (map (member self) lanes) };

    /// Returns a number whose bit `i` is set exactly if lane `i` of 8 is in the set.
    fn marks_of_8(self, lanes: Simd<u8, 8>) -> u64
        requires { length lanes ≡ 8 }
        ensures { result ≡ mask_l (map (member self) lanes) };
}

/// The set of one byte.
#[derive(Clone, Copy)]
pub struct OneByte(pub u8);

impl ByteSet for OneByte {
    ghost member = { λ s byte. byte == s.0 };

    #[inline(always)]
    fn contains(self, byte: u8) -> bool {
        byte == self.0
    }

    #[inline(always)]
    fn marks_of_16(self, lanes: Simd<u8, 16>) -> u64 {
        self.marks(lanes)
    }

    #[inline(always)]
    fn marks_of_8(self, lanes: Simd<u8, 8>) -> u64 {
        self.marks(lanes)
    }
}

impl OneByte {
    /// Returns a number whose bit `i` is set exactly if lane `i` is the byte.
    #[inline(always)]
    fn marks<const N: usize>(self, lanes: Simd<u8, N>) -> u64
        requires lanes { N ≤ 64 }
        requires long { length lanes ≡ N }
        ensures { result ≡ mask_l (map (λ byte. byte == self.0) lanes.entry) }
    {
        lanes.simd_eq(Simd::splat(self.0)).to_bitmask()
    }
}

/// Returns the first index of a byte that is in a set, or the number of bytes if there is none.
#[inline(always)]
pub fn first_member<S: ByteSet>(bytes: &[u8], set: S) -> usize
    ensures value { result ≡ position_or_len (S.member set) bytes.now }
    ensures bound { result ≤ length bytes.now }
{
    let mut at = 0;
    while bytes.len() - at >= 16 {
        let found = first_member_in_16(bytes, at, set);
        if found < 16 {
            return at + found;
        }
        at += 16;
    }
    if bytes.len() - at >= 8 {
        let found = first_member_in_8(bytes, at, set);
        if found < 8 {
            return at + found;
        }
        at += 8;
    }
    while at < bytes.len() && !set.contains(bytes[at]) {
        at += 1;
    }
    at
}

/// Returns the same for the 16 bytes from index `at`, as an index from `at`.
#[inline(always)]
fn first_member_in_16<S: ByteSet>(bytes: &[u8], at: usize, set: S) -> usize
    requires { at + 16 ≤ length bytes.now }
    ensures { result ≡ position_or_len (S.member set) (slice_range bytes.now at (at + 16)) }
{
    lowest_mark(
        set.marks_of_16(Simd::<u8, 16>::from_slice(&bytes[at..])),
        16,
    )
}

/// Returns the same for the 8 bytes from index `at`, as an index from `at`.
#[inline(always)]
fn first_member_in_8<S: ByteSet>(bytes: &[u8], at: usize, set: S) -> usize
    requires { at + 8 ≤ length bytes.now }
    ensures { result ≡ position_or_len (S.member set) (slice_range bytes.now at (at + 8)) }
{
    lowest_mark(set.marks_of_8(Simd::<u8, 8>::from_slice(&bytes[at..])), 8)
}

/// Returns the index of the lowest bit that is set, or `len` if none is.
#[inline(always)]
pub(crate) fn lowest_mark(marks: u64, len: usize) -> usize
    ensures { IsFirstMarked marks len result }
{
    if marks == 0 {
        len
    } else {
        marks.trailing_zeros() as usize
    }
}
