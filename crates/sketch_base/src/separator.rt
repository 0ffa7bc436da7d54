//! The bytes that separate words, and the search for the first of them.
ghost use Rattle.std.specs.Prelude.{◌≡◌, ◌+◌, ◌<◌, ◌≤◌, length, map};
ghost use Rattle.std.specs.List.{position_or_len};
ghost use Rattle.std.specs.Simd.Lanes.{mask_l};
ghost use Rattle.sketch_base.specs.Split.{separates};

use crate::byte_set::{ByteSet, first_member};
use std::simd::prelude::*;

/// The bytes between words.
#[derive(Clone, Copy, Debug, PartialEq, Eq, Drop)]
pub enum Separator {
    /// The space.
    Space,
    /// The line feed.
    LineFeed,
    /// ASCII white space: the space, the tab, the line feed, the form feed and the carriage return.
    AsciiWhitespace,
}

impl Separator {
    /// Returns whether a byte stands between words.
    #[inline(always)]
    pub(crate) fn separates(self, byte: u8) -> bool
        ensures { result ≡ separates self byte }
    {
        match self {
            Separator::Space => byte == b' ',
            Separator::LineFeed => byte == b'\n',
            Separator::AsciiWhitespace => byte.is_ascii_whitespace(),
        }
    }

    /// Returns a number whose bit `i` is set exactly if lane `i` stands between words.
    #[inline(always)]
    fn marks<const N: usize>(self, lanes: Simd<u8, N>) -> u64
        requires lanes { N ≤ 64 }
        requires long { length lanes ≡ N }
        ensures { result ≡ mask_l (map (separates self) lanes.entry) }
    {
        match self {
            Separator::Space => lanes.simd_eq(Simd::splat(b' ')).to_bitmask(),
            Separator::LineFeed => lanes.simd_eq(Simd::splat(b'\n')).to_bitmask(),
            Separator::AsciiWhitespace => {
                let after_line = lanes.simd_eq(Simd::splat(b'\t'))
                    | lanes.simd_eq(Simd::splat(b'\n'));
                let after_page = lanes.simd_eq(Simd::splat(b'\x0C'))
                    | lanes.simd_eq(Simd::splat(b'\r'));
                (after_line | after_page | lanes.simd_eq(Simd::splat(b' '))).to_bitmask()
            }
        }
    }

    /// Returns a number whose bit `i` is set exactly if byte `i` stands between words.
    #[inline(always)]
    pub(crate) fn marks_of(self, bytes: &[u8]) -> u64
        requires { length bytes.now ≤ 64 }
        ensures { result ≡ mask_l (map (separates self) bytes.now) }
    {
        if bytes.len() >= 16 {
            self.marks_by::<16>(bytes)
        } else if bytes.len() >= 8 {
            self.marks_by::<8>(bytes)
        } else if !bytes.is_empty() {
            self.marks_by::<1>(bytes)
        } else {
            0
        }
    }

    /// Returns the same for at least `N` bytes, of which it sees `N` at a time.
    #[inline(always)]
    fn marks_by<const N: usize>(self, bytes: &[u8]) -> u64
        requires lanes { 0 < N }
        requires enough { N ≤ length bytes.now }
        requires few { length bytes.now ≤ 64 }
        ensures { result ≡ mask_l (map (separates self) bytes.now) }
    {
        let last = bytes.len() - N;
        let mut marks = 0;
        let mut at = 0;
        while at < last {
            let found = self.marks(Simd::<u8, N>::from_slice(&bytes[at..]));
            marks += found << at;
            at += N;
        }
        // some of the last bytes may have been seen
        let found = self.marks(Simd::<u8, N>::from_slice(&bytes[last..])) >> (at - last);
        marks + (found << at)
    }
}

impl ByteSet for Separator {
    ghost member = { separates };

    #[inline(always)]
    fn contains(self, byte: u8) -> bool {
        self.separates(byte)
    }

    #[inline(always)]
    fn marks_of_16(self, lanes: Simd<u8, 16>) -> u64 {
        self.marks(lanes)
    }

    #[inline(always)]
    fn marks_of_8(self, lanes: Simd<u8, 8>) -> u64 {
        self.marks(lanes)
    }
}

/// Returns the first index of a byte that stands between words, or the number of bytes if there is none.
///
/// # Examples
///
/// ```
/// use sketch_base::{Separator, first_separator};
///
/// fn first_field(line: &[u8]) -> &[u8] {
///     &line[..first_separator(line, Separator::Space)]
/// }
/// ```
#[inline(always)]
pub fn first_separator(bytes: &[u8], separator: Separator) -> usize
    ensures value { result ≡ position_or_len (separates separator) bytes.now }
    ensures bound { result ≤ length bytes.now }
{
    first_member(bytes, separator)
}
