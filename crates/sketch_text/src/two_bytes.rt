//! The set of two bytes.
ghost use Rattle.std.specs.Prelude.{◌≡◌, ◌==◌, ◌||◌, ◌≤◌, length, map};
ghost use Rattle.std.specs.Simd.Lanes.{mask_l};

use sketch_base::ByteSet;
use std::simd::prelude::*;

/// The set of two bytes.
#[derive(Clone, Copy)]
pub(crate) struct TwoBytes(pub u8, pub u8);

impl ByteSet for TwoBytes {
    ghost member = { λ s byte. byte == s.0 || byte == s.1 };

    #[inline(always)]
    fn contains(self, byte: u8) -> bool {
        byte == self.0 || byte == self.1
    }

    #[inline(always)]
    fn marks_of_16(self, lanes: Simd<u8, 16>) -> u64 {
        self.marks(lanes)
    }

    #[inline(always)]
    fn marks_of_8(self, lanes: Simd<u8, 8>) -> u64 {
        self.marks(lanes)
    }
}

impl TwoBytes {
    /// Returns a number whose bit `i` is set exactly if lane `i` is one of the bytes.
    #[inline(always)]
    fn marks<const N: usize>(self, lanes: Simd<u8, N>) -> u64
        requires lanes { N ≤ 64 }
        requires long { length lanes ≡ N }
        ensures { result ≡ mask_l (map (λ byte. byte == self.0 || byte == self.1) lanes.entry) }
    {
        let first = lanes.simd_eq(Simd::splat(self.0));
        let second = lanes.simd_eq(Simd::splat(self.1));
        (first | second).to_bitmask()
    }
}
