//! Words of 64 bits: in memory, or in the bytes of an image.
ghost use Rattle.std.specs.Prelude.{◌≡◌, ℕ, ◌<◌, List, length, slice_index};
ghost use Rattle.sketch_bloom.specs.BitSet.{words_of_bytes};

use sketch_base::image::u64_at;

/// Words of 64 bits.
pub trait Words {
    // The words.
    ghost list: { Self → List ℕ };

    /// Returns word `i`.
    fn word(&self, i: usize) -> u64
        requires { i < length (list self.now) }
        ensures { result ≡ slice_index (list self.now) i };
}

impl Words for Vec<u64> {
    ghost list = { λ words. words.items };

    #[inline(always)]
    fn word(&self, i: usize) -> u64 {
        self[i]
    }
}

impl<'a> Words for &'a [u64] {
    ghost list = { λ words. words.now };

    #[inline(always)]
    fn word(&self, i: usize) -> u64 {
        self[i]
    }
}

/// The words of bytes, little-endian. The bytes need not be aligned.
impl<'a> Words for &'a [u8] {
    ghost list = { λ bytes. words_of_bytes bytes.now };

    #[inline(always)]
    fn word(&self, i: usize) -> u64 {
        u64_at(self, 8 * i)
    }
}
