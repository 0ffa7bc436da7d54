//! Sequences whose number of rows is known.
ghost use Rattle.std.specs.Prelude.{◌≡◌, ℕ, length, map};
ghost use Rattle.sketch_base.specs.Strings.{strings_at};

use crate::byte_strings::ByteStrings;
use crate::fed_items::FedItems;
use crate::offset_strings::{OffsetStrings, Offsets};
use crate::strings::Strs;

/// A sequence whose number of rows is known without a pass over it.
///
/// It is implemented by slices, [`Strs`], [`OffsetStrings`], [`ByteStrings`] and [`FedItems`].
///
/// # Examples
///
/// ```
/// use sketch_base::{Rows, Validity};
///
/// fn has_bit_for_each<R: Rows>(rows: &R, bitmap: &[u8]) -> bool {
///     Validity::new(bitmap, 0).has_bits(rows.num_rows())
/// }
/// ```
pub trait Rows: Drop {
    // The number of rows.
    ghost rows: { Self → ℕ };

    /// Returns the number of rows. Does not allocate.
    fn num_rows(&self) -> usize
        ensures { result ≡ rows self.now };
}

impl<'a, T> Rows for &'a [T] {
    ghost rows = { λ s. length s.now };

    #[inline(always)]
    fn num_rows(&self) -> usize {
        (**self).len()
    }
}

impl<'a> Rows for Strs<'a> {
    ghost rows = { λ s. length (strings_at s.0.now) };

    #[inline(always)]
    fn num_rows(&self) -> usize {
        self.0.len()
    }
}

impl<'a, O: Offsets> Rows for OffsetStrings<'a, O> {
    ghost rows = { λ s. length s };

    #[inline(always)]
    fn num_rows(&self) -> usize {
        self.len()
    }
}

impl<'a> Rows for ByteStrings<'a> {
    ghost rows = { λ s. length s };

    #[inline(always)]
    fn num_rows(&self) -> usize {
        self.len()
    }
}

impl<'a> Rows for FedItems<'a> {
    ghost rows = { λ s. length (map (λ item. item.now) s.0.now) };

    #[inline(always)]
    fn num_rows(&self) -> usize {
        self.0.len()
    }
}
