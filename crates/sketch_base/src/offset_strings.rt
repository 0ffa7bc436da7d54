//! Many strings as one buffer of bytes with offsets.
//!
//! n strings have n + 1 offsets, of 32 bits each as in Arrow's `utf8`, or of 64 bits each as in its `large_utf8`.
ghost use Rattle.std.specs.Hash as fed;
ghost use Rattle.std.specs.Prelude.{◌≡◌, ℕ, ◌+◌, ◌<◌, ◌↔◌, List, [], ◌∷◌, length, drop, map, slice_index, All, IfOk, IsErrOf, IsOk, IsTrue};
ghost use Rattle.std.specs.Str.{IsUtf8};
ghost use Rattle.sketch_base.specs.Errors.{invalid_argument};
ghost use Rattle.sketch_base.specs.Hashes.{fed_bytes};
ghost use Rattle.sketch_base.specs.Strings.{AreOffsets, AreStrings, strings_of};

use crate::error::Error;
use crate::fault::Fault;
use crate::items::Items;
use crate::strings::Strings;
use std::marker::Model;

/// Offsets into a buffer, of 32 or 64 bits each.
///
/// It is implemented by `&[u32]` and `&[u64]`.
pub trait Offsets: Copy {
    // The offsets.
    ghost offsets: { Self → List ℕ };

    /// Returns the number of offsets.
    fn len(&self) -> usize
        ensures { result ≡ length (offsets self.now) };

    /// Returns offset `i`.
    fn at(&self, i: usize) -> u64
        requires { i < length (offsets self.now) }
        ensures { result ≡ slice_index (offsets self.now) i };

    /// Returns the offsets after the first.
    fn rest(self) -> Self
        requires { 0 < length (offsets self) }
        ensures { offsets result ≡ drop 1 (offsets self) };
}

impl<'a> Offsets for &'a [u32] {
    ghost offsets = { λ s. s.now };

    #[inline(always)]
    fn len(&self) -> usize {
        (**self).len()
    }

    #[inline(always)]
    fn at(&self, i: usize) -> u64 {
        self[i] as u64
    }

    #[inline(always)]
    fn rest(self) -> &'a [u32] {
        &self[1..]
    }
}

impl<'a> Offsets for &'a [u64] {
    ghost offsets = { λ s. s.now };

    #[inline(always)]
    fn len(&self) -> usize {
        (**self).len()
    }

    #[inline(always)]
    fn at(&self, i: usize) -> u64 {
        self[i]
    }

    #[inline(always)]
    fn rest(self) -> &'a [u64] {
        &self[1..]
    }
}

/// Returns whether there is an offset, no offset is below the one before it, and no offset exceeds the number of bytes.
///
/// # Examples
///
/// ```
/// use sketch_base::are_offsets;
///
/// fn can_be_cut(bytes: &[u8], offsets: &[u64]) -> bool {
///     are_offsets(bytes, offsets)
/// }
/// ```
pub fn are_offsets<O: Offsets>(bytes: &[u8], offsets: O) -> bool
    ensures { IsTrue result ↔ AreOffsets bytes.now (O.offsets offsets) }
{
    let end = bytes.len() as u64;
    let mut last = 0;
    'each: for i in 0..offsets.len() {
        let offset = offsets.at(i);
        if offset > end {
            return false;
        }
        if offset < last {
            return false;
        }
        last = offset;
    }
    offsets.len() != 0
}

/// Returns the number of strings in the buffer.
#[inline(always)]
fn num_strings<O: Offsets>(bytes: &[u8], offsets: O) -> usize
    requires { AreOffsets bytes.now (O.offsets offsets) }
    ensures strings { result ≡ length (strings_of bytes.now (O.offsets offsets)) }
    ensures offsets { result + 1 ≡ length (O.offsets offsets) }
{
    offsets.len() - 1
}

/// Returns the bytes of the first string.
#[inline(always)]
fn first_bytes<O: Offsets>(bytes: &[u8], offsets: O) -> &[u8]
    requires offsets { AreOffsets bytes.now (O.offsets offsets) }
    requires there { 1 < length (O.offsets offsets) }
    ensures { strings_of bytes.now (O.offsets offsets)
        ≡ result.now ∷ strings_of bytes.now (drop 1 (O.offsets offsets)) }
{
    &bytes[offsets.at(0) as usize..offsets.at(1) as usize]
}

/// Returns whether the bytes between each offset and the next are UTF-8.
fn are_utf8<O: Offsets>(bytes: &[u8], offsets: O) -> bool
    requires { AreOffsets bytes.now (O.offsets offsets) }
    ensures { IsTrue result ↔ All IsUtf8 (strings_of bytes.now (O.offsets offsets)) }
{
    // One check of all bytes is faster than a check for each string.
    let first = offsets.at(0) as usize;
    let last = offsets.at(offsets.len() - 1) as usize;
    let Ok(text) = str::from_utf8(&bytes[first..last]) else {
        return false;
    };
    'each: for i in 0..offsets.len() {
        if !text.is_char_boundary(offsets.at(i) as usize - first) {
            return false;
        }
    }
    true
}

/// Returns the first string and the offsets of the strings after it.
#[inline(always)]
fn split_first<O: Offsets>(bytes: &[u8], offsets: O) -> (&str, O)
    requires strings { AreStrings bytes.now (O.offsets offsets) }
    requires some { 1 < length (O.offsets offsets) }
    ensures first { strings_of bytes.now (O.offsets offsets)
        ≡ result.0.now ∷ strings_of bytes.now (O.offsets result.1) }
    ensures rest { AreStrings bytes.now (O.offsets result.1) }
{
    let first = unsafe { str::from_utf8_unchecked(first_bytes(bytes, offsets)) };
    (first, offsets.rest())
}

/// The strings of a buffer with offsets: each goes from one offset to the next.
///
/// The offsets are valid, and each string is UTF-8: [`new`](Self::new) checks both. It copies nothing.
#[derive(Drop)]
pub struct OffsetStrings<'a, O: Offsets> {
    bytes: &'a [u8],
    offsets: O,
}

impl<'a, O: Offsets> Model for OffsetStrings<'a, O> {
    ghost use Rattle.std.specs.Prelude.{List, ℕ};
    ghost use Rattle.sketch_base.specs.Strings.{AreStrings, strings_of};

    ghost Value = { List (List ℕ) };

    ghost view = { λ s. strings_of s.bytes.now (O.offsets s.offsets) };

    ghost invariant = { λ s. AreStrings s.bytes.now (O.offsets s.offsets) };
}

impl<'a, O: Offsets> OffsetStrings<'a, O> {
    /// Creates the strings of a buffer. n strings have n + 1 offsets. Does not allocate.
    ///
    /// # Errors
    ///
    /// The first of these that applies:
    ///
    /// - `BadOffsets` if there is no offset, an offset is below the one before it, or an offset exceeds the number of
    ///   bytes;
    /// - `InvalidUtf8` if the bytes between an offset and the next are not UTF-8.
    ///
    /// # Examples
    ///
    /// ```
    /// use sketch_base::{Error, OffsetStrings};
    ///
    /// fn number_of_fruit() -> Result<usize, Error> {
    ///     let bytes: &[u8] = b"applepear";
    ///     let fruit = OffsetStrings::new(bytes, [0_u64, 5, 9].as_slice())?;
    ///     Ok(fruit.len())
    /// }
    /// ```
    pub fn new(bytes: &'a [u8], offsets: O) -> Result<Self, Error>
        ensures ok { IfOk result (λ strings. AreStrings bytes.now (O.offsets offsets)
            × (strings ≡ strings_of bytes.now (O.offsets offsets))) }

        // An error comes exactly if the offsets are not valid or a string is not UTF-8.
        ensures succeeds { AreStrings bytes.now (O.offsets offsets) → IsOk result }
        ensures bad_offsets { ¬ AreOffsets bytes.now (O.offsets offsets) → IsErrOf result (invalid_argument Fault.BadOffsets) }
        ensures invalid_utf8 { AreOffsets bytes.now (O.offsets offsets) → ¬ All IsUtf8 (strings_of bytes.now (O.offsets offsets))
            → IsErrOf result (invalid_argument Fault.InvalidUtf8) }
    {
        if !are_offsets(bytes, offsets) {
            return Err(Error::invalid_argument(Fault::BadOffsets));
        }
        if !are_utf8(bytes, offsets) {
            return Err(Error::invalid_argument(Fault::InvalidUtf8));
        }
        Ok(OffsetStrings { bytes, offsets })
    }

    /// Creates the strings of a buffer whose offsets are valid and whose strings are UTF-8. Checks nothing.
    #[inline(always)]
    pub fn of_buffer(bytes: &'a [u8], offsets: O) -> Self
        requires { AreStrings bytes.now (O.offsets offsets) }
        ensures { result ≡ strings_of bytes.now (O.offsets offsets) }
    {
        OffsetStrings { bytes, offsets }
    }

    /// Returns the number of strings.
    #[inline(always)]
    pub fn len(&self) -> usize
        ensures { result ≡ length self.now }
    {
        num_strings(self.bytes, self.offsets)
    }

    /// Returns whether there are no strings.
    #[inline(always)]
    pub fn is_empty(&self) -> bool
        ensures { IsTrue result ↔ (self.now ≡ []) }
    {
        self.len() == 0
    }
}

impl<'a, O: Offsets> Strings<'a> for OffsetStrings<'a, O> {
    ghost strings = { λ s. s };

    #[inline(always)]
    fn next_str(&mut self) -> Option<&'a str> {
        if self.is_empty() {
            return None;
        }
        let (first, offsets) = split_first(self.bytes, self.offsets);
        *self = OffsetStrings {
            bytes: self.bytes,
            offsets,
        };
        Some(first)
    }
}

impl<'a, O: Offsets> Items for OffsetStrings<'a, O> {
    type Each = &'a str;

    ghost list = { map (fed_bytes fed.str) };

    #[inline(always)]
    fn next(&mut self) -> Option<&'a str> {
        self.next_str()
    }
}
