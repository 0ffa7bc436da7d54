//! Many strings as slices of bytes.
ghost use Rattle.std.specs.Hash as fed;
ghost use Rattle.std.specs.Prelude.{◌≡◌, ◌↔◌, [], ◌∷◌, length, map, All, IfOk, IsErrOf, IsOk, IsTrue};
ghost use Rattle.std.specs.Str.{IsUtf8};
ghost use Rattle.sketch_base.specs.Errors.{invalid_argument};
ghost use Rattle.sketch_base.specs.Hashes.{fed_bytes};
ghost use Rattle.sketch_base.specs.Strings.{strings_at};

use crate::error::Error;
use crate::fault::Fault;
use crate::items::Items;
use crate::strings::Strings;
use crate::utf8::from_utf8;
use std::marker::Model;

/// Returns whether each slice is UTF-8.
fn are_utf8(items: &[&[u8]]) -> bool
    ensures { IsTrue result ↔ All IsUtf8 (strings_at items.now) }
{
    'each: for i in 0..items.len() {
        let Ok(_) = from_utf8(items[i]) else {
            return false;
        };
    }
    true
}

/// The strings of slices of bytes, each of which is UTF-8. [`new`](Self::new) checks this, and copies nothing.
#[derive(Drop)]
pub struct ByteStrings<'a> {
    items: &'a [&'a [u8]],
}

impl<'a> Model for ByteStrings<'a> {
    ghost use Rattle.std.specs.Prelude.{List, ℕ, All};
    ghost use Rattle.std.specs.Str.{IsUtf8};
    ghost use Rattle.sketch_base.specs.Strings.{strings_at};

    ghost Value = { List (List ℕ) };

    ghost view = { λ s. strings_at s.items.now };

    ghost invariant = { λ s. All IsUtf8 (strings_at s.items.now) };
}

impl<'a> ByteStrings<'a> {
    /// Creates the strings of slices. Does not allocate.
    ///
    /// # Errors
    ///
    /// `InvalidUtf8` if a slice is not UTF-8.
    ///
    /// # Examples
    ///
    /// ```
    /// use sketch_base::{ByteStrings, Error};
    ///
    /// fn number_of_names(names: &[&[u8]]) -> Result<usize, Error> {
    ///     let names = ByteStrings::new(names)?;
    ///     Ok(names.len())
    /// }
    /// ```
    pub fn new(items: &'a [&'a [u8]]) -> Result<Self, Error>
        ensures ok { IfOk result (λ strings. All IsUtf8 (strings_at items.now) × (strings ≡ strings_at items.now)) }

        // The error comes exactly if a slice is not UTF-8.
        ensures succeeds { All IsUtf8 (strings_at items.now) → IsOk result }
        ensures invalid_utf8 { ¬ All IsUtf8 (strings_at items.now) → IsErrOf result (invalid_argument Fault.InvalidUtf8) }
    {
        if !are_utf8(items) {
            return Err(Error::invalid_argument(Fault::InvalidUtf8));
        }
        Ok(ByteStrings { items })
    }

    /// Returns the number of strings.
    #[inline(always)]
    pub fn len(&self) -> usize
        ensures { result ≡ length self.now }
    {
        self.items.len()
    }

    /// Returns whether there are no strings.
    #[inline(always)]
    pub fn is_empty(&self) -> bool
        ensures { IsTrue result ↔ (self.now ≡ []) }
    {
        self.items.is_empty()
    }
}

impl<'a> Strings<'a> for ByteStrings<'a> {
    ghost strings = { λ s. s };

    #[inline(always)]
    fn next_str(&mut self) -> Option<&'a str> {
        let (first, items) = self.items.split_first()?;
        *self = ByteStrings { items };
        Some(unsafe { str::from_utf8_unchecked(*first) })
    }
}

impl<'a> Items for ByteStrings<'a> {
    type Each = &'a str;

    ghost list = { map (fed_bytes fed.str) };

    #[inline(always)]
    fn next(&mut self) -> Option<&'a str> {
        self.next_str()
    }
}
