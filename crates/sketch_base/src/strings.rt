//! Strings in sequences.
ghost use Rattle.std.specs.Hash as fed;
ghost use Rattle.std.specs.Prelude.{◌≡◌, ℕ, List, [], ◌∷◌, map, MatchOption};
ghost use Rattle.sketch_base.specs.Hashes.{fed_bytes};
ghost use Rattle.sketch_base.specs.Strings.{strings_at};

use crate::items::Items;

/// Strings in order, which a sketch takes in one call. They are also [`Items`].
///
/// It is implemented by [`Words`](crate::Words) and [`Lines`](crate::Lines) of a string, by [`Strs`] of a slice, by
/// [`OffsetStrings`](crate::OffsetStrings) of one buffer with offsets, and by [`ByteStrings`](crate::ByteStrings) of
/// slices of bytes.
///
/// # Examples
///
/// ```
/// use sketch_base::Strings;
///
/// fn longest<'a, S: Strings<'a>>(mut strings: S) -> &'a str {
///     let mut longest = "";
///     while let Some(string) = strings.next_str() {
///         if string.len() > longest.len() {
///             longest = string;
///         }
///     }
///     longest
/// }
/// ```
pub trait Strings<'a>: Drop {
    // The bytes of each string.
    ghost strings: { Self → List (List ℕ) };

    /// Takes the first string, or returns `None` if there is none.
    fn next_str(&mut self) -> Option<&'a str>
        ensures { MatchOption result ((strings self.old ≡ []) × (strings self.new ≡ []))
            (λ string. strings self.old ≡ string.now ∷ strings self.new) };
}

/// The strings of a slice. A slice of `&str` is also [`Items`] by itself, and hashed more slowly.
///
/// # Examples
///
/// ```
/// use sketch_base::{Strings, Strs};
///
/// fn first_of_three<'a>(names: &'a [&'a str; 3]) -> &'a str {
///     Strs(names).next_str().unwrap_or("")
/// }
/// ```
#[derive(Drop)]
pub struct Strs<'a>(pub &'a [&'a str]);

impl<'a> Strings<'a> for Strs<'a> {
    ghost strings = { λ s. strings_at s.0.now };

    #[inline(always)]
    fn next_str(&mut self) -> Option<&'a str> {
        let (first, rest) = self.0.split_first()?;
        *self = Strs(rest);
        Some(*first)
    }
}

impl<'a> Items for Strs<'a> {
    type Each = &'a str;

    ghost list = { λ s. map (fed_bytes fed.str) (strings_at s.0.now) };

    #[inline(always)]
    fn next(&mut self) -> Option<&'a str> {
        self.next_str()
    }
}
