//! Keys in sequences.
ghost use Rattle.std.specs.Prelude.{◌≡◌, Bool, List, [], ◌∷◌, map, MatchOption};
ghost use Rattle.sketch_base.specs.Strings.{strings_at};
ghost use Rattle.sketch_base.specs.Validity.{valid};
ghost use Rattle.counter_table.specs.StringKeys.{names_string};

use crate::equal_clone::EqualClone;
use crate::item_key::OwnedKey;
use sketch_base::{ByteStrings, Lines, OffsetStrings, Offsets, Strings, Strs, ValidItems, Words};
use std::hash::Hash;

/// Keys in order, each of which names items of type `T`.
///
/// It is implemented by `&[T]`, and for items of type `String` by the sequences of strings: [`Words`], [`Lines`],
/// [`Strs`], [`OffsetStrings`] and [`ByteStrings`]. [`ValidItems`] of such a sequence are keys too.
///
/// # Examples
///
/// ```
/// use counter_table::{ItemKey, Keys};
/// use sketch_base::Words;
///
/// fn has_word(text: &str, word: &String) -> bool {
///     let mut words = Words::new(text);
///     while let Some(key) = words.next_key() {
///         if key.names(word) {
///             return true;
///         }
///     }
///     false
/// }
/// ```
pub trait Keys<T: Eq + Hash>: Drop {
    type Key: OwnedKey<T>;

    // For each key, which items it names.
    ghost names: { Self → List (T → Bool) };

    /// Takes the first key, or returns `None` if there is none.
    fn next_key(&mut self) -> Option<Self::Key>
        ensures { MatchOption result ((names self.old ≡ []) × (names self.new ≡ []))
            (λ key. names self.old ≡ Self.Key.names key ∷ names self.new) };
}

impl<'a, T: EqualClone + Hash> Keys<T> for &'a [T] {
    type Key = &'a T;

    ghost names = { λ items. map T.eq items.now };

    #[inline(always)]
    fn next_key(&mut self) -> Option<&'a T> {
        let (first, rest) = self.split_first()?;
        *self = rest;
        Some(first)
    }
}

/// Takes the first string, as a key of the `String`s of its bytes.
#[inline(always)]
fn next_string<'a, S: Strings<'a>>(strings: &mut S) -> Option<&'a str>
    ensures { MatchOption result ((map names_string (S.strings strings.old) ≡ []) × (map names_string (S.strings strings.new) ≡ []))
        (λ key. map names_string (S.strings strings.old) ≡ names_string key.now ∷ map names_string (S.strings strings.new)) }
{
    strings.next_str()
}

impl<'a> Keys<String> for Words<'a> {
    type Key = &'a str;

    ghost names = { λ s. map names_string s };

    #[inline(always)]
    fn next_key(&mut self) -> Option<&'a str> {
        next_string(self)
    }
}

impl<'a> Keys<String> for Lines<'a> {
    type Key = &'a str;

    ghost names = { λ s. map names_string s };

    #[inline(always)]
    fn next_key(&mut self) -> Option<&'a str> {
        next_string(self)
    }
}

impl<'a> Keys<String> for Strs<'a> {
    type Key = &'a str;

    ghost names = { λ s. map names_string (strings_at s.0.now) };

    #[inline(always)]
    fn next_key(&mut self) -> Option<&'a str> {
        next_string(self)
    }
}

impl<'a, O: Offsets> Keys<String> for OffsetStrings<'a, O> {
    type Key = &'a str;

    ghost names = { λ s. map names_string s };

    #[inline(always)]
    fn next_key(&mut self) -> Option<&'a str> {
        let string = self.next_str()?;
        Some(string)
    }
}

impl<'a> Keys<String> for ByteStrings<'a> {
    type Key = &'a str;

    ghost names = { λ s. map names_string s };

    #[inline(always)]
    fn next_key(&mut self) -> Option<&'a str> {
        next_string(self)
    }
}

impl<'a, T: Eq + Hash, K: Keys<T>> Keys<T> for ValidItems<'a, K> {
    type Key = K::Key;

    ghost names = { λ s. valid s.validity (K.names s.items) };

    #[inline(always)]
    fn next_key(&mut self) -> Option<K::Key> {
        'each: loop {
            let key = self.items.next_key()?;
            if self.validity.next_is_set() {
                return Some(key);
            }
        }
    }
}
