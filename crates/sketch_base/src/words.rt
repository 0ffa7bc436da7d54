//! The words of a string.
ghost use Rattle.std.specs.Hash as fed;
ghost use Rattle.std.specs.Prelude.{◌≡◌, [], ◌∷◌, MatchOption, drop, map, take};
ghost use Rattle.sketch_base.specs.Hashes.{fed_bytes};
ghost use Rattle.sketch_base.specs.Split.{with_word, words_by, words_of};

use crate::byte_words::{ByteWords, nth_word_of_bytes};
use crate::items::Items;
use crate::separator::Separator;
use crate::strings::Strings;
use std::marker::Model;

/// The words of a string, which are the nonempty parts between separators.
///
/// The separators of up to 63 bytes are found at once. Then a word among these bytes costs a few shifts.
///
/// # Examples
///
/// ```
/// use sketch_base::{Items, Words};
///
/// fn last_word(text: &str) -> &str {
///     let mut words = Words::new(text);
///     let mut last = "";
///     while let Some(word) = words.next() {
///         last = word;
///     }
///     last
/// }
/// ```
#[derive(Drop)]
pub struct Words<'a> {
    words: ByteWords<'a>,
}

impl<'a> Model for Words<'a> {
    ghost use Rattle.std.specs.Prelude.{All, List, ℕ};
    ghost use Rattle.std.specs.Str.{IsUtf8};

    ghost Value = { List (List ℕ) };

    ghost view = { λ t. t.words };

    ghost invariant = { λ t. All IsUtf8 t.words };
}

impl<'a> Words<'a> {
    /// Creates the words of a string between bytes of ASCII white space. Does not allocate.
    #[inline(always)]
    pub fn new(text: &'a str) -> Self
        ensures { result ≡ words_of text.now }
    {
        Self::between(text, Separator::AsciiWhitespace)
    }

    /// Creates the words of a string between separators. Does not allocate.
    #[inline(always)]
    pub fn between(text: &'a str, separator: Separator) -> Self
        ensures { result ≡ words_by separator text.now }
    {
        Words {
            words: ByteWords::between(text.as_bytes(), separator),
        }
    }

    /// Takes the first word. It is empty if there is none, and then none is left.
    #[inline(always)]
    pub(crate) fn next_word(&mut self) -> &'a str
        ensures words { self.old ≡ with_word result.now self.new }
        ensures none { result.now ≡ [] → self.new ≡ [] }
    {
        let word = self.words.next_word();
        unsafe { str::from_utf8_unchecked(word) }
    }
}

/// Returns the word of an index, counted from 0, or `None` if the string has too few words. Does not allocate.
///
/// It takes less time than to take word after word, above all in long strings.
///
/// # Examples
///
/// ```
/// use sketch_base::{Separator, nth_word};
///
/// fn third_column(line: &str) -> Option<&str> {
///     nth_word(line, Separator::AsciiWhitespace, 2)
/// }
/// ```
#[inline(always)]
pub fn nth_word(text: &str, separator: Separator, index: u32) -> Option<&str>
    ensures { MatchOption result (take 1 (drop index (words_by separator text.now)) ≡ [])
        (λ word. take 1 (drop index (words_by separator text.now)) ≡ word.now ∷ []) }
{
    let word = nth_word_of_bytes(text.as_bytes(), separator, index)?;
    Some(unsafe { str::from_utf8_unchecked(word) })
}

impl<'a> Strings<'a> for Words<'a> {
    ghost strings = { λ s. s };

    #[inline(always)]
    fn next_str(&mut self) -> Option<&'a str> {
        let word = self.next_word();
        if word.is_empty() {
            return None;
        }
        Some(word)
    }
}

impl<'a> Items for Words<'a> {
    type Each = &'a str;

    ghost list = { map (fed_bytes fed.str) };

    #[inline(always)]
    fn next(&mut self) -> Option<&'a str> {
        self.next_str()
    }
}
