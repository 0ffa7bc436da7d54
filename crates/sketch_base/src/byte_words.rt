//! The words of bytes.
ghost use Rattle.std.specs.Prelude.{◌≡◌, ◌+◌, ◌-◌, ◌≤◌, [], ◌∷◌, MatchOption, drop, length, take};
ghost use Rattle.sketch_base.specs.Split.{with_word, words_by};

use crate::byte_set::lowest_mark;
use crate::separator::{Separator, first_separator};
use std::marker::Model;

/// The largest number of bytes whose separators are marked at once.
const MARKED_SIZE: usize = 63;

/// The words of bytes, which are the nonempty parts between separators. The bytes need not be UTF-8.
///
/// The separators of up to 63 bytes are found at once. Then a word among these bytes costs a few shifts.
#[derive(Drop)]
pub(crate) struct ByteWords<'a> {
    bytes: &'a [u8],
    separator: Separator,
    /// Bit `i` is set exactly if byte `i` stands between words and is not one of the last `unmarked` bytes.
    marks: u64,
    /// The number of bytes at the end that have no mark.
    unmarked: usize,
}

impl<'a> Model for ByteWords<'a> {
    ghost use Rattle.std.specs.Prelude.{List, ℕ, ◌≡◌, ◌+◌, ◌-◌, ◌≤◌, length, map, take};
    ghost use Rattle.std.specs.Simd.Lanes.{mask_l};
    ghost use Rattle.sketch_base.specs.Split.{separates, words_by};

    ghost Value = { List (List ℕ) };

    ghost view = { λ t. words_by t.separator t.bytes.now };

    ghost invariant = { λ t. (t.unmarked ≤ length t.bytes.now) × (length t.bytes.now ≤ t.unmarked + 63)
        × (t.marks ≡ mask_l (map (separates t.separator) (take (length t.bytes.now - t.unmarked) t.bytes.now))) };
}

impl<'a> ByteWords<'a> {
    /// Creates the words of bytes between separators. Does not allocate.
    #[inline(always)]
    pub(crate) fn between(bytes: &'a [u8], separator: Separator) -> Self
        ensures { result ≡ words_by separator bytes.now }
    {
        let unmarked = bytes.len().saturating_sub(MARKED_SIZE);
        ByteWords {
            bytes,
            separator,
            marks: separator.marks_of(&bytes[..bytes.len() - unmarked]),
            unmarked,
        }
    }

    /// Takes the first `n` words, or all words if they are fewer.
    ///
    /// The ends of words among up to 63 bytes are found at once. Then it costs a few instructions to skip one of these words.
    #[inline(always)]
    fn skip_words(&mut self, n: u32)
        ensures { self.new ≡ drop n self.old }
    {
        let mut left = self.skip_marked(n);
        while left > 0 {
            // The end of this word has no mark.
            if self.next_word().is_empty() {
                return;
            }
            left = self.skip_marked(left - 1);
        }
    }

    /// Takes those of the first `n` words whose ends have marks. Returns the number of the others.
    #[inline(always)]
    fn skip_marked(&mut self, n: u32) -> u32
        ensures count { result ≤ n }
        ensures words { self.new ≡ drop (n - result) self.old }
    {
        // An end of a word is a mark after a byte that has none.
        let mut ends = self.marks & !(self.marks * 2 + 1);
        let mut at = 0;
        let mut left = n;
        while left > 0 && ends != 0 {
            at = ends.trailing_zeros();
            ends &= ends - 1;
            left -= 1;
        }
        let (_, bytes) = self.bytes.split_at(at as usize);
        self.bytes = bytes;
        self.marks >>= at;
        left
    }

    /// Returns the first word. It is empty if there is none. No more bytes are marked.
    #[inline(always)]
    fn first_word(&self) -> &'a [u8]
        ensures { take 1 self.now ≡ with_word result.now [] }
    {
        let (word, _) = next_word_of_bytes(self.bytes, self.separator);
        word
    }

    /// Takes the first word. It is empty if there is none, and then none is left.
    #[inline(always)]
    pub(crate) fn next_word(&mut self) -> &'a [u8]
        ensures words { self.old ≡ with_word result.now self.new }
        ensures none { result.now ≡ [] → self.new ≡ [] }
    {
        let start = self.marks.trailing_ones() as usize;
        let marks = self.marks >> start;
        if marks == 0 && self.unmarked > 0 {
            let (word, rest) = first_of_long(self.bytes, self.separator);
            *self = rest;
            return word;
        }
        let (_, bytes) = self.bytes.split_at(start);
        let end = lowest_mark(marks, bytes.len() - self.unmarked);
        let (word, rest) = bytes.split_at(end);
        self.bytes = rest;
        self.marks = marks >> end;
        word
    }
}

/// Returns the word of an index in bytes, counted from 0, or `None` if they have too few words. Does not allocate.
///
/// It is [`nth_word`](crate::nth_word) of bytes that need not be UTF-8.
#[inline(always)]
pub fn nth_word_of_bytes(bytes: &[u8], separator: Separator, index: u32) -> Option<&[u8]>
    ensures { MatchOption result (take 1 (drop index (words_by separator bytes.now)) ≡ [])
        (λ word. take 1 (drop index (words_by separator bytes.now)) ≡ word.now ∷ []) }
{
    let word = word_or_empty(bytes, separator, index);
    if word.is_empty() {
        return None;
    }
    Some(word)
}

/// Returns the word of an index. It is empty if there are too few words.
#[inline(always)]
fn word_or_empty(bytes: &[u8], separator: Separator, index: u32) -> &[u8]
    ensures { take 1 (drop index (words_by separator bytes.now)) ≡ with_word result.now [] }
{
    if index == 0 {
        let (word, _) = next_word_of_bytes(bytes, separator);
        return word;
    }
    let mut words = ByteWords::between(bytes, separator);
    words.skip_words(index);
    words.first_word()
}

/// Returns the first word of bytes and the words after it. The word is empty if there is none.
fn first_of_long(bytes: &[u8], separator: Separator) -> (&[u8], ByteWords<'_>)
    ensures words { words_by separator bytes.now ≡ with_word result.0.now result.1 }
    ensures none { result.0.now ≡ [] → result.1 ≡ [] }
{
    let (word, rest) = next_word_of_bytes(bytes, separator);
    (word, ByteWords::between(rest, separator))
}

/// Returns the first word of bytes and the bytes after it. Both are empty if there is no word. Does not allocate.
#[inline(always)]
pub fn next_word_of_bytes(bytes: &[u8], separator: Separator) -> (&[u8], &[u8])
    ensures words { words_by separator bytes.now ≡ with_word result.0.now (words_by separator result.1.now) }
    ensures none { result.0.now ≡ [] → result.1.now ≡ [] }
{
    let mut start = 0;
    while start < bytes.len() && separator.separates(bytes[start]) {
        start += 1;
    }
    let (_, text) = bytes.split_at(start);
    text.split_at(first_separator(text, separator))
}
