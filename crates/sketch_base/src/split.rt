//! Splits strings into words and lines.
ghost use Rattle.std.specs.Prelude.{◌≡◌, ◌≤◌, length, take, drop};
ghost use Rattle.std.specs.Str.Lines.{lines, strip_carriage_return};
ghost use Rattle.sketch_base.specs.Split.{CutsUtf8, IsBehindLast, SplitsAt, TakesLine, separates, words_by};
ghost use Rattle.sketch_base.specs.Strings.{strings_at};
ghost use Rattle.sketch_base.specs.declared.separator.Separator.TheVariants.{LineFeed};

use crate::separator::{Separator, first_separator};
use crate::words::Words;

/// Writes the first words of a string to `words`, as many as it has elements. Returns their number. The elements behind
/// them stay.
///
/// # Examples
///
/// ```
/// use sketch_base::{Separator, first_words};
///
/// fn is_pair(text: &str) -> bool {
///     let mut words = [""; 3];
///     first_words(text, Separator::Space, &mut words) == 2
/// }
/// ```
#[inline(always)]
pub fn first_words<'a>(text: &'a str, separator: Separator, words: &mut [&'a str]) -> usize
    ensures few { result ≤ length words.new }
    ensures words { strings_at (take result words.new)
        ≡ take (length words.old) (words_by separator text.now) }
    ensures others { drop result words.new ≡ drop result words.old }
{
    let mut rest = Words::between(text, separator);
    let mut count = 0;
    while count < words.len() {
        let word = rest.next_word();
        if word.is_empty() {
            return count;
        }
        words[count] = word;
        count += 1;
    }
    count
}

/// Returns the first line of a string and the string after its end, or `None` if the string is empty.
///
/// A line ends at a line feed or at the end of the string. It has neither the line feed nor a carriage return before
/// it.
#[inline(always)]
pub(crate) fn next_line(text: &str) -> Option<(&str, &str)>
    ensures { TakesLine text.now result }
{
    if text.is_empty() {
        return None;
    }
    let (line, after) = text.split_at(first_separator(text.as_bytes(), Separator::LineFeed));
    if after.is_empty() {
        return Some((line, after));
    }
    let (_, rest) = after.split_at(1);
    Some((without_carriage_return(line), rest))
}

/// Returns a string without the carriage return at its end, if there is one.
#[inline(always)]
fn without_carriage_return(line: &str) -> &str
    ensures { result.now ≡ strip_carriage_return line.now }
{
    let bytes = line.as_bytes();
    let len = bytes.len();
    if len == 0 || bytes[len - 1] != b'\r' {
        return line;
    }
    let (front, _) = line.split_at(len - 1);
    front
}

/// Returns the number of bytes through the last separator, or 0 if there is none.
///
/// The words of these bytes are complete, so a stream can be split at this index. The bytes after it may begin a word
/// that is continued.
///
/// # Examples
///
/// ```
/// use sketch_base::{Separator, finished_words};
///
/// fn complete_words(chunk: &[u8]) -> &[u8] {
///     &chunk[..finished_words(chunk, Separator::AsciiWhitespace)]
/// }
/// ```
#[inline]
pub fn finished_words(bytes: &[u8], separator: Separator) -> usize
    ensures bound { result ≤ length bytes.now }
    ensures last { IsBehindLast (separates separator) bytes.now result }
    ensures words { SplitsAt (words_by separator) bytes.now result }
    ensures utf8 { CutsUtf8 bytes.now result }
{
    let mut end = bytes.len();
    while end > 0 && !separator.separates(bytes[end - 1]) {
        end -= 1;
    }
    end
}

/// Returns the number of bytes through the last line feed, or 0 if there is none.
///
/// The lines of these bytes are complete, so a stream can be split at this index. The bytes after it may begin a line
/// that is continued.
///
/// # Examples
///
/// ```
/// use sketch_base::finished_lines;
///
/// fn complete_lines(chunk: &[u8]) -> &[u8] {
///     &chunk[..finished_lines(chunk)]
/// }
/// ```
#[inline]
pub fn finished_lines(bytes: &[u8]) -> usize
    ensures bound { result ≤ length bytes.now }
    ensures last { IsBehindLast (separates LineFeed) bytes.now result }
    ensures lines { SplitsAt lines bytes.now result }
    ensures utf8 { CutsUtf8 bytes.now result }
{
    finished_words(bytes, Separator::LineFeed)
}
