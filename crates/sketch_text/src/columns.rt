//! The columns of a record, and items of several of them.
ghost use Rattle.std.specs.Prelude.{◌≡◌, ◌++◌, ◌+◌, ◌<◌, ◌==◌, [], ◌∷◌, IfOk, MatchOption, OnOk, drop, false, length, take, true};
ghost use Rattle.std.specs.List.{slice_get, slice_split};
ghost use Rattle.sketch_base.specs.Split.{words_of};
ghost use Rattle.sketch_text.specs.Columns.{added_by, between, chosen_by, column_in, columns_left, columns_of, from_last, item_of, joined_of, records_with, text_of};
ghost use Rattle.sketch_text.specs.Csv.{parts_between};

use crate::csv_fields::{append_csv_spelling, append_csv_text, field_end, nth_csv_field};
use crate::fields::nth_field_of_bytes;
use crate::records::Records;
use sketch_base::{OneByte, Separator, first_member, next_word_of_bytes, nth_word_of_bytes};
use std::alloc::AllocError;

/// The maximum number of columns of an item.
pub const MAX_COLUMNS: usize = 8;

/// How a record is split into columns.
#[derive(Clone, Copy)]
pub enum Split {
    /// A line, into the words between ASCII white space.
    Words,
    /// A line, into the fields between delimiters of one byte.
    Fields(u8),
    /// A record of CSV with this delimiter, into its fields.
    Csv(u8),
}

impl Split {
    /// Returns how bytes are split into records that have these columns.
    pub fn records(self) -> Records
        ensures { result ≡ records_with self }
    {
        match self {
            Split::Words => Records::Lines,
            Split::Fields(_) => Records::Lines,
            Split::Csv(delimiter) => Records::Csv(delimiter),
        }
    }

    /// Returns the byte between the columns of an item: a space between words, else the delimiter.
    fn between(self) -> u8
        ensures { result ≡ between self }
    {
        match self {
            Split::Words => b' ',
            Split::Fields(delimiter) => delimiter,
            Split::Csv(delimiter) => delimiter,
        }
    }
}

/// A column of a record, counted from 0.
#[derive(Clone, Copy)]
pub enum Column {
    /// Counted from the first column.
    FromFirst(u32),
    /// Counted back from the last column.
    FromLast(u32),
}

/// The columns of a record that make its item, in this order.
///
/// The item of one column is its text. Between each two of several stands one byte: a space between words, else the delimiter. Several
/// columns of CSV are spelled as a record of CSV: a field that has a delimiter, a quote or a line end stands in quotes.
///
/// [`columns_of_items`](crate::laws::columns_of_items) states that words, fields and strings of CSV are read back from their item, if the
/// delimiter of CSV is not a quote.
#[derive(Clone, Copy)]
pub struct Columns {
    split: Split,
    first: Column,
    /// The columns after the first.
    more: [Column; 7],
    /// The number of columns after the first, at most 7.
    num_more: usize,
}

impl Columns {
    /// Creates the item of one column.
    pub fn new(split: Split, column: Column) -> Self
        ensures split { result.split ≡ split }
        ensures chosen { chosen_by result ≡ column ∷ [] }
    {
        Columns {
            split,
            first: column,
            more: [column; 7],
            num_more: 0,
        }
    }

    /// Returns how records are split into these columns.
    pub fn split(&self) -> Split
        ensures { result ≡ self.now.split }
    {
        self.split
    }

    /// Adds a column after the others, and returns whether there was room: an item has at most [`MAX_COLUMNS`]. Without room nothing changes.
    pub fn push(&mut self, column: Column) -> bool
        ensures split { self.new.split ≡ self.old.split }
        ensures pushed { result ≡ true → chosen_by self.new ≡ chosen_by self.old ++ column ∷ [] }
        ensures full { result ≡ false → (self.new ≡ self.old) × (length (chosen_by self.old) ≡ 8) }
    {
        let at = self.num_more;
        if at >= 7 {
            return false;
        }
        self.more[at] = column;
        self.num_more = at + 1;
        true
    }

    /// Returns the column of an index, counted from 0, or `None` if there are fewer.
    pub fn get(&self, index: usize) -> Option<Column>
        ensures { result ≡ slice_get (chosen_by self.now) index }
    {
        if index == 0 {
            return Some(self.first);
        }
        first_of(&self.more, self.num_more).get(index - 1).copied()
    }
}

/// Returns the column of an index, or `None` if the record has too few. Does not allocate.
fn column_of(split: Split, column: Column, row: &[u8]) -> Option<&[u8]>
    ensures { MatchOption result (column_in split row.now column ≡ []) (λ found. column_in split row.now column ≡ found.now ∷ []) }
{
    match column {
        Column::FromFirst(index) => column_from_first(split, index, row),
        Column::FromLast(index) => column_from_last(split, index, row),
    }
}

/// Returns the column of an index, or `None` if the record has too few.
fn column_from_first(split: Split, index: u32, row: &[u8]) -> Option<&[u8]>
    ensures { MatchOption result (take 1 (drop index (columns_of split row.now)) ≡ []) (λ found. take 1 (drop index (columns_of split row.now)) ≡ found.now ∷ []) }
{
    match split {
        Split::Words => nth_word_of_bytes(row, Separator::AsciiWhitespace, index),
        Split::Fields(delimiter) => nth_field_of_bytes(row, delimiter, index),
        Split::Csv(delimiter) => nth_csv_field(row, delimiter, index),
    }
}

/// Returns the column that has `behind` columns behind it, or `None` if the record has too few.
fn column_from_last(split: Split, behind: u32, row: &[u8]) -> Option<&[u8]>
    ensures { MatchOption result (from_last behind (columns_of split row.now) ≡ []) (λ found. from_last behind (columns_of split row.now) ≡ found.now ∷ []) }
{
    let all = all_columns(split, row);
    let mut ahead = all;
    'ahead: for at in 0..behind {
        let (_, after) = next_column(split, ahead)?;
        ahead = after;
    }
    let (_, after) = next_column(split, ahead)?;
    last_before(split, behind, all, after)
}

/// Returns the column of `left` that has `behind` columns behind it. `ahead` has these columns without the first `behind + 1`.
fn last_before<'a>(
    split: Split,
    behind: u32,
    left: Option<&'a [u8]>,
    ahead: Option<&'a [u8]>,
) -> Option<&'a [u8]>
    requires enough { behind < length (columns_left split left) }
    requires ahead { columns_left split ahead ≡ drop (behind + 1) (columns_left split left) }
    ensures { MatchOption result ⊥ (λ found. from_last behind (columns_left split left.entry) ≡ found.now ∷ []) }
{
    let mut left = left;
    let mut ahead = ahead;
    'each: loop {
        let (column, after) = next_column(split, left)?;
        let Some((_, further)) = next_column(split, ahead) else {
            return Some(column);
        };
        left = after;
        ahead = further;
    }
}

/// Returns what has the columns of a record.
fn all_columns(split: Split, row: &[u8]) -> Option<&[u8]>
    ensures { columns_left split result ≡ columns_of split row.now }
{
    match split {
        Split::Csv(_) if row.is_empty() => None,
        _ => Some(row),
    }
}

/// Returns the first column and what has the others, or `None` if there is no column.
fn next_column<'a>(split: Split, left: Option<&'a [u8]>) -> Option<(&'a [u8], Option<&'a [u8]>)>
    ensures { MatchOption result (columns_left split left.entry ≡ []) (λ taken. columns_left split left.entry ≡ taken.0.now ∷ columns_left split taken.1) }
{
    let rest = left?;
    match split {
        Split::Words => next_word_of(rest),
        Split::Fields(delimiter) => Some(next_field(rest, delimiter)),
        Split::Csv(delimiter) => Some(next_csv_field(rest, delimiter)),
    }
}

/// Returns the first word and what has the others, or `None` if there is no word.
fn next_word_of(rest: &[u8]) -> Option<(&[u8], Option<&[u8]>)>
    ensures { MatchOption result (words_of rest.now ≡ []) (λ taken. words_of rest.now ≡ taken.0.now ∷ columns_left Split.Words taken.1) }
{
    let (word, after) = next_word_of_bytes(rest, Separator::AsciiWhitespace);
    if word.is_empty() {
        return None;
    }
    Some((word, Some(after)))
}

/// Returns the first field and what has the others.
fn next_field(rest: &[u8], delimiter: u8) -> (&[u8], Option<&[u8]>)
    ensures { slice_split (λ byte. byte == delimiter) rest.now ≡ result.0.now ∷ columns_left (Split.Fields delimiter) result.1 }
{
    let (field, after) = rest.split_at(first_member(rest, OneByte(delimiter)));
    if after.is_empty() {
        return (field, None);
    }
    let (_, later) = after.split_at(1);
    (field, Some(later))
}

/// Returns the first field of CSV and what has the others.
fn next_csv_field(rest: &[u8], delimiter: u8) -> (&[u8], Option<&[u8]>)
    ensures { parts_between delimiter rest.now ≡ result.0.now ∷ columns_left (Split.Csv delimiter) result.1 }
{
    let (field, after) = rest.split_at(field_end(rest, delimiter));
    if after.is_empty() {
        return (field, None);
    }
    let (_, later) = after.split_at(1);
    (field, Some(later))
}

/// Appends the item that columns of a record make to `text`, which is empty, and returns whether the record has all of them. If not, or if an
/// allocation fails, the bytes of `text` mean nothing.
pub(crate) fn append_item(
    chosen: Columns,
    row: &[u8],
    text: &mut Vec<u8>,
) -> Result<bool, AllocError>
    requires { text.old.items ≡ [] }
    ensures made { IfOk result (λ made. made ≡ true → item_of chosen row.now ≡ text.new.items ∷ []) }
    ensures missing { IfOk result (λ made. made ≡ false → item_of chosen row.now ≡ []) }
{
    if chosen.num_more > 0 {
        return append_joined(chosen, row, text);
    }
    let Some(column) = column_of(chosen.split, chosen.first, row) else {
        return Ok(false);
    };
    append_text(chosen.split, column, text)?;
    Ok(true)
}

/// Appends what columns of a record add to an item to `text`, which is empty, and returns whether the record has all of them. If not, or if
/// an allocation fails, the bytes of `text` mean nothing.
fn append_joined(chosen: Columns, row: &[u8], text: &mut Vec<u8>) -> Result<bool, AllocError>
    requires { text.old.items ≡ [] }
    ensures made { IfOk result (λ made. made ≡ true → joined_of chosen row.now ≡ text.new.items ∷ []) }
    ensures missing { IfOk result (λ made. made ≡ false → joined_of chosen row.now ≡ []) }
{
    let split = chosen.split;
    let Some(first) = column_of(split, chosen.first, row) else {
        return Ok(false);
    };
    append_column(split, first, text)?;
    let more = first_of(&chosen.more, chosen.num_more);
    'more: for column in more {
        let Some(found) = column_of(split, *column, row) else {
            return Ok(false);
        };
        text.push(split.between())?;
        append_column(split, found, text)?;
    }
    Ok(true)
}

/// Returns the first columns, at most `count`.
fn first_of(columns: &[Column], count: usize) -> &[Column]
    ensures { result.now ≡ take count columns.now }
{
    if count >= columns.len() {
        return columns;
    }
    let (first, _) = columns.split_at(count);
    first
}

/// Appends the text of a column.
fn append_text(split: Split, column: &[u8], text: &mut Vec<u8>) -> Result<(), AllocError>
    ensures { OnOk result (text.new.items ≡ text.old.items ++ text_of split column.now) }
{
    match split {
        Split::Csv(_) => append_csv_text(column, text),
        _ => text.extend_from_slice(column),
    }
}

/// Appends what a column adds to an item of several columns.
fn append_column(split: Split, column: &[u8], text: &mut Vec<u8>) -> Result<(), AllocError>
    ensures { OnOk result (text.new.items ≡ text.old.items ++ added_by split column.now) }
{
    match split {
        Split::Csv(delimiter) => append_csv_spelling(column, delimiter, text),
        _ => text.extend_from_slice(column),
    }
}
