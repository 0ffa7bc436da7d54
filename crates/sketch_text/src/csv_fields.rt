//! The fields of a record of CSV.
ghost use Rattle.std.specs.Prelude.{◌≡◌, ◌==◌, ◌≤◌, ◌++◌, [], ◌∷◌, MatchOption, OnOk, length, take, true};
ghost use Rattle.std.specs.List.{flat_map, list_any};
ghost use Rattle.sketch_text.specs.Csv.{IsFieldEnd, begins_with_quote, field_at, in_quotes_as, needs_quotes, spelled, text_of_field};

use crate::csv_records::first_cut;
use crate::place::{Place, QUOTE};
use sketch_base::{OneByte, first_member};
use std::alloc::AllocError;

/// Returns the field of an index, counted from 0, with its quotes, or `None` if the record has too few fields. Does not allocate.
///
/// A delimiter in quotes is a byte of its field. A record without bytes has no field.
#[inline(always)]
pub fn nth_csv_field(row: &[u8], delimiter: u8, index: u32) -> Option<&[u8]>
    ensures { MatchOption result (field_at delimiter index row.now ≡ []) (λ field. field_at delimiter index row.now ≡ field.now ∷ []) }
{
    if row.is_empty() {
        return None;
    }
    let mut rest = row;
    'fields: for at in 0..index {
        let (_, after) = rest.split_at(field_end(rest, delimiter));
        if after.is_empty() {
            return None;
        }
        let (_, later) = after.split_at(1);
        rest = later;
    }
    let (field, _) = rest.split_at(field_end(rest, delimiter));
    Some(field)
}

/// Returns the index of the first delimiter outside of quotes, or the number of bytes if there is none.
#[inline(always)]
pub(crate) fn field_end(bytes: &[u8], delimiter: u8) -> usize
    ensures bound { result ≤ length bytes.now }
    ensures end { IsFieldEnd delimiter bytes.now result }
{
    if !begins_with_quote(bytes) {
        return first_member(bytes, OneByte(delimiter));
    }
    let (at, _) = first_cut(OneByte(delimiter), OneByte(delimiter), Place::Start, bytes);
    at
}

/// Returns whether the first byte is a quote.
#[inline(always)]
fn begins_with_quote(bytes: &[u8]) -> bool
    ensures { result ≡ begins_with_quote bytes.now }
{
    match bytes {
        [] => false,
        [first, ..] => *first == QUOTE,
    }
}

/// Returns the text of a field, if it stands in one piece among its bytes: if the field has no quotes around it, or neither two quotes for
/// one nor bytes after the closing quote.
#[inline(always)]
pub fn plain_csv_text(field: &[u8]) -> Option<&[u8]>
    ensures { MatchOption result (begins_with_quote field.now ≡ true) (λ text. text.now ≡ text_of_field field.now) }
{
    if !begins_with_quote(field) {
        return Some(field);
    }
    let (_, inner) = field.split_at(1);
    let at = first_member(inner, OneByte(QUOTE));
    if at + 1 < inner.len() {
        return None;
    }
    let (text, _) = inner.split_at(at);
    Some(text)
}

/// Appends the text of a field: its bytes without the quotes around them, and one quote for two in quotes.
pub fn append_csv_text(field: &[u8], text: &mut Vec<u8>) -> Result<(), AllocError>
    ensures { OnOk result (text.new.items ≡ text.old.items ++ text_of_field field.now) }
{
    let mut place = Place::Start;
    'bytes: for byte in field {
        if place.keeps(*byte) {
            text.push(*byte)?;
        }
        place = place.after(*byte, false);
    }
    Ok(())
}

/// Appends the spelling of the text of a field: in quotes exactly if the text has a delimiter, a quote or a line end.
pub(crate) fn append_csv_spelling(
    field: &[u8],
    delimiter: u8,
    text: &mut Vec<u8>,
) -> Result<(), AllocError>
    ensures { OnOk result (text.new.items ≡ text.old.items ++ spelled delimiter (text_of_field field.now)) }
{
    if !has_special_byte(field, delimiter) {
        return append_csv_text(field, text);
    }
    text.push(QUOTE)?;
    append_in_quotes(field, text)?;
    text.push(QUOTE)?;
    Ok(())
}

/// Returns whether the text of a field has a byte that needs quotes.
fn has_special_byte(field: &[u8], delimiter: u8) -> bool
    ensures { result ≡ list_any (needs_quotes delimiter) (text_of_field field.now) }
{
    let mut place = Place::Start;
    'bytes: for byte in field {
        if place.keeps(*byte) && needs_quotes(*byte, delimiter) {
            return true;
        }
        place = place.after(*byte, false);
    }
    false
}

/// Returns whether only a field in quotes may have this byte.
fn needs_quotes(byte: u8, delimiter: u8) -> bool
    ensures { result ≡ needs_quotes delimiter byte }
{
    byte == delimiter || byte == QUOTE || byte == b'\n' || byte == b'\r'
}

/// Appends the text of a field as it stands in quotes: each quote is doubled.
fn append_in_quotes(field: &[u8], text: &mut Vec<u8>) -> Result<(), AllocError>
    ensures { OnOk result (text.new.items ≡ text.old.items ++ flat_map in_quotes_as (text_of_field field.now)) }
{
    let mut place = Place::Start;
    'bytes: for byte in field {
        if place.keeps(*byte) {
            push_in_quotes(*byte, text)?;
        }
        place = place.after(*byte, false);
    }
    Ok(())
}

/// Appends a byte as it stands in quotes.
fn push_in_quotes(byte: u8, text: &mut Vec<u8>) -> Result<(), AllocError>
    ensures { OnOk result (text.new.items ≡ text.old.items ++ in_quotes_as byte) }
{
    if byte == QUOTE {
        text.push(QUOTE)?;
    }
    text.push(byte)?;
    Ok(())
}
