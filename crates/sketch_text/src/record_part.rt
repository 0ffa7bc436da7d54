//! The parts of records.
ghost use Rattle.std.specs.Prelude.{◌≡◌, ◌⊎◌, ◌∷◌, [], IfOk, IfSome, MatchOption, true};
ghost use Rattle.sketch_text.specs.Records.{IsEndOf, TakesRecord, may_be_made, part_in, splits_by};

use crate::columns::{Columns, append_item};
use crate::csv_fields::{append_csv_text, nth_csv_field, plain_csv_text};
use crate::csv_records::next_csv_record;
use crate::part::{Part, raw_part_of};
use crate::raw_lines::next_raw_line;
use crate::records::Records;
use std::alloc::AllocError;

/// A part of a record.
#[derive(Clone, Copy)]
pub enum RecordPart {
    /// A part of a line.
    Line(Part),
    /// The text of a field of a record of CSV.
    Csv(CsvField),
    /// The item that several columns of a record make, or a column that is counted back from the last.
    Columns(Columns),
}

/// A field of a record of CSV. Its index is counted from 0.
#[derive(Clone, Copy)]
pub struct CsvField {
    pub delimiter: u8,
    pub index: u32,
}

impl RecordPart {
    /// Returns how bytes are split into records that have this part.
    pub fn records(self) -> Records
        ensures { result ≡ splits_by self }
    {
        match self {
            RecordPart::Line(_) => Records::Lines,
            RecordPart::Csv(field) => Records::Csv(field.delimiter),
            RecordPart::Columns(chosen) => chosen.split().records(),
        }
    }
}

/// Returns the first record of bytes without its end, and the bytes after it. Returns `None` if there are no bytes. Does not allocate.
#[inline(always)]
pub fn next_record(part: RecordPart, bytes: &[u8]) -> Option<(&[u8], &[u8])>
    ensures taken { TakesRecord part bytes.now result }
    ensures end { IfSome result (λ taken. IsEndOf bytes.now taken.1.now) }
{
    match part.records() {
        Records::Lines => next_raw_line(bytes),
        Records::Csv(delimiter) => match next_csv_record(bytes, delimiter) {
            Some((_, row, after)) => Some((row, after)),
            None => None,
        },
    }
}

/// Returns a part of a record, or `None` if the record does not have it, or its bytes may not stand in one piece: it is a field in quotes, or
/// made of columns. Does not allocate.
#[inline(always)]
pub fn whole_part_of(part: RecordPart, row: &[u8]) -> Option<&[u8]>
    ensures { MatchOption result ((part_in part row.now ≡ []) ⊎ (may_be_made part row.now ≡ true)) (λ item. part_in part row.now ≡ item.now ∷ []) }
{
    match part {
        RecordPart::Line(part) => raw_part_of(part, row),
        RecordPart::Csv(field) => match nth_csv_field(row, field.delimiter, field.index) {
            Some(found) => plain_csv_text(found),
            None => None,
        },
        RecordPart::Columns(_) => None,
    }
}

/// Returns a part of a record, or `None` if the record does not have it. Appends its bytes to `text`, which is empty, if they do not
/// stand in one piece.
#[inline(always)]
pub fn record_part_of<'a>(
    part: RecordPart,
    row: &'a [u8],
    text: &'a mut Vec<u8>,
) -> Result<Option<&'a [u8]>, AllocError>
    requires { text.old.items ≡ [] }
    ensures { IfOk result (λ found. MatchOption found (part_in part row.now ≡ []) (λ item. part_in part row.now ≡ item.now ∷ [])) }
{
    let field = match part {
        RecordPart::Line(part) => return Ok(raw_part_of(part, row)),
        RecordPart::Csv(field) => field,
        RecordPart::Columns(chosen) => {
            if append_item(chosen, row, text)? {
                return Ok(Some(text.as_slice()));
            }
            return Ok(None);
        }
    };
    let Some(found) = nth_csv_field(row, field.delimiter, field.index) else {
        return Ok(None);
    };
    if let Some(plain) = plain_csv_text(found) {
        return Ok(Some(plain));
    }
    append_csv_text(found, text)?;
    Ok(Some(text.as_slice()))
}
