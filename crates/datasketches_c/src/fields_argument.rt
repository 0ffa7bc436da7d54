//! The fields of records as an argument of calls.
ghost use Rattle.std.specs.Prelude.{◌≡◌, MatchOption, pos};
ghost use Rattle.datasketches_c.specs.FieldUpdates.{IsChosen, IsPart};
ghost use Rattle.sketch_text.specs.declared.record_items.WeighedRecord.{WeighedRecord as OfRecord};
ghost use Rattle.sketch_text.specs.declared.record_part.RecordPart.{RecordPart as OfPart};

use sketch_text::records::{CsvField, Field, Part, RecordPart, WeighedRecord};

/// The index that names no field.
const NO_FIELD: u32 = 4294967295;

/// How bytes stand for records, and which of their fields are items and weights: `ds_fields` of C.
#[repr(C)]
pub struct FieldsArgument {
    /// The number of the format: `DS_FIELDS_WORDS` and so on in C.
    pub format: i32,
    /// The byte between fields. Words have none.
    pub delimiter: u8,
    /// The index of the field that is the item, from 0.
    pub item: u32,
    /// The index of the field with the weight.
    pub weight: u32,
}

/// What was read of records: `ds_fields_read` of C.
#[repr(C)]
pub struct FieldsRead {
    /// The number of records.
    pub num_records: usize,
    /// The number of their items.
    pub num_items: usize,
    /// The index of the byte at which a record with an error begins.
    pub offset: usize,
}

/// Returns a word of a line, or the line.
fn word(index: u32) -> RecordPart
    ensures { IsPart (pos 0) 0 index result }
{
    if index == NO_FIELD {
        return RecordPart::Line(Part::Line);
    }
    RecordPart::Line(Part::Word(index))
}

/// Returns a field of a line between delimiters of ASCII, or the line. Returns `None` if the delimiter is not ASCII, also for the line.
fn field_between(delimiter: u8, index: u32) -> Option<RecordPart>
    ensures { MatchOption result ((part : OfPart) → ¬ IsPart (pos 1) delimiter index part) (IsPart (pos 1) delimiter index) }
{
    if delimiter >= 128 {
        return None;
    }
    if index == NO_FIELD {
        return Some(RecordPart::Line(Part::Line));
    }
    Some(RecordPart::Line(Part::Field(Field { delimiter, index })))
}

/// Returns a field of a record of CSV. Returns `None` if there is none, or the delimiter is a quote or ends a line.
fn field_of_csv(delimiter: u8, index: u32) -> Option<RecordPart>
    ensures { MatchOption result ((part : OfPart) → ¬ IsPart (pos 2) delimiter index part) (IsPart (pos 2) delimiter index) }
{
    if index == NO_FIELD {
        return None;
    }
    if delimiter == b'"' || delimiter == b'\n' || delimiter == b'\r' {
        return None;
    }
    Some(RecordPart::Csv(CsvField { delimiter, index }))
}

/// Returns the part of an index in records of a format. Returns `None` if the format is not known, or has no such part.
fn part_of(fields: &FieldsArgument, index: u32) -> Option<RecordPart>
    ensures { MatchOption result ((part : OfPart) → ¬ IsPart fields.now.format fields.now.delimiter index part)
        (IsPart fields.now.format fields.now.delimiter index) }
{
    match fields.format {
        0 => Some(word(index)),
        1 => field_between(fields.delimiter, index),
        2 => field_of_csv(fields.delimiter, index),
        _ => None,
    }
}

/// Returns the item and the weight that an argument chooses, or `None` if it chooses nothing.
pub(crate) fn chosen_record(fields: &FieldsArgument) -> Option<WeighedRecord>
    ensures { MatchOption result ((chosen : OfRecord) → ¬ IsChosen fields.now chosen) (IsChosen fields.now) }
{
    let Some(item) = part_of(fields, fields.item) else {
        return None;
    };
    if fields.weight == NO_FIELD {
        return Some(WeighedRecord { item, weight: None });
    }
    let Some(weight) = part_of(fields, fields.weight) else {
        return None;
    };
    Some(WeighedRecord {
        item,
        weight: Some(weight),
    })
}
