//! Options that choose columns: numbers from the first or from the last, or names in a header of CSV.
use sketch_base::from_utf8;
use sketch_text::nth_csv_field;
use sketch_text::records::{
    Column, Columns, CsvField, Field, MAX_COLUMNS, Part, RecordPart, Split, number_of,
};

/// The message of a field that is not allowed.
pub const BAD_FIELD: &str =
    "--field, --weight and --keys-field must be numbers from 1 to 4294967295 or from -1 to -4294967295, or with --csv names";

/// The message of a list of too many fields.
const TOO_MANY_FIELDS: &str = "--field and --keys-field must have at most 8 fields";

/// The number of columns that a list can have at most.
const MAX_CHOSEN: u32 = MAX_COLUMNS as u32;

/// A column as an option chooses it.
#[derive(Clone, Copy)]
pub enum Chosen<'a> {
    Column(Column),
    /// A name in the header, spelled as a field of CSV: it may stand in quotes.
    Name(&'a str),
}

/// The columns that an option chooses: at least one, and at most `MAX_COLUMNS`.
#[derive(Clone, Copy)]
pub struct ColumnList<'a> {
    /// A record of CSV with commas. Each field of it chooses a column.
    text: &'a str,
}

impl<'a> ColumnList<'a> {
    /// Returns the columns that the text of an option chooses. They stand between commas, outside of quotes.
    ///
    /// # Errors
    ///
    /// Returns a message if a number is not allowed, if a field is empty, or if there are too many fields.
    pub fn read(text: &'a str) -> Result<Self, &'static str> {
        let list = ColumnList { text };
        for index in 0..MAX_CHOSEN {
            if !list.has_nth(index) {
                break;
            }
            if list.nth(index).is_none() {
                return Err(BAD_FIELD);
            }
        }
        if list.has_nth(MAX_CHOSEN) {
            return Err(TOO_MANY_FIELDS);
        }
        Ok(list)
    }

    /// Returns whether there is a column of this index in the list.
    pub fn has_nth(&self, index: u32) -> bool {
        index == 0 || nth_csv_field(self.text.as_bytes(), b',', index).is_some()
    }

    /// Returns the column of this index in the list, or `None` if it has fewer. An empty text is an empty name.
    pub fn nth(&self, index: u32) -> Option<Chosen<'a>> {
        if index == 0 && self.text.is_empty() {
            return Some(Chosen::Name(self.text));
        }
        chosen_by(nth_csv_field(self.text.as_bytes(), b',', index)?)
    }

    /// Returns whether a column is named.
    pub fn has_name(&self) -> bool {
        for index in 0..MAX_CHOSEN {
            if let Some(Chosen::Name(_)) = self.nth(index) {
                return true;
            }
        }
        false
    }

    /// Returns the columns of a line that is split in this way, or `None` if one of them is named.
    pub fn columns(&self, split: Split) -> Option<Columns> {
        let mut columns = None;
        for index in 0..MAX_CHOSEN {
            match self.nth(index) {
                Some(Chosen::Column(column)) => {
                    columns = Some(with_column(columns, split, column));
                }
                Some(Chosen::Name(_)) => return None,
                None => break,
            }
        }
        columns
    }
}

/// Returns the column that a field of a list chooses: digits with or without a minus are a number. Returns `None` if the field is empty, if
/// the number is not allowed, or if a name without quotes begins with a minus.
fn chosen_by(field: &[u8]) -> Option<Chosen<'_>> {
    let (first, rest) = field.split_first()?;
    if *first == b'-' {
        return Some(Chosen::Column(Column::FromLast(index_of(rest)?)));
    }
    if is_number(field) {
        return Some(Chosen::Column(Column::FromFirst(index_of(field)?)));
    }
    match from_utf8(field) {
        Ok(name) => Some(Chosen::Name(name)),
        Err(_) => None,
    }
}

/// Returns whether each byte is a digit.
fn is_number(text: &[u8]) -> bool {
    for byte in text {
        if !byte.is_ascii_digit() {
            return false;
        }
    }
    true
}

/// Returns the index of a field, counted from 0, whose number bytes spell. Returns `None` if they spell no number from 1 to `u32::MAX`.
fn index_of(digits: &[u8]) -> Option<u32> {
    let number = number_of(digits)?;
    if number == 0 || number > u64::from(u32::MAX) {
        return None;
    }
    Some(number as u32 - 1)
}

/// Returns columns and one more after them, or this one alone. Returns them as they are if they are `MAX_COLUMNS`.
pub fn with_column(columns: Option<Columns>, split: Split, column: Column) -> Columns {
    let Some(mut columns) = columns else {
        return Columns::new(split, column);
    };
    let _ = columns.push(column);
    columns
}

/// Returns the part of a record that columns are. One column from the first is a part that takes less time.
pub fn part_of(columns: Columns) -> RecordPart {
    match (columns.get(0), columns.get(1)) {
        (Some(Column::FromFirst(index)), None) => match columns.split() {
            Split::Words => RecordPart::Line(Part::Word(index)),
            Split::Fields(delimiter) if delimiter.is_ascii() => {
                RecordPart::Line(Part::Field(Field { delimiter, index }))
            }
            Split::Fields(_) => RecordPart::Columns(columns),
            Split::Csv(delimiter) => RecordPart::Csv(CsvField { delimiter, index }),
        },
        _ => RecordPart::Columns(columns),
    }
}
