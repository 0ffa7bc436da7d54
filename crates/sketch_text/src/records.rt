//! Records of bytes, which are lines or records of CSV, their parts, and the items and weights in them.
//!
//! - [`Records`] is how bytes are split. A [`RecordPart`] is a [`Part`] of a line, a [`CsvField`] of a record of CSV, or the item that
//!   [`Columns`] of either make. [`next_record`] takes the first record, and [`record_part_of`] and [`whole_part_of`] return a part of it.
//! - [`WeighedRecord`] chooses an item and its weight, and [`RecordItems`] are those of all records of bytes, for one call of a sketch.
//! - [`number_of`] and [`signed_number_of`] read a number in decimal digits.
pub use crate::columns::{Column, Columns, MAX_COLUMNS, Split};
pub use crate::decimals::{RecordWeight, number_of, signed_number_of};
pub use crate::field::Field;
pub use crate::part::{Part, part_of, raw_part_of};
pub use crate::raw_lines::next_raw_line;
pub use crate::record_items::{BadRecord, RecordItems, WeighedRecord};
pub use crate::record_part::{CsvField, RecordPart, next_record, record_part_of, whole_part_of};

/// How bytes are split into records.
#[derive(Clone, Copy)]
pub enum Records {
    /// Each line is a record.
    Lines,
    /// The records of CSV with this delimiter.
    Csv(u8),
}
