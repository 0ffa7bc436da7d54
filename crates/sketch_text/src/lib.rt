//! What reads text into records: fields between delimiters, CSV, numbers in decimal digits, and items of columns with their weights.
//!
//! - [`records`] splits bytes into lines or records of CSV, and returns their items with their weights. A [`StringBuffer`] is many
//!   strings in one buffer.
//! - [`nth_field_of_bytes`] and [`nth_field`] return one field between delimiters.
//! - [`next_csv_record`] takes the first record of CSV, and [`nth_csv_field`] returns one of its fields. [`plain_csv_text`] and
//!   [`append_csv_text`] return the text of a field. [`finished_csv_records`] returns where a chunk of a stream can be split, and the
//!   [`Place`] after it.
//! - [`laws`] states that columns are read back from an item, and that records of CSV concatenate to the text.
#![tactic(auto)]

mod columns;
mod csv_fields;
mod csv_records;
mod decimals;
mod field;
mod fields;
pub mod laws;
mod part;
mod place;
mod raw_lines;
mod record_items;
mod record_part;
pub mod records;
mod string_buffer;
mod two_bytes;

pub use csv_fields::{append_csv_text, nth_csv_field, plain_csv_text};
pub use csv_records::{finished_csv_records, next_csv_record};
pub use fields::{nth_field, nth_field_of_bytes};
pub use place::Place;
pub use string_buffer::StringBuffer;
