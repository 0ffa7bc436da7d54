//! Where inputs can be split into records.
ghost use Rattle.std.specs.Prelude.{◌≡◌, ◌≤◌, ◌++◌, IfSome, length};
ghost use Rattle.sketches.specs.RecordParts.{TakesRawRecord};
ghost use Rattle.sketches.specs.Reading.{IsBehindEnd, place_of};

use crate::read::raw_lines::next_line_with_end;
use sketch_base::finished_lines;
use sketch_text::records::{RecordPart, Records};
use sketch_text::{Place, finished_csv_records, next_csv_record};

/// Returns the number of bytes through the last end of a record, or 0 if there is none, and the place in a field after all bytes.
///
/// The bytes follow others, after which they are at `place`.
#[inline(always)]
pub fn finished_records(records: Records, place: Place, bytes: &[u8]) -> (usize, Place)
    ensures bound { result.0 ≤ length bytes.now }
    ensures last { IsBehindEnd records place bytes.now result.0 }
    ensures place { result.1 ≡ place_of records place bytes.now }
{
    match records {
        Records::Lines => (finished_lines(bytes), Place::Start),
        Records::Csv(delimiter) => finished_csv_records(delimiter, place, bytes),
    }
}

/// Returns the first record of bytes with its end, the same record without it, and the bytes after it. Returns `None` if there are no
/// bytes.
///
/// The end is the line feed and a carriage return before it. The last record may have no end. So the records with their ends, one
/// after another, are the bytes.
#[inline(always)]
pub fn next_record_with_end(part: RecordPart, bytes: &[u8]) -> Option<(&[u8], &[u8], &[u8])>
    ensures taken { TakesRawRecord part bytes.now result }
    ensures whole { IfSome result (λ taken. bytes.now ≡ taken.0.now ++ taken.2.now) }
{
    match part.records() {
        Records::Lines => next_line_with_end(bytes),
        Records::Csv(delimiter) => match next_csv_record(bytes, delimiter) {
            Some((raw, row, after)) => Some((raw, row, after)),
            None => None,
        },
    }
}
