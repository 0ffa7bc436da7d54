//! Lines of bytes that may not be UTF-8.
ghost use Rattle.std.specs.Prelude.{IfSome};
ghost use Rattle.sketch_base.specs.Split.{TakesLine};
ghost use Rattle.sketch_text.specs.Records.{IsEndOf};

use crate::csv_records::without_carriage_return;
use sketch_base::{Separator, first_separator};

/// Returns the first line of bytes and the bytes after its end, or `None` if there are no bytes. Does not allocate.
///
/// A line ends at a line feed or at the end of the bytes. It has neither the line feed nor a carriage return before it. The bytes need
/// not be UTF-8.
pub fn next_raw_line(bytes: &[u8]) -> Option<(&[u8], &[u8])>
    ensures taken { TakesLine bytes.now result }
    ensures end { IfSome result (λ taken. IsEndOf bytes.now taken.1.now) }
{
    if bytes.is_empty() {
        return None;
    }
    let (line, after) = bytes.split_at(first_separator(bytes, Separator::LineFeed));
    if after.is_empty() {
        return Some((line, after));
    }
    let (_, rest) = after.split_at(1);
    Some((without_carriage_return(line), rest))
}
