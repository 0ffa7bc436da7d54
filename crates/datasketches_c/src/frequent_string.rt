//! Reports on sketches of frequent strings.
ghost use Rattle.std.specs.List.{concat};
ghost use Rattle.std.specs.Prelude.{◌≡◌, ◌+◌, length, ◌≤◌, ◌^◌, MatchOption};
ghost use Rattle.datasketches_c.specs.FrequentRows.{error_type};
ghost use Rattle.datasketches_c.specs.FrequentStringRows.{LeavesStringRows, ReportsStrings, WritesStringRows, row_strings};
ghost use Rattle.datasketches_c.specs.Numbers.{OnDone, OnRefused, ok, no_room, refusal_number};
ghost use Rattle.datasketches_c.specs.Strings.{offsets_from};

use crate::frequent_rows::{copy_bounds, error_type_of, first_rows};
use crate::status_code::{NO_ROOM, OK, on_done, refusal_number};
use sketch_base::Fault;
use sketch_frequencies::{FrequentItemsSketch, ItemBounds, Row};

/// Returns the number of bytes of all strings of rows, or `None` if it is 2^64 or more.
fn num_bytes_of(rows: &[Row<String>]) -> Option<usize>
    ensures { MatchOption result (2 ^ 64 ≤ length (concat (row_strings rows.now))) (λ n. n ≡ length (concat (row_strings rows.now))) }
{
    let mut total: usize = 0;
    'each: for i in 0..rows.len() {
        let length = rows[i].item().as_bytes().len();
        if length > usize::MAX - total {
            return None;
        }
        total += length;
    }
    Some(total)
}

/// Writes the strings of rows one after another, and their offsets: where each string begins, and where the last one
/// ends.
fn copy_strings(rows: &[Row<String>], bytes: &mut [u8], offsets: &mut [u64])
    requires bytes { length bytes.old ≡ length (concat (row_strings rows.now)) }
    requires offsets { length offsets.old ≡ length rows.now + 1 }
    ensures bytes { bytes.new ≡ concat (row_strings rows.now) }
    ensures offsets { offsets.new ≡ offsets_from 0 (row_strings rows.now) }
{
    let mut end: usize = 0;
    offsets[0] = 0;
    'each: for i in 0..rows.len() {
        let string = rows[i].item().as_bytes();
        let next = end + string.len();
        bytes[end..next].copy_from_slice(string);
        offsets[i + 1] = next as u64;
        end = next;
    }
}

/// Copies rows, whose strings have `num_bytes` bytes, to the front of the buffers. Returns `NO_ROOM` if a buffer is too
/// short. Then the buffers are unchanged.
fn copy_rows(
    rows: &[Row<String>],
    num_bytes: usize,
    bytes: &mut [u8],
    offsets: &mut [u64],
    bounds: &mut [ItemBounds],
) -> i32
    requires { num_bytes ≡ length (concat (row_strings rows.now)) }
    ensures report { ReportsStrings rows.now (record { bytes = bytes.old; offsets = offsets.old; bounds = bounds.old })
        (record { bytes = bytes.new; offsets = offsets.new; bounds = bounds.new }) (length rows.now) num_bytes result }
    ensures no_room { OnRefused result (result ≡ no_room) }
    ensures done { OnDone result (result ≡ ok) }
    ensures untouched { OnRefused result ((bytes.new ≡ bytes.old) × (offsets.new ≡ offsets.old) × (bounds.new ≡ bounds.old)) }
{
    let needed = rows.len();
    if bytes.len() < num_bytes || offsets.len() <= needed || bounds.len() < needed {
        return NO_ROOM;
    }
    copy_strings(rows, &mut bytes[..num_bytes], &mut offsets[..needed + 1]);
    copy_bounds(rows, &mut bounds[..needed]);
    OK
}

/// Writes the first `limit` rows of a report to the front of the buffers, their number to `count`, and the number of bytes to
/// `num_bytes`. If a buffer is too short, only both numbers are written.
pub(crate) fn write_string_rows(
    sketch: &FrequentItemsSketch<String>,
    no_false_negatives: bool,
    threshold: u64,
    limit: usize,
    bytes: &mut [u8],
    offsets: &mut [u64],
    bounds: &mut [ItemBounds],
    count: &mut usize,
    num_bytes: &mut usize,
) -> i32
    ensures rows { WritesStringRows (error_type no_false_negatives) threshold limit sketch.now
        (record { bytes = bytes.old; offsets = offsets.old; bounds = bounds.old })
        (record { bytes = bytes.new; offsets = offsets.new; bounds = bounds.new }) count.new num_bytes.new result }
    ensures left { LeavesStringRows (record { bytes = bytes.old; offsets = offsets.old; bounds = bounds.old })
        (record { bytes = bytes.new; offsets = offsets.new; bounds = bounds.new }) count.old count.new num_bytes.old num_bytes.new result }
{
    on_done!(sketch.frequent_items_with_threshold(error_type_of(no_false_negatives), threshold), rows => {
            let first = first_rows(&rows, limit);
            let Some(length) = num_bytes_of(first) else {
                return refusal_number(Fault::NoMemory);
            };
            *count = first.len();
            *num_bytes = length;
            copy_rows(first, length, bytes, offsets, bounds)
        })
}
