//! Reports on frequent items of any type, as rows in the caller's buffers.
ghost use Rattle.std.specs.Prelude.{◌≡◌, ◌<◌, ◌≤◌, length, map, take};
ghost use Rattle.datasketches_c.specs.FrequentRows.{LeavesRows, StandAtFront, WritesRows, bounds_in, error_type};
ghost use Rattle.datasketches_c.specs.Numbers.{ok, no_room};

use crate::status_code::{NO_ROOM, OK, on_done};
use sketch_frequencies::{EqualClone, ErrorType, FrequentItemsSketch, ItemBounds, Row};
use std::hash::Hash;

/// Writes the first `limit` rows of a report to the front of both buffers, and their number to `count`. If a buffer is too short, only
/// `count` is written.
pub(crate) fn write_rows<T: EqualClone + Hash + Copy + Drop>(
    sketch: &FrequentItemsSketch<T>,
    no_false_negatives: bool,
    threshold: u64,
    limit: usize,
    items: &mut [T],
    bounds: &mut [ItemBounds],
    count: &mut usize,
) -> i32
    ensures rows { WritesRows T.eq (error_type no_false_negatives) threshold sketch.now limit items.old items.new
        bounds.old bounds.new count.new result }
    ensures left { LeavesRows items.old items.new bounds.old bounds.new count.old count.new result }
{
    on_done!(sketch.frequent_items_with_threshold(error_type_of(no_false_negatives), threshold), rows => copy_rows(first_rows(&rows, limit), items, bounds, count))
}

/// Returns the first `limit` rows, or all if there are fewer.
pub(crate) fn first_rows<T>(rows: &[Row<T>], limit: usize) -> &[Row<T>]
    ensures { result.now ≡ take limit rows.now }
{
    if rows.len() <= limit {
        return rows;
    }
    &rows[..limit]
}

/// Returns the error type of a report.
pub(crate) fn error_type_of(no_false_negatives: bool) -> ErrorType
    ensures { result ≡ error_type no_false_negatives }
{
    if no_false_negatives {
        ErrorType::NoFalseNegatives
    } else {
        ErrorType::NoFalsePositives
    }
}

/// Copies rows to the front of both buffers, and writes the number of rows. Returns `NO_ROOM` if a buffer is too short.
/// Then the buffers are unchanged.
fn copy_rows<T: Copy>(
    rows: &[Row<T>],
    items: &mut [T],
    bounds: &mut [ItemBounds],
    count: &mut usize,
) -> i32
    ensures counted { count.new ≡ length rows.now }
    ensures written { length rows.now ≤ length items.old → length rows.now ≤ length bounds.old
        → (result ≡ ok) × StandAtFront rows.now items.old items.new bounds.old bounds.new }
    ensures few_items { length items.old < length rows.now → result ≡ no_room }
    ensures few_bounds { length bounds.old < length rows.now → result ≡ no_room }
    ensures left { LeavesRows items.old items.new bounds.old bounds.new count.old count.new result }
{
    let needed = rows.len();
    *count = needed;
    if items.len() < needed || bounds.len() < needed {
        return NO_ROOM;
    }
    copy_items(rows, &mut items[..needed]);
    copy_bounds(rows, &mut bounds[..needed]);
    OK
}

/// Writes the items of rows.
fn copy_items<T: Copy>(rows: &[Row<T>], items: &mut [T])
    requires same { length items.old ≡ length rows.now }
    ensures { items.new ≡ map (λ row. row.item) rows.now }
{
    'each: for i in 0..rows.len() {
        items[i] = *rows[i].item();
    }
}

/// Writes the bounds of rows.
pub(crate) fn copy_bounds<T>(rows: &[Row<T>], bounds: &mut [ItemBounds])
    requires same { length bounds.old ≡ length rows.now }
    ensures { bounds.new ≡ map bounds_in rows.now }
{
    'each: for i in 0..rows.len() {
        let row = &rows[i];
        bounds[i] = ItemBounds {
            lower_bound: row.lower_bound(),
            estimate: row.estimate(),
            upper_bound: row.upper_bound(),
        };
    }
}
