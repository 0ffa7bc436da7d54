//! Reports on sketches of frequent items.
ghost use Rattle.std.specs.Prelude.{◌≡◌, ◌≢◌};
ghost use Rattle.datasketches_c.specs.Calls.{ReadsOwn, ReadsSketch};
ghost use Rattle.datasketches_c.specs.FrequentRows.{LeavesRows, WritesI64Rows, WritesU64Rows, error_type};
ghost use Rattle.datasketches_c.specs.FrequentStringRows.{LeavesStringRows, WritesRowsOfStrings};
ghost use Rattle.datasketches_c.specs.Numbers.{OnRefused, no_room, ok};
ghost use Rattle.datasketches_c.specs.Sharing.{unshared};

use crate::frequent_rows::write_rows;
use crate::frequent_string::write_string_rows;
use crate::handle::SketchHandle;
use crate::held_sketch::HeldSketch;
use crate::status_code::{NO_SKETCH, WRONG_KIND};
use any_sketch::AnySketch;
use sketch_frequencies::ItemBounds;
use std::alloc::Global;

/// Writes the rows of a report on the sketch of strings that a handle holds.
fn string_rows_in(
    held: &HeldSketch,
    no_false_negatives: bool,
    threshold: u64,
    limit: usize,
    bytes: &mut [u8],
    offsets: &mut [u64],
    bounds: &mut [ItemBounds],
    count: &mut usize,
    num_bytes: &mut usize,
) -> i32
    ensures rows { ReadsOwn (unshared held.now) result (λ s. WritesRowsOfStrings s (error_type no_false_negatives) threshold limit
        (record { bytes = bytes.old; offsets = offsets.old; bounds = bounds.old })
        (record { bytes = bytes.new; offsets = offsets.new; bounds = bounds.new }) count.new num_bytes.new result) }
    ensures left { LeavesStringRows (record { bytes = bytes.old; offsets = offsets.old; bounds = bounds.old })
        (record { bytes = bytes.new; offsets = offsets.new; bounds = bounds.new }) count.old count.new num_bytes.old num_bytes.new result }
{
    match held.get() {
        Some(AnySketch::FrequentStrings(sketch)) => write_string_rows(
            sketch,
            no_false_negatives,
            threshold,
            limit,
            bytes,
            offsets,
            bounds,
            count,
            num_bytes,
        ),
        _ => WRONG_KIND,
    }
}

/// Writes the tracked strings whose bound exceeds both the threshold and the error, in rows of descending estimates, at most
/// `limit` rows. The strings are written one after another to the front of `bytes`, and their bounds to the front of `bounds`.
/// String i is the bytes from offset i up to offset i + 1. The first offset is 0, and there is one more offset than rows. `count` is
/// the number of rows, and `num_bytes` is the number of bytes of their strings. The rest of the buffers stays as it was.
///
/// With `no_false_negatives` the upper bound is compared. Then each string whose true weight exceeds both is listed, unless there are
/// more than `limit`. Otherwise the lower bound is compared. Then no other string is listed.
///
/// Returns the first of these errors, and then changes nothing:
///
/// - `NO_SKETCH` if the handle has no sketch, and `WRONG_KIND` if its sketch is of another kind.
/// - `NoMemory` if an allocation fails.
///
/// Returns `NO_ROOM` if a buffer is too short. Then only `count` and `num_bytes` are written.
#[unsafe(no_mangle)]
pub extern "C" fn ds_frequent_items_string_rows(
    alloc: Global,
    handle: &mut SketchHandle,
    no_false_negatives: bool,
    threshold: u64,
    limit: usize,
    bytes: &mut [u8],
    offsets: &mut [u64],
    bounds: &mut [ItemBounds],
    count: &mut usize,
    num_bytes: &mut usize,
) -> i32
    ensures kept { handle.new.value ≡ handle.old.value }
    ensures untouched { OnRefused result
        ((bytes.new ≡ bytes.old) × (offsets.new ≡ offsets.old) × (bounds.new ≡ bounds.old)) }
    ensures uncounted { result ≢ ok → result ≢ no_room
        → (count.new ≡ count.old) × (num_bytes.new ≡ num_bytes.old) }
    ensures rows { ReadsSketch handle.old.value result (λ s. WritesRowsOfStrings s (error_type no_false_negatives) threshold limit
        (record { bytes = bytes.old; offsets = offsets.old; bounds = bounds.old })
        (record { bytes = bytes.new; offsets = offsets.new; bounds = bounds.new }) count.new num_bytes.new result) }
{
    let Some(held) = handle.take(alloc) else {
        return NO_SKETCH;
    };
    let answer = string_rows_in(
        &held,
        no_false_negatives,
        threshold,
        limit,
        bytes,
        offsets,
        bounds,
        count,
        num_bytes,
    );
    handle.give(held);
    answer
}

/// Writes the rows of a report on the sketch of `u64` that a handle holds.
fn u64_rows_in(
    held: &HeldSketch,
    no_false_negatives: bool,
    threshold: u64,
    limit: usize,
    items: &mut [u64],
    bounds: &mut [ItemBounds],
    count: &mut usize,
) -> i32
    ensures rows { ReadsOwn (unshared held.now) result (λ s. WritesU64Rows s (error_type no_false_negatives) threshold limit
        items.old items.new bounds.old bounds.new count.new result) }
    ensures left { LeavesRows items.old items.new bounds.old bounds.new count.old count.new result }
{
    match held.get() {
        Some(AnySketch::FrequentU64(sketch)) => write_rows(
            sketch,
            no_false_negatives,
            threshold,
            limit,
            items,
            bounds,
            count,
        ),
        _ => WRONG_KIND,
    }
}

/// Writes the tracked numbers whose bound exceeds both the threshold and the error, in rows of descending estimates, at most
/// `limit` rows. A row is a number at the front of `items`, and its bounds at the same index of `bounds`. `count` is the number of
/// rows. The rest of both buffers stays as it was.
///
/// With `no_false_negatives` the upper bound is compared. Then each number whose true weight exceeds both is listed, unless there are
/// more than `limit`. Otherwise the lower bound is compared. Then no other number is listed.
///
/// Returns the first of these errors, and then changes nothing:
///
/// - `NO_SKETCH` if the handle has no sketch, and `WRONG_KIND` if its sketch is of another kind.
/// - `NoMemory` if an allocation fails.
///
/// Returns `NO_ROOM` if a buffer has fewer places than there are rows. Then only `count` is written.
#[unsafe(no_mangle)]
pub extern "C" fn ds_frequent_items_u64_rows(
    alloc: Global,
    handle: &mut SketchHandle,
    no_false_negatives: bool,
    threshold: u64,
    limit: usize,
    items: &mut [u64],
    bounds: &mut [ItemBounds],
    count: &mut usize,
) -> i32
    ensures kept { handle.new.value ≡ handle.old.value }
    ensures untouched { OnRefused result ((items.new ≡ items.old) × (bounds.new ≡ bounds.old)) }
    ensures uncounted { result ≢ ok → result ≢ no_room → count.new ≡ count.old }
    ensures rows { ReadsSketch handle.old.value result (λ s. WritesU64Rows s (error_type no_false_negatives) threshold limit
        items.old items.new bounds.old bounds.new count.new result) }
{
    let Some(held) = handle.take(alloc) else {
        return NO_SKETCH;
    };
    let answer = u64_rows_in(
        &held,
        no_false_negatives,
        threshold,
        limit,
        items,
        bounds,
        count,
    );
    handle.give(held);
    answer
}

/// Writes the rows of a report on the sketch of `i64` that a handle holds.
fn i64_rows_in(
    held: &HeldSketch,
    no_false_negatives: bool,
    threshold: u64,
    limit: usize,
    items: &mut [i64],
    bounds: &mut [ItemBounds],
    count: &mut usize,
) -> i32
    ensures rows { ReadsOwn (unshared held.now) result (λ s. WritesI64Rows s (error_type no_false_negatives) threshold limit
        items.old items.new bounds.old bounds.new count.new result) }
    ensures left { LeavesRows items.old items.new bounds.old bounds.new count.old count.new result }
{
    match held.get() {
        Some(AnySketch::FrequentI64(sketch)) => write_rows(
            sketch,
            no_false_negatives,
            threshold,
            limit,
            items,
            bounds,
            count,
        ),
        _ => WRONG_KIND,
    }
}

/// Writes the tracked numbers whose bound exceeds both the threshold and the error, in rows of descending estimates, at most
/// `limit` rows. A row is a number at the front of `items`, and its bounds at the same index of `bounds`. `count` is the number of
/// rows. The rest of both buffers stays as it was.
///
/// With `no_false_negatives` the upper bound is compared. Then each number whose true weight exceeds both is listed, unless there are
/// more than `limit`. Otherwise the lower bound is compared. Then no other number is listed.
///
/// Returns the first of these errors, and then changes nothing:
///
/// - `NO_SKETCH` if the handle has no sketch, and `WRONG_KIND` if its sketch is of another kind.
/// - `NoMemory` if an allocation fails.
///
/// Returns `NO_ROOM` if a buffer has fewer places than there are rows. Then only `count` is written.
#[unsafe(no_mangle)]
pub extern "C" fn ds_frequent_items_i64_rows(
    alloc: Global,
    handle: &mut SketchHandle,
    no_false_negatives: bool,
    threshold: u64,
    limit: usize,
    items: &mut [i64],
    bounds: &mut [ItemBounds],
    count: &mut usize,
) -> i32
    ensures kept { handle.new.value ≡ handle.old.value }
    ensures untouched { OnRefused result ((items.new ≡ items.old) × (bounds.new ≡ bounds.old)) }
    ensures uncounted { result ≢ ok → result ≢ no_room → count.new ≡ count.old }
    ensures rows { ReadsSketch handle.old.value result (λ s. WritesI64Rows s (error_type no_false_negatives) threshold limit
        items.old items.new bounds.old bounds.new count.new result) }
{
    let Some(held) = handle.take(alloc) else {
        return NO_SKETCH;
    };
    let answer = i64_rows_in(
        &held,
        no_false_negatives,
        threshold,
        limit,
        items,
        bounds,
        count,
    );
    handle.give(held);
    answer
}
