//! Calls for many items that look them up, in sketches of any kind.
ghost use Rattle.std.specs.Prelude.{◌≡◌, ◌≢◌, length};
ghost use Rattle.any_sketch.specs.Batches.{BoundsAll, EstimatesAll, EstimatesAllSigned, TellsAllContained, TellsAllContainedInImage};
ghost use Rattle.any_sketch.specs.ManyItems.{many, num_rows};
ghost use Rattle.datasketches_c.specs.Calls.{IsDone, ReadsOwn, ReadsSketch};
ghost use Rattle.datasketches_c.specs.ItemsArguments.{OnItems, OnPlaces};
ghost use Rattle.datasketches_c.specs.Numbers.{OnRefused, no_room};
ghost use Rattle.datasketches_c.specs.Sharing.{unshared};

use crate::codes::code_of;
use crate::handle::SketchHandle;
use crate::held_sketch::HeldSketch;
use crate::items_argument::{ItemsArgument, on_given};
use crate::status_code::{NO_ROOM, NO_SKETCH, WRONG_KIND};
use any_sketch::{AnyItems, image_contains_all};
use sketch_frequencies::ItemBounds;
use std::alloc::Global;

/// Writes for each row whether a filter contains its item, by a sketch. Returns the result's number.
fn contains_in(held: &HeldSketch, items: AnyItems<'_>, results: &mut [bool]) -> i32
    requires { length results.old ≡ num_rows (many items).rows }
    ensures results { ReadsOwn (unshared held.now) result (λ s. IsDone result (TellsAllContained s (many items.entry) results.old results.new)) }
    ensures untouched { OnRefused result (results.new ≡ results.old) }
{
    match held.get() {
        Some(sketch) => code_of(sketch.contains_all(items, results)),
        None => WRONG_KIND,
    }
}

/// Writes for each row whether a filter contains its item, by the handle's sketch.
fn contains_given(
    alloc: Global,
    handle: &mut SketchHandle,
    items: AnyItems<'_>,
    results: &mut [bool],
) -> i32
    ensures kept { handle.new.value ≡ handle.old.value }
    ensures no_room { length results.old ≢ num_rows (many items.entry).rows → (result ≡ no_room) × (results.new ≡ results.old) }
    ensures results { length results.old ≡ num_rows (many items.entry).rows → ReadsSketch handle.old.value result (λ s.
        IsDone result (TellsAllContained s (many items.entry) results.old results.new)) }
    ensures untouched { OnRefused result (results.new ≡ results.old) }
{
    if items.rows.num_rows() != results.len() {
        return NO_ROOM;
    }
    let Some(held) = handle.take(alloc) else {
        return NO_SKETCH;
    };
    let answer = contains_in(&held, items, results);
    handle.give(held);
    answer
}

/// Writes for each of many items whether the filter contains it. There is a result for each row. That of a null row is no. Does not
/// allocate.
///
/// Returns the first of these errors, and then changes nothing:
///
/// - `BAD_ARGUMENT` if the kind of the items is not known, the bitmap has fewer bits than there are rows, or words or lines have a
///   bitmap.
/// - `BadOffsets` if there is no offset, an offset is below the one before it, or an offset exceeds the number of bytes.
/// - `InvalidUtf8` if a string is not UTF-8.
/// - `NO_ROOM` if the number of rows is not the length of `results`.
/// - `NO_SKETCH` if the handle has no sketch, and `WRONG_KIND` if its sketch is of another kind.
#[unsafe(no_mangle)]
pub extern "C" fn ds_bloom_contains_all(
    alloc: Global,
    handle: &mut SketchHandle,
    items: &ItemsArgument<'_>,
    results: &mut [bool],
) -> i32
    ensures kept { handle.new.value ≡ handle.old.value }
    ensures results { OnItems items.now result (results.new ≡ results.old) (λ given.
        OnPlaces (length results.old) given result (results.new ≡ results.old)
        (ReadsSketch handle.old.value result (λ s. IsDone result (TellsAllContained s given results.old results.new)))) }
    ensures untouched { OnRefused result (results.new ≡ results.old) }
{
    on_given!(items, given => contains_given(alloc, handle, given, results))
}

/// Writes for each row the estimate of its item's weight, by a sketch. Returns the result's number.
fn estimate_in(held: &HeldSketch, items: AnyItems<'_>, estimates: &mut [u64]) -> i32
    requires { length estimates.old ≡ num_rows (many items).rows }
    ensures estimates { ReadsOwn (unshared held.now) result (λ s. IsDone result (EstimatesAll s (many items.entry) estimates.old estimates.new)) }
    ensures untouched { OnRefused result (estimates.new ≡ estimates.old) }
{
    match held.get() {
        Some(sketch) => code_of(sketch.estimate_all(items, estimates)),
        None => WRONG_KIND,
    }
}

/// Writes for each row the estimate of its item's weight, by the handle's sketch.
fn estimate_given(
    alloc: Global,
    handle: &mut SketchHandle,
    items: AnyItems<'_>,
    estimates: &mut [u64],
) -> i32
    ensures kept { handle.new.value ≡ handle.old.value }
    ensures no_room { length estimates.old ≢ num_rows (many items.entry).rows → (result ≡ no_room) × (estimates.new ≡ estimates.old) }
    ensures estimates { length estimates.old ≡ num_rows (many items.entry).rows → ReadsSketch handle.old.value result (λ s.
        IsDone result (EstimatesAll s (many items.entry) estimates.old estimates.new)) }
    ensures untouched { OnRefused result (estimates.new ≡ estimates.old) }
{
    if items.rows.num_rows() != estimates.len() {
        return NO_ROOM;
    }
    let Some(held) = handle.take(alloc) else {
        return NO_SKETCH;
    };
    let answer = estimate_in(&held, items, estimates);
    handle.give(held);
    answer
}

/// Writes the estimate of each item's weight: the minimum of its cells. There is an estimate for each row. That of a null row is 0. Does
/// not allocate.
///
/// Returns the first of these errors, and then changes nothing:
///
/// - `BAD_ARGUMENT` if the kind of the items is not known, the bitmap has fewer bits than there are rows, or words or lines have a
///   bitmap.
/// - `BadOffsets` if there is no offset, an offset is below the one before it, or an offset exceeds the number of bytes.
/// - `InvalidUtf8` if a string is not UTF-8.
/// - `NO_ROOM` if the number of rows is not the length of `estimates`.
/// - `NO_SKETCH` if the handle has no sketch, and `WRONG_KIND` if its sketch is of another kind.
#[unsafe(no_mangle)]
pub extern "C" fn ds_count_min_u64_estimate_all(
    alloc: Global,
    handle: &mut SketchHandle,
    items: &ItemsArgument<'_>,
    estimates: &mut [u64],
) -> i32
    ensures kept { handle.new.value ≡ handle.old.value }
    ensures estimates { OnItems items.now result (estimates.new ≡ estimates.old) (λ given.
        OnPlaces (length estimates.old) given result (estimates.new ≡ estimates.old)
        (ReadsSketch handle.old.value result (λ s. IsDone result (EstimatesAll s given estimates.old estimates.new)))) }
    ensures untouched { OnRefused result (estimates.new ≡ estimates.old) }
{
    on_given!(items, given => estimate_given(alloc, handle, given, estimates))
}

/// Writes for each row the estimate of its item's weight, by a sketch. Returns the result's number.
fn estimate_signed_in(held: &HeldSketch, items: AnyItems<'_>, estimates: &mut [i64]) -> i32
    requires { length estimates.old ≡ num_rows (many items).rows }
    ensures estimates { ReadsOwn (unshared held.now) result (λ s. IsDone result (EstimatesAllSigned s (many items.entry) estimates.old estimates.new)) }
    ensures untouched { OnRefused result (estimates.new ≡ estimates.old) }
{
    match held.get() {
        Some(sketch) => code_of(sketch.estimate_all_signed(items, estimates)),
        None => WRONG_KIND,
    }
}

/// Writes for each row the estimate of its item's weight, by the handle's sketch.
fn estimate_signed_given(
    alloc: Global,
    handle: &mut SketchHandle,
    items: AnyItems<'_>,
    estimates: &mut [i64],
) -> i32
    ensures kept { handle.new.value ≡ handle.old.value }
    ensures no_room { length estimates.old ≢ num_rows (many items.entry).rows → (result ≡ no_room) × (estimates.new ≡ estimates.old) }
    ensures estimates { length estimates.old ≡ num_rows (many items.entry).rows → ReadsSketch handle.old.value result (λ s.
        IsDone result (EstimatesAllSigned s (many items.entry) estimates.old estimates.new)) }
    ensures untouched { OnRefused result (estimates.new ≡ estimates.old) }
{
    if items.rows.num_rows() != estimates.len() {
        return NO_ROOM;
    }
    let Some(held) = handle.take(alloc) else {
        return NO_SKETCH;
    };
    let answer = estimate_signed_in(&held, items, estimates);
    handle.give(held);
    answer
}

/// Writes the estimate of each item's weight: the minimum of its cells. There is an estimate for each row. That of a null row is 0. Does
/// not allocate.
///
/// Returns the first of these errors, and then changes nothing:
///
/// - `BAD_ARGUMENT` if the kind of the items is not known, the bitmap has fewer bits than there are rows, or words or lines have a
///   bitmap.
/// - `BadOffsets` if there is no offset, an offset is below the one before it, or an offset exceeds the number of bytes.
/// - `InvalidUtf8` if a string is not UTF-8.
/// - `NO_ROOM` if the number of rows is not the length of `estimates`.
/// - `NO_SKETCH` if the handle has no sketch, and `WRONG_KIND` if its sketch is of another kind.
#[unsafe(no_mangle)]
pub extern "C" fn ds_count_min_i64_estimate_all(
    alloc: Global,
    handle: &mut SketchHandle,
    items: &ItemsArgument<'_>,
    estimates: &mut [i64],
) -> i32
    ensures kept { handle.new.value ≡ handle.old.value }
    ensures estimates { OnItems items.now result (estimates.new ≡ estimates.old) (λ given.
        OnPlaces (length estimates.old) given result (estimates.new ≡ estimates.old)
        (ReadsSketch handle.old.value result (λ s. IsDone result (EstimatesAllSigned s given estimates.old estimates.new)))) }
    ensures untouched { OnRefused result (estimates.new ≡ estimates.old) }
{
    on_given!(items, given => estimate_signed_given(alloc, handle, given, estimates))
}

/// Writes for each row the bounds and the estimate of its item's weight, by a sketch. Returns the result's number.
fn bounds_in(held: &HeldSketch, items: AnyItems<'_>, bounds: &mut [ItemBounds]) -> i32
    requires { length bounds.old ≡ num_rows (many items).rows }
    ensures bounds { ReadsOwn (unshared held.now) result (λ s. IsDone result (BoundsAll s (many items.entry) bounds.old bounds.new)) }
    ensures untouched { OnRefused result (bounds.new ≡ bounds.old) }
{
    match held.get() {
        Some(sketch) => code_of(sketch.bounds_all(items, bounds)),
        None => WRONG_KIND,
    }
}

/// Writes for each row the bounds and the estimate of its item's weight, by the handle's sketch.
fn bounds_given(
    alloc: Global,
    handle: &mut SketchHandle,
    items: AnyItems<'_>,
    bounds: &mut [ItemBounds],
) -> i32
    ensures kept { handle.new.value ≡ handle.old.value }
    ensures no_room { length bounds.old ≢ num_rows (many items.entry).rows → (result ≡ no_room) × (bounds.new ≡ bounds.old) }
    ensures bounds { length bounds.old ≡ num_rows (many items.entry).rows → ReadsSketch handle.old.value result (λ s.
        IsDone result (BoundsAll s (many items.entry) bounds.old bounds.new)) }
    ensures untouched { OnRefused result (bounds.new ≡ bounds.old) }
{
    if items.rows.num_rows() != bounds.len() {
        return NO_ROOM;
    }
    let Some(held) = handle.take(alloc) else {
        return NO_SKETCH;
    };
    let answer = bounds_in(&held, items, bounds);
    handle.give(held);
    answer
}

/// Writes the bounds and the estimate of each item's weight in a sketch of frequent items, which takes items of its own type alone.
/// There is a place for each row. The bounds of a null row are 0. Does not allocate.
///
/// Returns the first of these errors, and then changes nothing:
///
/// - `BAD_ARGUMENT` if the kind of the items is not known, the bitmap has fewer bits than there are rows, or words or lines have a
///   bitmap.
/// - `BadOffsets` if there is no offset, an offset is below the one before it, or an offset exceeds the number of bytes.
/// - `InvalidUtf8` if a string is not UTF-8.
/// - `NO_ROOM` if the number of rows is not the length of `bounds`.
/// - `NO_SKETCH` if the handle has no sketch, and `WRONG_KIND` if its sketch is of another kind or of frequent items of another type.
#[unsafe(no_mangle)]
pub extern "C" fn ds_frequent_items_bounds_all(
    alloc: Global,
    handle: &mut SketchHandle,
    items: &ItemsArgument<'_>,
    bounds: &mut [ItemBounds],
) -> i32
    ensures kept { handle.new.value ≡ handle.old.value }
    ensures bounds { OnItems items.now result (bounds.new ≡ bounds.old) (λ given.
        OnPlaces (length bounds.old) given result (bounds.new ≡ bounds.old)
        (ReadsSketch handle.old.value result (λ s. IsDone result (BoundsAll s given bounds.old bounds.new)))) }
    ensures untouched { OnRefused result (bounds.new ≡ bounds.old) }
{
    on_given!(items, given => bounds_given(alloc, handle, given, bounds))
}

/// Writes for each row whether the filter in an image contains its item.
fn image_contains_given(image: &[u8], items: AnyItems<'_>, results: &mut [bool]) -> i32
    ensures no_room { length results.old ≢ num_rows (many items.entry).rows → (result ≡ no_room) × (results.new ≡ results.old) }
    ensures results { length results.old ≡ num_rows (many items.entry).rows
        → IsDone result (TellsAllContainedInImage image.now (many items.entry) results.old results.new) }
    ensures untouched { OnRefused result (results.new ≡ results.old) }
{
    if items.rows.num_rows() != results.len() {
        return NO_ROOM;
    }
    code_of(image_contains_all(image, items, results))
}

/// Writes for each of many items whether the filter in an image contains it. There is a result for each row. That of a null row is
/// no. Does not allocate. See `ds_bloom_image_contains`.
///
/// Returns the first of these errors, and then changes nothing:
///
/// - `BAD_ARGUMENT` if the kind of the items is not known, the bitmap has fewer bits than there are rows, or words or lines have a
///   bitmap.
/// - `BadOffsets` if there is no offset, an offset is below the one before it, or an offset exceeds the number of bytes.
/// - `InvalidUtf8` if a string is not UTF-8.
/// - `NO_ROOM` if the number of rows is not the length of `results`.
/// - The error of the first failed check of the image.
#[unsafe(no_mangle)]
pub extern "C" fn ds_bloom_image_contains_all(
    image: &[u8],
    items: &ItemsArgument<'_>,
    results: &mut [bool],
) -> i32
    ensures results { OnItems items.now result (results.new ≡ results.old) (λ given.
        OnPlaces (length results.old) given result (results.new ≡ results.old)
        (IsDone result (TellsAllContainedInImage image.now given results.old results.new))) }
    ensures untouched { OnRefused result (results.new ≡ results.old) }
{
    on_given!(items, given => image_contains_given(image, given, results))
}
