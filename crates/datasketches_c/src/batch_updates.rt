//! Calls for many items that change a sketch of any kind: add weights, and insert.
ghost use Rattle.std.specs.Prelude.{◌≡◌, ◌≢◌, length};
ghost use Rattle.any_sketch.specs.Batches.{ContainsAndInsertsAll, InsertsAll, UpdatesAll, UpdatesAllSigned, UpdatesAllWeighted};
ghost use Rattle.any_sketch.specs.ManyItems.{many, num_rows};
ghost use Rattle.datasketches_c.specs.Calls.{ChangesHeld, ChangesSketch, IsDone};
ghost use Rattle.datasketches_c.specs.ItemsArguments.{OnItems, OnPlaces};
ghost use Rattle.datasketches_c.specs.Numbers.{OnRefused, no_room};

use crate::codes::code_of;
use crate::handle::SketchHandle;
use crate::held_sketch::HeldSketch;
use crate::items_argument::{ItemsArgument, on_given};
use crate::status_code::{NO_ROOM, NO_SKETCH};
use any_sketch::AnyItems;
use std::alloc::Global;

/// Adds 1 to the weight of each item in a sketch, in order. Returns the result's number.
fn update_in(held: &mut HeldSketch, items: AnyItems<'_>) -> i32
    ensures { ChangesHeld held.old held.new result (λ s t. IsDone result (UpdatesAll s (many items.entry) t)) }
{
    match held {
        HeldSketch::Own(sketch) => code_of(sketch.update_all(items)),
        _ => held.refusal_of_change(),
    }
}

/// Adds 1 to the weight of each item in the handle's sketch, in order.
fn update_given(alloc: Global, handle: &mut SketchHandle, items: AnyItems<'_>) -> i32
    ensures { ChangesSketch handle.old.value handle.new.value result (λ s t. IsDone result (UpdatesAll s (many items.entry) t)) }
{
    let Some(mut held) = handle.take(alloc) else {
        return NO_SKETCH;
    };
    let answer = update_in(&mut *held, items);
    handle.give(held);
    answer
}

/// Adds 1 to the weight of each item, in order. The sketch is a Count-Min sketch or one of frequent items, which takes items of its
/// own type alone. Null rows are not counted.
///
/// Returns the first of these errors, and then changes nothing:
///
/// - `BAD_ARGUMENT` if the kind of the items is not known, the bitmap has fewer bits than there are rows, or words or lines have a
///   bitmap.
/// - `BadOffsets` if there is no offset, an offset is below the one before it, or an offset exceeds the number of bytes.
/// - `InvalidUtf8` if a string is not UTF-8.
/// - `NO_SKETCH` if the handle has no sketch, `SHARED` if its sketch is shared, and `WRONG_KIND` if it is a filter or of frequent
///   items of another type.
///
/// Returns the error of the first item whose own update returns one. Then the items before it are added, and no others. The error
/// is `WeightOverflow` if the total would exceed 2^64 - 1, or 2^63 - 1 for weights in `i64`. It is `NoMemory` if an allocation
/// fails, which only a sketch of frequent items makes.
#[unsafe(no_mangle)]
pub extern "C" fn ds_update_all(
    alloc: Global,
    handle: &mut SketchHandle,
    items: &ItemsArgument<'_>,
) -> i32
    ensures { OnItems items.now result (handle.new.value ≡ handle.old.value) (λ given.
        ChangesSketch handle.old.value handle.new.value result (λ s t. IsDone result (UpdatesAll s given t))) }
{
    on_given!(items, given => update_given(alloc, handle, given))
}

/// Adds a weight to that of each item in a sketch, in order. Returns the result's number.
fn weigh_in(alloc: Global, held: &mut HeldSketch, items: AnyItems<'_>, weights: &[u64]) -> i32
    requires { length weights.now ≡ num_rows (many items).rows }
    ensures { ChangesHeld held.old held.new result (λ s t. IsDone result (UpdatesAllWeighted s (many items.entry) weights.now t)) }
{
    match held {
        HeldSketch::Own(sketch) => code_of(sketch.update_all_weighted(alloc, items, weights)),
        _ => held.refusal_of_change(),
    }
}

/// Adds a weight to that of each item in the handle's sketch, in order. There is a weight for each row.
fn weigh_given(
    alloc: Global,
    handle: &mut SketchHandle,
    items: AnyItems<'_>,
    weights: &[u64],
) -> i32
    ensures no_room { length weights.now ≢ num_rows (many items.entry).rows
        → (result ≡ no_room) × (handle.new.value ≡ handle.old.value) }
    ensures call { length weights.now ≡ num_rows (many items.entry).rows → ChangesSketch handle.old.value handle.new.value result
        (λ s t. IsDone result (UpdatesAllWeighted s (many items.entry) weights.now t)) }
{
    if items.rows.num_rows() != weights.len() {
        return NO_ROOM;
    }
    let Some(mut held) = handle.take(alloc) else {
        return NO_SKETCH;
    };
    let answer = weigh_in(alloc, &mut *held, items, weights);
    handle.give(held);
    answer
}

/// Adds a weight to each item's, in order. The sketch is a Count-Min sketch with weights in `u64` or one of frequent items, which
/// takes items of its own type alone. A weight of 0 changes nothing in a sketch of frequent items. There is a weight for each row.
/// Those of null rows are not read.
///
/// Returns the first of these errors, and then changes nothing:
///
/// - `BAD_ARGUMENT` if the kind of the items is not known, the bitmap has fewer bits than there are rows, or words or lines have a
///   bitmap.
/// - `BadOffsets` if there is no offset, an offset is below the one before it, or an offset exceeds the number of bytes.
/// - `InvalidUtf8` if a string is not UTF-8.
/// - `NO_ROOM` if the number of rows is not the length of `weights`.
/// - `NO_SKETCH` if the handle has no sketch, and `SHARED` if its sketch is shared.
/// - `NoMemory` if the items have a bitmap, and the copy of the weights of valid rows cannot be allocated.
/// - `WRONG_KIND` if the sketch is of another kind or of frequent items of another type.
/// - `WeightOverflow` if the total would exceed 2^64 - 1 with all weights.
///
/// Returns `NoMemory` for the first item for which an allocation fails. Then the items before it are added, and no others. For
/// items only a sketch of frequent items allocates: for a string that is not tracked, and for its table.
#[unsafe(no_mangle)]
pub extern "C" fn ds_update_all_weighted(
    alloc: Global,
    handle: &mut SketchHandle,
    items: &ItemsArgument<'_>,
    weights: &[u64],
) -> i32
    ensures { OnItems items.now result (handle.new.value ≡ handle.old.value) (λ given.
        OnPlaces (length weights.now) given result (handle.new.value ≡ handle.old.value)
        (ChangesSketch handle.old.value handle.new.value result (λ s t. IsDone result (UpdatesAllWeighted s given weights.now t)))) }
{
    on_given!(items, given => weigh_given(alloc, handle, given, weights))
}

/// Adds a weight to that of each item in a sketch, in order. Returns the result's number.
fn weigh_signed_in(
    alloc: Global,
    held: &mut HeldSketch,
    items: AnyItems<'_>,
    weights: &[i64],
) -> i32
    requires { length weights.now ≡ num_rows (many items).rows }
    ensures { ChangesHeld held.old held.new result (λ s t. IsDone result (UpdatesAllSigned s (many items.entry) weights.now t)) }
{
    match held {
        HeldSketch::Own(sketch) => code_of(sketch.update_all_signed(alloc, items, weights)),
        _ => held.refusal_of_change(),
    }
}

/// Adds a weight to that of each item in the handle's sketch, in order. There is a weight for each row.
fn weigh_signed_given(
    alloc: Global,
    handle: &mut SketchHandle,
    items: AnyItems<'_>,
    weights: &[i64],
) -> i32
    ensures no_room { length weights.now ≢ num_rows (many items.entry).rows
        → (result ≡ no_room) × (handle.new.value ≡ handle.old.value) }
    ensures call { length weights.now ≡ num_rows (many items.entry).rows → ChangesSketch handle.old.value handle.new.value result
        (λ s t. IsDone result (UpdatesAllSigned s (many items.entry) weights.now t)) }
{
    if items.rows.num_rows() != weights.len() {
        return NO_ROOM;
    }
    let Some(mut held) = handle.take(alloc) else {
        return NO_SKETCH;
    };
    let answer = weigh_signed_in(alloc, &mut *held, items, weights);
    handle.give(held);
    answer
}

/// Adds a weight to each item's, in order, in a Count-Min sketch with weights in `i64`. The total grows by each weight's distance from 0.
/// There is a weight for each row. Those of null rows are not read.
///
/// Returns the first of these errors, and then changes nothing:
///
/// - `BAD_ARGUMENT` if the kind of the items is not known, the bitmap has fewer bits than there are rows, or words or lines have a
///   bitmap.
/// - `BadOffsets` if there is no offset, an offset is below the one before it, or an offset exceeds the number of bytes.
/// - `InvalidUtf8` if a string is not UTF-8.
/// - `NO_ROOM` if the number of rows is not the length of `weights`.
/// - `NO_SKETCH` if the handle has no sketch, and `SHARED` if its sketch is shared.
/// - `NoMemory` if the items have a bitmap, and the copy of the weights of valid rows cannot be allocated.
/// - `WRONG_KIND` if the sketch is of another kind.
/// - `WeightOverflow` if the total would exceed 2^63 - 1 with all weights.
#[unsafe(no_mangle)]
pub extern "C" fn ds_count_min_i64_update_all_weighted(
    alloc: Global,
    handle: &mut SketchHandle,
    items: &ItemsArgument<'_>,
    weights: &[i64],
) -> i32
    ensures { OnItems items.now result (handle.new.value ≡ handle.old.value) (λ given.
        OnPlaces (length weights.now) given result (handle.new.value ≡ handle.old.value)
        (ChangesSketch handle.old.value handle.new.value result (λ s t. IsDone result (UpdatesAllSigned s given weights.now t)))) }
{
    on_given!(items, given => weigh_signed_given(alloc, handle, given, weights))
}

/// Inserts items into a filter, as one after another. Returns the result's number.
fn insert_in(held: &mut HeldSketch, items: AnyItems<'_>) -> i32
    ensures { ChangesHeld held.old held.new result (λ s t. IsDone result (InsertsAll s (many items.entry) t)) }
{
    match held {
        HeldSketch::Own(sketch) => code_of(sketch.insert_all(items)),
        _ => held.refusal_of_change(),
    }
}

/// Inserts items into the handle's filter, as one after another.
fn insert_given(alloc: Global, handle: &mut SketchHandle, items: AnyItems<'_>) -> i32
    ensures { ChangesSketch handle.old.value handle.new.value result (λ s t. IsDone result (InsertsAll s (many items.entry) t)) }
{
    let Some(mut held) = handle.take(alloc) else {
        return NO_SKETCH;
    };
    let answer = insert_in(&mut *held, items);
    handle.give(held);
    answer
}

/// Inserts many items, as one after another, and faster. Null rows are not inserted. Does not allocate.
///
/// Returns the first of these errors, and then changes nothing:
///
/// - `BAD_ARGUMENT` if the kind of the items is not known, the bitmap has fewer bits than there are rows, or words or lines have a
///   bitmap.
/// - `BadOffsets` if there is no offset, an offset is below the one before it, or an offset exceeds the number of bytes.
/// - `InvalidUtf8` if a string is not UTF-8.
/// - `NO_SKETCH` if the handle has no sketch, `SHARED` if its sketch is shared, and `WRONG_KIND` if it is of another kind.
#[unsafe(no_mangle)]
pub extern "C" fn ds_bloom_insert_all(
    alloc: Global,
    handle: &mut SketchHandle,
    items: &ItemsArgument<'_>,
) -> i32
    ensures { OnItems items.now result (handle.new.value ≡ handle.old.value) (λ given.
        ChangesSketch handle.old.value handle.new.value result (λ s t. IsDone result (InsertsAll s given t))) }
{
    on_given!(items, given => insert_given(alloc, handle, given))
}

/// Inserts items into a filter in order, and writes for each row whether the filter contained its item before. Returns the result's number.
fn contains_and_insert_in(held: &mut HeldSketch, items: AnyItems<'_>, results: &mut [bool]) -> i32
    requires { length results.old ≡ num_rows (many items).rows }
    ensures call { ChangesHeld held.old held.new result (λ s t.
        IsDone result (ContainsAndInsertsAll s (many items.entry) results.old results.new t)) }
    ensures untouched { OnRefused result (results.new ≡ results.old) }
{
    match held {
        HeldSketch::Own(sketch) => code_of(sketch.contains_and_insert_all(items, results)),
        _ => held.refusal_of_change(),
    }
}

/// Inserts items into the handle's filter in order, and writes for each row whether the filter contained its item before.
fn contains_and_insert_given(
    alloc: Global,
    handle: &mut SketchHandle,
    items: AnyItems<'_>,
    results: &mut [bool],
) -> i32
    ensures no_room { length results.old ≢ num_rows (many items.entry).rows
        → (result ≡ no_room) × (handle.new.value ≡ handle.old.value) × (results.new ≡ results.old) }
    ensures call { length results.old ≡ num_rows (many items.entry).rows → ChangesSketch handle.old.value handle.new.value result
        (λ s t. IsDone result (ContainsAndInsertsAll s (many items.entry) results.old results.new t)) }
    ensures untouched { OnRefused result (results.new ≡ results.old) }
{
    if items.rows.num_rows() != results.len() {
        return NO_ROOM;
    }
    let Some(mut held) = handle.take(alloc) else {
        return NO_SKETCH;
    };
    let answer = contains_and_insert_in(&mut *held, items, results);
    handle.give(held);
    answer
}

/// Inserts many items, as one after another, and writes for each whether the filter contained it before. There is a result for
/// each row. A null row is not inserted, and its result is no. Does not allocate.
///
/// Returns the first of these errors, and then changes nothing:
///
/// - `BAD_ARGUMENT` if the kind of the items is not known, the bitmap has fewer bits than there are rows, or words or lines have a
///   bitmap.
/// - `BadOffsets` if there is no offset, an offset is below the one before it, or an offset exceeds the number of bytes.
/// - `InvalidUtf8` if a string is not UTF-8.
/// - `NO_ROOM` if the number of rows is not the length of `results`.
/// - `NO_SKETCH` if the handle has no sketch, `SHARED` if its sketch is shared, and `WRONG_KIND` if it is of another kind.
#[unsafe(no_mangle)]
pub extern "C" fn ds_bloom_contains_and_insert_all(
    alloc: Global,
    handle: &mut SketchHandle,
    items: &ItemsArgument<'_>,
    results: &mut [bool],
) -> i32
    ensures call { OnItems items.now result ((handle.new.value ≡ handle.old.value) × (results.new ≡ results.old)) (λ given.
        OnPlaces (length results.old) given result ((handle.new.value ≡ handle.old.value) × (results.new ≡ results.old))
        (ChangesSketch handle.old.value handle.new.value result (λ s t.
        IsDone result (ContainsAndInsertsAll s given results.old results.new t)))) }
    ensures untouched { OnRefused result (results.new ≡ results.old) }
{
    on_given!(items, given => contains_and_insert_given(alloc, handle, given, results))
}
