//! Calls that insert or count one item, in sketches of any kind.
ghost use Rattle.std.specs.Prelude.{◌≡◌};
ghost use Rattle.any_sketch.specs.Filters.{ContainsAndInserts, Inserts};
ghost use Rattle.any_sketch.specs.Items.{value_of};
ghost use Rattle.any_sketch.specs.Updates.{Updates, UpdatesSigned};
ghost use Rattle.datasketches_c.specs.Calls.{ChangesHeld, ChangesSketch, IsAnswer, IsDone};
ghost use Rattle.datasketches_c.specs.ItemArguments.{OnItem};

use crate::codes::{code_of, code_of_answer};
use crate::handle::SketchHandle;
use crate::held_sketch::HeldSketch;
use crate::item_argument::{ItemArgument, on_given_item};
use crate::status_code::NO_SKETCH;
use any_sketch::Item;
use std::alloc::Global;

/// Inserts an item into a filter. Returns the result's number.
#[inline(always)]
fn insert_in(held: &mut HeldSketch, item: Item<'_>) -> i32
    ensures { ChangesHeld held.old held.new result (λ s t. IsDone result (Inserts s (value_of item.entry) t)) }
{
    match held {
        HeldSketch::Own(sketch) => code_of(sketch.insert(item)),
        _ => held.refusal_of_change(),
    }
}

/// Inserts an item into the handle's filter.
#[inline(always)]
fn insert_given(alloc: Global, handle: &mut SketchHandle, item: Item<'_>) -> i32
    ensures { ChangesSketch handle.old.value handle.new.value result (λ s t.
        IsDone result (Inserts s (value_of item.entry) t)) }
{
    let Some(mut held) = handle.take(alloc) else {
        return NO_SKETCH;
    };
    let answer = insert_in(&mut *held, item);
    handle.give(held);
    answer
}

/// Inserts an item.
///
/// Returns the first of these errors, and then changes nothing:
///
/// - `BAD_ARGUMENT` if the kind of the item is not known.
/// - `InvalidUtf8` if the item is a string that is not UTF-8.
/// - `NO_SKETCH` if the handle has no sketch, `SHARED` if its sketch is shared, and `WRONG_KIND` if it is of another kind.
#[unsafe(no_mangle)]
pub extern "C" fn ds_bloom_insert(
    alloc: Global,
    handle: &mut SketchHandle,
    item: &ItemArgument<'_>,
) -> i32
    ensures { OnItem item.now result (handle.new.value ≡ handle.old.value) (λ given.
        ChangesSketch handle.old.value handle.new.value result (λ s t. IsDone result (Inserts s given t))) }
{
    on_given_item!(item, given => insert_given(alloc, handle, given))
}

/// Inserts an item into a filter, and tells whether the filter contained it before. Returns the result's number.
#[inline(always)]
fn contains_and_insert_in(held: &mut HeldSketch, item: Item<'_>) -> i32
    ensures { ChangesHeld held.old held.new result (λ s t. IsAnswer result (ContainsAndInserts s (value_of item.entry) t)) }
{
    match held {
        HeldSketch::Own(sketch) => code_of_answer(sketch.contains_and_insert(item)),
        _ => held.refusal_of_change(),
    }
}

/// Inserts an item into the handle's filter, and tells whether the filter contained it before.
#[inline(always)]
fn contains_and_insert_given(alloc: Global, handle: &mut SketchHandle, item: Item<'_>) -> i32
    ensures { ChangesSketch handle.old.value handle.new.value result (λ s t.
        IsAnswer result (ContainsAndInserts s (value_of item.entry) t)) }
{
    let Some(mut held) = handle.take(alloc) else {
        return NO_SKETCH;
    };
    let answer = contains_and_insert_in(&mut *held, item);
    handle.give(held);
    answer
}

/// Inserts an item, and returns `YES` if the filter contained it before, and `NO` otherwise.
///
/// Returns the first of these errors, and then changes nothing:
///
/// - `BAD_ARGUMENT` if the kind of the item is not known.
/// - `InvalidUtf8` if the item is a string that is not UTF-8.
/// - `NO_SKETCH` if the handle has no sketch, `SHARED` if its sketch is shared, and `WRONG_KIND` if it is of another kind.
#[unsafe(no_mangle)]
pub extern "C" fn ds_bloom_contains_and_insert(
    alloc: Global,
    handle: &mut SketchHandle,
    item: &ItemArgument<'_>,
) -> i32
    ensures { OnItem item.now result (handle.new.value ≡ handle.old.value) (λ given.
        ChangesSketch handle.old.value handle.new.value result (λ s t. IsAnswer result (ContainsAndInserts s given t))) }
{
    on_given_item!(item, given => contains_and_insert_given(alloc, handle, given))
}

/// Adds a weight to that of an item. Returns the result's number.
#[inline(always)]
fn update_in(held: &mut HeldSketch, item: Item<'_>, weight: u64) -> i32
    ensures { ChangesHeld held.old held.new result (λ s t. IsDone result (Updates s (value_of item.entry) weight t)) }
{
    match held {
        HeldSketch::Own(sketch) => code_of(sketch.update(item, weight)),
        _ => held.refusal_of_change(),
    }
}

/// Adds a weight to that of an item in the handle's sketch.
#[inline(always)]
fn update_given(alloc: Global, handle: &mut SketchHandle, item: Item<'_>, weight: u64) -> i32
    ensures { ChangesSketch handle.old.value handle.new.value result (λ s t.
        IsDone result (Updates s (value_of item.entry) weight t)) }
{
    let Some(mut held) = handle.take(alloc) else {
        return NO_SKETCH;
    };
    let answer = update_in(&mut *held, item, weight);
    handle.give(held);
    answer
}

/// Adds a weight to that of an item, in a Count-Min sketch with weights in `u64` or a sketch of frequent items, which takes items of its
/// own type alone. A weight of 0 changes nothing.
///
/// Returns the first of these errors, and then changes nothing:
///
/// - `BAD_ARGUMENT` if the kind of the item is not known.
/// - `InvalidUtf8` if the item is a string that is not UTF-8.
/// - `NO_SKETCH` if the handle has no sketch, `SHARED` if its sketch is shared, and `WRONG_KIND` if it is of another kind or of
///   frequent items of another type.
/// - `WeightOverflow` if the total would exceed 2^64 - 1.
/// - `NoMemory` if the table of a sketch of frequent items cannot grow, or a string that is not tracked cannot be copied.
#[unsafe(no_mangle)]
pub extern "C" fn ds_update(
    alloc: Global,
    handle: &mut SketchHandle,
    item: &ItemArgument<'_>,
    weight: u64,
) -> i32
    ensures { OnItem item.now result (handle.new.value ≡ handle.old.value) (λ given.
        ChangesSketch handle.old.value handle.new.value result (λ s t. IsDone result (Updates s given weight t))) }
{
    on_given_item!(item, given => update_given(alloc, handle, given, weight))
}

/// Adds a weight to that of an item. Returns the result's number.
#[inline(always)]
fn update_signed_in(held: &mut HeldSketch, item: Item<'_>, weight: i64) -> i32
    ensures { ChangesHeld held.old held.new result (λ s t. IsDone result (UpdatesSigned s (value_of item.entry) weight t)) }
{
    match held {
        HeldSketch::Own(sketch) => code_of(sketch.update_signed(item, weight)),
        _ => held.refusal_of_change(),
    }
}

/// Adds a weight to that of an item in the handle's sketch.
#[inline(always)]
fn update_signed_given(alloc: Global, handle: &mut SketchHandle, item: Item<'_>, weight: i64) -> i32
    ensures { ChangesSketch handle.old.value handle.new.value result (λ s t.
        IsDone result (UpdatesSigned s (value_of item.entry) weight t)) }
{
    let Some(mut held) = handle.take(alloc) else {
        return NO_SKETCH;
    };
    let answer = update_signed_in(&mut *held, item, weight);
    handle.give(held);
    answer
}

/// Adds a weight to that of an item, and the weight's distance from 0 to the total.
///
/// Returns the first of these errors, and then changes nothing:
///
/// - `BAD_ARGUMENT` if the kind of the item is not known.
/// - `InvalidUtf8` if the item is a string that is not UTF-8.
/// - `NO_SKETCH` if the handle has no sketch, `SHARED` if its sketch is shared, and `WRONG_KIND` if it is of another kind.
/// - `WeightOverflow` if the total would exceed 2^63 - 1.
#[unsafe(no_mangle)]
pub extern "C" fn ds_count_min_i64_update(
    alloc: Global,
    handle: &mut SketchHandle,
    item: &ItemArgument<'_>,
    weight: i64,
) -> i32
    ensures { OnItem item.now result (handle.new.value ≡ handle.old.value) (λ given.
        ChangesSketch handle.old.value handle.new.value result (λ s t. IsDone result (UpdatesSigned s given weight t))) }
{
    on_given_item!(item, given => update_signed_given(alloc, handle, given, weight))
}
