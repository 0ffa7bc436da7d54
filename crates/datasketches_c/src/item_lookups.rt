//! Calls that look up one item, in sketches of any kind.
ghost use Rattle.std.specs.Prelude.{◌≡◌};
ghost use Rattle.any_sketch.specs.Filters.{TellsContained};
ghost use Rattle.any_sketch.specs.Items.{value_of};
ghost use Rattle.any_sketch.specs.LookUps.{Bounds, BoundsAbove, BoundsSignedAbove, Estimates, EstimatesSigned};
ghost use Rattle.datasketches_c.specs.Calls.{IsAnswer, IsWritten, ReadsOwn, ReadsSketch};
ghost use Rattle.datasketches_c.specs.ItemArguments.{OnItem};
ghost use Rattle.datasketches_c.specs.Numbers.{OnRefused};
ghost use Rattle.datasketches_c.specs.Sharing.{unshared};

use crate::codes::{code_of_answer, write};
use crate::handle::SketchHandle;
use crate::held_sketch::HeldSketch;
use crate::item_argument::{ItemArgument, on_given_item};
use crate::status_code::{NO_SKETCH, WRONG_KIND};
use any_sketch::Item;
use sketch_frequencies::ItemBounds;
use std::alloc::Global;

/// Returns whether a filter contains an item, as `YES` or `NO`, or the error's number.
#[inline(always)]
fn contains_in(held: &HeldSketch, item: Item<'_>) -> i32
    ensures written { ReadsOwn (unshared held.now) result (λ s. IsAnswer result (TellsContained s (value_of item.entry))) }
{
    match held.get() {
        Some(sketch) => code_of_answer(sketch.contains(item)),
        None => WRONG_KIND,
    }
}

/// Returns whether the handle's filter contains an item.
#[inline(always)]
fn contains_given(alloc: Global, handle: &mut SketchHandle, item: Item<'_>) -> i32
    ensures kept { handle.new.value ≡ handle.old.value }
    ensures answer { ReadsSketch handle.old.value result (λ s. IsAnswer result (TellsContained s (value_of item.entry))) }
{
    let Some(held) = handle.take(alloc) else {
        return NO_SKETCH;
    };
    let answer = contains_in(&held, item);
    handle.give(held);
    answer
}

/// Returns `YES` if the filter contains an item, and `NO` otherwise.
///
/// Returns the first of these errors, and then changes nothing:
///
/// - `BAD_ARGUMENT` if the kind of the item is not known.
/// - `InvalidUtf8` if the item is a string that is not UTF-8.
/// - `NO_SKETCH` if the handle has no sketch, and `WRONG_KIND` if its sketch is of another kind.
#[unsafe(no_mangle)]
pub extern "C" fn ds_bloom_contains(
    alloc: Global,
    handle: &mut SketchHandle,
    item: &ItemArgument<'_>,
) -> i32
    ensures kept { handle.new.value ≡ handle.old.value }
    ensures answer { OnItem item.now result (handle.new.value ≡ handle.old.value) (λ given.
        ReadsSketch handle.old.value result (λ s. IsAnswer result (TellsContained s given))) }
{
    on_given_item!(item, given => contains_given(alloc, handle, given))
}

/// Writes the estimate of an item's weight. Returns the result's number.
#[inline(always)]
fn estimate_in(held: &HeldSketch, item: Item<'_>, estimate: &mut u64) -> i32
    ensures written { ReadsOwn (unshared held.now) result (λ s. IsWritten estimate.old estimate.new result (Estimates s (value_of item.entry))) }
    ensures untouched { OnRefused result (estimate.new ≡ estimate.old) }
{
    match held.get() {
        Some(sketch) => write(sketch.estimate(item), estimate),
        None => WRONG_KIND,
    }
}

/// Writes the estimate of an item's weight in the handle's sketch.
#[inline(always)]
fn estimate_given(
    alloc: Global,
    handle: &mut SketchHandle,
    item: Item<'_>,
    estimate: &mut u64,
) -> i32
    ensures kept { handle.new.value ≡ handle.old.value }
    ensures estimate { ReadsSketch handle.old.value result (λ s.
        IsWritten estimate.old estimate.new result (Estimates s (value_of item.entry))) }
    ensures untouched { OnRefused result (estimate.new ≡ estimate.old) }
{
    let Some(held) = handle.take(alloc) else {
        return NO_SKETCH;
    };
    let answer = estimate_in(&held, item, estimate);
    handle.give(held);
    answer
}

/// Writes the estimate of an item's weight: the minimum of its cells. Does not allocate.
///
/// Returns the first of these errors, and then changes nothing:
///
/// - `BAD_ARGUMENT` if the kind of the item is not known.
/// - `InvalidUtf8` if the item is a string that is not UTF-8.
/// - `NO_SKETCH` if the handle has no sketch, and `WRONG_KIND` if its sketch is of another kind.
#[unsafe(no_mangle)]
pub extern "C" fn ds_count_min_u64_estimate(
    alloc: Global,
    handle: &mut SketchHandle,
    item: &ItemArgument<'_>,
    estimate: &mut u64,
) -> i32
    ensures kept { handle.new.value ≡ handle.old.value }
    ensures estimate { OnItem item.now result (estimate.new ≡ estimate.old) (λ given.
        ReadsSketch handle.old.value result (λ s. IsWritten estimate.old estimate.new result (Estimates s given))) }
    ensures untouched { OnRefused result (estimate.new ≡ estimate.old) }
{
    on_given_item!(item, given => estimate_given(alloc, handle, given, estimate))
}

/// Writes the estimate of an item's weight. Returns the result's number.
#[inline(always)]
fn estimate_signed_in(held: &HeldSketch, item: Item<'_>, estimate: &mut i64) -> i32
    ensures written { ReadsOwn (unshared held.now) result (λ s. IsWritten estimate.old estimate.new result (EstimatesSigned s (value_of item.entry))) }
    ensures untouched { OnRefused result (estimate.new ≡ estimate.old) }
{
    match held.get() {
        Some(sketch) => write(sketch.estimate_signed(item), estimate),
        None => WRONG_KIND,
    }
}

/// Writes the estimate of an item's weight in the handle's sketch.
#[inline(always)]
fn estimate_signed_given(
    alloc: Global,
    handle: &mut SketchHandle,
    item: Item<'_>,
    estimate: &mut i64,
) -> i32
    ensures kept { handle.new.value ≡ handle.old.value }
    ensures estimate { ReadsSketch handle.old.value result (λ s.
        IsWritten estimate.old estimate.new result (EstimatesSigned s (value_of item.entry))) }
    ensures untouched { OnRefused result (estimate.new ≡ estimate.old) }
{
    let Some(held) = handle.take(alloc) else {
        return NO_SKETCH;
    };
    let answer = estimate_signed_in(&held, item, estimate);
    handle.give(held);
    answer
}

/// Writes the estimate of an item's weight: the minimum of its cells. Does not allocate.
///
/// Returns the first of these errors, and then changes nothing:
///
/// - `BAD_ARGUMENT` if the kind of the item is not known.
/// - `InvalidUtf8` if the item is a string that is not UTF-8.
/// - `NO_SKETCH` if the handle has no sketch, and `WRONG_KIND` if its sketch is of another kind.
#[unsafe(no_mangle)]
pub extern "C" fn ds_count_min_i64_estimate(
    alloc: Global,
    handle: &mut SketchHandle,
    item: &ItemArgument<'_>,
    estimate: &mut i64,
) -> i32
    ensures kept { handle.new.value ≡ handle.old.value }
    ensures estimate { OnItem item.now result (estimate.new ≡ estimate.old) (λ given.
        ReadsSketch handle.old.value result (λ s. IsWritten estimate.old estimate.new result (EstimatesSigned s given))) }
    ensures untouched { OnRefused result (estimate.new ≡ estimate.old) }
{
    on_given_item!(item, given => estimate_signed_given(alloc, handle, given, estimate))
}

/// Writes the upper bound of an item's weight. Returns the result's number.
#[inline(always)]
fn upper_bound_in(held: &HeldSketch, item: Item<'_>, bound: &mut u64) -> i32
    ensures written { ReadsOwn (unshared held.now) result (λ s. IsWritten bound.old bound.new result (BoundsAbove s (value_of item.entry))) }
    ensures untouched { OnRefused result (bound.new ≡ bound.old) }
{
    match held.get() {
        Some(sketch) => write(sketch.upper_bound(item), bound),
        None => WRONG_KIND,
    }
}

/// Writes the upper bound of an item's weight in the handle's sketch.
#[inline(always)]
fn upper_bound_given(
    alloc: Global,
    handle: &mut SketchHandle,
    item: Item<'_>,
    bound: &mut u64,
) -> i32
    ensures kept { handle.new.value ≡ handle.old.value }
    ensures bound { ReadsSketch handle.old.value result (λ s.
        IsWritten bound.old bound.new result (BoundsAbove s (value_of item.entry))) }
    ensures untouched { OnRefused result (bound.new ≡ bound.old) }
{
    let Some(held) = handle.take(alloc) else {
        return NO_SKETCH;
    };
    let answer = upper_bound_in(&held, item, bound);
    handle.give(held);
    answer
}

/// Writes the estimate of an item's weight plus a margin, or 2^64 - 1 if the sum exceeds it. The margin is e times the total over the
/// number of buckets, rounded down. Does not allocate.
///
/// Returns the first of these errors, and then changes nothing:
///
/// - `BAD_ARGUMENT` if the kind of the item is not known.
/// - `InvalidUtf8` if the item is a string that is not UTF-8.
/// - `NO_SKETCH` if the handle has no sketch, and `WRONG_KIND` if its sketch is of another kind.
#[unsafe(no_mangle)]
pub extern "C" fn ds_count_min_u64_upper_bound(
    alloc: Global,
    handle: &mut SketchHandle,
    item: &ItemArgument<'_>,
    bound: &mut u64,
) -> i32
    ensures kept { handle.new.value ≡ handle.old.value }
    ensures bound { OnItem item.now result (bound.new ≡ bound.old) (λ given.
        ReadsSketch handle.old.value result (λ s. IsWritten bound.old bound.new result (BoundsAbove s given))) }
    ensures untouched { OnRefused result (bound.new ≡ bound.old) }
{
    on_given_item!(item, given => upper_bound_given(alloc, handle, given, bound))
}

/// Writes the upper bound of an item's weight. Returns the result's number.
#[inline(always)]
fn upper_bound_signed_in(held: &HeldSketch, item: Item<'_>, bound: &mut i64) -> i32
    ensures written { ReadsOwn (unshared held.now) result (λ s. IsWritten bound.old bound.new result (BoundsSignedAbove s (value_of item.entry))) }
    ensures untouched { OnRefused result (bound.new ≡ bound.old) }
{
    match held.get() {
        Some(sketch) => write(sketch.upper_bound_signed(item), bound),
        None => WRONG_KIND,
    }
}

/// Writes the upper bound of an item's weight in the handle's sketch.
#[inline(always)]
fn upper_bound_signed_given(
    alloc: Global,
    handle: &mut SketchHandle,
    item: Item<'_>,
    bound: &mut i64,
) -> i32
    ensures kept { handle.new.value ≡ handle.old.value }
    ensures bound { ReadsSketch handle.old.value result (λ s.
        IsWritten bound.old bound.new result (BoundsSignedAbove s (value_of item.entry))) }
    ensures untouched { OnRefused result (bound.new ≡ bound.old) }
{
    let Some(held) = handle.take(alloc) else {
        return NO_SKETCH;
    };
    let answer = upper_bound_signed_in(&held, item, bound);
    handle.give(held);
    answer
}

/// Writes the estimate of an item's weight plus a margin, or 2^63 - 1 if the sum exceeds it. The margin is e times the total over the
/// number of buckets, rounded down. Does not allocate.
///
/// Returns the first of these errors, and then changes nothing:
///
/// - `BAD_ARGUMENT` if the kind of the item is not known.
/// - `InvalidUtf8` if the item is a string that is not UTF-8.
/// - `NO_SKETCH` if the handle has no sketch, and `WRONG_KIND` if its sketch is of another kind.
#[unsafe(no_mangle)]
pub extern "C" fn ds_count_min_i64_upper_bound(
    alloc: Global,
    handle: &mut SketchHandle,
    item: &ItemArgument<'_>,
    bound: &mut i64,
) -> i32
    ensures kept { handle.new.value ≡ handle.old.value }
    ensures bound { OnItem item.now result (bound.new ≡ bound.old) (λ given.
        ReadsSketch handle.old.value result (λ s. IsWritten bound.old bound.new result (BoundsSignedAbove s given))) }
    ensures untouched { OnRefused result (bound.new ≡ bound.old) }
{
    on_given_item!(item, given => upper_bound_signed_given(alloc, handle, given, bound))
}

/// Writes the bounds and the estimate of an item's weight. Returns the result's number.
#[inline(always)]
fn bounds_in(held: &HeldSketch, item: Item<'_>, bounds: &mut ItemBounds) -> i32
    ensures written { ReadsOwn (unshared held.now) result (λ s. IsWritten bounds.old bounds.new result (Bounds s (value_of item.entry))) }
    ensures untouched { OnRefused result (bounds.new ≡ bounds.old) }
{
    match held.get() {
        Some(sketch) => write(sketch.bounds(item), bounds),
        None => WRONG_KIND,
    }
}

/// Writes the bounds and the estimate of an item's weight in the handle's sketch.
#[inline(always)]
fn bounds_given(
    alloc: Global,
    handle: &mut SketchHandle,
    item: Item<'_>,
    bounds: &mut ItemBounds,
) -> i32
    ensures kept { handle.new.value ≡ handle.old.value }
    ensures bounds { ReadsSketch handle.old.value result (λ s.
        IsWritten bounds.old bounds.new result (Bounds s (value_of item.entry))) }
    ensures untouched { OnRefused result (bounds.new ≡ bounds.old) }
{
    let Some(held) = handle.take(alloc) else {
        return NO_SKETCH;
    };
    let answer = bounds_in(&held, item, bounds);
    handle.give(held);
    answer
}

/// Writes the bounds and the estimate of an item's weight in a sketch of frequent items, which takes items of its own type alone. Does
/// not allocate.
///
/// Returns the first of these errors, and then changes nothing:
///
/// - `BAD_ARGUMENT` if the kind of the item is not known.
/// - `InvalidUtf8` if the item is a string that is not UTF-8.
/// - `NO_SKETCH` if the handle has no sketch, and `WRONG_KIND` if its sketch is not one of frequent items of this type.
#[unsafe(no_mangle)]
pub extern "C" fn ds_frequent_items_bounds(
    alloc: Global,
    handle: &mut SketchHandle,
    item: &ItemArgument<'_>,
    bounds: &mut ItemBounds,
) -> i32
    ensures kept { handle.new.value ≡ handle.old.value }
    ensures bounds { OnItem item.now result (bounds.new ≡ bounds.old) (λ given.
        ReadsSketch handle.old.value result (λ s. IsWritten bounds.old bounds.new result (Bounds s given))) }
    ensures untouched { OnRefused result (bounds.new ≡ bounds.old) }
{
    on_given_item!(item, given => bounds_given(alloc, handle, given, bounds))
}
