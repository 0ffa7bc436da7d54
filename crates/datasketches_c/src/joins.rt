//! Calls that combine the sketch of a handle with another's, or compare two.
ghost use Rattle.std.specs.Prelude.{◌≡◌};
ghost use Rattle.any_sketch.specs.Joins.{Compares};
ghost use Rattle.datasketches_c.specs.Calls.{ChangesHeld, IsAnswer, IsDone, ReadsOwn, WithOther, WithOwn};
ghost use Rattle.datasketches_c.specs.Joins.{Combines, CombinesOwn, ComparesOther, ComparesOwn, JoinsNumbered, JoinsOther, has_comparison, has_join, join_numbered};
ghost use Rattle.datasketches_c.specs.Numbers.{OnRefused};
ghost use Rattle.datasketches_c.specs.Sharing.{unshared};

use crate::codes::{code_of, code_of_answer};
use crate::handle::SketchHandle;
use crate::held_sketch::HeldSketch;
use crate::status_code::{BAD_ARGUMENT, NO_SKETCH, WRONG_KIND};
use any_sketch::AnySketch;
use std::alloc::Global;

/// How two sketches are combined.
#[derive(Clone, Copy)]
pub enum Join {
    Merge,
    Intersection,
    Difference,
}

/// Returns whether the kind of a sketch has the call.
fn has_join(join: Join, sketch: &AnySketch) -> bool
    ensures { result ≡ has_join join sketch.now }
{
    match join {
        Join::Merge => true,
        _ => match sketch {
            AnySketch::Filter(_) => true,
            _ => false,
        },
    }
}

/// Combines a sketch with another. Returns the result's number.
fn combine(sketch: &mut AnySketch, other: &AnySketch, join: Join) -> i32
    ensures { IsDone result (Combines join sketch.old other.now sketch.new) }
{
    match join {
        Join::Merge => code_of(sketch.merge(other)),
        Join::Intersection => code_of(sketch.intersect(other)),
        Join::Difference => code_of(sketch.difference(other)),
    }
}

/// Combines a sketch with one that a handle holds.
fn combine_held(sketch: &mut AnySketch, other: &HeldSketch, join: Join) -> i32
    ensures { WithOwn (unshared other.now) result (sketch.new ≡ sketch.old) (λ o.
        IsDone result (Combines join sketch.old o sketch.new)) }
{
    match other.get() {
        Some(other) => combine(sketch, other, join),
        None => WRONG_KIND,
    }
}

/// Combines a sketch with that of a handle, which keeps it.
fn combine_own(alloc: Global, sketch: &mut AnySketch, other: &mut SketchHandle, join: Join) -> i32
    ensures kept { other.new.value ≡ other.old.value }
    ensures call { CombinesOwn join other.old.value result sketch.old sketch.new }
{
    if !has_join(join, sketch) {
        return WRONG_KIND;
    }
    let Some(held) = other.take(alloc) else {
        return NO_SKETCH;
    };
    let answer = combine_held(sketch, &held, join);
    other.give(held);
    answer
}

/// Combines the sketch that a handle has for itself with that of another handle.
fn join_held(alloc: Global, held: &mut HeldSketch, other: &mut SketchHandle, join: Join) -> i32
    ensures kept { other.new.value ≡ other.old.value }
    ensures call { ChangesHeld held.old held.new result (CombinesOwn join other.old.value result) }
{
    match held {
        HeldSketch::Own(sketch) => combine_own(alloc, sketch, other, join),
        _ => held.refusal_of_change(),
    }
}

/// Combines the sketches of two handles.
fn join_sketches(
    alloc: Global,
    handle: &mut SketchHandle,
    other: &mut SketchHandle,
    join: Join,
) -> i32
    ensures other { other.new.value ≡ other.old.value }
    ensures call { JoinsOther join handle.old.value handle.new.value other.old.value result }
{
    let Some(mut held) = handle.take(alloc) else {
        return NO_SKETCH;
    };
    let answer = join_held(alloc, &mut *held, other, join);
    handle.give(held);
    answer
}

/// Returns how two sketches are combined that one of `DS_JOIN_MERGE` and so on of C names, or `None` if it is none of them.
fn join_numbered(join: i32) -> Option<Join>
    ensures { result ≡ join_numbered join }
{
    match join {
        1 => Some(Join::Merge),
        2 => Some(Join::Intersection),
        3 => Some(Join::Difference),
        _ => None,
    }
}

/// Combines the other handle's sketch, of the same kind, with this one. The other sketch stays as it was.
///
/// - `join` 1 merges them. A filter gets the other's positions, as a union, and a Count-Min sketch its cells and total. A sketch of
///   frequent items keeps its own sizes.
/// - 2 keeps the positions that both filters have, and 3 removes those of the other filter.
///
/// Returns the first of these errors, and then changes nothing:
///
/// - `BAD_ARGUMENT` for another `join`.
/// - `NO_SKETCH` if a handle has no sketch, `SHARED` if that of `handle` is shared, and `WRONG_KIND` if the kinds differ, or 2 or 3 gets
///   one that is no filter. The errors of `handle` come before those of `other`.
/// - `Mismatch` if two filters differ in bits, hashes or seed, or two Count-Min sketches in hashes, buckets or seed.
/// - `WeightOverflow` if both totals exceed 2^64 - 1, or 2^63 - 1 for weights in `i64`.
/// - `NoMemory` if an allocation fails, which only frequent items make.
#[unsafe(no_mangle)]
pub extern "C" fn ds_join(
    alloc: Global,
    handle: &mut SketchHandle,
    other: &mut SketchHandle,
    join: i32,
) -> i32
    ensures other { other.new.value ≡ other.old.value }
    ensures call { JoinsNumbered (join_numbered join) handle.old.value handle.new.value other.old.value result }
{
    match join_numbered(join) {
        Some(join) => join_sketches(alloc, handle, other, join),
        None => BAD_ARGUMENT,
    }
}

/// Returns whether sketches of the kind are compared.
fn has_comparison(sketch: &AnySketch) -> bool
    ensures { result ≡ has_comparison sketch.now }
{
    match sketch {
        AnySketch::Filter(_) | AnySketch::CountI64(_) | AnySketch::CountU64(_) => true,
        _ => false,
    }
}

/// Compares a sketch with one that a handle holds. Returns the result's number.
fn compare_held(sketch: &AnySketch, other: &HeldSketch) -> i32
    ensures { WithOwn (unshared other.now) result (Unit {0}) (λ o. IsAnswer result (Compares sketch.now o)) }
{
    match other.get() {
        Some(other) => code_of_answer(sketch.equals(other)),
        None => WRONG_KIND,
    }
}

/// Compares a sketch with that of a handle, which keeps it.
fn compare_own(alloc: Global, sketch: &AnySketch, other: &mut SketchHandle) -> i32
    ensures kept { other.new.value ≡ other.old.value }
    ensures call { ComparesOwn other.old.value result sketch.now }
{
    if !has_comparison(sketch) {
        return WRONG_KIND;
    }
    let Some(held) = other.take(alloc) else {
        return NO_SKETCH;
    };
    let answer = compare_held(sketch, &held);
    other.give(held);
    answer
}

/// Compares the sketch that a handle holds with that of another handle.
fn compare(alloc: Global, held: &HeldSketch, other: &mut SketchHandle) -> i32
    ensures kept { other.new.value ≡ other.old.value }
    ensures call { ReadsOwn (unshared held.now) result (ComparesOwn other.old.value result) }
{
    match held.get() {
        Some(sketch) => compare_own(alloc, sketch, other),
        None => WRONG_KIND,
    }
}

/// Returns `YES` if both sketches, filters or Count-Min sketches of one kind, are equal, and `NO` otherwise: in sizes, seed, and
/// positions or total and cells. Both stay as they were.
///
/// Returns `NO_SKETCH` if a handle has no sketch, and `WRONG_KIND` if the kinds differ, or they are sketches of frequent items. The errors
/// of `handle` come before those of `other`.
#[unsafe(no_mangle)]
pub extern "C" fn ds_equal(
    alloc: Global,
    handle: &mut SketchHandle,
    other: &mut SketchHandle,
) -> i32
    ensures kept { handle.new.value ≡ handle.old.value }
    ensures other { other.new.value ≡ other.old.value }
    ensures call { ComparesOther handle.old.value other.old.value result }
{
    let Some(held) = handle.take(alloc) else {
        return NO_SKETCH;
    };
    let answer = compare(alloc, &held, other);
    handle.give(held);
    answer
}
