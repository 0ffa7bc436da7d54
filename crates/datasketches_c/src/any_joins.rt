//! Merges of the sketches of many handles, of any kind.
ghost use Rattle.std.specs.Prelude.{◌≡◌, map};
ghost use Rattle.datasketches_c.specs.AnyJoins.{MergesAnyWithAll, MergesWithAll};
ghost use Rattle.datasketches_c.specs.Numbers.{OnRefused};

use crate::handle::SketchHandle;
use crate::held_sketch::HeldSketch;
use crate::many_joins::join_many_into;
use crate::status_code::NO_SKETCH;
use any_sketch::AnySketch;
use std::alloc::Global;

/// Merges the sketches of handles, which keep them, into a sketch. Returns the result's number.
fn merge_with_all(alloc: Global, sketch: &mut HeldSketch, others: &mut [SketchHandle]) -> i32
    ensures kept { map (λ other. other.value) others.new ≡ map (λ other. other.value) others.old }
    ensures call { MergesWithAll sketch.old sketch.new result (map (λ other. other.value) others.old) }
    ensures refused { OnRefused result (sketch.new ≡ sketch.old) }
{
    match sketch {
        HeldSketch::Own(AnySketch::FrequentStrings(sketch)) => join_many_into(
            alloc, sketch, others,
        ),
        HeldSketch::Own(AnySketch::FrequentI64(sketch)) => join_many_into(alloc, sketch, others),
        HeldSketch::Own(AnySketch::FrequentU64(sketch)) => join_many_into(alloc, sketch, others),
        HeldSketch::Own(AnySketch::CountI64(sketch)) => join_many_into(alloc, sketch, others),
        HeldSketch::Own(AnySketch::CountU64(sketch)) => join_many_into(alloc, sketch, others),
        HeldSketch::Own(AnySketch::Filter(sketch)) => join_many_into(alloc, sketch, others),
        _ => sketch.refusal_of_change(),
    }
}

/// Merges the sketches of the other handles into this one, all of the same kind, in order and in one call. This one then stands for
/// all histories. The other sketches stay as they were. A sketch of frequent items is copied once, not once for each other sketch.
///
/// Returns the first of these errors, and then changes nothing:
///
/// - `NO_SKETCH` if a handle has no sketch, `SHARED` if this one's is shared, and `WRONG_KIND` if another's is of another kind. The
///   errors of `handle` come first, then those of `others`, in order.
/// - `NoMemory` if the list of the other sketches cannot be allocated, of two words for each.
/// - `Mismatch` if another filter or Count-Min sketch differs from this one in shape or seed.
/// - `WeightOverflow` if the totals together exceed 2^64 - 1, or 2^63 - 1 for weights in `i64`.
/// - `NoMemory` if another allocation fails. Only a sketch of frequent items makes one.
#[unsafe(no_mangle)]
pub extern "C" fn ds_merge_all(
    alloc: Global,
    handle: &mut SketchHandle,
    others: &mut [SketchHandle],
) -> i32
    ensures others { map (λ other. other.value) others.new ≡ map (λ other. other.value) others.old }
    ensures refused { OnRefused result (handle.new.value ≡ handle.old.value) }
    ensures call { MergesAnyWithAll handle.old.value handle.new.value result (map (λ other. other.value) others.old) }
{
    let Some(mut sketch) = handle.take(alloc) else {
        return NO_SKETCH;
    };
    let answer = merge_with_all(alloc, &mut *sketch, others);
    handle.give(sketch);
    answer
}
