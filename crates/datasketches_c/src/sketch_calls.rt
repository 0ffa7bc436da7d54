//! Calls on whole sketches: change, copy and measure them.
ghost use Rattle.std.specs.Prelude.{◌≡◌, ◌<◌, ◌≤◌, None, Some};
ghost use Rattle.any_sketch.specs.Changes.{Decays, Halves, Resets, SetsSampleSize};
ghost use Rattle.any_sketch.specs.Numbers.{IsBounded, bytes_of, number_of};
ghost use Rattle.datasketches_c.specs.Calls.{ChangesHeld, ChangesSketch, IsDone, ReadsOwn, ReadsSketch};
ghost use Rattle.datasketches_c.specs.Copies.{IsCopied, IsCopiedFrom};
ghost use Rattle.datasketches_c.specs.Numbers.{OnRefused, bad_fraction, ok};
ghost use Rattle.datasketches_c.specs.Sharing.{unshared};
ghost use Rattle.datasketches_c.specs.SketchNumbers.{TellsNumber, WritesNumber, number_numbered};

use crate::codes::code_of;
use crate::handle::SketchHandle;
use crate::held_sketch::HeldSketch;
use crate::status_code::{BAD_ARGUMENT, BAD_FRACTION, NO_SKETCH, OK, WRONG_KIND, refusal_number};
use any_sketch::{AnySketch, Number};
use sketch_base::Fault;
use std::alloc::Global;

/// Empties a sketch. Returns the result's number.
fn reset_in(held: &mut HeldSketch) -> i32
    ensures { ChangesHeld held.old held.new result (λ s t. (result ≡ ok) × Resets s t) }
{
    match held {
        HeldSketch::Own(sketch) => {
            sketch.reset();
            OK
        }
        _ => held.refusal_of_change(),
    }
}

/// Removes all items and weights from the handle's sketch, of any kind. Its sizes, its seed and its key stay as they were. Does not
/// allocate.
///
/// Returns `NO_SKETCH` if the handle has no sketch, and `SHARED` if its sketch is shared. Then nothing changes.
#[unsafe(no_mangle)]
pub extern "C" fn ds_reset(alloc: Global, handle: &mut SketchHandle) -> i32
    ensures { ChangesSketch handle.old.value handle.new.value result (λ s t. (result ≡ ok) × Resets s t) }
{
    let Some(mut held) = handle.take(alloc) else {
        return NO_SKETCH;
    };
    let answer = reset_in(&mut *held);
    handle.give(held);
    answer
}

/// Sets how many counters purges of a sketch sample. Returns the result's number.
fn resample_in(held: &mut HeldSketch, sample_size: usize) -> i32
    ensures { ChangesHeld held.old held.new result (λ s t. IsDone result (SetsSampleSize s sample_size t)) }
{
    match held {
        HeldSketch::Own(sketch) => code_of(sketch.set_sample_size(sample_size)),
        _ => held.refusal_of_change(),
    }
}

/// Sets the number of counters that later purges of a sketch of frequent items sample. Nothing else changes.
///
/// Returns the first of these errors, and then changes nothing:
///
/// - `NO_SKETCH` if the handle has no sketch, `SHARED` if its sketch is shared, and `WRONG_KIND` if it is of another kind.
/// - `BadSampleSize` unless `sample_size` is even, and from 2 to three quarters of the maximum size, at most 1024.
#[unsafe(no_mangle)]
pub extern "C" fn ds_frequent_items_set_sample_size(
    alloc: Global,
    handle: &mut SketchHandle,
    sample_size: usize,
) -> i32
    ensures { ChangesSketch handle.old.value handle.new.value result (λ s t.
        IsDone result (SetsSampleSize s sample_size t)) }
{
    let Some(mut held) = handle.take(alloc) else {
        return NO_SKETCH;
    };
    let answer = resample_in(&mut *held, sample_size);
    handle.give(held);
    answer
}

/// Halves each cell and the total of a Count-Min sketch. Returns the result's number.
fn halve_in(held: &mut HeldSketch) -> i32
    ensures { ChangesHeld held.old held.new result (λ s t. IsDone result (Halves s t)) }
{
    match held {
        HeldSketch::Own(sketch) => code_of(sketch.halve()),
        _ => held.refusal_of_change(),
    }
}

/// Halves each cell and the total of a Count-Min sketch with weights in `u64`, rounded down.
///
/// Returns `NO_SKETCH` if the handle has no sketch, `SHARED` if its sketch is shared, and `WRONG_KIND` if it is of another kind.
/// Then nothing changes.
#[unsafe(no_mangle)]
pub extern "C" fn ds_count_min_u64_halve(alloc: Global, handle: &mut SketchHandle) -> i32
    ensures { ChangesSketch handle.old.value handle.new.value result (λ s t. IsDone result (Halves s t)) }
{
    let Some(mut held) = handle.take(alloc) else {
        return NO_SKETCH;
    };
    let answer = halve_in(&mut *held);
    handle.give(held);
    answer
}

/// Multiplies each cell and the total of a Count-Min sketch by a fraction. Returns the result's number.
fn decay_in(held: &mut HeldSketch, numerator: u64, denominator: u64) -> i32
    requires positive { 0 < numerator }
    requires at_most_one { numerator ≤ denominator }
    ensures { ChangesHeld held.old held.new result (λ s t. IsDone result (Decays s numerator denominator t)) }
{
    match held {
        HeldSketch::Own(sketch) => code_of(sketch.decay(numerator, denominator)),
        _ => held.refusal_of_change(),
    }
}

/// Multiplies each cell and the total of a Count-Min sketch with weights in `u64` by a fraction, rounded down.
///
/// Returns the first of these errors, and then changes nothing:
///
/// - `BAD_FRACTION` unless the fraction is above 0 and at most 1.
/// - `NO_SKETCH` if the handle has no sketch, `SHARED` if its sketch is shared, and `WRONG_KIND` if it is of another kind.
#[unsafe(no_mangle)]
pub extern "C" fn ds_count_min_u64_decay(
    alloc: Global,
    handle: &mut SketchHandle,
    numerator: u64,
    denominator: u64,
) -> i32
    ensures zero { numerator ≡ 0 → (result ≡ bad_fraction) × (handle.new.value ≡ handle.old.value) }
    ensures above { denominator < numerator → (result ≡ bad_fraction) × (handle.new.value ≡ handle.old.value) }
    ensures call { 0 < numerator → numerator ≤ denominator → ChangesSketch handle.old.value handle.new.value result
        (λ s t. IsDone result (Decays s numerator denominator t)) }
{
    if numerator == 0 || numerator > denominator {
        return BAD_FRACTION;
    }
    let Some(mut held) = handle.take(alloc) else {
        return NO_SKETCH;
    };
    let answer = decay_in(&mut *held, numerator, denominator);
    handle.give(held);
    answer
}

/// Puts a copy of a sketch into the handle, frees what the handle had, and returns `OK`.
///
/// Returns `NoMemory` if an allocation fails. Then the handle is unchanged.
fn put_copy(alloc: Global, handle: &mut SketchHandle, held: &HeldSketch) -> i32
    ensures { IsCopiedFrom (unshared held.now) handle.old.value handle.new.value result }
{
    match held.get() {
        Some(sketch) => match sketch.try_clone() {
            Ok(copy) => handle.put(alloc, HeldSketch::Own(copy)),
            Err(_) => refusal_number(Fault::NoMemory),
        },
        None => WRONG_KIND,
    }
}

/// Puts a copy of the other handle's sketch, of any kind, into this handle, and frees what this handle had. The other
/// handle keeps its sketch.
///
/// Returns the first of these errors, and then changes nothing:
///
/// - `NO_SKETCH` if the other handle has no sketch.
/// - `NoMemory` if an allocation fails.
#[unsafe(no_mangle)]
pub extern "C" fn ds_clone(
    alloc: Global,
    handle: &mut SketchHandle,
    other: &mut SketchHandle,
) -> i32
    ensures other { other.new.value ≡ other.old.value }
    ensures copied { IsCopied other.old.value handle.old.value handle.new.value result }
{
    let Some(held) = other.take(alloc) else {
        return NO_SKETCH;
    };
    let answer = put_copy(alloc, handle, &held);
    other.give(held);
    answer
}

/// Frees the handle's sketch, if any. Then the handle has no sketch. `ds_free` of C is this call for a pointer that is not null.
#[unsafe(no_mangle)]
pub extern "C" fn ds_free_handle(alloc: Global, handle: &mut SketchHandle)
    ensures { handle.new.value ≡ None }
{
    *handle = SketchHandle::none(alloc);
}

/// Returns the number that one of `DS_NUMBER_SEED` and so on of C names, or `None` if it is none of them.
fn number_numbered(which: i32) -> Option<Number>
    ensures { result ≡ number_numbered which }
{
    match which {
        1 => Some(Number::Seed),
        2 => Some(Number::NumBits),
        3 => Some(Number::BitsUsed),
        4 => Some(Number::TotalWeight),
        5 => Some(Number::MaximumError),
        6 => Some(Number::NumActiveItems),
        7 => Some(Number::MaximumMapCapacity),
        8 => Some(Number::CurrentMapCapacity),
        9 => Some(Number::MaxMapSize),
        10 => Some(Number::SampleSize),
        11 => Some(Number::NumBuckets),
        12 => Some(Number::NumHashes),
        13 => Some(Number::Kind),
        _ => None,
    }
}

/// Writes a number of a sketch. Returns `WRONG_KIND` if its kind does not have it. Then nothing changes.
fn write_number(sketch: &AnySketch, which: Number, value: &mut u64) -> i32
    ensures number { WritesNumber (number_of sketch.now which) value.old value.new result }
    ensures bounded { IsBounded sketch.now }
    ensures untouched { OnRefused result (value.new ≡ value.old) }
{
    match sketch.number(which) {
        Some(number) => {
            *value = number;
            OK
        }
        None => WRONG_KIND,
    }
}

/// Writes a number of the sketch that a handle holds.
fn number_in(held: &HeldSketch, which: Number, value: &mut u64) -> i32
    ensures number { ReadsOwn (unshared held.now) result (λ s.
        WritesNumber (number_of s which) value.old value.new result × IsBounded s) }
    ensures untouched { OnRefused result (value.new ≡ value.old) }
{
    match held.get() {
        Some(sketch) => write_number(sketch, which, value),
        None => WRONG_KIND,
    }
}

/// Writes a number of the handle's sketch, in constant time. Does not allocate.
///
/// Returns the first of these errors, and then changes nothing:
///
/// - `BAD_ARGUMENT` if no number is named so.
/// - `NO_SKETCH` if the handle has no sketch, and `WRONG_KIND` if sketches of its kind do not have the number.
#[unsafe(no_mangle)]
pub extern "C" fn ds_number(
    alloc: Global,
    handle: &mut SketchHandle,
    which: i32,
    value: &mut u64,
) -> i32
    ensures kept { handle.new.value ≡ handle.old.value }

    // Three quarters of the maximum size bound the counters, and the total bounds the error.
    ensures number { TellsNumber (number_numbered which) handle.old.value value.old value.new result }
    ensures untouched { OnRefused result (value.new ≡ value.old) }
{
    let Some(number) = number_numbered(which) else {
        return BAD_ARGUMENT;
    };
    let Some(held) = handle.take(alloc) else {
        return NO_SKETCH;
    };
    let answer = number_in(&held, number, value);
    handle.give(held);
    answer
}

/// Writes how many bytes the sketch that a handle holds takes.
fn memory_bytes_in(held: &HeldSketch, bytes: &mut usize) -> i32
    ensures bytes { ReadsOwn (unshared held.now) result (λ s. (result ≡ ok) × (bytes.new ≡ bytes_of s)) }
    ensures untouched { OnRefused result (bytes.new ≡ bytes.old) }
{
    match held.get() {
        Some(sketch) => {
            *bytes = sketch.memory_bytes();
            OK
        }
        None => WRONG_KIND,
    }
}

/// Writes how many bytes the handle's sketch takes, by a formula: 8 for each word of a filter, and for each cell and each row of a
/// Count-Min sketch. A sketch of frequent numbers takes 28 for each slot of its table, and one of strings 44 and the bytes of its strings.
/// Takes one pass over the table of a sketch of frequent items. Does not allocate.
///
/// Returns `NO_SKETCH` if the handle has no sketch. Then nothing changes.
#[unsafe(no_mangle)]
pub extern "C" fn ds_memory_bytes(
    alloc: Global,
    handle: &mut SketchHandle,
    bytes: &mut usize,
) -> i32
    ensures kept { handle.new.value ≡ handle.old.value }
    ensures bytes { ReadsSketch handle.old.value result (λ s. (result ≡ ok) × (bytes.new ≡ bytes_of s)) }
    ensures untouched { OnRefused result (bytes.new ≡ bytes.old) }
{
    let Some(held) = handle.take(alloc) else {
        return NO_SKETCH;
    };
    let answer = memory_bytes_in(&held, bytes);
    handle.give(held);
    answer
}
