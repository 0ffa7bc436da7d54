//! Calls that share a sketch among handles, as for threads that read it at once.
ghost use Rattle.std.specs.Prelude.{◌≡◌, ◌⊎◌, true, false, IfOk, IfErr, IsOk};
ghost use Rattle.datasketches_c.specs.Numbers.{OnDone, OnRefused, ok, not_shared, refusal_number};
ghost use Rattle.datasketches_c.specs.Sharing.{Freezes, FreezesSketch, HoldsShared, IsShareOf, IsShareRefusal, Thaws, ThawsSketch, is_shared, unshared};

use crate::handle::SketchHandle;
use crate::held_sketch::HeldSketch;
use crate::status_code::{NO, NO_SKETCH, NOT_SHARED, OK, WRONG_KIND, YES, refusal_number};
use any_sketch::AnySketch;
use sketch_base::Fault;
use std::alloc::Global;
use std::sync::Arc;

/// Moves a sketch to where handles can share it, unless it is there. Returns it as it was, with `NoMemory`, if an allocation fails.
fn freeze(alloc: Global, held: HeldSketch) -> (HeldSketch, i32)
    ensures { Freezes held result.0 result.1 }
{
    match held {
        HeldSketch::Own(sketch) => match Arc::new(alloc, sketch) {
            Ok(shared) => (HeldSketch::Shared(shared), OK),
            Err(failed) => (
                HeldSketch::Own(failed.value),
                refusal_number(Fault::NoMemory),
            ),
        },
        HeldSketch::Shared(shared) => (HeldSketch::Shared(shared), OK),
        HeldSketch::Moved => (HeldSketch::Moved, WRONG_KIND),
    }
}

/// Returns the sketch alone, with `YES`, if no other handle shares it. Otherwise returns it as it was, with `NO`.
fn thaw(held: HeldSketch) -> (HeldSketch, i32)
    ensures { Thaws held result.0 result.1 }
{
    match held {
        HeldSketch::Shared(shared) => match Arc::try_unwrap(shared) {
            Ok(sketch) => (HeldSketch::Own(sketch), YES),
            Err(shared) => (HeldSketch::Shared(shared), NO),
        },
        own => (own, YES),
    }
}

/// Returns one more share of a sketch. Returns `NOT_SHARED` if it is not shared, and the number of `NoMemory` if no more can be counted.
fn share(held: &HeldSketch) -> Result<HeldSketch, i32>
    ensures ok { IfOk result (λ share. (unshared share ≡ unshared held.now) × (is_shared share ≡ true)) }
    ensures shared { IsOk result → is_shared held.now ≡ true }
    ensures err { IfErr result (λ e.
        ((e ≡ not_shared) × (is_shared held.now ≡ false))
        ⊎ ((e ≡ refusal_number Fault.NoMemory) × (is_shared held.now ≡ true))) }
{
    let HeldSketch::Shared(shared) = held else {
        return Err(NOT_SHARED);
    };
    match Arc::try_clone(shared) {
        Ok(share) => Ok(HeldSketch::Shared(share)),
        Err(_) => Err(refusal_number(Fault::NoMemory)),
    }
}

/// Puts one more share of the sketch of `shared` into the handle, and frees what the handle had. It copies no sketch. The handle
/// may then be passed to another thread.
///
/// Returns the first of these errors, and then changes nothing:
///
/// - `NO_SKETCH` if `shared` has no sketch, and `NOT_SHARED` if its sketch is not shared.
/// - `NoMemory` if an allocation fails.
#[unsafe(no_mangle)]
pub extern "C" fn ds_share(
    alloc: Global,
    handle: &mut SketchHandle,
    shared: &mut SketchHandle,
) -> i32
    ensures other { shared.new.value ≡ shared.old.value }
    ensures done { OnDone result ((result ≡ ok) × IsShareOf shared.old.value handle.new.value) }
    ensures shared { OnDone result (HoldsShared shared.old.value) }
    ensures refused { OnRefused result (IsShareRefusal shared.old.value result × (handle.new.value ≡ handle.old.value)) }
{
    let Some(sketch) = shared.take(alloc) else {
        return NO_SKETCH;
    };
    let answer = match share(&sketch) {
        Ok(share) => handle.put(alloc, share),
        Err(refusal) => refusal,
    };
    shared.give(sketch);
    answer
}

/// Freezes or thaws what a handle holds. Returns it afterwards, with the result's number.
fn set_frozen(alloc: Global, held: HeldSketch, frozen: bool) -> (HeldSketch, i32)
    ensures frozen { frozen ≡ true → Freezes held result.0 result.1 }
    ensures thawed { frozen ≡ false → Thaws held result.0 result.1 }
{
    if frozen {
        freeze(alloc, held)
    } else {
        thaw(held)
    }
}

/// Freezes the handle's sketch, of any kind, if `frozen` is true: handles can share it, and no call changes it until it is thawed. Does
/// nothing to a sketch that is shared. `ds_freeze` of C is this call.
///
/// The calls that read a sketch take a shared one, and those that change it return `SHARED`.
///
/// Thaws the sketch otherwise: if no other handle shares it, calls may change it again. Returns `YES` then, and `NO` if another handle
/// shares it. A sketch that is not shared is thawed. `ds_thaw` of C is this call.
///
/// Returns the first of these errors, and then changes nothing, as `NO` does:
///
/// - `NO_SKETCH` if the handle has no sketch.
/// - `NoMemory` if an allocation fails. It comes only if a sketch is frozen that is not shared.
#[unsafe(no_mangle)]
pub extern "C" fn ds_set_frozen(alloc: Global, handle: &mut SketchHandle, frozen: bool) -> i32
    ensures frozen { frozen ≡ true → FreezesSketch handle.old.value handle.new.value result }
    ensures thawed { frozen ≡ false → ThawsSketch handle.old.value handle.new.value result }
{
    let Some(mut boxed) = handle.take(alloc) else {
        return NO_SKETCH;
    };
    let sketch = Box::replace(&mut boxed, HeldSketch::Moved);
    let (after, answer) = set_frozen(alloc, sketch, frozen);
    *boxed = after;
    handle.give(boxed);
    answer
}
