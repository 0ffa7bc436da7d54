//! Arrays of handles, whose sketches a call takes out and gives back.
ghost use Rattle.std.specs.Option.{option_map};
ghost use Rattle.std.specs.Prelude.{◌≡◌, ◌<◌, Some, IfOk, IsSome, OnErr, length, map};
ghost use Rattle.datasketches_c.specs.Kinds.{OnKind};
ghost use Rattle.datasketches_c.specs.ManyHandles.{OnEachKind, found_in};
ghost use Rattle.datasketches_c.specs.Numbers.{ok};
ghost use Rattle.datasketches_c.specs.Sharing.{reads};

use crate::handle::SketchHandle;
use crate::held_sketch::HeldSketch;
use crate::kind::{Kind, reading_kind};
use crate::status_code::OK;
use std::alloc::{AllocError, Global};

/// Returns `OK` if the handle has a sketch of the kind, and otherwise `NO_SKETCH` or `WRONG_KIND`.
fn refusal_of_handle<K: Kind>(alloc: Global, handle: &mut SketchHandle) -> i32
    ensures kept { handle.new.value ≡ handle.old.value }
    ensures call { OnKind (reads K.part) handle.old.value handle.old.value result (λ s. result ≡ ok) }
{
    reading_kind!(alloc, handle, K, _sketch => OK)
}

/// Returns `OK` if each handle has a sketch of the kind, and otherwise the error of the first that has none.
pub(crate) fn refusal_of_handles<K: Kind>(alloc: Global, handles: &mut [SketchHandle]) -> i32
    ensures kept { map (λ handle. handle.value) handles.new ≡ map (λ handle. handle.value) handles.old }
    ensures call { OnEachKind (reads K.part) (map (λ handle. handle.value) handles.old) result (λ ss. result ≡ ok) }
{
    'each: for i in 0..handles.len() {
        let refusal = refusal_of_handle::<K>(alloc, &mut handles[i]);
        if refusal != OK {
            return refusal;
        }
    }
    OK
}

/// Takes the sketches out of the handles. If the allocation of the list fails, each handle keeps its sketch.
pub(crate) fn take_all(
    alloc: Global,
    handles: &mut [SketchHandle],
) -> Result<Vec<Option<Box<HeldSketch>>>, AllocError>
    ensures taken { IfOk result (λ taken.
        map (option_map (λ boxed. boxed.value)) taken.items ≡ map (λ handle. handle.value) handles.old) }
    ensures kept { OnErr result (handles.new ≡ handles.old) }
    ensures some { OnErr result (0 < length handles.old) }
{
    let mut taken = Vec::with_capacity(alloc, handles.len())?;
    'each: for i in 0..handles.len() {
        taken.push_reserved(handles[i].take(alloc));
    }
    Ok(taken)
}

/// Puts sketches that were taken out back into the handles.
pub(crate) fn give_all(
    alloc: Global,
    handles: &mut [SketchHandle],
    mut taken: Vec<Option<Box<HeldSketch>>>,
)
    requires { length taken.items ≡ length handles.old }
    ensures { map (λ handle. handle.value) handles.new ≡ map (option_map (λ boxed. boxed.value)) taken.items }
{
    'each: while let Some(sketch) = taken.pop() {
        let i = taken.len();
        handles[i].give_back(alloc, sketch);
    }
}

/// Returns a sketch that was taken out as the sketch of its kind.
fn taken_part<K: Kind>(sketch: &Option<Box<HeldSketch>>) -> &K
    requires { IsSome (found_in (reads K.part) (option_map (λ boxed. boxed.value) sketch.now)) }
    ensures { found_in (reads K.part) (option_map (λ boxed. boxed.value) sketch.now) ≡ Some result.now }
{
    let Some(boxed) = sketch else {
        unreachable!();
    };
    let Some(part) = K::part_in(boxed) else {
        unreachable!();
    };
    part
}

/// Returns the list of the sketches that were taken out, each as the sketch of its kind.
pub(crate) fn taken_parts<K: Kind>(
    alloc: Global,
    taken: &[Option<Box<HeldSketch>>],
) -> Result<Vec<&K>, AllocError>
    requires { OnEachKind (reads K.part) (map (option_map (λ boxed. boxed.value)) taken.now) ok (λ ss. ok ≡ ok) }
    ensures parts { IfOk result (λ parts. map (found_in (reads K.part)) (map (option_map (λ boxed. boxed.value)) taken.now)
        ≡ map Some (map (λ part. part.now) parts.items)) }
    ensures some { OnErr result (0 < length taken.now) }
{
    let mut parts = Vec::with_capacity(alloc, taken.len())?;
    'each: for i in 0..taken.len() {
        parts.push_reserved(taken_part::<K>(&taken[i]));
    }
    Ok(parts)
}
