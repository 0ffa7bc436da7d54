//! Handles, which hold sketches for C.
ghost use Rattle.std.specs.Prelude.{◌≡◌, Option, None, Some, MatchOption};
ghost use Rattle.std.specs.Coded.{coded_option};
ghost use Rattle.std.specs.Option.{option_map};
ghost use Rattle.datasketches_c.specs.Numbers.{OnDone, OnRefused, ok, refusal_number};
ghost use Rattle.datasketches_c.specs.contracts.held_sketch.HeldSketch as held_sketch;
ghost use Rattle.datasketches_c.specs.declared.held_sketch.HeldSketch as sketch;

use crate::held_sketch::HeldSketch;
use crate::raw_box::RawBox;
use crate::status_code::{OK, refusal_number};
use sketch_base::Fault;
use std::alloc::Global;
use std::marker::Model;

/// A pointer to a sketch on the heap. It is null if the handle has no sketch.
#[repr(C)]
pub struct SketchHandle {
    pub(crate) pointer: *mut u8,
    pub(crate) alloc: Global,
    pub(crate) ghost value: { Option sketch.HeldSketch } by { coded_option held_sketch.the_row.coded },
}

impl Model for SketchHandle {
    ghost use Rattle.std.specs.contracts.impls.GlobalAllocator.TheImpl.{ghosts};
    ghost use Rattle.datasketches_c.specs.contracts.held_sketch.HeldSketch as held_sketch;
    ghost use Rattle.datasketches_c.specs.Holding.{holds};

    ghost also_owns = { λ handle.
        holds (ghosts.dealloc_token handle.alloc) held_sketch.the_row handle.pointer handle.value };
}

impl SketchHandle {
    /// Creates a handle of no sketch.
    pub(crate) fn none(alloc: Global) -> SketchHandle
        ensures { result.value ≡ None }
    {
        SketchHandle {
            pointer: std::ptr::null_mut(),
            alloc,
        }
    }

    fn from_raw_box(raw: RawBox<HeldSketch, Global>) -> SketchHandle
        ensures { result.value ≡ Some raw.value }
    {
        let RawBox { pointer, alloc } = raw;
        SketchHandle {
            pointer: pointer as *mut u8,
            alloc,
        }
    }

    fn into_raw_box(self) -> Option<RawBox<HeldSketch, Global>>
        ensures { MatchOption result (self.value ≡ None) (λ raw. self.value ≡ Some raw.value) }
    {
        let SketchHandle { pointer, alloc } = self;
        if pointer.is_null() {
            return None;
        }
        Some(RawBox {
            pointer: pointer as *mut HeldSketch,
            alloc,
        })
    }

    /// Creates the handle of a sketch.
    pub(crate) fn of(sketch: Box<HeldSketch>) -> SketchHandle
        ensures { result.value ≡ Some sketch.value }
    {
        SketchHandle::from_raw_box(RawBox::of(sketch))
    }

    /// Returns the sketch of a handle, if any.
    pub(crate) fn into_box(self) -> Option<Box<HeldSketch>>
        ensures { MatchOption result (self.value ≡ None) (λ boxed. self.value ≡ Some boxed.value) }
    {
        match self.into_raw_box() {
            None => None,
            Some(raw) => Some(raw.into_box()),
        }
    }

    /// Takes the sketch out of the handle.
    #[inline]
    pub(crate) fn take(&mut self, alloc: Global) -> Option<Box<HeldSketch>>
        ensures sketch { MatchOption result (self.old.value ≡ None) (λ boxed. self.old.value ≡ Some boxed.value) }
        ensures emptied { self.new.value ≡ None }
    {
        std::mem::replace(self, SketchHandle::none(alloc)).into_box()
    }

    /// Puts a sketch into the handle, which has none.
    #[inline]
    pub(crate) fn give(&mut self, sketch: Box<HeldSketch>)
        ensures { self.new.value ≡ Some sketch.value }
    {
        *self = SketchHandle::of(sketch);
    }

    /// Puts a sketch into the handle, if any. Otherwise the handle has none.
    pub(crate) fn give_back(&mut self, alloc: Global, sketch: Option<Box<HeldSketch>>)
        ensures { self.new.value ≡ option_map (λ boxed. boxed.value) sketch }
    {
        *self = match sketch {
            Some(boxed) => SketchHandle::of(boxed),
            None => SketchHandle::none(alloc),
        };
    }

    /// Puts a sketch into the handle, and frees what the handle had. Returns `NoMemory` if an allocation fails. Then
    /// the handle is unchanged.
    pub(crate) fn put(&mut self, alloc: Global, sketch: HeldSketch) -> i32
        ensures done { OnDone result ((result ≡ ok) × (self.new.value ≡ Some sketch)) }
        ensures refused { OnRefused result
            ((result ≡ refusal_number Fault.NoMemory) × (self.new.value ≡ self.old.value)) }
    {
        match Box::new(alloc, sketch) {
            Ok(boxed) => {
                *self = SketchHandle::of(boxed);
                OK
            }
            Err(_) => refusal_number(Fault::NoMemory),
        }
    }
}

/// Frees the handle's sketch, if any.
impl Drop for SketchHandle {
    fn drop(self) {
        drop(self.into_box());
    }
}

// A thread may pass a handle to another thread, since a handle alone owns its sketch. The law is proved.
unsafe impl Send for SketchHandle {}
