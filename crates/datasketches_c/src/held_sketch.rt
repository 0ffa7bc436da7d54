//! What a handle holds of a sketch of any kind.
ghost use Rattle.std.specs.Prelude.{◌≡◌, MatchOption};
ghost use Rattle.datasketches_c.specs.Sharing.{unchangeable, unshared};
ghost use Rattle.datasketches_c.specs.declared.held_sketch.HeldSketch.TheVariants.{Moved, Own};

use crate::status_code::{SHARED, WRONG_KIND};
use any_sketch::AnySketch;
use std::sync::Arc;

/// A sketch that a handle holds alone, or shares with other handles. No call changes a shared one. `Moved` stands in a handle only while
/// a call moves its sketch.
#[derive(Drop)]
pub enum HeldSketch {
    Own(AnySketch),
    Shared(Arc<AnySketch>),
    Moved,
}

impl HeldSketch {
    /// Returns the sketch for reading, shared or not.
    #[inline(always)]
    pub(crate) fn get(&self) -> Option<&AnySketch>
        ensures { MatchOption result (unshared self.now ≡ Moved) (λ sketch. unshared self.now ≡ Own sketch.now) }
    {
        match self {
            HeldSketch::Own(sketch) => Some(sketch),
            HeldSketch::Shared(shared) => Some(&**shared),
            HeldSketch::Moved => None,
        }
    }

    /// Returns the error of a call that cannot change the sketch: `SHARED` if it is shared, and `WRONG_KIND` otherwise.
    #[cold]
    pub(crate) fn refusal_of_change(&self) -> i32
        ensures { result ≡ unchangeable self.now }
    {
        match self {
            HeldSketch::Shared(_) => SHARED,
            _ => WRONG_KIND,
        }
    }
}
