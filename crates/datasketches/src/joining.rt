//! Merges and set operations on two sketches.
ghost use Rattle.std.specs.Prelude.{◌≡◌, OnErr, OnOk};
ghost use Rattle.datasketches.specs.Actions.{Join};
ghost use Rattle.datasketches.specs.Histories.{joined};
ghost use Rattle.datasketches.specs.Joining.{Joins};
ghost use Rattle.datasketches.specs.Replies.{done_or};
ghost use Rattle.datasketches.specs.Stands.{CarriesBoth};

use crate::reply::Refusal;
use crate::sketch::Sketch;
use sketch_frequencies::EqualClone;
use std::hash::Hash;

/// A merge or set operation that combines another sketch into one. Each kind of sketch supports some of these.
pub trait Joining<T: EqualClone + Hash + Drop> {
    ghost join: { Join };

    /// Combines another sketch into this one, if both are of one kind that supports it.
    ///
    /// # Errors
    ///
    /// Returns `WrongKind` if the kinds differ or do not support it, and the error of the sketch's own call. The sketch
    /// is then unchanged.
    fn join(sketch: &mut Sketch<T>, other: &Sketch<T>) -> Result<(), Refusal>
        ensures own { Joins T.eq join other.now sketch.old (done_or result) sketch.new }
        ensures carries { OnOk result (CarriesBoth T.eq (joined join) sketch.old other.now sketch.new) }
        ensures refused { OnErr result (sketch.new ≡ sketch.old) };
}

/// Adds the other's weights.
pub struct Merge;

impl<T: EqualClone + Hash + Drop> Joining<T> for Merge {
    ghost join = { Join.Merge };

    fn join(sketch: &mut Sketch<T>, other: &Sketch<T>) -> Result<(), Refusal> {
        match sketch {
            Sketch::Frequent(sketch) => match other {
                Sketch::Frequent(other) => Ok(sketch.merge(other)?),
                _ => Err(Refusal::WrongKind),
            },
            Sketch::CountI64(sketch) => match other {
                Sketch::CountI64(other) => Ok(sketch.merge(other)?),
                _ => Err(Refusal::WrongKind),
            },
            Sketch::CountU64(sketch) => match other {
                Sketch::CountU64(other) => Ok(sketch.merge(other)?),
                _ => Err(Refusal::WrongKind),
            },
            Sketch::Bloom(_) => Err(Refusal::WrongKind),
        }
    }
}

// combines two filters by the call, or rejects other sketches
macro_rules! on_filters {
    ($sketch:ident, $other:ident, $call:ident) => {{
        let Sketch::Bloom(other) = $other else {
            return Err(Refusal::WrongKind);
        };
        let Sketch::Bloom(filter) = $sketch else {
            return Err(Refusal::WrongKind);
        };
        Ok(filter.$call(other)?)
    }};
}

/// Adds the other's positions.
pub struct Union;

impl<T: EqualClone + Hash + Drop> Joining<T> for Union {
    ghost join = { Join.Union };

    fn join(sketch: &mut Sketch<T>, other: &Sketch<T>) -> Result<(), Refusal> {
        on_filters!(sketch, other, union)
    }
}

/// Keeps only the positions that are also in the other.
pub struct Intersect;

impl<T: EqualClone + Hash + Drop> Joining<T> for Intersect {
    ghost join = { Join.Intersect };

    fn join(sketch: &mut Sketch<T>, other: &Sketch<T>) -> Result<(), Refusal> {
        on_filters!(sketch, other, intersect)
    }
}

/// Removes the other's positions.
pub struct Difference;

impl<T: EqualClone + Hash + Drop> Joining<T> for Difference {
    ghost join = { Join.Difference };

    fn join(sketch: &mut Sketch<T>, other: &Sketch<T>) -> Result<(), Refusal> {
        on_filters!(sketch, other, difference)
    }
}
