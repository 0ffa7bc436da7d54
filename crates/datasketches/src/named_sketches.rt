//! Merges and set operations on two named sketches.
ghost use Rattle.std.specs.Prelude.{◌≡◌, ◌≢◌, ◌<◌, length};
ghost use Rattle.datasketches.specs.Indices.{JoinsAt};
ghost use Rattle.datasketches.specs.Replies.{done_or};
ghost use Rattle.datasketches.specs.Steps.{JoinsNamed};

use crate::joining::Joining;
use crate::name_map::{NameMap, index_of};
use crate::reply::Refusal;
use crate::sketch::Sketch;
use sketch_frequencies::EqualClone;
use std::hash::Hash;

impl<T: EqualClone + Hash + Drop> NameMap<Sketch<T>> {
    /// Combines the sketch named `other` into the one named `into`.
    ///
    /// # Errors
    ///
    /// Returns `NoSuchName` if a name has no sketch, `SameName` if both names are the same, and the errors of
    /// [`Joining::join`].
    pub fn join<J: Joining<T>>(&mut self, into: &str, other: &str) -> Result<(), Refusal>
        ensures joins { JoinsNamed T.eq J.join into.now other.now self.old.entries (done_or result) self.new.entries }
        ensures hasher { self.new.hasher ≡ self.old.hasher }
    {
        let Some(index) = index_of(&self.indices, into) else {
            return Err(Refusal::NoSuchName);
        };
        let Some(from) = index_of(&self.indices, other) else {
            return Err(Refusal::NoSuchName);
        };
        if index == from {
            return Err(Refusal::SameName);
        }
        join_at::<T, J>(&mut self.values, index, from)
    }
}

/// Combines the sketch at index `other` into the one at index `into`.
fn join_at<T: EqualClone + Hash + Drop, J: Joining<T>>(
    sketches: &mut [Sketch<T>],
    into: usize,
    other: usize,
) -> Result<(), Refusal>
    requires into_below { into < length sketches.old }
    requires other_below { other < length sketches.old }
    requires apart { into ≢ other }
    ensures { JoinsAt T.eq J.join sketches.old into other (done_or result) sketches.new }
{
    if into < other {
        let (front, back) = sketches.split_at_mut(other);
        J::join(&mut front[into], &back[0])
    } else {
        let (front, back) = sketches.split_at_mut(into);
        J::join(&mut back[0], &front[other])
    }
}
