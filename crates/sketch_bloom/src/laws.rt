//! The laws of set algebra, of parts, of equality and of images, as theorems.
//!
//! Each function but `restored` does nothing: its clauses are the law. The laws are about the states that the contracts
//! of [`BloomFilter`](crate::BloomFilter) name.
ghost use Rattle.std.specs.Prelude.{◌≡◌, IfOk, IfErr};
ghost use Rattle.sketch_base.specs.Errors.{no_memory};
ghost use Rattle.sketch_bloom.specs.Laws.{SpelledIsImage, SpelledIsFront, ImageIsOfOne, ImageIsOfSome, UnionCommutes, UnionAssociates, UnionIsIdempotent, UnionKeeps, UnionBrings, EmptyContainsNothing, InsertedIsContained, DifferenceTakesAway, DifferenceAddsNothing, DifferenceLeaves, EqualByParts, EqualityIsReflexive, EqualityIsSymmetric, EqualityIsTransitive};
ghost use Rattle.sketch_bloom.specs.Parts.{PartsAreContained};

use crate::bloom_filter::BloomFilter;
use sketch_base::Error;
use std::alloc::Global;

/// States the laws of union.
///
/// The union of compatible filters does not depend on their order, and the union of three not on which two are united
/// first. The union of a filter with itself is the filter. The union of compatible filters contains every item that
/// either contains.
pub fn union_is_set_union()
    ensures commutes { UnionCommutes }
    ensures associates { UnionAssociates }
    ensures idempotent { UnionIsIdempotent }
    ensures keeps { UnionKeeps }
    ensures brings { UnionBrings }
{}

/// States that a filter contains what each of its parts contains.
///
/// The parts are the filter itself, the filter before each insertion, and both sides of each union with their parts. They
/// begin anew with each intersection, difference or reset, which may remove positions.
pub fn parts_are_contained()
    ensures { PartsAreContained }
{}

/// States that a filter with an empty set contains no item, and that an item is contained after it was inserted.
pub fn membership()
    ensures empty { EmptyContainsNothing }
    ensures inserted { InsertedIsContained }
{}

/// States what a difference removes and what it keeps.
///
/// Afterwards no item of the other, compatible filter is contained. An item that is contained afterwards was contained
/// before. An item that was contained before stays contained if none of its positions is in the other set.
pub fn difference_takes_and_leaves()
    ensures takes_away { DifferenceTakesAway }
    ensures adds_nothing { DifferenceAddsNothing }
    ensures leaves { DifferenceLeaves }
{}

/// States that filters are equal exactly if shape, seed and set are, and that this is an equivalence.
pub fn equality_is_an_equivalence()
    ensures by_parts { EqualByParts }
    ensures reflexive { EqualityIsReflexive }
    ensures symmetric { EqualityIsSymmetric }
    ensures transitive { EqualityIsTransitive }
{}

/// States the laws of images.
///
/// What is written for a filter is an image of it, whatever bytes follow. No bytes are an image of two filters. Bytes are an image of some
/// filter exactly if no check fails.
pub fn image_laws()
    ensures spelled { SpelledIsImage }
    ensures front { SpelledIsFront }
    ensures one { ImageIsOfOne }
    ensures some { ImageIsOfSome }
{}

/// Writes the filter as an image and reads it back. The result equals the filter.
///
/// # Errors
///
/// `NoMemory` if the image or the filter cannot be allocated.
pub fn restored(alloc: Global, filter: &BloomFilter) -> Result<BloomFilter, Error>
    ensures same { IfOk result (λ copy. copy ≡ filter.now) }
    ensures err { IfErr result (λ e. e ≡ no_memory) }
{
    let image = filter.serialize()?;
    BloomFilter::deserialize(alloc, &image)
}
