//! Sizes of new sketches.
ghost use Rattle.std.specs.Prelude.{◌≡◌, None, IfOk, IfErr, IsOk};
ghost use Rattle.sketch_base.specs.Errors.{refusal_of};
ghost use Rattle.datasketches.specs.Actions.{Shape};
ghost use Rattle.datasketches.specs.Histories.{begun};
ghost use Rattle.datasketches.specs.Shapes.{empty_sketch, fault_of};
ghost use Rattle.datasketches.specs.Stands.{StandsFor};

use crate::sketch::{Sketch, of_kind};
use sketch_base::Error;
use sketch_bloom::BloomFilterBuilder;
use sketch_countmin::{CountMinSizes, CountMinSketch};
use sketch_frequencies::{FrequentItemsSizes, FrequentItemsSketch, TableKey};
use std::alloc::Global;
use std::hash::Hash;

/// The sizes of a sketch of one kind.
pub trait NewSketch<T: Eq + Hash + Drop> {
    // The kind with these sizes.
    ghost shape: { Self → Shape };

    /// Creates an empty sketch of these sizes. The table of frequent items hashes under `key`.
    ///
    /// # Errors
    ///
    /// Returns the error of the kind's own constructor.
    fn create(self, alloc: Global, key: TableKey) -> Result<Sketch<T>, Error>
        ensures ok { IfOk result (λ sketch. sketch ≡ empty_sketch key (shape self)) }
        ensures stands { IfOk result (λ sketch. StandsFor T.eq sketch (begun (shape self))) }
        ensures accepted { IsOk result → fault_of (shape self) ≡ None }
        ensures refused { IfErr result (λ e. e ≡ refusal_of (fault_of (shape self))) };
}

impl<T: Eq + Hash + Drop> NewSketch<T> for FrequentItemsSizes {
    ghost shape = { λ sizes. Shape.Frequent sizes };

    fn create(self, alloc: Global, key: TableKey) -> Result<Sketch<T>, Error> {
        of_kind!(Frequent, FrequentItemsSketch::with_sizes(alloc, self, key))
    }
}

/// The sizes of a Count-Min sketch of signed weights.
#[derive(Clone, Copy)]
pub struct SignedCounts(pub CountMinSizes);

impl<T: Eq + Hash + Drop> NewSketch<T> for SignedCounts {
    ghost shape = { λ sizes. Shape.CountI64 sizes.0 };

    fn create(self, alloc: Global, _key: TableKey) -> Result<Sketch<T>, Error> {
        of_kind!(CountI64, CountMinSketch::with_sizes(alloc, self.0))
    }
}

/// The sizes of a Count-Min sketch of nonnegative weights.
#[derive(Clone, Copy)]
pub struct UnsignedCounts(pub CountMinSizes);

impl<T: Eq + Hash + Drop> NewSketch<T> for UnsignedCounts {
    ghost shape = { λ sizes. Shape.CountU64 sizes.0 };

    fn create(self, alloc: Global, _key: TableKey) -> Result<Sketch<T>, Error> {
        of_kind!(CountU64, CountMinSketch::with_sizes(alloc, self.0))
    }
}

impl<T: Eq + Hash + Drop> NewSketch<T> for BloomFilterBuilder {
    ghost shape = { λ sizes. Shape.Bloom sizes };

    fn create(self, alloc: Global, _key: TableKey) -> Result<Sketch<T>, Error> {
        of_kind!(Bloom, self.build(alloc))
    }
}
