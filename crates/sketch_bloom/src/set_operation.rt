//! The three operations on two sets of numbers, as operations on their words.
ghost use Rattle.std.specs.Prelude.{◌≡◌};
ghost use Rattle.std.specs.Simd.Lanes.{zip2};
ghost use Rattle.sketch_bloom.specs.Operations.{on_words};

use std::simd::prelude::*;

/// An operation on two sets.
#[derive(Clone, Copy)]
pub enum SetOperation {
    /// The numbers in either set.
    Union,
    /// The numbers in both sets.
    Intersection,
    /// The numbers in the first set and not in the second.
    Difference,
}

impl SetOperation {
    /// Combines a word of each set.
    #[inline(always)]
    pub fn word(self, mine: u64, theirs: u64) -> u64
        ensures { result ≡ on_words self mine theirs }
    {
        match self {
            SetOperation::Union => mine | theirs,
            SetOperation::Intersection => mine & theirs,
            SetOperation::Difference => mine & !theirs,
        }
    }

    /// Combines several words of each set.
    #[inline(always)]
    pub fn words<const N: usize>(self, mine: Simd<u64, N>, theirs: Simd<u64, N>) -> Simd<u64, N>
        ensures { result ≡ zip2 (on_words self) mine.entry theirs.entry }
    {
        match self {
            SetOperation::Union => mine | theirs,
            SetOperation::Intersection => mine & theirs,
            SetOperation::Difference => mine & !theirs,
        }
    }
}
