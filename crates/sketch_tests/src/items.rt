//! Items that are hard to hash, to clone, to write or to compare, for tests of the sketches of frequent items.
//!
//! An item is a number, which is written and read as such. Its kind, one of the constants, selects what is hard.
ghost use Rattle.std.specs.Prelude.{◌≡◌};
ghost use Rattle.std.proofs.Common.{rules};
ghost use Rattle.std.specs.Cmp.Rules.{comparing, hashing};
ghost use Rattle.sketch_tests.specs.Kinds.{told_apart_by, same, fed_by};

use sketch_base::{Error, Fault, SketchBytes, SketchSlice};
use sketch_frequencies::{EqualClone, FrequentItemValue};
use std::alloc::{AllocError, Global};
use std::hash::{Hash, Hasher};

/// The number of an item that cannot be cloned, or cannot be written.
pub const MARKED: u64 = 13;

/// The number of letters that are distinguished.
pub const NUM_LETTERS: u64 = 32;

/// An item that feeds a hasher nothing, so that all items have one home.
pub const FEEDS_NOTHING: u8 = 0;

/// An item that cannot be cloned if it is marked.
pub const UNCLONABLE: u8 = 1;

/// An item that cannot be written if it is marked.
pub const UNWRITABLE: u8 = 2;

/// An item that equals others, as letters do up to case: their numbers differ by multiples of 32.
pub const LETTER: u8 = 3;

/// A number, as an item of a kind.
#[derive(Drop)]
pub struct Item<const KIND: u8>(u64);

impl<const KIND: u8> Item<KIND> {
    pub fn of(number: u64) -> Self {
        Item(number)
    }

    pub fn number(&self) -> u64 {
        self.0
    }

    /// Returns the number by which items are compared.
    fn told_apart_by(&self) -> u64
        ensures { result ≡ told_apart_by KIND self.now.0 }
    {
        if KIND == LETTER {
            self.0 % NUM_LETTERS
        } else {
            self.0
        }
    }
}

impl<const KIND: u8> PartialEq for Item<KIND> {
    ghost eq = { λ a b. same KIND a.0 b.0 };

    ghost laws = { Prim.search (comparing, rules) };

    fn eq(&self, other: &Self) -> bool {
        self.told_apart_by() == other.told_apart_by()
    }
}

impl<const KIND: u8> Eq for Item<KIND> {
    ghost laws = { Prim.search (comparing, rules) };
}

impl<const KIND: u8> Hash for Item<KIND> {
    ghost use Rattle.sketch_tests.specs.Kinds.{fed_alike};

    ghost hash_input = { λ item. fed_by KIND item.0 };

    ghost respects_eq = { λ a b e. fed_alike KIND a.0 b.0 e };

    fn hash<H: Hasher>(&self, state: &mut H) {
        if KIND != FEEDS_NOTHING {
            self.told_apart_by().hash(state);
        }
    }
}

impl<const KIND: u8> Clone for Item<KIND> {
    ghost is_clone = { λ item copy. copy ≡ item };

    fn clone(&self) -> Result<Self, AllocError> {
        if KIND == UNCLONABLE && self.0 == MARKED {
            return Err(AllocError);
        }
        Ok(Item(self.0))
    }
}

impl<const KIND: u8> EqualClone for Item<KIND> {
    ghost use Rattle.std.proofs.Common.{ap};
    ghost use Rattle.sketch_tests.specs.Kinds.{same_of_copy};

    ghost clones_equal = { λ x y is. same_of_copy KIND x.0 y.0 (ap (λ item. item.0) is) };

    fn may_fail() -> bool {
        true
    }
}

impl<const KIND: u8> FrequentItemValue for Item<KIND> {
    ghost use Rattle.std.specs.Prelude.{ℕ};
    ghost use Rattle.sketch_tests.specs.Kinds.{codec_of, lawful_of};

    ghost Content = { ℕ };

    ghost content = { λ item. item.0 };

    ghost codec = { codec_of KIND };

    ghost alike = { Prim.search rules };

    ghost lawful = { lawful_of KIND };

    fn serialize_size(_item: &Self) -> usize {
        8
    }

    fn checked_serialize_size(item: &Self) -> Result<usize, Error> {
        let number = item.0;
        if KIND == UNWRITABLE && number == MARKED {
            return Err(Error::invalid_argument(Fault::BadItem));
        }
        Ok(8)
    }

    fn serialize_into(&self, out: &mut [u8]) {
        out.copy_from_slice(&self.0.to_le_bytes());
    }

    fn serialize_value(&self, out: &mut SketchBytes) -> Result<(), Error> {
        if KIND == UNWRITABLE && self.0 == MARKED {
            return Err(Error::invalid_argument(Fault::BadItem));
        }
        out.write_u64_le(self.0)
    }

    fn deserialize_value(_alloc: Global, slice: &mut SketchSlice) -> Result<Self, Error> {
        let number = slice.read_u64_le()?;
        Ok(Item(number))
    }

    fn deserialize_size(bytes: &[u8]) -> usize {
        if bytes.len() < 8 { 0 } else { 8 }
    }

    fn owns_memory() -> bool {
        false
    }

    fn owned_bytes(_item: &Self) -> usize {
        0
    }
}
