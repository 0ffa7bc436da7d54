//! Calls on filters: insert an item, and look it up.
ghost use Rattle.std.specs.Prelude.{◌≡◌};
ghost use Rattle.sketch_bloom.specs.History.BloomHistory.{Insert};
ghost use Rattle.sketch_bloom.specs.Stands.{Extends};
ghost use Rattle.sketch_bloom.specs.State.{contains_item, inserted};
ghost use Rattle.any_sketch.specs.Filters.{ContainsAndInserts, Inserts, TellsContained};
ghost use Rattle.any_sketch.specs.Items.{fed_by, value_of};

use crate::any_error::AnyError;
use crate::any_sketch::AnySketch;
use crate::item::Item;
use sketch_base::FedBytes;
use sketch_bloom::BloomFilter;

/// Returns whether a filter contains an item of any type. Each type has a call of its own, which costs less than one test of the type for
/// each hash.
#[inline(always)]
fn contains_in(filter: &BloomFilter, item: Item<'_>) -> bool
    ensures { result ≡ contains_item filter.now (fed_by (value_of item.entry)) }
{
    match item {
        Item::U64(n) => filter.contains_item(&n),
        Item::I64(n) => filter.contains_item(&n),
        Item::Text(text) => filter.contains_item(text),
        Item::Fed(bytes) => filter.contains_item(FedBytes(bytes)),
    }
}

/// Inserts an item of any type into a filter, and returns whether the filter contained it before.
#[inline(always)]
fn insert_into(filter: &mut BloomFilter, item: Item<'_>) -> bool
    ensures answer { result ≡ contains_item filter.old (fed_by (value_of item.entry)) }
    ensures insertion { filter.new ≡ inserted filter.old (fed_by (value_of item.entry)) }
    ensures stands { Extends filter.old filter.new (λ h. Insert h (fed_by (value_of item.entry))) }
{
    match item {
        Item::U64(n) => filter.contains_and_insert_item(&n),
        Item::I64(n) => filter.contains_and_insert_item(&n),
        Item::Text(text) => filter.contains_and_insert_item(text),
        Item::Fed(bytes) => filter.contains_and_insert_item(FedBytes(bytes)),
    }
}

impl AnySketch {
    /// Inserts an item into a filter. Does not allocate.
    ///
    /// # Errors
    ///
    /// `WrongKind` if the sketch is no filter. It is then unchanged.
    #[inline(always)]
    pub fn insert(&mut self, item: Item<'_>) -> Result<(), AnyError>
        ensures { Inserts self.old (value_of item.entry) self.new result }
    {
        match self {
            AnySketch::Filter(filter) => {
                insert_into(filter, item);
                Ok(())
            }
            _ => Err(AnyError::WrongKind),
        }
    }

    /// Returns whether a filter contains an item. Does not allocate.
    ///
    /// # Errors
    ///
    /// `WrongKind` if the sketch is no filter.
    #[inline]
    pub fn contains(&self, item: Item<'_>) -> Result<bool, AnyError>
        ensures { TellsContained self.now (value_of item.entry) result }
    {
        match self {
            AnySketch::Filter(filter) => Ok(contains_in(filter, item)),
            _ => Err(AnyError::WrongKind),
        }
    }

    /// Inserts an item into a filter, and returns whether the filter contained it before. Does not allocate.
    ///
    /// # Errors
    ///
    /// `WrongKind` if the sketch is no filter. It is then unchanged.
    #[inline(always)]
    pub fn contains_and_insert(&mut self, item: Item<'_>) -> Result<bool, AnyError>
        ensures { ContainsAndInserts self.old (value_of item.entry) self.new result }
    {
        match self {
            AnySketch::Filter(filter) => Ok(insert_into(filter, item)),
            _ => Err(AnyError::WrongKind),
        }
    }
}
