//! Calls that add a weight to that of an item.
ghost use Rattle.any_sketch.specs.Counts.{AddsWeight};
ghost use Rattle.any_sketch.specs.FrequentItems.{Adds, AddsByKey};
ghost use Rattle.any_sketch.specs.Items.{fed_by, value_of};
ghost use Rattle.any_sketch.specs.Updates.{Updates, UpdatesSigned};

use crate::any_error::AnyError;
use crate::any_sketch::AnySketch;
use crate::item::Item;
use sketch_base::FedBytes;
use sketch_countmin::{CountMinSketch, CountMinValue, RowItem};
use sketch_frequencies::{FrequentItemsSketch, OwnedKey};
use std::hash::Hash;

/// Adds a weight to that of an item in a Count-Min sketch.
#[inline(always)]
fn count_row_item<V: CountMinValue, R: RowItem<V> + Drop>(
    sketch: &mut CountMinSketch<V>,
    item: R,
    weight: V,
) -> Result<(), AnyError>
    ensures { AddsWeight V.greatest sketch.old (R.bytes item) (V.number weight) sketch.new result }
{
    match sketch.update_item_with_weight(item, weight) {
        Ok(()) => Ok(()),
        Err(error) => Err(AnyError::Sketch(error)),
    }
}

/// Adds a weight to that of an item of any type in a Count-Min sketch.
#[inline(always)]
fn count<V: CountMinValue>(
    sketch: &mut CountMinSketch<V>,
    item: Item<'_>,
    weight: V,
) -> Result<(), AnyError>
    ensures { AddsWeight V.greatest sketch.old (fed_by (value_of item.entry)) (V.number weight) sketch.new result }
{
    match item {
        Item::U64(n) => count_row_item(sketch, &n, weight),
        Item::I64(n) => count_row_item(sketch, &n, weight),
        Item::Text(text) => count_row_item(sketch, text, weight),
        Item::Fed(bytes) => count_row_item(sketch, FedBytes(bytes), weight),
    }
}

/// Adds a weight to that of an item in a sketch of frequent items.
#[inline(always)]
fn add<T: Eq + Hash + Drop>(
    sketch: &mut FrequentItemsSketch<T>,
    item: T,
    weight: u64,
) -> Result<(), AnyError>
    ensures { Adds T.eq item sketch.old weight sketch.new result }
{
    match sketch.update_with_count(item, weight) {
        Ok(()) => Ok(()),
        Err(error) => Err(AnyError::Sketch(error)),
    }
}

/// Adds a weight to that of the item that a key names in a sketch of frequent items.
#[inline(always)]
fn add_by_key<T: Eq + Hash + Drop, K: OwnedKey<T>>(
    sketch: &mut FrequentItemsSketch<T>,
    key: K,
    weight: u64,
) -> Result<(), AnyError>
    ensures { AddsByKey T.eq (K.names key) sketch.old weight sketch.new result }
{
    match sketch.update_item_with_count(key, weight) {
        Ok(()) => Ok(()),
        Err(error) => Err(AnyError::Sketch(error)),
    }
}

impl AnySketch {
    /// Adds a weight to that of an item, in a Count-Min sketch with weights in `u64` or a sketch of frequent items. These take items of
    /// their own type alone. A weight of 0 changes nothing.
    ///
    /// # Errors
    ///
    /// The first of these that applies. The sketch is then unchanged.
    ///
    /// - `WrongKind` if the sketch is of another kind, or does not take such items;
    /// - `WeightOverflow` if the total would exceed `u64::MAX`;
    /// - `NoMemory` if an item of a sketch of frequent items is not tracked, and an allocation fails. For a number only the table
    ///   allocates, where it must grow.
    #[inline(always)]
    pub fn update(&mut self, item: Item<'_>, weight: u64) -> Result<(), AnyError>
        ensures { Updates self.old (value_of item.entry) weight self.new result }
    {
        match self {
            AnySketch::CountU64(sketch) => count(sketch, item, weight),
            AnySketch::FrequentU64(sketch) => match item {
                Item::U64(n) => add(sketch, n, weight),
                _ => Err(AnyError::WrongKind),
            },
            AnySketch::FrequentI64(sketch) => match item {
                Item::I64(n) => add(sketch, n, weight),
                _ => Err(AnyError::WrongKind),
            },
            AnySketch::FrequentStrings(sketch) => match item {
                Item::Text(text) => add_by_key(sketch, text, weight),
                _ => Err(AnyError::WrongKind),
            },
            _ => Err(AnyError::WrongKind),
        }
    }

    /// Adds a weight to that of an item in a Count-Min sketch with weights in `i64`, and the weight's distance from 0 to the total. Does
    /// not allocate.
    ///
    /// # Errors
    ///
    /// The first of these that applies. The sketch is then unchanged.
    ///
    /// - `WrongKind` if the sketch is of another kind;
    /// - `WeightOverflow` if the total would exceed `i64::MAX`.
    #[inline(always)]
    pub fn update_signed(&mut self, item: Item<'_>, weight: i64) -> Result<(), AnyError>
        ensures { UpdatesSigned self.old (value_of item.entry) weight self.new result }
    {
        match self {
            AnySketch::CountI64(sketch) => count(sketch, item, weight),
            _ => Err(AnyError::WrongKind),
        }
    }
}
