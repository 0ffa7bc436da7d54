//! Calls that look up an item's weight.
ghost use Rattle.any_sketch.specs.Counts.{IsBound};
ghost use Rattle.any_sketch.specs.Estimates.{IsEstimate};
ghost use Rattle.any_sketch.specs.FrequentItems.{AreBoundsOfKey};
ghost use Rattle.any_sketch.specs.Items.{fed_by, value_of};
ghost use Rattle.any_sketch.specs.LookUps.{Bounds, BoundsAbove, BoundsSignedAbove, Estimates, EstimatesSigned};

use crate::any_error::AnyError;
use crate::any_sketch::AnySketch;
use crate::item::Item;
use sketch_base::FedBytes;
use sketch_countmin::{CountMinSketch, CountMinValue};
use sketch_frequencies::{FrequentItemsSketch, ItemBounds, ItemKey};
use std::hash::Hash;

/// Returns the estimate of the weight of an item of any type in a Count-Min sketch.
#[inline(always)]
fn estimate_of<V: CountMinValue>(sketch: &CountMinSketch<V>, item: Item<'_>) -> V
    ensures { IsEstimate sketch.now (fed_by (value_of item.entry)) (V.number result) }
{
    match item {
        Item::U64(n) => sketch.estimate_item(&n),
        Item::I64(n) => sketch.estimate_item(&n),
        Item::Text(text) => sketch.estimate_item(text),
        Item::Fed(bytes) => sketch.estimate_item(FedBytes(bytes)),
    }
}

/// Returns the upper bound of the weight of an item of any type in a Count-Min sketch.
#[inline(always)]
fn upper_bound_of<V: CountMinValue>(sketch: &CountMinSketch<V>, item: Item<'_>) -> V
    ensures { IsBound V.greatest (fed_by (value_of item.entry)) (V.number result) sketch.now }
{
    match item {
        Item::U64(n) => sketch.upper_bound_item(&n),
        Item::I64(n) => sketch.upper_bound_item(&n),
        Item::Text(text) => sketch.upper_bound_item(text),
        Item::Fed(bytes) => sketch.upper_bound_item(FedBytes(bytes)),
    }
}

/// Returns the bounds of the weight of the item that a key names in a sketch of frequent items.
#[inline(always)]
fn bounds_of<T: Eq + Hash + Drop, K: ItemKey<T>>(
    sketch: &FrequentItemsSketch<T>,
    key: K,
) -> ItemBounds
    ensures { AreBoundsOfKey T.eq (K.names key) sketch.now result }
{
    sketch.bounds_item(key)
}

impl AnySketch {
    /// Returns the estimate of an item's weight in a Count-Min sketch with weights in `u64`: the minimum of its cells. Does not allocate.
    ///
    /// # Errors
    ///
    /// `WrongKind` if the sketch is of another kind.
    #[inline(always)]
    pub fn estimate(&self, item: Item<'_>) -> Result<u64, AnyError>
        ensures { Estimates self.now (value_of item.entry) result }
    {
        match self {
            AnySketch::CountU64(sketch) => Ok(estimate_of(sketch, item)),
            _ => Err(AnyError::WrongKind),
        }
    }

    /// Returns the estimate of an item's weight in a Count-Min sketch with weights in `i64`: the minimum of its cells. Does not allocate.
    ///
    /// # Errors
    ///
    /// `WrongKind` if the sketch is of another kind.
    #[inline(always)]
    pub fn estimate_signed(&self, item: Item<'_>) -> Result<i64, AnyError>
        ensures { EstimatesSigned self.now (value_of item.entry) result }
    {
        match self {
            AnySketch::CountI64(sketch) => Ok(estimate_of(sketch, item)),
            _ => Err(AnyError::WrongKind),
        }
    }

    /// Returns the estimate plus a margin in a Count-Min sketch with weights in `u64`, or `u64::MAX` if this exceeds it. Does not allocate.
    ///
    /// # Errors
    ///
    /// `WrongKind` if the sketch is of another kind.
    #[inline(always)]
    pub fn upper_bound(&self, item: Item<'_>) -> Result<u64, AnyError>
        ensures { BoundsAbove self.now (value_of item.entry) result }
    {
        match self {
            AnySketch::CountU64(sketch) => Ok(upper_bound_of(sketch, item)),
            _ => Err(AnyError::WrongKind),
        }
    }

    /// Returns the estimate plus a margin in a Count-Min sketch with weights in `i64`, or `i64::MAX` if this exceeds it. Does not allocate.
    ///
    /// # Errors
    ///
    /// `WrongKind` if the sketch is of another kind.
    #[inline(always)]
    pub fn upper_bound_signed(&self, item: Item<'_>) -> Result<i64, AnyError>
        ensures { BoundsSignedAbove self.now (value_of item.entry) result }
    {
        match self {
            AnySketch::CountI64(sketch) => Ok(upper_bound_of(sketch, item)),
            _ => Err(AnyError::WrongKind),
        }
    }

    /// Returns the bounds and the estimate of an item's weight in a sketch of frequent items of its type. Does not allocate.
    ///
    /// # Errors
    ///
    /// `WrongKind` if the sketch is of another kind, or of items of another type.
    #[inline]
    pub fn bounds(&self, item: Item<'_>) -> Result<ItemBounds, AnyError>
        ensures { Bounds self.now (value_of item.entry) result }
    {
        match self {
            AnySketch::FrequentU64(sketch) => match item {
                Item::U64(n) => Ok(bounds_of(sketch, &n)),
                _ => Err(AnyError::WrongKind),
            },
            AnySketch::FrequentI64(sketch) => match item {
                Item::I64(n) => Ok(bounds_of(sketch, &n)),
                _ => Err(AnyError::WrongKind),
            },
            AnySketch::FrequentStrings(sketch) => match item {
                Item::Text(text) => Ok(bounds_of(sketch, text)),
                _ => Err(AnyError::WrongKind),
            },
            _ => Err(AnyError::WrongKind),
        }
    }
}
