//! Calls for many items, on sketches of any kind.
ghost use Rattle.std.specs.Prelude.{◌≡◌, OnErr, length};
ghost use Rattle.any_sketch.specs.Batches.{BoundsAll, ContainsAndInsertsAll, EstimatesAll, EstimatesAllSigned, InsertsAll, TellsAllContained, UpdatesAll, UpdatesAllSigned, UpdatesAllWeighted, Weighs, WeighsSigned};
ghost use Rattle.any_sketch.specs.ManyItems.{many, num_items, num_rows};

use crate::any_error::AnyError;
use crate::any_sketch::AnySketch;
use crate::count_batches::{count_all, count_all_weighted, estimate_by_row};
use crate::filter_batches::{contains_and_insert_by_row, contains_by_row, insert_each};
use crate::frequent_batches::{
    add_i64s, add_i64s_weighted, add_strings, add_strings_weighted, add_u64s, add_u64s_weighted,
    bounds_of_i64s, bounds_of_strings, bounds_of_u64s,
};
use crate::many_items::AnyItems;
use crate::valid_rows::on_weights;
use sketch_frequencies::ItemBounds;
use std::alloc::Global;

impl AnySketch {
    /// Adds 1 to the weight of each item, in order, in a sketch that counts. A sketch of frequent items takes items of its own type alone.
    /// Null rows are not counted.
    ///
    /// # Errors
    ///
    /// - `WrongKind` if the sketch is a filter, or does not take such items. It is then unchanged.
    /// - The error of the first item whose own update fails. The items before it are added, and no others. It is `WeightOverflow` if the
    ///   total would exceed `u64::MAX`, or `i64::MAX` for weights in `i64`. It is `NoMemory` if an allocation fails, which only a sketch
    ///   of frequent items makes.
    pub fn update_all(&mut self, items: AnyItems<'_>) -> Result<(), AnyError>
        ensures { UpdatesAll self.old (many items.entry) self.new result }
    {
        match self {
            AnySketch::FrequentStrings(sketch) => add_strings(sketch, items),
            AnySketch::FrequentI64(sketch) => add_i64s(sketch, items),
            AnySketch::FrequentU64(sketch) => add_u64s(sketch, items),
            AnySketch::CountI64(sketch) => count_all(sketch, items),
            AnySketch::CountU64(sketch) => count_all(sketch, items),
            AnySketch::Filter(_) => Err(AnyError::WrongKind),
        }
    }

    /// Adds a weight to that of each item, in order. There is a weight for each item.
    fn weigh(&mut self, items: AnyItems<'_>, weights: &[u64]) -> Result<(), AnyError>
        requires { length weights.now ≡ num_items (many items) }
        ensures { Weighs self.old (many items.entry) weights.now self.new result }
    {
        match self {
            AnySketch::FrequentStrings(sketch) => add_strings_weighted(sketch, items, weights),
            AnySketch::FrequentI64(sketch) => add_i64s_weighted(sketch, items, weights),
            AnySketch::FrequentU64(sketch) => add_u64s_weighted(sketch, items, weights),
            AnySketch::CountU64(sketch) => count_all_weighted(sketch, items, weights),
            _ => Err(AnyError::WrongKind),
        }
    }

    /// Adds a weight to that of each item, in order, in a Count-Min sketch with weights in `u64` or a sketch of frequent items. These take
    /// items of their own type alone. There is a weight for each row. Those of null rows are not read. A weight of 0 changes nothing in a
    /// sketch of frequent items.
    ///
    /// # Errors
    ///
    /// - `NoMemory` if there are bits for the rows, and the copy of the weights of valid rows cannot be allocated. The sketch is then
    ///   unchanged.
    /// - `WrongKind` if the sketch is of another kind, or does not take such items. It is then unchanged.
    /// - `WeightOverflow` if the total would exceed `u64::MAX` with all weights. The sketch is then unchanged.
    /// - `NoMemory` for the first item for which an allocation fails. The items before it are added, and no others. Only a sketch of
    ///   frequent items allocates: for a string that is not tracked, and for its table.
    pub fn update_all_weighted(
        &mut self,
        alloc: Global,
        items: AnyItems<'_>,
        weights: &[u64],
    ) -> Result<(), AnyError>
        requires { length weights.now ≡ num_rows (many items).rows }
        ensures { UpdatesAllWeighted self.old (many items.entry) weights.now self.new result }
    {
        on_weights!(alloc, items, weights, kept => self.weigh(items, kept))
    }

    /// Adds a weight to that of each item, in order, in a Count-Min sketch with weights in `i64`. There is a weight for each item.
    fn weigh_signed(&mut self, items: AnyItems<'_>, weights: &[i64]) -> Result<(), AnyError>
        requires { length weights.now ≡ num_items (many items) }
        ensures { WeighsSigned self.old (many items.entry) weights.now self.new result }
    {
        match self {
            AnySketch::CountI64(sketch) => count_all_weighted(sketch, items, weights),
            _ => Err(AnyError::WrongKind),
        }
    }

    /// Adds a weight to that of each item, in order, in a Count-Min sketch with weights in `i64`, and the weight's distance from 0 to the
    /// total. There is a weight for each row. Those of null rows are not read.
    ///
    /// # Errors
    ///
    /// The first of these that applies. The sketch is then unchanged.
    ///
    /// - `NoMemory` if there are bits for the rows, and the copy of the weights of valid rows cannot be allocated.
    /// - `WrongKind` if the sketch is of another kind.
    /// - `WeightOverflow` if the total would exceed `i64::MAX` with all weights.
    pub fn update_all_signed(
        &mut self,
        alloc: Global,
        items: AnyItems<'_>,
        weights: &[i64],
    ) -> Result<(), AnyError>
        requires { length weights.now ≡ num_rows (many items).rows }
        ensures { UpdatesAllSigned self.old (many items.entry) weights.now self.new result }
    {
        on_weights!(alloc, items, weights, kept => self.weigh_signed(items, kept))
    }

    /// Inserts items into a filter, as one after another, and faster. Null rows are not inserted. Does not allocate.
    ///
    /// # Errors
    ///
    /// `WrongKind` if the sketch is no filter. It is then unchanged.
    pub fn insert_all(&mut self, items: AnyItems<'_>) -> Result<(), AnyError>
        ensures { InsertsAll self.old (many items.entry) self.new result }
    {
        match self {
            AnySketch::Filter(filter) => {
                insert_each(filter, items);
                Ok(())
            }
            _ => Err(AnyError::WrongKind),
        }
    }

    /// Writes for each row whether a filter contains its item. There is a result for each row. That of a null row is no. Does not allocate.
    ///
    /// # Errors
    ///
    /// `WrongKind` if the sketch is no filter. The results are then unchanged.
    pub fn contains_all(&self, items: AnyItems<'_>, results: &mut [bool]) -> Result<(), AnyError>
        requires { length results.old ≡ num_rows (many items).rows }
        ensures results { TellsAllContained self.now (many items.entry) results.old results.new result }
        ensures untouched { OnErr result (results.new ≡ results.old) }
    {
        match self {
            AnySketch::Filter(filter) => {
                contains_by_row(filter, items, results);
                Ok(())
            }
            _ => Err(AnyError::WrongKind),
        }
    }

    /// Inserts items into a filter, as one after another, and writes for each row whether the filter contained its item before. There is a
    /// result for each row. A null row is not inserted, and its result is no. Does not allocate.
    ///
    /// # Errors
    ///
    /// `WrongKind` if the sketch is no filter. It is then unchanged, and so are the results.
    pub fn contains_and_insert_all(
        &mut self,
        items: AnyItems<'_>,
        results: &mut [bool],
    ) -> Result<(), AnyError>
        requires { length results.old ≡ num_rows (many items).rows }
        ensures call { ContainsAndInsertsAll self.old (many items.entry) results.old results.new self.new result }
        ensures untouched { OnErr result (results.new ≡ results.old) }
    {
        match self {
            AnySketch::Filter(filter) => {
                contains_and_insert_by_row(filter, items, results);
                Ok(())
            }
            _ => Err(AnyError::WrongKind),
        }
    }

    /// Writes for each row the estimate of its item's weight, by a Count-Min sketch with weights in `u64`. There is an estimate for each
    /// row. That of a null row is 0. Does not allocate.
    ///
    /// # Errors
    ///
    /// `WrongKind` if the sketch is of another kind. The estimates are then unchanged.
    pub fn estimate_all(&self, items: AnyItems<'_>, estimates: &mut [u64]) -> Result<(), AnyError>
        requires { length estimates.old ≡ num_rows (many items).rows }
        ensures length { length estimates.new ≡ length estimates.old }
        ensures estimates { EstimatesAll self.now (many items.entry) estimates.old estimates.new result }
        ensures untouched { OnErr result (estimates.new ≡ estimates.old) }
    {
        match self {
            AnySketch::CountU64(sketch) => {
                estimate_by_row(sketch, items, estimates);
                Ok(())
            }
            _ => Err(AnyError::WrongKind),
        }
    }

    /// Writes for each row the estimate of its item's weight, by a Count-Min sketch with weights in `i64`. There is an estimate for each
    /// row. That of a null row is 0. Does not allocate.
    ///
    /// # Errors
    ///
    /// `WrongKind` if the sketch is of another kind. The estimates are then unchanged.
    pub fn estimate_all_signed(
        &self,
        items: AnyItems<'_>,
        estimates: &mut [i64],
    ) -> Result<(), AnyError>
        requires { length estimates.old ≡ num_rows (many items).rows }
        ensures length { length estimates.new ≡ length estimates.old }
        ensures estimates { EstimatesAllSigned self.now (many items.entry) estimates.old estimates.new result }
        ensures untouched { OnErr result (estimates.new ≡ estimates.old) }
    {
        match self {
            AnySketch::CountI64(sketch) => {
                estimate_by_row(sketch, items, estimates);
                Ok(())
            }
            _ => Err(AnyError::WrongKind),
        }
    }

    /// Writes for each row the bounds and the estimate of its item's weight, by a sketch of frequent items, which takes items of its own
    /// type alone. There are bounds for each row. Those of a null row are 0. Does not allocate.
    ///
    /// # Errors
    ///
    /// `WrongKind` if the sketch is of another kind, or does not take such items. The bounds are then unchanged.
    pub fn bounds_all(&self, items: AnyItems<'_>, bounds: &mut [ItemBounds]) -> Result<(), AnyError>
        requires { length bounds.old ≡ num_rows (many items).rows }
        ensures bounds { BoundsAll self.now (many items.entry) bounds.old bounds.new result }
        ensures untouched { OnErr result (bounds.new ≡ bounds.old) }
    {
        match self {
            AnySketch::FrequentStrings(sketch) => bounds_of_strings(sketch, items, bounds),
            AnySketch::FrequentI64(sketch) => bounds_of_i64s(sketch, items, bounds),
            AnySketch::FrequentU64(sketch) => bounds_of_u64s(sketch, items, bounds),
            _ => Err(AnyError::WrongKind),
        }
    }
}
