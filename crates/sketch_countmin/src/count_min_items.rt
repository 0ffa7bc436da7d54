//! Sequences of items, counted or looked up in one call.
ghost use Rattle.std.specs.Prelude.{◌≡◌, ℕ, ◌+◌, ◌-◌, ◌<◌, ◌≤◌, [], length, map, take, slice_index_or, pos, IsOk, IsErrOf};
ghost use Rattle.sketch_base.specs.Errors.{invalid_argument};
ghost use Rattle.sketch_countmin.specs.History.{all_updated};
ghost use Rattle.sketch_countmin.specs.Stands.{Extends};
ghost use Rattle.sketch_countmin.specs.State.{IsCountState, CountsAll, IsMinCell};

use crate::count_min_sketch::CountMinSketch;
use crate::count_min_value::CountMinValue;
use crate::row_item::RowItem;
use sketch_base::{
    ByteStrings, Error, Fault, FedItems, Items, Lines, OffsetStrings, Offsets, Strs, ValidItems,
    Words,
};
use std::hash::Hash;

/// A sequence of items that a Count-Min sketch counts or looks up in one call.
///
/// It is implemented by the sequences of `sketch_base`. A slice is passed over once for each row. Any other sequence is
/// passed over once, item by item. Another sequence of [`Items`] becomes one by an `impl` without methods.
///
/// # Examples
///
/// ```
/// use sketch_base::Error;
/// use sketch_countmin::{CountMinItems, CountMinSketch};
/// use std::alloc::Global;
///
/// fn counts_of_day<I: CountMinItems<u64>>(
///     alloc: Global,
///     visits: I,
/// ) -> Result<CountMinSketch<u64>, Error> {
///     let mut counts = CountMinSketch::new(alloc, 4, 1024)?;
///     counts.update_all(visits)?;
///     Ok(counts)
/// }
/// ```
pub trait CountMinItems<T: CountMinValue>: Items<Each: RowItem<T>> {
    /// Counts each item with weight 1, as [`CountMinSketch::update_all`] does.
    #[inline(always)]
    fn count_in(self, sketch: &mut CountMinSketch<T>) -> Result<(), Error>
    where
        Self: Sized,
        ensures counted { CountsAll sketch.old (take (T.greatest - sketch.old.total) (Self.list self)) sketch.new }
        ensures state { IsCountState T.greatest sketch.new }
        ensures stands { Extends sketch.old sketch.new
            (λ h. all_updated h (take (T.greatest - sketch.old.total) (Self.list self))) }
        ensures overflow { T.greatest < sketch.old.total + length (Self.list self)
            → IsErrOf result (invalid_argument Fault.WeightOverflow) }
        ensures succeeds { sketch.old.total + length (Self.list self) ≤ T.greatest → IsOk result }
    {
        sketch.update_each(self)
    }

    /// Writes the estimate of each item to `estimates`, as [`CountMinSketch::estimate_all`] does.
    #[inline(always)]
    fn estimate_in(self, sketch: &CountMinSketch<T>, estimates: &mut [T])
    where
        Self: Sized,
        requires same_length { length (Self.list self) ≡ length estimates.old }
        ensures length { length estimates.new ≡ length (Self.list self) }
        ensures least { (i : ℕ) → i < length (Self.list self) → IsMinCell sketch.now
            (slice_index_or (Self.list self) i []) (slice_index_or (map T.number estimates.new) i (pos 0)) }
    {
        sketch.estimate_each(self, estimates)
    }
}

impl<'a, T: CountMinValue, I: Hash> CountMinItems<T> for &'a [I] {
    #[inline(always)]
    fn count_in(self, sketch: &mut CountMinSketch<T>) -> Result<(), Error> {
        sketch.update_slice(self)
    }

    #[inline(always)]
    fn estimate_in(self, sketch: &CountMinSketch<T>, estimates: &mut [T]) {
        sketch.estimate_slice(self, estimates)
    }
}

impl<'a, T: CountMinValue> CountMinItems<T> for Words<'a> {}

impl<'a, T: CountMinValue> CountMinItems<T> for Lines<'a> {}

impl<'a, T: CountMinValue> CountMinItems<T> for Strs<'a> {}

impl<'a, T: CountMinValue, O: Offsets> CountMinItems<T> for OffsetStrings<'a, O> {}

impl<'a, T: CountMinValue> CountMinItems<T> for ByteStrings<'a> {}

impl<'a, T: CountMinValue> CountMinItems<T> for FedItems<'a> {}

impl<'a, T: CountMinValue, I: Items<Each: RowItem<T>>> CountMinItems<T> for ValidItems<'a, I> {}
