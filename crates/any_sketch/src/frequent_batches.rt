//! Sketches of frequent items with many items: add weights and read bounds. Each takes the items of its own type alone.
ghost use Rattle.std.specs.Ordering.{int_eq};
ghost use Rattle.std.specs.Prelude.{◌≡◌, IsOk, OnErr, length, nat_eq};
ghost use Rattle.std.specs.String.{string_eq};
ghost use Rattle.any_sketch.specs.Batches.{no_bounds};
ghost use Rattle.any_sketch.specs.FrequentBatches.{AreBoundsOfAll, StopsOnlyIfFull, StopsOnlyToGrow, UpdatesMany, WeighsMany};
ghost use Rattle.any_sketch.specs.ManyItems.{OnI64s, OnStrings, OnU64s, many, num_items, num_rows};
ghost use Rattle.any_sketch.specs.ValidRows.{OnRows, of_valid};

use crate::any_error::AnyError;
use crate::many_items::{AnyItems, AnyRows, on_strings, on_valid};
use crate::valid_rows::{copy_of, first_place, spread};
use sketch_base::Validity;
use sketch_frequencies::{FrequentItemsSketch, ItemBounds, Keys, OwnedKey};
use std::hash::Hash;

/// The bounds of a row that is null.
const NO_BOUNDS: ItemBounds = ItemBounds {
    lower_bound: 0,
    estimate: 0,
    upper_bound: 0,
};

/// Adds 1 to the weight of each key's item in a sketch, in order.
fn add_all<T: Eq + Hash + Drop, K: Keys<T>>(
    sketch: &mut FrequentItemsSketch<T>,
    keys: K,
) -> Result<(), AnyError>
where
    K::Key: OwnedKey<T>,
    ensures updates { UpdatesMany T.eq sketch.old (K.names keys) sketch.new result }
    ensures grows { ((key : K.Key) → K.Key.needs_no_memory key) → StopsOnlyIfFull sketch.new result }
{
    match sketch.update_all(keys) {
        Ok(()) => Ok(()),
        Err(error) => Err(AnyError::Sketch(error)),
    }
}

/// Adds a weight to that of each key's item in a sketch, in order.
fn add_all_weighted<T: Eq + Hash + Drop, K: Keys<T>>(
    sketch: &mut FrequentItemsSketch<T>,
    keys: K,
    weights: &[u64],
) -> Result<(), AnyError>
where
    K::Key: OwnedKey<T>,
    requires { length weights.now ≡ length (K.names keys) }
    ensures weighs { WeighsMany T.eq sketch.old (K.names keys) weights.now sketch.new result }
    ensures grows { ((key : K.Key) → K.Key.needs_no_memory key) → StopsOnlyToGrow sketch.old weights.now sketch.new result }
{
    match sketch.update_all_with_counts(keys, weights) {
        Ok(()) => Ok(()),
        Err(error) => Err(AnyError::Sketch(error)),
    }
}

/// Writes a sketch's bounds and estimate of the weight of each key's item.
fn bounds_of_all<T: Eq + Hash + Drop, K: Keys<T>>(
    sketch: &FrequentItemsSketch<T>,
    keys: K,
    bounds: &mut [ItemBounds],
)
    requires { length bounds.old ≡ length (K.names keys) }
    ensures { AreBoundsOfAll T.eq sketch.now (K.names keys) bounds.new }
{
    sketch.bounds_all(keys, bounds);
}

/// Adds 1 to the weight of each number without a sign, in order.
pub(crate) fn add_u64s(
    sketch: &mut FrequentItemsSketch<u64>,
    items: AnyItems<'_>,
) -> Result<(), AnyError>
    ensures { OnU64s (many items.entry) result (sketch.new ≡ sketch.old) (λ names.
        UpdatesMany nat_eq sketch.old names sketch.new result × StopsOnlyIfFull sketch.new result) }
{
    let AnyItems { rows, validity } = items;
    match rows {
        AnyRows::U64(rows) => on_valid!(rows, validity, numbers => add_all(sketch, numbers)),
        _ => Err(AnyError::WrongKind),
    }
}

/// Adds 1 to the weight of each number with a sign, in order.
pub(crate) fn add_i64s(
    sketch: &mut FrequentItemsSketch<i64>,
    items: AnyItems<'_>,
) -> Result<(), AnyError>
    ensures { OnI64s (many items.entry) result (sketch.new ≡ sketch.old) (λ names.
        UpdatesMany int_eq sketch.old names sketch.new result × StopsOnlyIfFull sketch.new result) }
{
    let AnyItems { rows, validity } = items;
    match rows {
        AnyRows::I64(rows) => on_valid!(rows, validity, numbers => add_all(sketch, numbers)),
        _ => Err(AnyError::WrongKind),
    }
}

/// Adds 1 to the weight of each string, in order.
pub(crate) fn add_strings(
    sketch: &mut FrequentItemsSketch<String>,
    items: AnyItems<'_>,
) -> Result<(), AnyError>
    ensures { OnStrings (many items.entry) result (sketch.new ≡ sketch.old) (λ names.
        UpdatesMany string_eq sketch.old names sketch.new result) }
{
    on_strings!(items, strings => add_all(sketch, strings), Err(AnyError::WrongKind))
}

/// Adds a weight to that of each number without a sign, in order.
#[tactic(auto, using(crate::proofs::RowCounts::length_valid_map))]
pub(crate) fn add_u64s_weighted(
    sketch: &mut FrequentItemsSketch<u64>,
    items: AnyItems<'_>,
    weights: &[u64],
) -> Result<(), AnyError>
    requires { length weights.now ≡ num_items (many items) }
    ensures { OnU64s (many items.entry) result (sketch.new ≡ sketch.old) (λ names.
        WeighsMany nat_eq sketch.old names weights.now sketch.new result
        × StopsOnlyToGrow sketch.old weights.now sketch.new result) }
{
    let AnyItems { rows, validity } = items;
    match rows {
        AnyRows::U64(rows) =>
            on_valid!(rows, validity, numbers => add_all_weighted(sketch, numbers, weights)),
        _ => Err(AnyError::WrongKind),
    }
}

/// Adds a weight to that of each number with a sign, in order.
#[tactic(auto, using(crate::proofs::RowCounts::length_valid_map))]
pub(crate) fn add_i64s_weighted(
    sketch: &mut FrequentItemsSketch<i64>,
    items: AnyItems<'_>,
    weights: &[u64],
) -> Result<(), AnyError>
    requires { length weights.now ≡ num_items (many items) }
    ensures { OnI64s (many items.entry) result (sketch.new ≡ sketch.old) (λ names.
        WeighsMany int_eq sketch.old names weights.now sketch.new result
        × StopsOnlyToGrow sketch.old weights.now sketch.new result) }
{
    let AnyItems { rows, validity } = items;
    match rows {
        AnyRows::I64(rows) =>
            on_valid!(rows, validity, numbers => add_all_weighted(sketch, numbers, weights)),
        _ => Err(AnyError::WrongKind),
    }
}

/// Adds a weight to that of each string, in order.
#[tactic(auto, using(crate::proofs::RowCounts::length_valid_map))]
pub(crate) fn add_strings_weighted(
    sketch: &mut FrequentItemsSketch<String>,
    items: AnyItems<'_>,
    weights: &[u64],
) -> Result<(), AnyError>
    requires { length weights.now ≡ num_items (many items) }
    ensures { OnStrings (many items.entry) result (sketch.new ≡ sketch.old) (λ names.
        WeighsMany string_eq sketch.old names weights.now sketch.new result) }
{
    on_strings!(items, strings => add_all_weighted(sketch, strings, weights), Err(AnyError::WrongKind))
}

/// Writes for each row a sketch's bounds and estimate of the weight of its key's item. The bounds of a null are 0.
fn bounds_by_row<T: Eq + Hash + Drop, K: Keys<T>>(
    sketch: &FrequentItemsSketch<T>,
    keys: K,
    validity: &Option<Validity<'_>>,
    bounds: &mut [ItemBounds],
)
    requires { length (of_valid validity.now bounds.old) ≡ length (K.names keys) }
    ensures { OnRows validity.now no_bounds bounds.new (AreBoundsOfAll T.eq sketch.now (K.names keys)) }
{
    let from = first_place(validity, bounds);
    bounds_of_all(sketch, keys, &mut bounds[from..]);
    spread(bounds, from, validity, NO_BOUNDS);
}

/// Writes the bounds and the estimate of each number's weight, without a sign.
pub(crate) fn bounds_of_u64s(
    sketch: &FrequentItemsSketch<u64>,
    items: AnyItems<'_>,
    bounds: &mut [ItemBounds],
) -> Result<(), AnyError>
    requires { length bounds.old ≡ num_rows (many items).rows }
    ensures bounds { OnU64s (many items.entry) result (bounds.new ≡ bounds.old) (λ names.
        IsOk result × OnRows (many items.entry).validity no_bounds bounds.new (AreBoundsOfAll nat_eq sketch.now names)) }
    ensures untouched { OnErr result (bounds.new ≡ bounds.old) }
{
    let AnyItems { rows, validity } = items;
    match rows {
        AnyRows::U64(rows) => {
            let places = copy_of(&validity);
            on_valid!(rows, validity, numbers => bounds_by_row(sketch, numbers, &places, bounds));
            Ok(())
        }
        _ => Err(AnyError::WrongKind),
    }
}

/// Writes the bounds and the estimate of each number's weight, with a sign.
pub(crate) fn bounds_of_i64s(
    sketch: &FrequentItemsSketch<i64>,
    items: AnyItems<'_>,
    bounds: &mut [ItemBounds],
) -> Result<(), AnyError>
    requires { length bounds.old ≡ num_rows (many items).rows }
    ensures bounds { OnI64s (many items.entry) result (bounds.new ≡ bounds.old) (λ names.
        IsOk result × OnRows (many items.entry).validity no_bounds bounds.new (AreBoundsOfAll int_eq sketch.now names)) }
    ensures untouched { OnErr result (bounds.new ≡ bounds.old) }
{
    let AnyItems { rows, validity } = items;
    match rows {
        AnyRows::I64(rows) => {
            let places = copy_of(&validity);
            on_valid!(rows, validity, numbers => bounds_by_row(sketch, numbers, &places, bounds));
            Ok(())
        }
        _ => Err(AnyError::WrongKind),
    }
}

/// Writes the bounds and the estimate of each string's weight.
pub(crate) fn bounds_of_strings(
    sketch: &FrequentItemsSketch<String>,
    items: AnyItems<'_>,
    bounds: &mut [ItemBounds],
) -> Result<(), AnyError>
    requires { length bounds.old ≡ num_rows (many items).rows }
    ensures bounds { OnStrings (many items.entry) result (bounds.new ≡ bounds.old) (λ names.
        IsOk result × OnRows (many items.entry).validity no_bounds bounds.new (AreBoundsOfAll string_eq sketch.now names)) }
    ensures untouched { OnErr result (bounds.new ≡ bounds.old) }
{
    let places = copy_of(&items.validity);
    on_strings!(items, strings => { bounds_by_row(sketch, strings, &places, bounds); Ok(()) }, Err(AnyError::WrongKind))
}
