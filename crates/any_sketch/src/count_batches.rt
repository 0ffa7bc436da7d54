//! Count-Min sketches with many items: add weights and read estimates, for any type of weights and of items.
ghost use Rattle.std.specs.Prelude.{◌≡◌, length, map};
ghost use Rattle.any_sketch.specs.CountBatches.{AddsEach, AddsWeights};
ghost use Rattle.any_sketch.specs.Estimates.{AreEstimates};
ghost use Rattle.any_sketch.specs.ManyItems.{fed_items, many, num_items, num_rows};
ghost use Rattle.any_sketch.specs.ValidRows.{OnRows};

use crate::any_error::AnyError;
use crate::many_items::{AnyItems, on_items};
use crate::valid_rows::by_row;
use sketch_countmin::laws::min_cell_bounds;
use sketch_countmin::{CountMinItems, CountMinSketch, CountMinValue};

/// Adds 1 to the weight of each item of a sequence in a sketch, in order, until the total is full.
#[inline]
fn add_all<V: CountMinValue, I: CountMinItems<V>>(
    sketch: &mut CountMinSketch<V>,
    items: I,
) -> Result<(), AnyError>
    ensures { AddsEach V.greatest sketch.old (I.list items) sketch.new result }
{
    match sketch.update_all(items) {
        Ok(()) => Ok(()),
        Err(error) => Err(AnyError::Sketch(error)),
    }
}

/// Adds a weight to that of each item of a sequence in a sketch, in order.
fn add_all_weighted<V: CountMinValue, I: CountMinItems<V>>(
    sketch: &mut CountMinSketch<V>,
    items: I,
    weights: &[V],
) -> Result<(), AnyError>
    requires { length weights.now ≡ length (I.list items) }
    ensures { AddsWeights V.greatest V.number sketch.old (I.list items) weights.now sketch.new result }
{
    match sketch.update_all_with_weights(items, weights) {
        Ok(()) => Ok(()),
        Err(error) => Err(AnyError::Sketch(error)),
    }
}

/// Writes a sketch's estimate of the weight of each item of a sequence.
#[inline]
fn estimate_items<V: CountMinValue, I: CountMinItems<V>>(
    sketch: &CountMinSketch<V>,
    items: I,
    estimates: &mut [V],
)
    requires { length (I.list items) ≡ length estimates.old }
    ensures length { length estimates.new ≡ length (I.list items) }
    ensures each { AreEstimates sketch.now (I.list items) (map V.number estimates.new) }
{
    // for the prover: the facts that hold of every sketch, and the bounds of a minimum cell
    let _ = sketch.num_hashes();
    min_cell_bounds();
    sketch.estimate_all(items, estimates);
}

/// Adds 1 to the weight of each item in a sketch, in order, until the total is full.
pub(crate) fn count_all<V: CountMinValue>(
    sketch: &mut CountMinSketch<V>,
    items: AnyItems<'_>,
) -> Result<(), AnyError>
    ensures { AddsEach V.greatest sketch.old (fed_items (many items.entry)) sketch.new result }
{
    on_items!(items, sequence => add_all(sketch, sequence))
}

/// Adds a weight to that of each item in a sketch, in order.
#[tactic(auto, using(crate::proofs::RowCounts::length_valid_map))]
pub(crate) fn count_all_weighted<V: CountMinValue>(
    sketch: &mut CountMinSketch<V>,
    items: AnyItems<'_>,
    weights: &[V],
) -> Result<(), AnyError>
    requires { length weights.now ≡ num_items (many items) }
    ensures { AddsWeights V.greatest V.number sketch.old (fed_items (many items.entry)) weights.now sketch.new result }
{
    on_items!(items, sequence => add_all_weighted(sketch, sequence, weights))
}

/// Writes a sketch's estimate of each item's weight.
#[tactic(auto, using(crate::proofs::RowCounts::length_valid_map))]
fn estimate_valid<V: CountMinValue>(
    sketch: &CountMinSketch<V>,
    items: AnyItems<'_>,
    estimates: &mut [V],
)
    requires { num_items (many items) ≡ length estimates.old }
    ensures length { length estimates.new ≡ length estimates.old }
    ensures each { AreEstimates sketch.now (fed_items (many items.entry)) (map V.number estimates.new) }
{
    on_items!(items, sequence => estimate_items(sketch, sequence, estimates))
}

/// Writes for each row a sketch's estimate of its item's weight. The estimate of a null is 0.
pub(crate) fn estimate_by_row<V: CountMinValue>(
    sketch: &CountMinSketch<V>,
    items: AnyItems<'_>,
    estimates: &mut [V],
)
    requires { length estimates.old ≡ num_rows (many items).rows }
    ensures length { length estimates.new ≡ length estimates.old }
    ensures each { OnRows (many items.entry).validity V.ZERO estimates.new (λ answers.
        AreEstimates sketch.now (fed_items (many items.entry)) (map V.number answers)) }
{
    by_row!(items, estimates, V::ZERO, places => estimate_valid(sketch, items, places));
}
