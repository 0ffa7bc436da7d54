//! Filters with many items: insert and look up.
ghost use Rattle.std.specs.Prelude.{◌≡◌, OnErr, false, length, map};
ghost use Rattle.sketch_bloom.specs.History.{all_inserted_after};
ghost use Rattle.sketch_bloom.specs.Stands.{Extends};
ghost use Rattle.sketch_bloom.specs.State.{all_inserted, answers_in_turn, contains_item};
ghost use Rattle.any_sketch.specs.Batches.{AreContained, TellsAllContainedInImage};
ghost use Rattle.any_sketch.specs.ManyItems.{fed_items, many, num_items, num_rows};
ghost use Rattle.any_sketch.specs.ValidRows.{OnRows};

use crate::any_error::AnyError;
use crate::many_items::{AnyItems, on_items};
use crate::valid_rows::by_row;
use sketch_bloom::{BloomFilter, BloomFilterView};

/// Inserts items into a filter, as one after another.
pub(crate) fn insert_each(filter: &mut BloomFilter, items: AnyItems<'_>)
    ensures insertions { filter.new ≡ all_inserted filter.old (fed_items (many items.entry)) }
    ensures stands { Extends filter.old filter.new (λ h. all_inserted_after h (fed_items (many items.entry))) }
{
    on_items!(items, sequence => filter.insert_all(sequence))
}

/// Writes for each item whether a filter contains it.
#[tactic(auto, using(crate::proofs::RowCounts::length_valid_map))]
fn contains_each(filter: &BloomFilter, items: AnyItems<'_>, results: &mut [bool])
    requires { length results.old ≡ num_items (many items) }
    ensures { results.new ≡ map (contains_item filter.now) (fed_items (many items.entry)) }
{
    on_items!(items, sequence => filter.contains_all(sequence, results))
}

/// Writes for each row whether a filter contains its item. The answer for a null is no.
pub(crate) fn contains_by_row(filter: &BloomFilter, items: AnyItems<'_>, results: &mut [bool])
    requires { length results.old ≡ num_rows (many items).rows }
    ensures { AreContained filter.now (many items.entry) results.new }
{
    by_row!(items, results, false, places => contains_each(filter, items, places));
}

/// Inserts items into a filter in order, and writes for each whether the filter contained it before.
#[tactic(auto, using(crate::proofs::RowCounts::length_valid_map))]
fn contains_and_insert_each(filter: &mut BloomFilter, items: AnyItems<'_>, results: &mut [bool])
    requires { length results.old ≡ num_items (many items) }
    ensures results { results.new ≡ answers_in_turn filter.old (fed_items (many items.entry)) }
    ensures insertions { filter.new ≡ all_inserted filter.old (fed_items (many items.entry)) }
    ensures stands { Extends filter.old filter.new (λ h. all_inserted_after h (fed_items (many items.entry))) }
{
    on_items!(items, sequence => filter.contains_and_insert_all(sequence, results))
}

/// Inserts items into a filter in order, and writes for each row whether the filter contained its item before. The answer for a null is
/// no.
pub(crate) fn contains_and_insert_by_row(
    filter: &mut BloomFilter,
    items: AnyItems<'_>,
    results: &mut [bool],
)
    requires { length results.old ≡ num_rows (many items).rows }
    ensures results { OnRows (many items.entry).validity false results.new (λ answers.
        answers ≡ answers_in_turn filter.old (fed_items (many items.entry))) }
    ensures insertions { filter.new ≡ all_inserted filter.old (fed_items (many items.entry)) }
    ensures stands { Extends filter.old filter.new (λ h. all_inserted_after h (fed_items (many items.entry))) }
{
    by_row!(items, results, false, places => contains_and_insert_each(filter, items, places));
}

/// Writes for each item whether a filter in an image contains it.
#[tactic(auto, using(crate::proofs::RowCounts::length_valid_map))]
fn view_contains_each(filter: &BloomFilterView<'_>, items: AnyItems<'_>, results: &mut [bool])
    requires { length results.old ≡ num_items (many items) }
    ensures { results.new ≡ map (contains_item filter.now) (fed_items (many items.entry)) }
{
    on_items!(items, sequence => filter.contains_all(sequence, results))
}

/// Writes for each row whether a filter in an image contains its item. The answer for a null is no.
fn view_contains_by_row(filter: &BloomFilterView<'_>, items: AnyItems<'_>, results: &mut [bool])
    requires { length results.old ≡ num_rows (many items).rows }
    ensures { AreContained filter.now (many items.entry) results.new }
{
    by_row!(items, results, false, places => view_contains_each(filter, items, places));
}

/// Writes for each row whether the filter in an image contains its item. There is a result for each row. That of a null row is no. Does not
/// allocate.
///
/// It checks the image in constant time: all that reading it checks, but not the number of set bits.
///
/// # Errors
///
/// The error of the first failed check. The results are then unchanged.
pub fn image_contains_all(
    image: &[u8],
    items: AnyItems<'_>,
    results: &mut [bool],
) -> Result<(), AnyError>
    requires { length results.old ≡ num_rows (many items).rows }
    ensures { TellsAllContainedInImage image.now (many items.entry) results.old results.new result }
{
    match BloomFilterView::new(image) {
        Ok(filter) => {
            view_contains_by_row(&filter, items, results);
            Ok(())
        }
        Err(error) => Err(AnyError::Sketch(error)),
    }
}
