//! Calls on sketches in the bytes of their images, which are not read into memory.
ghost use Rattle.std.specs.Prelude.{◌≡◌};
ghost use Rattle.sketch_bloom.specs.State.{contains_item};
ghost use Rattle.sketch_countmin.specs.Image as count_image;
ghost use Rattle.sketch_countmin.specs.View.{view_at, view_fault};
ghost use Rattle.any_sketch.specs.Estimates.{IsEstimate};
ghost use Rattle.any_sketch.specs.Images.{EstimatesInImage, EstimatesSignedInImage, TellsContainedInImage, TellsOfImage};
ghost use Rattle.any_sketch.specs.Items.{fed_by, value_of};

use crate::any_error::AnyError;
use crate::item::Item;
use sketch_base::FedBytes;
use sketch_bloom::BloomFilterView;
use sketch_countmin::{CountMinValue, CountMinView};

/// Returns whether the filter in an image contains an item. Does not allocate.
///
/// It checks the image in constant time: all that reading it checks, but not the number of set bits.
///
/// # Errors
///
/// The error of the first failed check.
#[inline(always)]
pub fn image_contains(image: &[u8], item: Item<'_>) -> Result<bool, AnyError>
    ensures { TellsContainedInImage image.now (value_of item.entry) result }
{
    match BloomFilterView::new(image) {
        Ok(filter) => Ok(view_contains(&filter, item)),
        Err(error) => Err(AnyError::Sketch(error)),
    }
}

/// Returns whether a view contains an item of any type.
#[inline(always)]
fn view_contains(filter: &BloomFilterView<'_>, item: Item<'_>) -> bool
    ensures { result ≡ contains_item filter.now (fed_by (value_of item.entry)) }
{
    match item {
        Item::U64(n) => filter.contains_item(&n),
        Item::I64(n) => filter.contains_item(&n),
        Item::Text(text) => filter.contains_item(text),
        Item::Fed(bytes) => filter.contains_item(FedBytes(bytes)),
    }
}

/// Returns the estimate of the weight of an item of any type by the Count-Min sketch in an image.
#[inline(always)]
fn estimate_in_image<V: CountMinValue>(
    image: &[u8],
    seed: u64,
    item: Item<'_>,
) -> Result<V, AnyError>
    ensures { TellsOfImage (view_at V.least seed image.now) (count_image.IsImage V.least V.greatest seed image.now)
        (view_fault V.least V.greatest seed image.now)
        (λ s estimate. IsEstimate s (fed_by (value_of item.entry)) (V.number estimate)) result }
{
    match CountMinView::<V>::with_seed(image, seed) {
        Ok(counts) => Ok(view_estimate(&counts, item)),
        Err(error) => Err(AnyError::Sketch(error)),
    }
}

/// Returns the estimate of the weight of an item of any type by a view.
#[inline(always)]
fn view_estimate<V: CountMinValue>(counts: &CountMinView<'_, V>, item: Item<'_>) -> V
    ensures { IsEstimate counts.now (fed_by (value_of item.entry)) (V.number result) }
{
    match item {
        Item::U64(n) => counts.estimate_item(&n),
        Item::I64(n) => counts.estimate_item(&n),
        Item::Text(text) => counts.estimate_item(text),
        Item::Fed(bytes) => counts.estimate_item(FedBytes(bytes)),
    }
}

/// Returns the estimate of an item's weight by the Count-Min sketch with weights in `u64` in an image, which was written under this
/// seed. Does not allocate.
///
/// It hashes a number for each row, and checks the image in constant time: all that reading it checks, but no cells. A cell that
/// reading rejects is taken as the nearest that it accepts.
///
/// # Errors
///
/// The error of the first failed check.
#[inline(always)]
pub fn image_estimate(image: &[u8], seed: u64, item: Item<'_>) -> Result<u64, AnyError>
    ensures { EstimatesInImage seed image.now (value_of item.entry) result }
{
    estimate_in_image(image, seed, item)
}

/// Returns the estimate of an item's weight by the Count-Min sketch with weights in `i64` in an image, as [`image_estimate`] does. Does
/// not allocate.
///
/// # Errors
///
/// The error of the first failed check.
#[inline(always)]
pub fn image_estimate_signed(image: &[u8], seed: u64, item: Item<'_>) -> Result<i64, AnyError>
    ensures { EstimatesSignedInImage seed image.now (value_of item.entry) result }
{
    estimate_in_image(image, seed, item)
}
