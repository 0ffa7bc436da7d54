//! Calls that look up one item in the bytes of an image, which is not read into memory.
ghost use Rattle.std.specs.Prelude.{◌≡◌};
ghost use Rattle.any_sketch.specs.Images.{EstimatesInImage, EstimatesSignedInImage, TellsContainedInImage};
ghost use Rattle.datasketches_c.specs.Calls.{IsAnswer, IsWritten};
ghost use Rattle.datasketches_c.specs.ItemArguments.{OnItem};
ghost use Rattle.datasketches_c.specs.Numbers.{OnRefused};

use crate::codes::{code_of_answer, write};
use crate::item_argument::{ItemArgument, on_given_item};
use any_sketch::{image_contains, image_estimate, image_estimate_signed};

/// Returns `YES` if the filter in an image contains an item, and `NO` otherwise. Checks the image in constant time: what
/// `ds_read_image` checks, but not the number of set bits. Does not allocate.
///
/// Returns the first of these errors: `BAD_ARGUMENT` if the kind of the item is not known, `InvalidUtf8` if the item is a string that is
/// not UTF-8, and that of the first failed check.
#[unsafe(no_mangle)]
pub extern "C" fn ds_bloom_image_contains(image: &[u8], item: &ItemArgument<'_>) -> i32
    ensures { OnItem item.now result (Unit {0}) (λ given. IsAnswer result (TellsContainedInImage image.now given)) }
{
    on_given_item!(item, given => code_of_answer(image_contains(image, given)))
}

/// Writes the estimate of an item's weight by the Count-Min sketch in an image, which was written under this seed. Hashes a number for
/// each row, and checks the image in constant time: what `ds_read_image` checks, but no cells. A cell that it rejects is read as the
/// nearest that it accepts. Does not allocate.
///
/// Returns the first of these errors, and then changes nothing: `BAD_ARGUMENT` if the kind of the item is not known, `InvalidUtf8` if
/// the item is a string that is not UTF-8, and that of the first failed check.
#[unsafe(no_mangle)]
pub extern "C" fn ds_count_min_u64_image_estimate(
    image: &[u8],
    seed: u64,
    item: &ItemArgument<'_>,
    estimate: &mut u64,
) -> i32
    ensures estimate { OnItem item.now result (estimate.new ≡ estimate.old) (λ given.
        IsWritten estimate.old estimate.new result (EstimatesInImage seed image.now given)) }
    ensures untouched { OnRefused result (estimate.new ≡ estimate.old) }
{
    on_given_item!(item, given => write(image_estimate(image, seed, given), estimate))
}

/// Writes the estimate of an item's weight by the Count-Min sketch in an image. See `ds_count_min_u64_image_estimate`.
///
/// Returns the first of these errors, and then changes nothing: `BAD_ARGUMENT` if the kind of the item is not known, `InvalidUtf8` if
/// the item is a string that is not UTF-8, and that of the first failed check.
#[unsafe(no_mangle)]
pub extern "C" fn ds_count_min_i64_image_estimate(
    image: &[u8],
    seed: u64,
    item: &ItemArgument<'_>,
    estimate: &mut i64,
) -> i32
    ensures estimate { OnItem item.now result (estimate.new ≡ estimate.old) (λ given.
        IsWritten estimate.old estimate.new result (EstimatesSignedInImage seed image.now given)) }
    ensures untouched { OnRefused result (estimate.new ≡ estimate.old) }
{
    on_given_item!(item, given => write(image_estimate_signed(image, seed, given), estimate))
}
