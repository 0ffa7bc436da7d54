//! Images of filters that are read whole.
ghost use Rattle.std.specs.Prelude.{ℕ, List, MatchResult};
ghost use Rattle.sketches.specs.FilterImages.{IsBadFilter, IsNoFilter, LoadsFilter};
ghost use Rattle.sketches.specs.Images.{IsOpened};

use crate::image::images::{ImageFailure, failure_of, read_opened};
use sketch_bloom::BloomFilter;
use std::alloc::Global;
use std::io;
use std::io::Read;

/// Reads an image whole, and returns its filter.
///
/// # Errors
///
/// Returns `Read` if the image could not be opened or a read fails, and `TooLong` if there are more than `limit` bytes. Returns
/// `Rejected` with the fault of the first failing check of the filter's reader. That is `TableTooLarge` if the filter takes more than
/// `limit` bytes. Returns `TrailingBytes` if bytes follow the image, and `Memory` if an allocation fails.
pub fn read_filter<R: Read + Drop>(
    alloc: Global,
    limit: usize,
    opened: io::Result<R>,
) -> Result<BloomFilter, ImageFailure>
    ensures { (image : List ℕ) → IsOpened R.remaining image opened → MatchResult result (LoadsFilter limit image) (IsNoFilter limit image) }
{
    let image = match read_opened(alloc, limit, opened) {
        Ok(image) => image,
        Err(failure) => return Err(failure),
    };
    match load_filter(alloc, limit, &image) {
        Ok(filter) => Ok(filter),
        Err(failure) => Err(failure),
    }
}

/// Returns the filter of an image.
fn load_filter(alloc: Global, limit: usize, image: &[u8]) -> Result<BloomFilter, ImageFailure>
    ensures { MatchResult result (LoadsFilter limit image.now) (IsBadFilter limit image.now) }
{
    match BloomFilter::deserialize_prefix(alloc, image, limit) {
        Ok((filter, used)) => {
            if used < image.len() {
                return Err(ImageFailure::TrailingBytes);
            }
            Ok(filter)
        }
        Err(error) => Err(failure_of(error)),
    }
}
