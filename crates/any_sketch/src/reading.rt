//! Sketches of any kind that are read from images.
ghost use Rattle.std.specs.Prelude.{◌≡◌, ◌≤◌, IfErr, IfOk, None, length};
ghost use Rattle.sketch_countmin.specs.Image as counts;
ghost use Rattle.any_sketch.specs.Reading.{ReadsImage, RefusesImage, RestoresCounts};
ghost use Rattle.any_sketch.specs.declared.kind.Kind.TheVariants.{Filter, CountU64, CountI64, FrequentU64, FrequentI64, FrequentStrings};

use crate::any_error::AnyError;
use crate::any_sketch::AnySketch;
use crate::image_options::ImageOptions;
use crate::kind::Kind;
use sketch_bloom::BloomFilter;
use sketch_countmin::{CountMinImageOptions, CountMinSketch, CountMinValue};
use sketch_frequencies::{FrequentItemsImageOptions, FrequentItemsSketch};
use std::alloc::Global;

/// Reads a filter from the image at the front of `image`.
fn read_filter(
    alloc: Global,
    image: &[u8],
    options: ImageOptions,
) -> Result<(AnySketch, usize), AnyError>
    ensures { ReadsImage Filter image.now options result }
{
    match BloomFilter::deserialize_prefix(alloc, image, options.max_bytes) {
        Ok((sketch, used)) => Ok((AnySketch::Filter(sketch), used)),
        Err(error) => Err(AnyError::Sketch(error)),
    }
}

/// Reads a Count-Min sketch from the image at the front of `image`.
fn read_count<V: CountMinValue>(
    alloc: Global,
    image: &[u8],
    options: ImageOptions,
) -> Result<(CountMinSketch<V>, usize), AnyError>
    ensures read { IfOk result (λ r.
        RestoresCounts V.least V.greatest V.SIZE options.seed image.now options.max_bytes r.0
        × counts.ReadsFront V.least V.greatest options.seed image.now r.0 r.1) }
    ensures used { IfOk result (λ r. (r.1 ≡ counts.prefix_bytes image.now) × (r.1 ≤ length image.now)) }
    ensures sound { IfOk result (λ r. counts.early_fault_within V.SIZE options.max_bytes options.seed image.now ≡ None) }
    ensures refused { IfErr result (RefusesImage
        (counts.early_fault_within V.SIZE options.max_bytes options.seed image.now)
        (counts.first_fault_within V.least V.greatest V.SIZE options.max_bytes options.seed image.now)) }
{
    let count_options = CountMinImageOptions {
        seed: options.seed,
        max_bytes: options.max_bytes,
    };
    match CountMinSketch::<V>::deserialize_prefix(alloc, image, count_options) {
        Ok((sketch, used)) => Ok((sketch, used)),
        Err(error) => Err(AnyError::Sketch(error)),
    }
}

/// Reads a Count-Min sketch with weights in `u64`.
fn read_count_u64(
    alloc: Global,
    image: &[u8],
    options: ImageOptions,
) -> Result<(AnySketch, usize), AnyError>
    ensures { ReadsImage CountU64 image.now options result }
{
    match read_count::<u64>(alloc, image, options) {
        Ok((sketch, used)) => Ok((AnySketch::CountU64(sketch), used)),
        Err(error) => Err(error),
    }
}

/// Reads a Count-Min sketch with weights in `i64`.
fn read_count_i64(
    alloc: Global,
    image: &[u8],
    options: ImageOptions,
) -> Result<(AnySketch, usize), AnyError>
    ensures { ReadsImage CountI64 image.now options result }
{
    match read_count::<i64>(alloc, image, options) {
        Ok((sketch, used)) => Ok((AnySketch::CountI64(sketch), used)),
        Err(error) => Err(error),
    }
}

/// Reads a sketch of frequent numbers.
fn read_frequent_u64(
    alloc: Global,
    image: &[u8],
    options: ImageOptions,
) -> Result<(AnySketch, usize), AnyError>
    ensures { ReadsImage FrequentU64 image.now options result }
{
    let frequent_options = FrequentItemsImageOptions {
        max_bytes: options.max_bytes,
        key: options.key,
    };
    match FrequentItemsSketch::<u64>::deserialize_prefix(alloc, image, frequent_options) {
        Ok((sketch, used)) => Ok((AnySketch::FrequentU64(sketch), used)),
        Err(error) => Err(AnyError::Sketch(error)),
    }
}

/// Reads a sketch of frequent numbers with a sign.
fn read_frequent_i64(
    alloc: Global,
    image: &[u8],
    options: ImageOptions,
) -> Result<(AnySketch, usize), AnyError>
    ensures { ReadsImage FrequentI64 image.now options result }
{
    let frequent_options = FrequentItemsImageOptions {
        max_bytes: options.max_bytes,
        key: options.key,
    };
    match FrequentItemsSketch::<i64>::deserialize_prefix(alloc, image, frequent_options) {
        Ok((sketch, used)) => Ok((AnySketch::FrequentI64(sketch), used)),
        Err(error) => Err(AnyError::Sketch(error)),
    }
}

/// Reads a sketch of frequent strings.
fn read_frequent_strings(
    alloc: Global,
    image: &[u8],
    options: ImageOptions,
) -> Result<(AnySketch, usize), AnyError>
    ensures { ReadsImage FrequentStrings image.now options result }
{
    let frequent_options = FrequentItemsImageOptions {
        max_bytes: options.max_bytes,
        key: options.key,
    };
    match FrequentItemsSketch::<String>::deserialize_prefix(alloc, image, frequent_options) {
        Ok((sketch, used)) => Ok((AnySketch::FrequentStrings(sketch), used)),
        Err(error) => Err(AnyError::Sketch(error)),
    }
}

impl AnySketch {
    /// Reads a sketch of a kind from the image at the front of `image`. Returns it with the number of bytes that the image takes. What
    /// follows is not read: the bytes that a sketch wrote are read as its image, to their end.
    ///
    /// A sketch of frequent items has the maximum sample size, since an image does not contain its own.
    ///
    /// # Errors
    ///
    /// Returns the first of these errors:
    ///
    /// - That of the first failed check of the image's length and fields.
    /// - `TableTooLarge` if the sketch takes more than `max_bytes`. For frequent strings the bytes of all strings count.
    /// - `NoMemory` if an allocation fails.
    /// - That of the first failed check of a filter's number of set bits, of the total and the cells, or of the weights and the items.
    pub fn deserialize_prefix(
        alloc: Global,
        kind: Kind,
        image: &[u8],
        options: ImageOptions,
    ) -> Result<(AnySketch, usize), AnyError>
        ensures { ReadsImage kind image.now options result }
    {
        match kind {
            Kind::Filter => read_filter(alloc, image, options),
            Kind::CountU64 => read_count_u64(alloc, image, options),
            Kind::CountI64 => read_count_i64(alloc, image, options),
            Kind::FrequentU64 => read_frequent_u64(alloc, image, options),
            Kind::FrequentI64 => read_frequent_i64(alloc, image, options),
            Kind::FrequentStrings => read_frequent_strings(alloc, image, options),
        }
    }
}
