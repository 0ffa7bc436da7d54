//! Images of sketches of any kind.
ghost use Rattle.std.specs.Prelude.{◌≡◌, ◌<◌, ◌≤◌, ◌^◌, IfErr, IfNone, IfOk, IfSome, List, None, OnErr, drop, length, take, ℕ};
ghost use Rattle.sketch_base.specs.Errors.{ErrorValue};
ghost use Rattle.sketch_bloom.specs.Image as filter_image;
ghost use Rattle.sketch_countmin.specs.Image as count_image;
ghost use Rattle.sketch_frequencies.specs.Image.{IsItemFault, IsSpelledFor};
ghost use Rattle.sketch_frequencies.specs.Items.{IsWithin};
ghost use Rattle.any_sketch.specs.Writing.{TellsSize, WritesImage};
ghost use Rattle.any_sketch.specs.declared.any_error.AnyError.TheVariants.{Sketch};

use crate::any_error::AnyError;
use crate::any_sketch::AnySketch;
use sketch_bloom::BloomFilter;
use sketch_countmin::{CountMinSketch, CountMinValue};
use sketch_frequencies::{FrequentItemValue, FrequentItemsSketch};

/// Returns the length of the image of a sketch of frequent items.
fn frequent_size<T: FrequentItemValue + Drop>(
    sketch: &FrequentItemsSketch<T>,
) -> Result<usize, AnyError>
    ensures some { IfOk result (λ n.
        (image : List ℕ) × IsSpelledFor T.codec T.content image sketch.now × (length image ≡ n)) }
    ensures each { IfOk result (λ n. (image : List ℕ) → IsSpelledFor T.codec T.content image sketch.now → length image ≡ n) }
    ensures lacks { IsWithin T.codec (2 ^ 33) → IfErr result (λ any.
        (e : ErrorValue) × (any ≡ Sketch e) × IsItemFault T.codec T.content sketch.now.counters e) }
{
    match sketch.serialized_size() {
        Ok(length) => Ok(length),
        Err(error) => Err(AnyError::Sketch(error)),
    }
}

/// Writes the image of a sketch of frequent items to the front of a buffer, if there is room.
fn write_frequent<T: FrequentItemValue + Drop>(
    sketch: &FrequentItemsSketch<T>,
    out: &mut [u8],
) -> Result<Option<usize>, AnyError>
    ensures image { IfOk result (λ r. IfSome r (λ n. IsSpelledFor T.codec T.content (take n out.new) sketch.now)) }
    ensures fits { IfOk result (λ r. IfSome r (λ n. n ≤ length out.old)) }
    ensures rest { IfOk result (λ r. IfSome r (λ n. drop n out.new ≡ drop n out.old)) }
    ensures exists { IfOk result (λ r. r ≡ None → (image : List ℕ) × IsSpelledFor T.codec T.content image sketch.now) }
    ensures short { IfOk result (λ r. r ≡ None →
        (image : List ℕ) → IsSpelledFor T.codec T.content image sketch.now → length out.old < length image) }
    ensures none { IfOk result (λ r. r ≡ None → out.new ≡ out.old) }
    ensures lacks { IsWithin T.codec (2 ^ 33) → IfErr result (λ any.
        (e : ErrorValue) × (any ≡ Sketch e) × IsItemFault T.codec T.content sketch.now.counters e) }
    ensures unchanged { OnErr result (out.new ≡ out.old) }
{
    match sketch.serialize_into(out) {
        Ok(length) => Ok(length),
        Err(error) => Err(AnyError::Sketch(error)),
    }
}

/// Writes the image of a filter to the front of a buffer, if there is room.
fn write_filter(sketch: &BloomFilter, out: &mut [u8]) -> Option<usize>
    ensures image { IfSome result (λ n. filter_image.IsSpelled (take n out.new) sketch.now) }
    ensures known { IfSome result (λ n. n ≡ filter_image.image_bytes sketch.now) }
    ensures fits { IfSome result (λ n. n ≤ length out.old) }
    ensures rest { IfSome result (λ n. drop n out.new ≡ drop n out.old) }
    ensures short { IfNone result (length out.old < filter_image.image_bytes sketch.now) }
    ensures none { IfNone result (out.new ≡ out.old) }
{
    if sketch.serialized_size() > out.len() {
        return None;
    }
    sketch.serialize_into(out)
}

/// Writes the image of a Count-Min sketch to the front of a buffer, if there is room.
fn write_count<V: CountMinValue>(sketch: &CountMinSketch<V>, out: &mut [u8]) -> Option<usize>
    ensures image { IfSome result (λ n. count_image.IsSpelled V.least V.greatest (take n out.new) sketch.now) }
    ensures known { IfSome result (λ n. n ≡ count_image.image_bytes sketch.now) }
    ensures fits { IfSome result (λ n. n ≤ length out.old) }
    ensures rest { IfSome result (λ n. drop n out.new ≡ drop n out.old) }
    ensures short { IfNone result (length out.old < count_image.image_bytes sketch.now) }
    ensures none { IfNone result (out.new ≡ out.old) }
{
    if sketch.serialized_size() > out.len() {
        return None;
    }
    sketch.serialize_into(out)
}

impl AnySketch {
    /// Returns the length in bytes of the sketch's image: in one pass over the table of a sketch of frequent items, and in constant
    /// time otherwise. Does not allocate.
    ///
    /// # Errors
    ///
    /// `ItemTooLong` if a string of a sketch of frequent strings has 2^32 bytes or more.
    pub fn serialized_size(&self) -> Result<usize, AnyError>
        ensures { TellsSize self.now result }
    {
        match self {
            AnySketch::Filter(sketch) => Ok(sketch.serialized_size()),
            AnySketch::CountU64(sketch) => Ok(sketch.serialized_size()),
            AnySketch::CountI64(sketch) => Ok(sketch.serialized_size()),
            AnySketch::FrequentU64(sketch) => frequent_size(sketch),
            AnySketch::FrequentI64(sketch) => frequent_size(sketch),
            AnySketch::FrequentStrings(sketch) => frequent_size(sketch),
        }
    }

    /// Writes the sketch's image to the front of `out`, and returns its length. The rest of `out` is unchanged. Does not allocate.
    ///
    /// Returns `None` if the image, of [`serialized_size`](Self::serialized_size) bytes, is longer than `out`, which is then unchanged.
    ///
    /// # Errors
    ///
    /// Those of `serialized_size`. `out` is then unchanged.
    pub fn serialize_into(&self, out: &mut [u8]) -> Result<Option<usize>, AnyError>
        ensures { WritesImage self.now out.old out.new result }
    {
        match self {
            AnySketch::Filter(sketch) => Ok(write_filter(sketch, out)),
            AnySketch::CountU64(sketch) => Ok(write_count(sketch, out)),
            AnySketch::CountI64(sketch) => Ok(write_count(sketch, out)),
            AnySketch::FrequentU64(sketch) => write_frequent(sketch, out),
            AnySketch::FrequentI64(sketch) => write_frequent(sketch, out),
            AnySketch::FrequentStrings(sketch) => write_frequent(sketch, out),
        }
    }
}
