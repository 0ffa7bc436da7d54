//! New sketches of any kind.
ghost use Rattle.std.specs.Prelude.{◌≡◌, None, IfErr, IfOk, OnOk};
ghost use Rattle.sketch_base.specs.Errors.{refusal_of};
ghost use Rattle.any_sketch.specs.Making.{IsNewCounts, IsNewFrequent, Makes, counts_fault};
ghost use Rattle.any_sketch.specs.declared.any_error.AnyError.TheVariants.{Sketch};
ghost use Rattle.any_sketch.specs.declared.kind.Kind.TheVariants.{Filter};
ghost use Rattle.sketch_frequencies.specs.Sizes.{sizes_fault};

use crate::any_error::AnyError;
use crate::any_sketch::AnySketch;
use crate::kind::Kind;
use crate::sketch_sizes::SketchSizes;
use sketch_base::{Error, Fault};
use sketch_bloom::BloomFilterBuilder;
use sketch_countmin::{CountMinSizes, CountMinSketch, CountMinValue};
use sketch_frequencies::{FrequentItemsSizes, FrequentItemsSketch};
use std::alloc::Global;
use std::hash::Hash;

/// Creates an empty filter.
fn new_filter(alloc: Global, sizes: SketchSizes) -> Result<AnySketch, AnyError>
    ensures { Makes Filter sizes result }
{
    let builder = BloomFilterBuilder::with_size(sizes.num_bits, sizes.num_hashes).seed(sizes.seed);
    match builder.build(alloc) {
        Ok(filter) => Ok(AnySketch::Filter(filter)),
        Err(error) => Err(AnyError::Sketch(error)),
    }
}

/// Creates an empty Count-Min sketch.
fn new_counts<V: CountMinValue>(
    alloc: Global,
    sizes: SketchSizes,
) -> Result<CountMinSketch<V>, AnyError>
    ensures made { IfOk result (IsNewCounts sizes) }
    ensures accepted { OnOk result (counts_fault sizes ≡ None) }
    ensures refused { IfErr result (λ e. e ≡ Sketch (refusal_of (counts_fault sizes))) }
{
    if sizes.num_hashes > 255 {
        return Err(AnyError::Sketch(Error::invalid_argument(Fault::BadNumHashes)));
    }
    let count_sizes = CountMinSizes {
        num_hashes: sizes.num_hashes as u8,
        num_buckets: sizes.num_buckets,
        seed: sizes.seed,
    };
    match CountMinSketch::<V>::with_sizes(alloc, count_sizes) {
        Ok(sketch) => Ok(sketch),
        Err(error) => Err(AnyError::Sketch(error)),
    }
}

/// Creates an empty sketch of frequent items.
fn new_frequent<T: Eq + Hash + Drop>(
    alloc: Global,
    sizes: SketchSizes,
) -> Result<FrequentItemsSketch<T>, AnyError>
    ensures made { IfOk result (IsNewFrequent T.eq sizes) }
    ensures accepted { OnOk result (sizes_fault sizes.max_map_size sizes.sample_size ≡ None) }
    ensures refused { IfErr result (λ e. e ≡ Sketch (refusal_of (sizes_fault sizes.max_map_size sizes.sample_size))) }
{
    let frequent_sizes = FrequentItemsSizes {
        max_map_size: sizes.max_map_size,
        sample_size: sizes.sample_size,
    };
    match FrequentItemsSketch::<T>::with_sizes(alloc, frequent_sizes, sizes.key) {
        Ok(sketch) => Ok(sketch),
        Err(error) => Err(AnyError::Sketch(error)),
    }
}

impl AnySketch {
    /// Creates an empty sketch of a kind and of these sizes, of which the kind reads its own.
    ///
    /// # Errors
    ///
    /// Returns the first of these errors.
    ///
    /// - Of a filter `BadNumBits` or `BadNumHashes` if the number is out of range.
    /// - Of a Count-Min sketch `BadNumHashes` or `BadNumBuckets` if the number is out of range, `TableTooLarge` if there are 2^30 cells
    ///   or more, and `ZeroSeedHash` if the seed's hash is 0.
    /// - Of frequent items `MapSizeNotPowerOfTwo`, `MapSizeTooSmall`, `MapSizeTooLarge` or `BadSampleSize` if the size is out of range.
    /// - `NoMemory` if an allocation fails.
    pub fn new(alloc: Global, kind: Kind, sizes: SketchSizes) -> Result<AnySketch, AnyError>
        ensures { Makes kind sizes result }
    {
        match kind {
            Kind::Filter => new_filter(alloc, sizes),
            Kind::CountU64 => Ok(AnySketch::CountU64(new_counts(alloc, sizes)?)),
            Kind::CountI64 => Ok(AnySketch::CountI64(new_counts(alloc, sizes)?)),
            Kind::FrequentU64 => Ok(AnySketch::FrequentU64(new_frequent(alloc, sizes)?)),
            Kind::FrequentI64 => Ok(AnySketch::FrequentI64(new_frequent(alloc, sizes)?)),
            Kind::FrequentStrings => Ok(AnySketch::FrequentStrings(new_frequent(alloc, sizes)?)),
        }
    }
}
