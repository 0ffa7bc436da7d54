//! Copies of sketches.
ghost use Rattle.std.specs.Prelude.{◌≡◌, IfOk, IfErr};
ghost use Rattle.sketch_base.specs.Errors.{no_memory};
ghost use Rattle.any_sketch.specs.Copies.{Copies, IsCopy};
ghost use Rattle.any_sketch.specs.declared.any_error.AnyError.TheVariants.{Sketch};

use crate::any_error::AnyError;
use crate::any_sketch::AnySketch;
use sketch_bloom::BloomFilter;
use sketch_countmin::{CountMinSketch, CountMinValue};
use sketch_frequencies::{EqualClone, FrequentItemsSketch};
use std::hash::Hash;

/// Returns a copy of a filter.
fn copy_of_filter(sketch: &BloomFilter) -> Result<BloomFilter, AnyError>
    ensures copy { IfOk result (λ copy. copy ≡ sketch.now) }
    ensures memory { IfErr result (λ e. e ≡ Sketch no_memory) }
{
    match sketch.try_clone() {
        Ok(copy) => Ok(copy),
        Err(error) => Err(AnyError::Sketch(error)),
    }
}

/// Returns a copy of a Count-Min sketch.
fn copy_of_counts<V: CountMinValue>(
    sketch: &CountMinSketch<V>,
) -> Result<CountMinSketch<V>, AnyError>
    ensures copy { IfOk result (λ copy. copy ≡ sketch.now) }
    ensures memory { IfErr result (λ e. e ≡ Sketch no_memory) }
{
    match sketch.try_clone() {
        Ok(copy) => Ok(copy),
        Err(error) => Err(AnyError::Sketch(error)),
    }
}

/// Returns a copy of a sketch of frequent items.
fn copy_of_frequent<T: EqualClone + Hash + Drop>(
    sketch: &FrequentItemsSketch<T>,
) -> Result<FrequentItemsSketch<T>, AnyError>
    ensures copy { IfOk result (IsCopy T.eq sketch.now) }
    ensures memory { IfErr result (λ e. e ≡ Sketch no_memory) }
{
    match sketch.try_clone() {
        Ok(copy) => Ok(copy),
        Err(error) => Err(AnyError::Sketch(error)),
    }
}

impl AnySketch {
    /// Returns a copy with memory of its own.
    ///
    /// # Errors
    ///
    /// `NoMemory` if an allocation fails.
    pub fn try_clone(&self) -> Result<AnySketch, AnyError>
        ensures { Copies self.now result }
    {
        match self {
            AnySketch::Filter(sketch) => Ok(AnySketch::Filter(copy_of_filter(sketch)?)),
            AnySketch::CountI64(sketch) => Ok(AnySketch::CountI64(copy_of_counts(sketch)?)),
            AnySketch::CountU64(sketch) => Ok(AnySketch::CountU64(copy_of_counts(sketch)?)),
            AnySketch::FrequentI64(sketch) => Ok(AnySketch::FrequentI64(copy_of_frequent(sketch)?)),
            AnySketch::FrequentU64(sketch) => Ok(AnySketch::FrequentU64(copy_of_frequent(sketch)?)),
            AnySketch::FrequentStrings(sketch) => {
                Ok(AnySketch::FrequentStrings(copy_of_frequent(sketch)?))
            }
        }
    }
}
