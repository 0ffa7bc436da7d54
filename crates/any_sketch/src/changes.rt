//! Calls that change a whole sketch: resets, sample sizes and decay.
ghost use Rattle.std.specs.Prelude.{◌<◌, ◌≤◌};
ghost use Rattle.any_sketch.specs.Changes.{Decays, Halves, Resamples, Resets, SetsSampleSize};

use crate::any_error::AnyError;
use crate::any_sketch::AnySketch;
use sketch_frequencies::FrequentItemsSketch;
use std::hash::Hash;

/// Sets the number of counters that later purges of a sketch of frequent items sample.
fn resample<T: Eq + Hash + Drop>(
    sketch: &mut FrequentItemsSketch<T>,
    sample_size: usize,
) -> Result<(), AnyError>
    ensures { Resamples T.eq sketch.old sample_size sketch.new result }
{
    match sketch.set_sample_size(sample_size) {
        Ok(()) => Ok(()),
        Err(error) => Err(AnyError::Sketch(error)),
    }
}

impl AnySketch {
    /// Removes all items and weights. Sizes, seed and key stay as they were. Does not allocate.
    pub fn reset(&mut self)
        ensures { Resets self.old self.new }
    {
        match self {
            AnySketch::Filter(sketch) => sketch.reset(),
            AnySketch::CountI64(sketch) => sketch.reset(),
            AnySketch::CountU64(sketch) => sketch.reset(),
            AnySketch::FrequentI64(sketch) => sketch.reset(),
            AnySketch::FrequentU64(sketch) => sketch.reset(),
            AnySketch::FrequentStrings(sketch) => sketch.reset(),
        }
    }

    /// Sets the number of counters that later purges of a sketch of frequent items sample: an even number from 2 to three quarters of the
    /// maximum table size, at most 1024. Nothing else changes.
    ///
    /// # Errors
    ///
    /// The first of these that applies. The sketch is then unchanged.
    ///
    /// - `WrongKind` if the sketch is of another kind;
    /// - `BadSampleSize` if `sample_size` is out of range or odd.
    pub fn set_sample_size(&mut self, sample_size: usize) -> Result<(), AnyError>
        ensures { SetsSampleSize self.old sample_size self.new result }
    {
        match self {
            AnySketch::FrequentI64(sketch) => resample(sketch, sample_size),
            AnySketch::FrequentU64(sketch) => resample(sketch, sample_size),
            AnySketch::FrequentStrings(sketch) => resample(sketch, sample_size),
            _ => Err(AnyError::WrongKind),
        }
    }

    /// Halves each cell and the total of a Count-Min sketch with weights in `u64`, rounded down. Does not allocate.
    ///
    /// # Errors
    ///
    /// `WrongKind` if the sketch is of another kind. It is then unchanged.
    pub fn halve(&mut self) -> Result<(), AnyError>
        ensures { Halves self.old self.new result }
    {
        match self {
            AnySketch::CountU64(sketch) => {
                sketch.halve();
                Ok(())
            }
            _ => Err(AnyError::WrongKind),
        }
    }

    /// Multiplies each cell and the total of a Count-Min sketch with weights in `u64` by a fraction above 0 and at most 1, rounded down.
    /// Does not allocate.
    ///
    /// # Errors
    ///
    /// `WrongKind` if the sketch is of another kind. It is then unchanged.
    pub fn decay(&mut self, numerator: u64, denominator: u64) -> Result<(), AnyError>
        requires positive { 0 < numerator }
        requires at_most_one { numerator ≤ denominator }
        ensures { Decays self.old numerator denominator self.new result }
    {
        match self {
            AnySketch::CountU64(sketch) => {
                sketch.decay(numerator, denominator);
                Ok(())
            }
            _ => Err(AnyError::WrongKind),
        }
    }
}
