//! The sizes of a Count-Min sketch.
ghost use Rattle.std.specs.Prelude.{◌≡◌};

use sketch_base::DEFAULT_UPDATE_SEED;

/// The sizes and the seed of a Count-Min sketch.
///
/// # Examples
///
/// ```
/// use sketch_base::Error;
/// use sketch_countmin::{CountMinSizes, CountMinSketch};
/// use std::alloc::Global;
///
/// fn empty_traffic(alloc: Global, seed: u64) -> Result<CountMinSketch<u64>, Error> {
///     let sizes = CountMinSizes {
///         num_hashes: 4,
///         num_buckets: 128,
///         seed,
///     };
///     CountMinSketch::with_sizes(alloc, sizes)
/// }
/// ```
#[derive(Clone, Copy, Debug, PartialEq, Eq)]
pub struct CountMinSizes {
    /// The number of hashes, which is the number of rows.
    pub num_hashes: u8,
    /// The number of cells in a row.
    pub num_buckets: u32,
    /// The seed of the hashes.
    pub seed: u64,
}

impl CountMinSizes {
    /// Returns these sizes with the default seed 9001.
    pub fn new(num_hashes: u8, num_buckets: u32) -> Self
        ensures hashes { result.num_hashes ≡ num_hashes }
        ensures buckets { result.num_buckets ≡ num_buckets }
        ensures seed { result.seed ≡ DEFAULT_UPDATE_SEED }
    {
        CountMinSizes {
            num_hashes,
            num_buckets,
            seed: DEFAULT_UPDATE_SEED,
        }
    }
}
