//! The sizes of a sketch of frequent items.
ghost use Rattle.std.specs.Prelude.{◌≡◌};
ghost use Rattle.sketch_frequencies.specs.State.{max_sample_size};

use crate::sizes::max_sample_of;

/// The sizes of a sketch of frequent items.
///
/// # Examples
///
/// ```
/// use sketch_frequencies::{Error, FrequentItemsSizes, FrequentItemsSketch, TableKey};
/// use std::alloc::Global;
///
/// fn with_cheap_purges(alloc: Global, key: TableKey) -> Result<FrequentItemsSketch<u64>, Error> {
///     let sizes = FrequentItemsSizes {
///         max_map_size: 1024,
///         sample_size: 64,
///     };
///     FrequentItemsSketch::with_sizes(alloc, sizes, key)
/// }
/// ```
#[derive(Clone, Copy, Debug, PartialEq, Eq)]
pub struct FrequentItemsSizes {
    /// The maximum number of slots of the table: a power of two from 8 to 2^30.
    pub max_map_size: usize,
    /// The number of counters that a purge samples: an even number from 2 to three quarters of `max_map_size`, at most 1024.
    pub sample_size: usize,
}

impl FrequentItemsSizes {
    /// Returns sizes with the maximum sample size: three quarters of `max_map_size`, at most 1024.
    pub fn new(max_map_size: usize) -> Self
        ensures { result ≡ record { max_map_size = max_map_size; sample_size = max_sample_size max_map_size } }
    {
        FrequentItemsSizes {
            max_map_size,
            sample_size: max_sample_of(max_map_size),
        }
    }
}
