//! The options for reading an image.
ghost use Rattle.std.specs.Prelude.{◌≡◌, ◌-◌, ◌^◌};

use sketch_base::DEFAULT_UPDATE_SEED;

/// The options for reading a Count-Min sketch from an image.
///
/// By default the seed is 9001, and there is no limit.
///
/// # Examples
///
/// ```
/// use sketch_base::Error;
/// use sketch_countmin::{CountMinImageOptions, CountMinSketch};
/// use std::alloc::Global;
///
/// fn uploaded_counts(alloc: Global, image: &[u8]) -> Result<CountMinSketch<u64>, Error> {
///     let mut options = CountMinImageOptions::default();
///     options.max_bytes = 1 << 20;
///     CountMinSketch::deserialize_with_options(alloc, image, options)
/// }
/// ```
#[derive(Clone, Copy, Debug, PartialEq, Eq, Drop)]
pub struct CountMinImageOptions {
    /// The seed of the sketch. The image contains only its 16-bit hash.
    pub seed: u64,
    /// The maximum of the sketch's [`estimated_size`](crate::CountMinSketch::estimated_size).
    pub max_bytes: usize,
}

impl Default for CountMinImageOptions {
    ghost is_default = { λ o. (o.seed ≡ 9001) × (o.max_bytes ≡ 2 ^ 64 - 1) };

    fn default() -> Self {
        CountMinImageOptions {
            seed: DEFAULT_UPDATE_SEED,
            max_bytes: usize::MAX,
        }
    }
}
