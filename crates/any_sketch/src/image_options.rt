//! What an image does not say.
use counter_table::TableKey;

/// What an image of a sketch of any kind does not say.
#[derive(Clone, Copy, Debug)]
pub struct ImageOptions {
    /// How many bytes the sketch may take, by the formula of [`memory_bytes`](crate::AnySketch::memory_bytes).
    pub max_bytes: usize,
    /// The seed of a Count-Min sketch. The image contains only its 16-bit hash.
    pub seed: u64,
    /// The key under which the table of a sketch of frequent items hashes.
    pub key: TableKey,
}
