//! Sizes of new sketches.
use counter_table::TableKey;

/// The sizes of a new sketch of any kind. Each kind reads its own.
#[derive(Clone, Copy, Debug)]
pub struct SketchSizes {
    /// The number of bits of a filter, from 1 to 137438953152. It is rounded up to words of 64.
    pub num_bits: u64,
    /// The number of positions of an item in a filter, from 1 to 32767, or of rows of a Count-Min sketch, from 1 to 255.
    pub num_hashes: u16,
    /// The number of cells in a row of a Count-Min sketch, 3 or more.
    pub num_buckets: u32,
    /// The seed of a filter or of a Count-Min sketch.
    pub seed: u64,
    /// The maximum number of slots of the table of a sketch of frequent items: a power of two, from 8 to 2^30.
    pub max_map_size: usize,
    /// How many counters a purge of a sketch of frequent items samples: an even number from 2 to three quarters of the maximum size, at
    /// most 1024.
    pub sample_size: usize,
    /// The key under which the table of a sketch of frequent items hashes.
    pub key: TableKey,
}
