//! The limits of sketches.

/// The maximum number of hashes of a sketch.
pub const MAX_NUM_HASHES: u8 = 255;

/// The minimum number of cells in a row.
pub const MIN_NUM_BUCKETS: u32 = 3;

/// The limit of cells: a sketch has fewer.
pub const MAX_TABLE_ENTRIES: usize = 1 << 30;
