//! The limits of filters.

/// The maximum number of words of a filter.
pub const MAX_NUM_WORDS: usize = 2147483647;

/// The maximum number of bits that a filter may be built with.
pub const MAX_NUM_BITS: u64 = 137438953152;

/// The maximum number of hashes of a filter.
pub const MAX_NUM_HASHES: u16 = 32767;
