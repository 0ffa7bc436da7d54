//! Commands of a session.
use crate::image_kind::ImageKind;
use sketch_frequencies::ErrorType;

/// A command on named sketches and images. Sketches and images have separate names.
///
/// # Examples
///
/// ```
/// use datasketches::error::Error;
/// use datasketches::{Command, Refusal, Reply, Session};
/// use std::alloc::Global;
///
/// fn refusal_of_an_unknown_name(alloc: Global) -> Result<Option<Refusal>, Error> {
///     let name = String::from_str(alloc, "visits")?;
///     let mut session = Session::new(alloc);
///     match session.apply(Command::Insert { name, item: 7_u64 }) {
///         Reply::Refused(refusal) => Ok(Some(refusal)),
///         _ => Ok(None),
///     }
/// }
/// ```
#[derive(Debug, PartialEq, Eq, Drop)]
pub enum Command<T> {
    /// Creates a frequent items sketch of at most `max_map_size` slots.
    CreateFrequent {
        name: String,
        max_map_size: usize,
    },
    /// Creates a frequent items sketch of at most `max_map_size` slots whose purges sample `sample_size` counters.
    CreateFrequentSampled {
        name: String,
        max_map_size: usize,
        sample_size: usize,
    },
    /// Creates a Count-Min sketch of signed weights.
    CreateCountI64 {
        name: String,
        num_hashes: u8,
        num_buckets: u32,
        seed: u64,
    },
    /// Creates a Count-Min sketch of nonnegative weights.
    CreateCountU64 {
        name: String,
        num_hashes: u8,
        num_buckets: u32,
        seed: u64,
    },
    /// Creates a Bloom filter of at least `num_bits` bits.
    CreateBloom {
        name: String,
        num_bits: u64,
        num_hashes: u16,
        seed: u64,
    },
    /// Adds an item with a weight to a frequent items sketch, or to a Count-Min sketch of nonnegative weights.
    Add {
        name: String,
        item: T,
        weight: u64,
    },
    /// Adds an item with a weight to a Count-Min sketch of signed weights.
    AddSigned {
        name: String,
        item: T,
        weight: i64,
    },
    /// Inserts an item into a Bloom filter.
    Insert {
        name: String,
        item: T,
    },
    /// Adds the weights of `other` to `into`. Both are of the same kind, which is not a filter.
    Merge {
        into: String,
        other: String,
    },
    /// Adds the positions of the filter `other` to the filter `into`.
    Union {
        into: String,
        other: String,
    },
    /// Keeps in the filter `into` only the positions that are also in the filter `other`.
    Intersect {
        into: String,
        other: String,
    },
    /// Removes the positions of the filter `other` from the filter `into`.
    Difference {
        into: String,
        other: String,
    },
    /// Empties a frequent items sketch or a filter.
    Reset {
        name: String,
    },
    /// Halves all weights of a Count-Min sketch of nonnegative weights.
    Halve {
        name: String,
    },
    /// Multiplies all weights of a Count-Min sketch of nonnegative weights by a fraction above 0 and at most 1.
    Decay {
        name: String,
        numerator: u64,
        denominator: u64,
    },
    /// Saves an image of a sketch under the name `image`.
    Save {
        name: String,
        image: String,
    },
    /// Creates a sketch from a saved image.
    Restore {
        image: String,
        name: String,
    },
    /// Creates a sketch from the bytes of an untrusted image, if it takes at most `max_bytes`.
    Load {
        name: String,
        kind: ImageKind,
        image: Vec<u8>,
        max_bytes: usize,
    },
    /// Returns the bytes of a saved image.
    ShowImage {
        image: String,
    },
    /// Returns an item's estimate and bounds, or whether a filter contains it.
    Ask {
        name: String,
        item: T,
    },
    /// Returns a sketch's numbers.
    GetStatus {
        name: String,
    },
    /// Returns the frequent items above a threshold.
    ListRows {
        name: String,
        error_type: ErrorType,
        threshold: u64,
    },
}
