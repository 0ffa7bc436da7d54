//! Small summaries of long streams that can be merged, saved and restored.
//!
//! - [`frequencies`] finds the most frequent items.
//! - [`countmin`] counts weights in a table of a fixed size.
//! - [`bloom`] tests whether an item was seen.
//! - [`Session`] keeps sketches of these kinds and their images under names. It also runs [`Command`]s on them.
//! - [`error`], [`codec`] and [`hash`] have what the sketches share: errors, cursors over bytes, and hash functions.
#![tactic(auto)]

mod command;
mod image;
mod image_kind;
mod joining;
pub mod laws;
mod name_map;
mod named_sketches;
mod new_sketch;
mod of_items;
mod reply;
mod session;
mod sketch;

pub use command::Command;
pub use image_kind::ImageKind;
pub use reply::{Bounds, Refusal, Reply, Status};
pub use session::Session;

/// Bloom filters with exact set algebra.
pub mod bloom {
    pub use sketch_bloom::{
        BloomFilter, BloomFilterBuilder, Error, ErrorKind, Fault, suggest_num_bits,
        suggest_num_hashes,
    };
}

/// Count-Min sketches.
pub mod countmin {
    pub use sketch_countmin::{
        CountMinImageOptions, CountMinItems, CountMinSizes, CountMinSketch, CountMinValue, Error,
        ErrorKind, Fault, RowItem, UnsignedCountMinValue, suggest_num_buckets, suggest_num_hashes,
    };
}

/// Sketches of the most frequent items.
pub mod frequencies {
    pub use sketch_base::{SketchBytes, SketchSlice};
    pub use sketch_frequencies::{
        EMPTY_FLAG_MASK, EqualClone, Error, ErrorKind, ErrorType, Fault, FrequentItemValue,
        FrequentItemsImageOptions, FrequentItemsSizes, FrequentItemsSketch, HashKey, ItemBounds,
        ItemKey, Keys, OwnedKey, PREAMBLE_LONGS_EMPTY, PREAMBLE_LONGS_NONEMPTY,
        ReversePurgeItemHashMap, ReversePurgeItemIter, Row, SERIAL_VERSION, TableKey,
        suggest_max_map_size,
    };
}

/// Items and strings, one by one and in sequences.
pub mod items {
    pub use sketch_base::{
        ByteStrings, Item, Items, Lines, OffsetStrings, Offsets, Separator, Strings, Strs, Words,
    };
}

/// Errors.
pub mod error {
    pub use sketch_base::{Error, ErrorKind, Fault};
}

/// Cursors over bytes, and the families of images.
pub mod codec {
    pub use sketch_base::{SketchBytes, SketchSlice};

    /// The families of images.
    pub mod family {
        pub use sketch_base::Family;
    }
}

/// Hash functions.
pub mod hash {
    pub use sketch_base::{
        DEFAULT_UPDATE_SEED, HashKey, MurmurHash3X64128, XxHash64, check_seed_hash,
        compute_seed_hash, keyed_hash,
    };
}
