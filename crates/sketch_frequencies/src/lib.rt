//! A sketch of the most frequent items (heavy hitters) of a weighted stream.
//!
//! [`FrequentItemsSketch`] adds up the weights of a stream's items in bounded memory. It is a summary of Misra & Gries 1982
//! with the sampled purges of DataSketches' frequent items (Anderson et al. 2017). It holds at most three quarters of its
//! maximum table size in counters. To stay below that, it drops light items: a purge subtracts the same count from every
//! counter, and adds it to the error. So each item's true weight lies between `lower_bound` and `upper_bound`, which differ by
//! the error.
//!
//! The tail of the stream bounds the error (Berinde, Indyk, Cormode & Strauss 2009). Let h be half the sample size, and S any
//! set of at most h items. The kept counts outside S plus (h - |S|) * error are at most the weight outside S. Merges keep
//! these bounds, with the smallest sample size of all sketches that took part since the last reset (Agarwal et al. 2012).
//!
//! A sketch of items that are [`FrequentItemValue`] is written as an image of bytes, and read from one. Items are strings,
//! 64-bit numbers, or of a user's own type. [`laws`] has the laws of images.
//!
//! [`ReversePurgeItemHashMap`], from the crate `counter_table`, is the table of counters. For items or images from callers who
//! are not trusted, give a sketch a secret [`TableKey`]. It says what they must not see.
//!
//! A sketch has no `Default` and no `FromIterator`, since it needs its size and an allocator. It has no `Extend`, since an
//! update can fail with an error that this trait cannot return: [`extend`](FrequentItemsSketch::extend) is a method of its own. It
//! has no `==`: of two sketches of one stream, each can keep other counters.
#![tactic(auto)]

mod error_type;
mod frequent_item_value;
mod frequent_items_image_options;
mod frequent_items_sizes;
mod frequent_items_sketch;
mod image;
mod item_bounds;
pub mod laws;
mod row;
mod sizes;

pub use counter_table::{
    EqualClone, HashKey, ItemKey, Keys, OwnedKey, ReversePurgeItemHashMap, ReversePurgeItemIter,
    TableKey,
};
pub use error_type::ErrorType;
pub use frequent_item_value::FrequentItemValue;
pub use frequent_items_image_options::FrequentItemsImageOptions;
pub use frequent_items_sizes::FrequentItemsSizes;
pub use frequent_items_sketch::FrequentItemsSketch;
pub use image::{EMPTY_FLAG_MASK, PREAMBLE_LONGS_EMPTY, PREAMBLE_LONGS_NONEMPTY};
pub use item_bounds::ItemBounds;
pub use row::Row;
pub use sizes::{check_map_size, suggest_max_map_size};
pub use sketch_base::image::SERIAL_VERSION;
pub use sketch_base::{Error, ErrorKind, Fault, SketchBytes, SketchSlice};
