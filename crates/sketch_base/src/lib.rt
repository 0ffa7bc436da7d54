//! The layer below the sketches: hash functions, items, byte cursors, fields of images, families, errors, remainders, words
//! and lines.
//!
//! - [`XxHash64`] and [`MurmurHash3X64128`] hash bytes that arrive in pieces. Contracts see each result as the hash of
//!   the whole list of bytes.
//! - [`xxh64_of`], [`murmur3_of`] and [`murmur3_of_u64`] hash a whole item or number. [`xxh64_of_str`] and
//!   [`murmur3_of_str`] hash a string without a buffer.
//! - [`keyed_hash`] hashes bytes under a secret [`HashKey`], for items that others choose. [`keyed_hash_of`] and
//!   [`keyed_hash_of_str`] hash a whole item and a string, [`keyed_hashes_of`] two items. [`MapState`] hashes the keys of a map.
//! - [`RehashableItem`] hashes one item under several seeds. It feeds an item of few bytes once, and keeps them as
//!   [`ShortBytes`]. [`RehashableStr`] and [`RehashableBytes`] do so for a string and for bytes. All three are [`Rehashable`].
//! - [`from_utf8`] returns the string of bytes, fast for short ones.
//! - An [`Item`] is what a sketch takes: `&T` for each `T` that can be hashed, `&str`, or [`FedBytes`]. [`Items`] are many in order:
//!   slices, and [`Strings`], which are [`Words`] and [`Lines`] of a string, [`Strs`], [`OffsetStrings`] of one buffer, and
//!   [`ByteStrings`], and [`FedItems`]. [`ValidItems`] are those of a sequence that are set in a bitmap. [`Rows`] are
//!   sequences with a known number of rows.
//! - [`compute_seed_hash`] hashes a seed, and [`check_seed_hash`] compares two such hashes.
//! - [`SketchSlice`] reads numbers from bytes, and [`SketchBytes`] writes them. Contracts see the bytes that are
//!   unread, and those that are written.
//! - [`image`] reads the fields of images at fixed offsets, and has the checks that all images share.
//! - [`Family`] names a kind of sketch in an image. An [`Error`] has a kind and a [`Fault`], its cause.
//! - [`laws`] states the values of the constants and the bytes of items.
//! - [`copy_short`] copies few bytes without a function call.
//! - [`Divisor`] computes remainders by a precomputed number without a division.
//! - [`first_words`] splits a string into an array, and [`nth_word`] returns one of its words. [`nth_word_of_bytes`] and
//!   [`next_word_of_bytes`] return words of bytes that need not be UTF-8. [`finished_words`] and [`finished_lines`] return where a
//!   chunk of a stream can be split.
//! - [`first_member`] searches bytes for the first one of a [`ByteSet`], as [`OneByte`] or a [`Separator`].
#![tactic(auto)]

mod byte_set;
mod byte_strings;
mod byte_words;
mod divisor;
mod error;
mod family;
mod fault;
mod fed_items;
pub mod image;
mod item_hash;
mod items;
pub mod laws;
mod lines;
mod machine_words;
mod map_state;
mod murmurhash;
mod offset_strings;
mod rehashable_bytes;
mod rehashable_item;
mod rehashable_str;
mod rows;
mod seed_hash;
mod separator;
mod short_bytes;
mod short_copy;
mod sip_hash;
mod sip_hash_of_two;
mod sip_hasher;
mod sketch_bytes;
mod sketch_slice;
mod split;
mod str_hash;
mod strings;
mod utf8;
mod validity;
mod words;
mod xxhash;

pub use byte_set::{ByteSet, OneByte, first_member};
pub use byte_strings::ByteStrings;
pub use byte_words::{next_word_of_bytes, nth_word_of_bytes};
pub use divisor::Divisor;
pub use error::{Error, ErrorKind};
pub use family::Family;
pub use fault::Fault;
pub use fed_items::{FedBytes, FedItems};
pub use item_hash::{keyed_hash_of, keyed_hashes_of, murmur3_of, murmur3_of_u64, xxh64_of};
pub use items::{Item, Items};
pub use lines::Lines;
pub use map_state::{MapHasher, MapState};
pub use murmurhash::{DEFAULT_UPDATE_SEED, MurmurHash3X64128};
pub use offset_strings::{OffsetStrings, Offsets, are_offsets};
pub use rehashable_bytes::RehashableBytes;
pub use rehashable_item::{Rehashable, RehashableItem};
pub use rehashable_str::RehashableStr;
pub use rows::Rows;
pub use seed_hash::{check_seed_hash, compute_seed_hash};
pub use separator::{Separator, first_separator};
pub use short_bytes::ShortBytes;
pub use short_copy::copy_short;
pub use sip_hash::{HashKey, keyed_hash};
pub use sketch_bytes::SketchBytes;
pub use sketch_slice::SketchSlice;
pub use split::{finished_lines, finished_words, first_words};
pub use str_hash::{keyed_hash_of_str, murmur3_of_str, xxh64_of_str};
pub use strings::{Strings, Strs};
pub use utf8::from_utf8;
pub use validity::{ValidItems, Validity};
pub use words::{Words, nth_word};
pub use xxhash::XxHash64;
