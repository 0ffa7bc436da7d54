//! Bloom filters (Bloom 1970) with exact set algebra.
//!
//! A filter is a set of positions. Inserting an item adds the positions that its hashes give. An item is contained if
//! all its positions are in the set. Filters with one shape and one seed can be united, intersected and subtracted. A
//! filter is written as an image, a list of bytes, and read from one.
//!
//! A filter needs its sizes and an allocator, so it implements neither `Default` nor `FromIterator`.
#![tactic(auto)]

mod bit_set;
mod bits;
mod bloom_filter;
mod bloom_filter_builder;
mod bloom_filter_view;
mod hashes;
mod image;
pub mod laws;
mod limits;
mod set_operation;
mod sizes;
mod words;

pub use bloom_filter::BloomFilter;
pub use bloom_filter_builder::BloomFilterBuilder;
pub use bloom_filter_view::BloomFilterView;
pub use sizes::{suggest_num_bits, suggest_num_hashes};
pub use sketch_base::{Error, ErrorKind, Fault};
