//! Sketches of any kind: one list of the kinds, of the types of items, and of the calls that each kind has.
#![tactic(auto)]

mod any_error;
mod any_sketch;
mod batches;
mod changes;
mod copies;
mod count_batches;
mod filter_batches;
mod filters;
mod frequent_batches;
mod image_options;
mod images;
mod item;
mod joins;
mod kind;
pub mod laws;
mod lookups;
mod making;
mod many_items;
mod number;
mod reading;
mod rows_with_bits;
mod sketch_sizes;
mod updates;
mod valid_rows;
mod views;

pub use any_error::AnyError;
pub use any_sketch::AnySketch;
pub use filter_batches::image_contains_all;
pub use image_options::ImageOptions;
pub use item::Item;
pub use kind::Kind;
pub use many_items::{AnyItems, AnyRows};
pub use number::Number;
pub use sketch_base::{Error, ErrorKind, Fault};
pub use sketch_sizes::SketchSizes;
pub use views::{image_contains, image_estimate, image_estimate_signed};
