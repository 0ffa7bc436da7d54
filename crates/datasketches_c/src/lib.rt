//! Sketches for C. Each is held by one pointer, and the contracts of its calls are those of the libraries.
#![tactic(auto)]

mod any_images;
mod any_joins;
mod batch_lookups;
mod batch_updates;
pub mod chunks;
mod codes;
mod field_updates;
pub mod fields_argument;
mod frequent_items;
mod frequent_rows;
mod frequent_string;
mod handle;
pub mod held_sketch;
mod image_lookups;
pub mod item_argument;
mod item_lookups;
mod item_updates;
pub mod items_argument;
pub mod joins;
mod keyed_hash;
mod kind;
pub mod laws;
pub mod making;
mod many_handles;
mod many_joins;
mod raw_box;
mod sharing;
pub mod sizes;
mod sketch_calls;
pub mod status_code;
