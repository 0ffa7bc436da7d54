//! Count-Min sketches (Cormode & Muthukrishnan 2005): the weights of items in a table with a row for each hash.
//!
//! An item has one cell in each row. An update adds its weight to these cells, and their minimum is the estimate. If no
//! weight is negative, an estimate is never below the true weight. A sketch is written as an image, a list of bytes,
//! and read from one.
//!
//! [`update`](CountMinSketch::update) takes any item that can be hashed. [`update_item`](CountMinSketch::update_item)
//! takes a [`RowItem`], which is `&I` or `&str`, and hashes a string in less time.
//! [`update_all`](CountMinSketch::update_all) takes a [`CountMinItems`]: a slice, or the words or lines of a string, or
//! other sequences of `sketch_base`. [`extend`](CountMinSketch::extend) takes any iterator of items.
//!
//! A sketch implements `Clone`, `Debug`, `PartialEq` and `Eq`. It implements neither `Default`, `Extend` nor
//! `FromIterator`: a new sketch needs sizes and an allocator, and an update can fail with an error that these traits
//! cannot return. So `extend` is a method of its own.
#![tactic(auto)]

mod cell_list;
mod cells;
mod count_min_bounds;
mod count_min_image_options;
mod count_min_items;
mod count_min_sizes;
mod count_min_sketch;
mod count_min_value;
mod count_min_view;
mod fraction;
mod grid;
mod image;
pub mod laws;
mod limits;
mod margin;
mod number_types;
mod row_cells;
mod row_item;
mod rows;
mod sizes;
mod unsigned_count_min_value;

pub use count_min_bounds::CountMinBounds;
pub use count_min_image_options::CountMinImageOptions;
pub use count_min_items::CountMinItems;
pub use count_min_sizes::CountMinSizes;
pub use count_min_sketch::CountMinSketch;
pub use count_min_value::CountMinValue;
pub use count_min_view::CountMinView;
pub use row_item::RowItem;
pub use sizes::{suggest_num_buckets, suggest_num_hashes};
pub use sketch_base::{Error, ErrorKind, Fault};
pub use unsigned_count_min_value::UnsignedCountMinValue;
