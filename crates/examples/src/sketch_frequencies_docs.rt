//! Examples of `sketch_frequencies`. Written by `tests/docs/examples.py`.
pub mod error_type;
pub mod frequent_item_value;
pub mod frequent_items_image_options;
pub mod frequent_items_sizes;
pub mod frequent_items_sketch;
pub mod frequent_items_sketch_batches;
pub mod frequent_items_sketch_images;
pub mod frequent_items_sketch_merging;
pub mod frequent_items_sketch_reports;
pub mod frequent_items_sketch_updates;
pub mod readme;
pub mod row;
pub mod sizes;
