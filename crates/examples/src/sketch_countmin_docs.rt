//! Examples of `sketch_countmin`. Written by `tests/docs/examples.py`.
pub mod count_min_image_options;
pub mod count_min_items;
pub mod count_min_sizes;
pub mod count_min_sketch;
pub mod count_min_sketch_aging;
pub mod count_min_sketch_batches;
pub mod count_min_sketch_images;
pub mod count_min_value;
pub mod count_min_view;
pub mod readme;
pub mod row_item;
pub mod sizes;
pub mod unsigned_count_min_value;
