//! Examples of `sketch_bloom`. Written by `tests/docs/examples.py`.
pub mod bloom_filter;
pub mod bloom_filter_batches;
pub mod bloom_filter_builder;
pub mod bloom_filter_images;
pub mod bloom_filter_view;
pub mod readme;
pub mod sizes;
