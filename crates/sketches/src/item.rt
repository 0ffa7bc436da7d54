//! The items of records and their weights.

pub mod line_items;
pub mod raw_item;
pub mod selection;
pub mod utf8_lines;
pub mod weighing;
pub mod weights;
