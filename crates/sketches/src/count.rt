//! `sketches top`: the most frequent items.

pub mod counting;
pub mod record_items;
pub mod table_size;
pub mod top;
pub mod top_command;
pub mod weighed_lines;
