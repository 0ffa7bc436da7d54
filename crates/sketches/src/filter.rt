//! `sketches uniq` and `sketches join`: records by their items.

pub mod filter_commands;
pub mod filter_size;
pub mod join;
pub mod joined;
pub mod key_lines;
pub mod line_count;
pub mod uniq;
pub mod unseen;
