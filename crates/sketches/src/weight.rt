//! `sketches weigh`: the weights of keys.

pub mod exact_weights;
pub mod file_keys;
pub mod item_weigher;
pub mod key_sums;
pub mod key_weights;
pub mod sum_rows;
pub mod weigh;
pub mod weigh_commands;
