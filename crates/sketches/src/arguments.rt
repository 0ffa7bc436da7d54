//! The command line.

pub mod columns_option;
pub mod csv_options;
pub mod filter_options;
pub mod image_options;
pub mod join_options;
pub mod keyed_options;
pub mod keys;
pub mod options;
pub mod record_options;
pub mod shared_options;
pub mod shown;
pub mod weigh_options;
pub mod words;
