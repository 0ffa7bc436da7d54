//! Reads records of files.

pub mod batch_sink;
pub mod batches;
pub mod csv_header;
pub mod file_sizes;
pub mod files;
pub mod inputs;
pub mod line_sink;
pub mod line_source;
pub mod progress;
pub mod raw_lines;
pub mod reading;
pub mod records;
