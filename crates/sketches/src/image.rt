//! Images of sketches and filters, in files, and the commands over them.

pub mod filter_image;
pub mod image_commands;
pub mod image_file;
pub mod image_files;
pub mod image_input;
pub mod image_place;
pub mod images;
pub mod merge;
pub mod save;
pub mod show;
pub mod stale_images;
pub mod state_file;
