//! What is printed, and where.

pub mod ended_text;
pub mod endings;
pub mod header;
pub mod json;
pub mod layout;
pub mod output;
pub mod percent;
pub mod report;
pub mod terminal;
pub mod text_escapes;
pub mod threshold;
pub mod weight_lines;
