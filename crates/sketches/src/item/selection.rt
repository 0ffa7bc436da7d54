//! The items of a line.
use sketch_text::records::Part;

/// The items of a line.
#[derive(Clone, Copy)]
pub enum Selection {
    /// Each word between ASCII white space.
    Words,
    /// One part of the line, if it has it.
    Part(Part),
}
