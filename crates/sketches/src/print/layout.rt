//! How a report is written.

/// How a report is written.
#[derive(Clone, Copy)]
pub struct Layout {
    /// Whether the first line shows the error and the weight of all items.
    pub header: bool,
    /// Whether a row has the weight of its item in place of two bounds, so that the error must be 0.
    pub exact: bool,
    /// How each line is written.
    pub style: Style,
}

/// How a line of a report is written.
#[derive(Clone, Copy)]
pub enum Style {
    /// Numbers and an item, separated by tabs.
    Plain,
    /// The same, with `\t`, `\n`, `\r` and `\\` for a tab, the bytes of line ends and a backslash of an item.
    Escaped,
    /// A JSON object.
    Json,
}
