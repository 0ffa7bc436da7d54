//! The output: a line for each result.
use std::alloc::Global;
use std::fmt::Debug;

/// Lines that were written, and whether one was lost, since memory ended.
#[derive(Drop)]
pub struct ResultLines {
    pub alloc: Global,
    text: String,
    failed: bool,
}

impl ResultLines {
    pub fn new(alloc: Global) -> Self {
        ResultLines {
            alloc,
            text: String::new(alloc),
            failed: false,
        }
    }

    /// Writes a line of the name of an example and what it returned.
    pub fn show<V: Debug>(&mut self, name: &str, value: &V) {
        if writeln!(self.text, "{name} {value:?}").is_err() {
            self.failed = true;
        }
    }

    /// Returns the lines, or `None` if one was lost.
    pub fn text(&self) -> Option<&str> {
        if self.failed {
            None
        } else {
            Some(self.text.as_str())
        }
    }
}
