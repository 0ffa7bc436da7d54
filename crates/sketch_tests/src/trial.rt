//! The output of a trial, and the marks around the allocations that are counted.
use std::alloc::Global;
use std::fmt::Display;

/// An allocation of this number of bytes marks that the following allocations are counted, and may fail.
const BEGIN: usize = 7919;

/// An allocation of this number of bytes marks that the following allocations are not counted.
const END: usize = 7927;

/// A trial that runs.
///
/// Its writes, its steps and the marks of its calls return no errors. The trial notes instead that something failed that
/// no trial tests.
#[derive(Drop)]
pub struct Trial {
    pub alloc: Global,
    text: String,
    // They are kept, so that no compiler removes an allocation that is freed at once.
    marks: Vec<Vec<u8>>,
    failed: bool,
}

impl Trial {
    pub fn new(alloc: Global) -> Self {
        Trial {
            alloc,
            text: String::new(alloc),
            marks: Vec::new(alloc),
            failed: false,
        }
    }

    /// Writes a string.
    pub fn write(&mut self, text: &str) {
        let written = self.text.push_str(text);
        self.check(written);
    }

    /// Writes a string and a value after it.
    pub fn write_value<V: Display>(&mut self, before: &str, value: &V) {
        let written = write!(self.text, "{before}{value}");
        self.check(written);
    }

    /// Notes that something failed that no trial tests.
    pub fn fail(&mut self) {
        self.failed = true;
    }

    /// Notes a failure if a step failed that has to succeed.
    pub fn check<E: Drop>(&mut self, step: Result<(), E>) {
        if step.is_err() {
            self.failed = true;
        }
    }

    /// Returns a string on the heap. If an allocation fails, notes a failure and returns an empty string.
    pub fn string(&mut self, text: &str) -> String {
        match String::from_str(self.alloc, text) {
            Ok(string) => string,
            Err(_) => {
                self.failed = true;
                String::new(self.alloc)
            }
        }
    }

    /// Marks that allocations are counted from here on.
    pub fn begin(&mut self) {
        let reserved = self.marks.reserve(1);
        self.check(reserved);
        self.mark(BEGIN);
    }

    /// Marks that allocations are no longer counted.
    pub fn end(&mut self) {
        self.mark(END);
    }

    fn mark(&mut self, size: usize) {
        match Vec::with_capacity(self.alloc, size) {
            Ok(mark) => {
                let kept = self.marks.push(mark);
                self.check(kept);
            }
            Err(_) => self.failed = true,
        }
    }

    /// Returns what was written, or `None` if something failed that no trial tests.
    pub fn text(&self) -> Option<&str> {
        if self.failed {
            None
        } else {
            Some(self.text.as_str())
        }
    }
}

/// Gives the result of a call, and marks its allocations to be counted.
macro_rules! counted {
    ($trial:expr, $call:expr) => {{
        $trial.begin();
        let answer = $call;
        $trial.end();
        answer
    }};
}

pub(crate) use counted;
