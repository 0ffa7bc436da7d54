//! The error of the loop.
use std::alloc::AllocError;
use std::io;

/// A failed read, write or allocation. The streams' counts of failures distinguish them.
#[derive(Drop)]
pub struct Stopped;

impl From<io::Error> for Stopped {
    fn from(_e: io::Error) -> Self {
        Stopped
    }
}

impl From<AllocError> for Stopped {
    fn from(_e: AllocError) -> Self {
        Stopped
    }
}
