//! The errors of a run.
use sketch_base::{Error, Fault};
use std::alloc::{AllocError, AllocFailed};
use std::io;

/// The error that ends a run.
#[derive(Debug, Drop)]
pub enum Failure {
    /// An allocation failed.
    Memory,
    /// A line is longer than the limit.
    LineTooLong,
    /// The number of items exceeds `u64::MAX`.
    TooManyItems,
    /// The size is not allowed.
    BadSize,
    /// A line has no weight.
    BadWeight(BadWeight),
    /// The output could not be written.
    Write(io::Error),
}

/// A line that has no weight.
#[derive(Debug, Drop)]
pub struct BadWeight {
    /// The number of the line in its input, counted from 1, or of the first line of a record. The lines of a header are not counted.
    pub line: u64,
    /// What stands in place of the weight, cut and without control characters.
    pub text: String,
}

impl From<Error> for Failure {
    ghost use Rattle.std.specs.Prelude.{◌≡◌};
    ghost use Rattle.sketches.specs.Faults.{failure_of};

    ghost from_gives = { λ error failure. failure ≡ failure_of error.fault };

    fn from(error: Error) -> Self {
        match error.fault() {
            Fault::NoMemory => Failure::Memory,
            Fault::WeightOverflow => Failure::TooManyItems,
            _ => Failure::BadSize,
        }
    }
}

impl<T: Drop> From<AllocFailed<T>> for Failure {
    ghost use Rattle.std.specs.Prelude.{◌≡◌};
    ghost use Rattle.sketches.specs.declared.failure.Failure.TheVariants.{Memory};

    ghost from_gives = { λ _ failure. failure ≡ Memory };

    fn from(_error: AllocFailed<T>) -> Self {
        Failure::Memory
    }
}

impl From<AllocError> for Failure {
    ghost use Rattle.std.specs.Prelude.{◌≡◌};
    ghost use Rattle.sketches.specs.declared.failure.Failure.TheVariants.{Memory};

    ghost from_gives = { λ _ failure. failure ≡ Memory };

    fn from(_error: AllocError) -> Self {
        Failure::Memory
    }
}
