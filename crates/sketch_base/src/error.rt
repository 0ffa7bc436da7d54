//! Errors: a kind and a fault.
ghost use Rattle.std.specs.Prelude.{◌≡◌};
ghost use Rattle.sketch_base.specs.Errors.{refusal, invalid_argument, invalid_data};

use crate::fault::Fault;
use std::alloc::{AllocError, AllocFailed};
use std::fmt;
use std::marker::Model;

/// The kind of an [`Error`].
///
/// # Examples
///
/// ```
/// use sketch_base::{Error, ErrorKind, Fault};
///
/// fn is_cut_short(error: &Error) -> bool {
///     error.kind() == ErrorKind::InvalidData && error.fault() == Fault::InsufficientData
/// }
/// ```
#[derive(Clone, Copy, Debug, PartialEq, Eq)]
pub enum ErrorKind {
    /// A call rejected an argument.
    InvalidArgument,
    /// A call rejected bytes that it read.
    InvalidData,
    /// An allocation failed.
    OutOfMemory,
}

/// An error: its [`kind`](Self::kind) and its [`fault`](Self::fault). It prints its fault's message.
///
/// # Examples
///
/// ```
/// use sketch_base::{Error, ErrorKind, Fault};
///
/// fn is_cut_short(error: &Error) -> bool {
///     error.kind() == ErrorKind::InvalidData && error.fault() == Fault::InsufficientData
/// }
/// ```
#[derive(Clone, Copy, Debug, PartialEq, Eq)]
pub struct Error {
    kind: ErrorKind,
    fault: Fault,
}

impl Model for Error {
    ghost use Rattle.sketch_base.specs.Errors.{ErrorValue};

    ghost Value = { ErrorValue };

    ghost view = { λ e. record { kind = e.kind; fault = e.fault } };

    ghost inverse = { λ e. record { kind = e.kind; fault = e.fault } };
}

impl Error {
    /// Creates an error of a kind with a fault.
    pub fn new(kind: ErrorKind, fault: Fault) -> Self
        ensures { result ≡ refusal kind fault }
    {
        Error { kind, fault }
    }

    /// Creates an error of the kind [`InvalidArgument`](ErrorKind::InvalidArgument) with a fault.
    pub fn invalid_argument(fault: Fault) -> Self
        ensures { result ≡ invalid_argument fault }
    {
        Error::new(ErrorKind::InvalidArgument, fault)
    }

    /// Creates an error of the kind [`InvalidData`](ErrorKind::InvalidData) with a fault.
    pub fn invalid_data(fault: Fault) -> Self
        ensures { result ≡ invalid_data fault }
    {
        Error::new(ErrorKind::InvalidData, fault)
    }

    /// Returns the kind.
    pub fn kind(&self) -> ErrorKind
        ensures { result ≡ self.now.kind }
    {
        self.kind
    }

    /// Returns the fault, which names the cause.
    pub fn fault(&self) -> Fault
        ensures { result ≡ self.now.fault }
    {
        self.fault
    }
}

/// Writes the fault's message.
impl fmt::Display for Error {
    ghost use Rattle.std.specs.Prelude.{Some};
    ghost use Rattle.sketch_base.specs.Faults.{fault_text};

    ghost output = { λ e. Some (fault_text e.fault) };

    fn fmt<W: fmt::Write>(&self, f: &mut fmt::Formatter<W>) -> fmt::Result {
        f.write_str(self.fault.text())
    }
}

impl std::error::Error for Error {}

impl From<AllocError> for Error {
    ghost use Rattle.std.specs.Prelude.{◌≡◌};
    ghost use Rattle.sketch_base.specs.Errors.{no_memory};

    ghost from_gives = { λ _ e. e ≡ no_memory };

    fn from(_e: AllocError) -> Self {
        Error::new(ErrorKind::OutOfMemory, Fault::NoMemory)
    }
}

impl<T: Drop> From<AllocFailed<T>> for Error {
    ghost use Rattle.std.specs.Prelude.{◌≡◌};
    ghost use Rattle.sketch_base.specs.Errors.{no_memory};

    ghost from_gives = { λ _ e. e ≡ no_memory };

    fn from(_e: AllocFailed<T>) -> Self {
        Error::new(ErrorKind::OutOfMemory, Fault::NoMemory)
    }
}
