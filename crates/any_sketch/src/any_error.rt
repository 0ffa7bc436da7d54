//! Errors of calls on sketches of any kind.
use sketch_base::Error;
use std::fmt;

/// Why a call on a sketch of any kind failed. It prints its message.
#[derive(Clone, Copy, Debug, PartialEq, Eq)]
pub enum AnyError {
    /// A sketch of this kind does not have the call, or does not take such items.
    WrongKind,
    /// The error of the sketch's own call.
    Sketch(Error),
}

impl From<Error> for AnyError {
    ghost use Rattle.std.specs.Prelude.{◌≡◌};
    ghost use Rattle.any_sketch.specs.declared.any_error.AnyError.TheVariants.{Sketch};

    ghost from_gives = { λ e any. any ≡ Sketch e };

    fn from(error: Error) -> Self {
        AnyError::Sketch(error)
    }
}

/// Writes the message.
impl fmt::Display for AnyError {
    ghost use Rattle.std.specs.Prelude.{Some};
    ghost use Rattle.any_sketch.specs.Errors.{error_text};

    ghost output = { λ e. Some (error_text e) };

    fn fmt<W: fmt::Write>(&self, f: &mut fmt::Formatter<W>) -> fmt::Result {
        match self {
            AnyError::WrongKind => f.write_str("wrong kind of sketch or item"),
            AnyError::Sketch(error) => f.write_str(error.fault().text()),
        }
    }
}

impl std::error::Error for AnyError {}
