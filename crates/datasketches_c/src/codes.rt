//! The numbers of what calls of the library return.
ghost use Rattle.std.specs.Prelude.{◌≡◌};
ghost use Rattle.datasketches_c.specs.Calls.{IsWritten, code_of, yes_or_no};
ghost use Rattle.datasketches_c.specs.Numbers.{ok, refusal_number};
ghost use Rattle.any_sketch.specs.declared.any_error.AnyError.TheVariants.{Sketch};
ghost use Rattle.std.specs.Prelude.{Err};

use crate::status_code::{NO, OK, WRONG_KIND, YES, refusal_number};
use any_sketch::AnyError;

/// Returns the number of an error.
#[cold]
pub(crate) fn code_of_error(error: AnyError) -> i32
    ensures { result ≡ code_of {A = Unit {0}} (λ _. ok) (Err error) }
{
    match error {
        AnyError::WrongKind => WRONG_KIND,
        AnyError::Sketch(error) => refusal_number(error.fault()),
    }
}

/// Returns `OK`, or the number of the error.
#[inline(always)]
pub(crate) fn code_of(done: Result<(), AnyError>) -> i32
    ensures { result ≡ code_of (λ _. ok) done }
{
    match done {
        Ok(()) => OK,
        Err(error) => code_of_error(error),
    }
}

/// Returns `YES`, `NO` or the number of the error.
#[inline(always)]
pub(crate) fn code_of_answer(answer: Result<bool, AnyError>) -> i32
    ensures { result ≡ code_of yes_or_no answer }
{
    match answer {
        Ok(true) => YES,
        Ok(false) => NO,
        Err(error) => code_of_error(error),
    }
}

/// Writes the value and returns `OK`. If it is an error, returns its number and writes nothing.
#[inline(always)]
pub(crate) fn write<A: Copy>(value: Result<A, AnyError>, place: &mut A) -> i32
    ensures { IsWritten place.old place.new result (λ answer. answer ≡ value) }
{
    match value {
        Ok(value) => {
            *place = value;
            OK
        }
        Err(error) => code_of_error(error),
    }
}
