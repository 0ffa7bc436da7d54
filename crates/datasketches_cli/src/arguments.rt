//! The arguments of a run.
ghost use Rattle.std.specs.Prelude.{◌≡◌};
ghost use Rattle.datasketches_cli.specs.Arguments.{request_named};

use std::env::{Env, FillError};

/// The usage, on standard output for `--help` and on standard error after wrong arguments.
pub const USAGE: &str = "usage: datasketches_cli < COMMANDS
       datasketches_cli --help | --version

Reads commands from standard input, a line each, and writes a reply to each. For example:

  frequent s 64   creates a sketch of frequent items of maximum size 64, under the name s
  add s 5 apple   adds the weight 5 to the item apple
  rows s fp 0     lists the items: estimate, lower and upper bound of each

The manual page and docs/lines.txt have all commands. The environment variable
DATASKETCHES_TABLE_KEY fixes the key of the run: plain, or 32 hexadecimal digits.";

/// The version, that of all parts of the library.
pub const VERSION: &str = "datasketches_cli 0.3.0";

/// What the arguments ask for.
#[derive(Clone, Copy)]
pub enum Request {
    /// To serve the commands of standard input.
    Serve,
    /// To print the usage.
    Help,
    /// To print the version.
    Version,
    /// Something that the program does not do.
    Unknown,
}

/// Returns what the arguments ask for. Does not allocate. No clause sees the arguments.
pub fn request_of(rt: &impl Env) -> Request {
    let mut word = [0; 9];
    let request = match rt.arg(1, &mut word) {
        Ok(len) => request_named(&word[..len]),
        Err(FillError::TooLong) => Request::Unknown,
        Err(FillError::NotPresent) => Request::Serve,
    };
    match rt.arg(2, &mut word) {
        Err(FillError::NotPresent) => request,
        _ => Request::Unknown,
    }
}

/// Returns what a single argument asks for.
fn request_named(word: &[u8]) -> Request
    ensures { result ≡ request_named word.now }
{
    if word == b"--help".as_slice() || word == b"-h".as_slice() {
        return Request::Help;
    }
    if word == b"--version".as_slice() || word == b"-V".as_slice() {
        return Request::Version;
    }
    Request::Unknown
}
