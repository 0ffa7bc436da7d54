//! How runs end: messages on standard error, and statuses.
use crate::arguments::keys::KeyFault;
use crate::arguments::words::shown;
use crate::failure::Failure;
use crate::read::files::Files;
use std::io;
use std::io::ErrorKind;

/// The status after an error.
pub const ERROR: u8 = 2;

/// Prints a message. Returns the status after an error.
pub fn fail(rt: &HostRuntime, message: &str) -> u8 {
    let _ = eprintln!(rt; "sketches: {message}");
    ERROR
}

/// Prints a message about a file. Returns the status after an error.
pub fn fail_at(rt: &HostRuntime, file: &str, message: &str) -> u8 {
    let _ = eprintln!(rt; "sketches: {}: {message}", shown(file));
    ERROR
}

/// Prints that the numbers are not exact. Returns the status.
pub fn fail_inexact(rt: &HostRuntime, error: u64) -> u8 {
    let _ = eprintln!(rt;
        "sketches: the numbers are not exact: the error is {error}; use a larger --size"
    );
    ERROR
}

/// Returns the message of a key that is missing.
pub fn message_of(fault: KeyFault) -> &'static str {
    match fault {
        KeyFault::BadOption => "--key must be plain or 32 hexadecimal digits",
        KeyFault::BadVariable => "DATASKETCHES_TABLE_KEY must be plain or 32 hexadecimal digits",
        KeyFault::NoRandomBytes => "no random bytes",
    }
}

/// Prints why a run ended; `bad_size` is the message of a size that is not allowed. Returns the status.
pub fn end(rt: &HostRuntime, failure: Failure, file: &str, bad_size: &str) -> u8 {
    match failure {
        Failure::Memory => fail(rt, "no memory"),
        Failure::TooManyItems => fail(rt, "the total weight exceeds 2^64 - 1"),
        Failure::BadSize => fail(rt, bad_size),
        Failure::BadWeight(found) => {
            let _ = eprintln!(rt;
                "sketches: {}: line {}: bad weight '{}'",
                shown(file),
                found.line,
                found.text
            );
            ERROR
        }
        Failure::LineTooLong => fail_at(rt, file, "a line is longer than --max-line"),
        Failure::Write(error) => end_of_output(rt, error),
    }
}

/// Prints why a run ended at the file that was opened last, whose lines are counted from its header on. Returns the status.
pub fn end_of_files(
    rt: &HostRuntime,
    mut failure: Failure,
    files: &Files<'_, '_, '_>,
    bad_size: &str,
) -> u8 {
    if let Failure::BadWeight(found) = &mut failure {
        found.line = found.line.saturating_add(files.header_lines());
    }
    end(rt, failure, files.current(), bad_size)
}

/// Prints why the output could not be written, unless its reader closed it. Returns the status.
pub fn end_of_output(rt: &HostRuntime, error: io::Error) -> u8 {
    if error.kind() == ErrorKind::BrokenPipe {
        return 0;
    }
    let _ = eprintln!(rt; "sketches: output: {error}");
    ERROR
}

/// Prints how many lines have an item and no weight, if any.
pub fn note_unweighed(rt: &HostRuntime, lines: u64) {
    let _ = match lines {
        0 => Ok(()),
        1 => eprintln!(rt; "sketches: 1 line has no whole number as its weight: it is left out"),
        _ => eprintln!(rt;
            "sketches: {lines} lines have no whole number as their weights: they are left out"
        ),
    };
}
