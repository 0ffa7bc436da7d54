//! Named sketches, their saved images, and windows of tenants, driven by lines.
//!
//! The program reads lines from standard input and writes a reply line for each to standard output. `docs/FORMATS.md`
//! lists all lines and their replies. `--help` prints the usage and `--version` the version, with status 0. After any other
//! argument it prints the usage on standard error and exits with status 2. It reads no input then.
//!
//! If a line is not UTF-8 or not a command, the program prints `bad line` and its number, and exits with status 1.
//! Numbers count all lines from 1. After a failed read or write it prints `input or output failed` on standard error
//! and exits with status 2. If memory runs out outside a command, it prints `no memory` on standard error and exits
//! with status 2. Otherwise the status is 0.
//!
//! Tables of frequent items and maps of names and tenants hash under random keys. The environment variable
//! `DATASKETCHES_TABLE_KEY` fixes the keys: it is `plain`, or a key as 32 hexadecimal digits. For another value, or if
//! the variable is not set and the system has no random bytes, the program prints this on standard error and exits with
//! status 2. It reads no input then.
#![tactic(auto)]

mod arguments;
mod counted;
mod keys;
mod laws;
mod line_reader;
mod number;
mod reply;
mod responder;
mod serve;
mod state;
mod stopped;
mod verbs;

use arguments::{Request, USAGE, VERSION, request_of};
use counted::Counted;
use keys::KeyFault;
use serve::{CliFault, Ended};
use std::process::ExitCode;

fn main(rt: HostRuntime) -> ExitCode {
    match request_of(&rt) {
        Request::Serve => serve_input(rt),
        Request::Help => print_text(rt, USAGE),
        Request::Version => print_text(rt, VERSION),
        Request::Unknown => {
            let _ = eprintln!(rt; "{USAGE}");
            ExitCode::from(2)
        }
    }
}

/// Prints a text. The status is 2 if that fails.
fn print_text(rt: HostRuntime, text: &str) -> ExitCode {
    match println!(rt; "{text}") {
        Ok(()) => ExitCode::SUCCESS,
        Err(_) => {
            let _ = eprintln!(rt; "input or output failed");
            ExitCode::from(2)
        }
    }
}

/// Serves the commands of standard input.
fn serve_input(rt: HostRuntime) -> ExitCode {
    let keys = match keys::keys_of(&rt) {
        Ok(keys) => keys,
        Err(KeyFault::BadValue) => {
            let _ = eprintln!(rt; "DATASKETCHES_TABLE_KEY must be plain or 32 hexadecimal digits");
            return ExitCode::from(2);
        }
        Err(KeyFault::NoRandomBytes) => {
            let _ = eprintln!(rt; "no random bytes");
            return ExitCode::from(2);
        }
    };
    let mut reader = Counted::new(rt.stdin());
    let mut writer = Counted::new(rt.stdout());
    match serve::serve(rt.alloc(), keys, &mut reader, &mut writer) {
        Ok(Ended::All) => ExitCode::SUCCESS,
        Ok(Ended::BadLine(_)) => ExitCode::from(1),
        Err(CliFault::Io) => {
            let _ = eprintln!(rt; "input or output failed");
            ExitCode::from(2)
        }
        Err(CliFault::Memory) => {
            let _ = eprintln!(rt; "no memory");
            ExitCode::from(2)
        }
    }
}
