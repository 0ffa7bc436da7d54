//! Options of the commands that read a file of keys.
use crate::arguments::csv_options::{csv_options, line_part};
use crate::arguments::shared_options::max_line_of;
use crate::print::endings::{ERROR, fail};
use crate::read::files::{Files, Opened};
use crate::read::inputs::Inputs;
use clap::{Arg, ArgMatches, Command};
use sketch_text::records::RecordPart;
use std::alloc::{AllocError, Global};
use std::io::{ErrorKind, Read};

/// Adds the file of keys, and the option that chooses the part of a record of keys.
pub fn with_keys<'a>(alloc: Global, command: Command<'a>) -> Result<Command<'a>, AllocError> {
    Ok(
        command
            .arg(
                Arg::new(alloc, "keys")
                    .long("keys")
                    .value_name("FILE")
                    .required(true)
                    .help("Reads a key of each line or record of this file; - is standard input"),
            )?
            .arg(
                Arg::new(alloc, "keys-field")
                    .long("keys-field")
                    .value_name("N")
                    .allow_hyphen_values(true)
                    .help(
                        "Takes field N of each line of keys, as -f does; with --csv N may be a name in their header",
                    ),
            )?,
    )
}

/// Opens the file of keys, after its header if there is one. Returns it and the part of its records that is a key. Returns the status
/// after a message if the options are wrong or the file cannot be read.
pub fn open_keys<'r, 'n>(
    rt: &'r HostRuntime,
    matches: &ArgMatches<'n>,
    name: &'n str,
) -> Result<(RecordPart, Opened<'r>), u8> {
    let names = [name];
    let mut files = Files::new(rt, names.as_slice());
    let part = match csv_options(matches, "keys-field", None) {
        Ok(Some(csv)) => match files.columns(csv, max_line_of(matches) as usize) {
            Some(chosen) => chosen.item,
            None => return Err(ERROR),
        },
        Ok(None) => match line_part(matches, "keys-field") {
            Ok(part) => part,
            Err(message) => return Err(fail(rt, message)),
        },
        Err(message) => return Err(fail(rt, message)),
    };
    match files.next() {
        Some(keys) => match readable(&mut files, keys) {
            Ok(keys) => Ok((part, keys)),
            Err(status) => Err(status),
        },
        None => Err(ERROR),
    }
}

/// Returns the file of keys if it can be read: a folder can be opened, too. Returns the status after a message if not.
fn readable<'r>(files: &mut Files<'r, '_, '_>, mut keys: Opened<'r>) -> Result<Opened<'r>, u8> {
    match keys.read(&mut []) {
        Ok(_) => Ok(keys),
        Err(error) if error.kind() == ErrorKind::Interrupted => Ok(keys),
        Err(error) => {
            files.report(error);
            Err(ERROR)
        }
    }
}

/// Returns whether standard input is both the file of keys and one of the files.
pub fn reads_input_twice(keys: &str, names: &[&str]) -> bool {
    if keys != "-" {
        return false;
    }
    for name in names {
        if *name == "-" {
            return true;
        }
    }
    false
}
