//! The command line of `sketches join`.
use crate::arguments::csv_options::with_fields;
use crate::arguments::filter_options::{no_note, with_size};
use crate::arguments::keyed_options::with_keys;
use crate::arguments::options::{with_files, with_max_line};
use crate::arguments::shared_options::{json, key};
use clap::{Arg, ArgAction, Command};
use std::alloc::{AllocError, Global};

/// Returns the description of `sketches join`.
pub fn join_command<'a>(alloc: Global) -> Result<Command<'a>, AllocError> {
    let command = Command::new(alloc, "join").about(
        "Prints the lines or records whose items may be in a file of keys, in the order of the input",
    );
    let command = with_fields(alloc, with_keys(alloc, command)?)?.arg(
        Arg::new(alloc, "invert-match")
            .short('v')
            .long("invert-match")
            .action(ArgAction::SetTrue)
            .help("Prints the others, whose items are certainly not keys"),
    )?;
    let command = with_size(
        alloc,
        command,
        "Makes the filter for N keys; by default the number of lines or records of a regular file of keys, else 10000000",
    )?;
    let command = with_max_line(alloc, command)?
        .arg(key(alloc))?
        .arg(json(alloc))?
        .arg(no_note(alloc))?;
    with_files(alloc, command)
}
