//! The command line.
ghost use Rattle.std.specs.Prelude.{◌<◌, IfSome};

use crate::arguments::csv_options::{with_bad_weight, with_fields, with_weight};
use crate::arguments::filter_options::{no_note, with_size, with_state};
use crate::arguments::image_options::{merge_command, show_command};
use crate::arguments::join_options::join_command;
use crate::arguments::shared_options::{above, escape, exact, json, key, no_header, rows, save};
use crate::arguments::weigh_options::weigh_command;
use crate::count::table_size::size_for;
use crate::print::percent::percent_of;
use clap::{Arg, ArgAction, ArgMatches, Command, value_parser};
use std::alloc::{AllocError, Global};

/// The message of an error that is not allowed.
pub const BAD_ERROR: &str =
    "--error must be a percentage from 0.195313% to 100% with at most 6 decimals";

/// Returns the description of the command line.
pub fn command<'a>(alloc: Global) -> Result<Command<'a>, AllocError> {
    Ok(
        Command::new(alloc, "sketches")
            .version("0.3.0")
            .about("Summaries of the lines of files, in bounded memory")
            .subcommand_required(true)
            .arg_required_else_help(true)
            .subcommand(top_command(alloc)?.args_override_self(true))?
            .subcommand(uniq_command(alloc)?.args_override_self(true))?
            .subcommand(join_command(alloc)?.args_override_self(true))?
            .subcommand(weigh_command(alloc)?.args_override_self(true))?
            .subcommand(merge_command(alloc)?.args_override_self(true))?
            .subcommand(show_command(alloc)?.args_override_self(true))?,
    )
}

/// Returns the description of `sketches top`.
fn top_command<'a>(alloc: Global) -> Result<Command<'a>, AllocError> {
    let command = Command::new(alloc, "top")
        .about("Prints the most frequent lines, fields or words, with bounds of their numbers")
        .arg(rows(alloc))?
        .arg(above(alloc))?;
    let command = with_weight(alloc, with_fields(alloc, command)?)?
        .arg(
            Arg::new(alloc, "words")
                .long("words")
                .action(ArgAction::SetTrue)
                .conflicts_with("field")?
                .conflicts_with("weight")?
                .conflicts_with("csv")?
                .help("Takes each word of each line"),
        )?
        .arg(
            Arg::new(alloc, "size")
                .long("size")
                .value_name("M")
                .value_parser(value_parser!(u32))
                .default_value("4096")
                .help("Uses at most M slots: a power of two from 8 to 2^30"),
        )?
        .arg(
            Arg::new(alloc, "error")
                .long("error")
                .value_name("P")
                .conflicts_with("size")?
                .help("Chooses the slots for an error of at most P, as 0.5%, of the total"),
        )?;
    let command = with_bad_weight(alloc, with_max_line(alloc, command)?)?
        .arg(save(alloc))?
        .arg(key(alloc))?
        .arg(no_header(alloc))?
        .arg(exact(alloc))?
        .arg(escape(alloc)?)?
        .arg(json(alloc))?
        .arg(
            Arg::new(alloc, "no-note")
                .long("no-note")
                .action(ArgAction::SetTrue)
                .help(
                    "Omits the notes at the end on lines whose items are not UTF-8 or have no weight",
                ),
        )?;
    with_files(alloc, command)
}

/// Returns the description of `sketches uniq`.
fn uniq_command<'a>(alloc: Global) -> Result<Command<'a>, AllocError> {
    let command = Command::new(alloc, "uniq").about(
        "Prints each line or record whose item was not seen before, in the order of the input",
    );
    let command = with_fields(alloc, command)?.arg(
        Arg::new(alloc, "repeated")
            .long("repeated")
            .action(ArgAction::SetTrue)
            .help("Prints those whose items were seen before, in place of the others"),
    )?;
    let command = with_size(
        alloc,
        command,
        "Makes the filter for N distinct items; by default for a quarter more than the lines of regular files, else 10000000",
    )?;
    let command = with_state(alloc, with_max_line(alloc, command)?)?
        .arg(key(alloc))?
        .arg(json(alloc))?
        .arg(no_note(alloc))?;
    with_files(alloc, command)
}

/// Adds the option of the maximum number of bytes of a line.
pub fn with_max_line<'a>(alloc: Global, command: Command<'a>) -> Result<Command<'a>, AllocError> {
    Ok(command.arg(
        Arg::new(alloc, "max-line")
            .long("max-line")
            .value_name("BYTES")
            .value_parser(value_parser!(u32))
            .default_value("67108864")
            .help("Ends with an error at a line or record of more BYTES"),
    )?)
}

/// Adds the names of files, and the option of their progress.
pub fn with_files<'a>(alloc: Global, command: Command<'a>) -> Result<Command<'a>, AllocError> {
    Ok(
        command
            .arg(
                Arg::new(alloc, "progress")
                    .long("progress")
                    .action(ArgAction::SetTrue)
                    .help(
                        "Shows how much of regular files was read, if standard error is a terminal",
                    ),
            )?
            .arg(
                Arg::new(alloc, "files")
                    .value_name("FILE")
                    .num_args(0..)
                    .help("Reads these files, or standard input for - and if there is none"),
            )?,
    )
}

/// Returns the size of a table that the options choose, or `None` if no size has the error.
pub fn size_of(matches: &ArgMatches<'_>) -> Option<usize> {
    let Some(text) = matches.get_str("error") else {
        return Some(matches.get_one::<u32>("size").unwrap_or(0) as usize);
    };
    size_for(percent_of(text)?).ok()
}

/// Returns the byte of a delimiter, for which `\t` stands for a tab, or `None` if it is not one character of ASCII.
pub fn delimiter_of(text: &str) -> Option<u8>
    ensures { IfSome result (λ byte. byte < 128) }
{
    match text.as_bytes() {
        [byte] if byte.is_ascii() => Some(*byte),
        [b'\\', b't'] => Some(b'\t'),
        _ => None,
    }
}
