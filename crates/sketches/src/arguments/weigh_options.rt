//! The command line of `sketches weigh`.
ghost use Rattle.std.specs.Prelude.{◌*◌, ◌^◌, ◌<◌, ◌≤◌, ℕ};

use crate::arguments::csv_options::{with_bad_weight, with_fields, with_weight};
use crate::arguments::keyed_options::with_keys;
use crate::arguments::options::{with_files, with_max_line};
use crate::arguments::shared_options::{escape, json, key};
use crate::print::percent::{Percent, WHOLE, percent_of};
use clap::{Arg, ArgAction, ArgMatches, Command, value_parser};
use std::alloc::{AllocError, Global};

/// The message of a share of keys that is not allowed.
const BAD_OUTLIERS: &str = "--outliers must be at least 2";

/// The message of an error that is not allowed.
const BAD_SHARE: &str = "--error must be above 0% and at most 100%, with at most 6 decimals";

/// The maximum number of distinct keys that are counted exactly, by default.
const MAX_KEYS: u32 = 10_000_000;

/// The number of keys of which about one may exceed the error, by default.
const OUTLIERS: u64 = 1000;

/// The size of a sketch.
#[derive(Clone, Copy)]
pub struct SketchSize {
    /// A number should exceed its weight by at most the total over this number.
    pub parts: u64,
    /// About one of this number of keys may exceed that.
    pub questions: u64,
}

/// Returns the description of `sketches weigh`.
pub fn weigh_command<'a>(alloc: Global) -> Result<Command<'a>, AllocError> {
    let command = Command::new(alloc, "weigh").about(
        "Prints how often each key of a file occurs, in the order of the keys",
    );
    let command = with_fields(alloc, with_keys(alloc, command)?)?;
    let command = with_weight(alloc, command)?;
    let command = with_error(alloc, command)?;
    let command = with_bad_weight(alloc, with_max_line(alloc, command)?)?
        .arg(key(alloc))?
        .arg(
            Arg::new(alloc, "no-header")
                .long("no-header")
                .action(ArgAction::SetTrue)
                .help("Omits the first line, which has the total"),
        )?
        .arg(escape(alloc)?)?
        .arg(json(alloc))?
        .arg(
            Arg::new(alloc, "no-note")
                .long("no-note")
                .action(ArgAction::SetTrue)
                .help("Omits the note at the end on lines that have no weight"),
        )?;
    with_files(alloc, command)
}

/// Adds the options that choose exact numbers or a sketch, and their sizes.
fn with_error<'a>(alloc: Global, command: Command<'a>) -> Result<Command<'a>, AllocError> {
    Ok(
        command
            .arg(
                Arg::new(alloc, "max-keys")
                    .long("max-keys")
                    .value_name("N")
                    .value_parser(value_parser!(u32))
                    .conflicts_with("error")?
                    .conflicts_with("outliers")?
                    .help(
                        "Ends with an error if the file has more than N distinct keys, 10000000 by default",
                    ),
            )?
            .arg(
                Arg::new(alloc, "error").long("error").value_name("P").help(
                    "Prints estimates by a sketch: at most P percent of the total more, for most keys; 0.1% with --outliers",
                ),
            )?
            .arg(
                Arg::new(alloc, "outliers")
                    .long("outliers")
                    .value_name("N")
                    .value_parser(value_parser!(u64))
                    .help(
                        "Prints estimates, of which about 1 in N exceed their weight by more than that; 1000 with --error",
                    ),
            )?,
    )
}

/// Returns the size of a sketch, or `None` if the options ask for none.
///
/// # Errors
///
/// Returns a message if the options are wrong.
pub fn sketch_size_of(matches: &ArgMatches<'_>) -> Result<Option<SketchSize>, &'static str> {
    let error = matches.get_str("error");
    let outliers = matches.get_one::<u64>("outliers");
    if error.is_none() && outliers.is_none() {
        return Ok(None);
    }
    let Some(share) = percent_of(error.unwrap_or("0.1%")) else {
        return Err(BAD_SHARE);
    };
    if share.millionths == 0 {
        return Err(BAD_SHARE);
    }
    let questions = outliers.unwrap_or(OUTLIERS);
    if questions < 2 {
        return Err(BAD_OUTLIERS);
    }
    Ok(Some(SketchSize {
        parts: parts_of(share),
        questions,
    }))
}

/// Returns the maximum number of distinct keys that are counted exactly.
pub fn max_keys_of(matches: &ArgMatches<'_>) -> u32 {
    matches.get_one::<u32>("max-keys").unwrap_or(MAX_KEYS)
}

/// Returns the least number of parts of a whole of which each is at most this percentage of it.
pub fn parts_of(error: Percent) -> u64
    requires { 0 < error.millionths }
    ensures enough { 10 ^ 8 ≤ error.millionths * result }
    ensures least { (m : ℕ) → 10 ^ 8 ≤ error.millionths * m → result ≤ m }
{
    u64::from(WHOLE.div_ceil(error.millionths))
}
