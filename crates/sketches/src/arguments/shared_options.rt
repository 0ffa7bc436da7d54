//! Options of several commands.
use crate::print::layout::{Layout, Style};
use crate::print::percent::percent_of;
use crate::print::threshold::Threshold;
use clap::{Arg, ArgAction, ArgMatches, value_parser};
use sketch_text::records::number_of;
use std::alloc::{AllocError, Global};

/// The maximum number of rows if no option chooses them.
const USUAL_ROWS: usize = 10;

/// The files if none is named.
pub static STANDARD_INPUT: [&str; 1] = ["-"];

/// The message of a threshold that is not allowed.
pub const BAD_THRESHOLD: &str =
    "--above must be a number below 2^64, or a percentage up to 100% with at most 6 decimals";

/// Returns the option of the number of rows.
pub fn rows<'a>(alloc: Global) -> Arg<'a> {
    Arg::new(alloc, "rows")
        .short('n')
        .long("rows")
        .value_name("K")
        .value_parser(value_parser!(u32))
        .help("Prints at most K items; by default 10, or all with --above")
}

/// Returns the option of the threshold of rows.
pub fn above<'a>(alloc: Global) -> Arg<'a> {
    Arg::new(alloc, "above").long("above").value_name("N").help(
        "Prints the items whose upper bounds are above N, or above N% of the total",
    )
}

/// Returns the maximum number of rows that the options choose.
pub fn rows_of(matches: &ArgMatches<'_>) -> usize {
    match matches.get_one::<u32>("rows") {
        Some(rows) => rows as usize,
        None if matches.get_str("above").is_some() => usize::MAX,
        None => USUAL_ROWS,
    }
}

/// Returns the threshold that the options choose, or `None` if it is neither a number nor a percentage.
pub fn threshold_of(matches: &ArgMatches<'_>) -> Option<Threshold> {
    let Some(text) = matches.get_str("above") else {
        return Some(Threshold::Weight(0));
    };
    match percent_of(text) {
        Some(percent) => Some(Threshold::Share(percent)),
        None => number_of(text.as_bytes()).map(|weight| Threshold::Weight(weight)),
    }
}

/// Returns the option that omits the first line of a report.
pub fn no_header<'a>(alloc: Global) -> Arg<'a> {
    Arg::new(alloc, "no-header")
        .long("no-header")
        .action(ArgAction::SetTrue)
        .help("Omits the first line, which has the error and the total weight")
}

/// Returns the option that chooses JSON.
pub fn json<'a>(alloc: Global) -> Arg<'a> {
    Arg::new(alloc, "json")
        .long("json")
        .action(ArgAction::SetTrue)
        .help("Prints each line as a JSON object, with U+FFFD for bytes that are not UTF-8")
}

/// Returns the option that escapes items.
pub fn escape<'a>(alloc: Global) -> Result<Arg<'a>, AllocError> {
    Ok(
        Arg::new(alloc, "escape")
            .long("escape")
            .action(ArgAction::SetTrue)
            .conflicts_with("json")?
            .help("Prints a tab, a line end and a backslash of an item as \\t, \\n, \\r and \\\\"),
    )
}

/// Returns the option that wants exact numbers.
pub fn exact<'a>(alloc: Global) -> Arg<'a> {
    Arg::new(alloc, "exact")
        .long("exact")
        .action(ArgAction::SetTrue)
        .help("Prints one number for each item, or ends with an error if numbers are not exact")
}

/// Returns how the options want a report to be written. Items of CSV are escaped.
pub fn layout_of(matches: &ArgMatches<'_>, is_csv: bool) -> Layout {
    Layout {
        header: !matches.get_flag("no-header"),
        exact: matches.get_flag("exact"),
        style: style_of(matches, is_csv),
    }
}

/// Returns how the options want a line with an item to be written. Items of CSV are escaped.
pub fn style_of(matches: &ArgMatches<'_>, is_csv: bool) -> Style {
    if matches.get_flag("json") {
        Style::Json
    } else if is_csv || matches.get_flag("escape") {
        Style::Escaped
    } else {
        Style::Plain
    }
}

/// Returns the option that fixes the key.
pub fn key<'a>(alloc: Global) -> Arg<'a> {
    Arg::new(alloc, "key").long("key").value_name("HEX").help(
        "Hashes under a key of 32 hexadecimal digits, or by the word plain",
    )
}

/// Returns the option of the file that keeps the image of a sketch.
pub fn save<'a>(alloc: Global) -> Arg<'a> {
    Arg::new(alloc, "save")
        .long("save")
        .value_name("IMAGE")
        .help("Saves the sketch in this file, for merge")
}

/// Returns the maximum number of bytes of a line.
pub fn max_line_of(matches: &ArgMatches<'_>) -> u32 {
    matches.get_one::<u32>("max-line").unwrap_or(0)
}

/// Returns the number of an option that has a default.
pub fn usual_number(matches: &ArgMatches<'_>, name: &str) -> usize {
    matches.get_one::<u32>(name).unwrap_or(0) as usize
}
