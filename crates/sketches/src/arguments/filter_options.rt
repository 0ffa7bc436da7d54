//! Options of the size of a filter.
use crate::filter::filter_size::{ErrorTarget, FilterSize, Shape};
use clap::{Arg, ArgAction, ArgMatches, Command, value_parser};
use std::alloc::{AllocError, Global};

/// The message of a filter's size that is not allowed.
pub const BAD_FILTER: &str =
    "--items must be at least 1, --false-positives at least 2, --bits from 1 to 2^37 - 64, and --hashes from 1 to 32767";

/// The number of items that a filter is made for if nothing is known of the inputs.
pub const DEFAULT_ITEMS: u64 = 10_000_000;

/// The filter contains one of this number of items that were not inserted, by default.
const QUESTIONS: u64 = 1000;

/// Adds the options of the size of a filter. `items` is the text of its number of items.
pub fn with_size<'a>(
    alloc: Global,
    command: Command<'a>,
    items: &'a str,
) -> Result<Command<'a>, AllocError> {
    let command = command
        .arg(
            Arg::new(alloc, "items")
                .long("items")
                .value_name("N")
                .value_parser(value_parser!(u64))
                .help(items),
        )?
        .arg(
            Arg::new(alloc, "false-positives")
                .long("false-positives")
                .value_name("N")
                .value_parser(value_parser!(u64))
                .help("Takes about 1 in N other items for one of the filter, 1000 by default"),
        )?;
    with_shape(alloc, command)
}

/// Adds the options of the numbers of bits and hashes.
fn with_shape<'a>(alloc: Global, command: Command<'a>) -> Result<Command<'a>, AllocError> {
    Ok(
        command
            .arg(
                Arg::new(alloc, "bits")
                    .long("bits")
                    .value_name("N")
                    .value_parser(value_parser!(u64))
                    .requires_arg("hashes")?
                    .conflicts_with("items")?
                    .conflicts_with("false-positives")?
                    .help("Makes a filter of N bits, in place of one for a number of items"),
            )?
            .arg(
                Arg::new(alloc, "hashes")
                    .long("hashes")
                    .value_name("N")
                    .value_parser(value_parser!(u16))
                    .requires_arg("bits")?
                    .help("Makes a filter of N hashes"),
            )?,
    )
}

/// Adds the options of the file that keeps a filter.
pub fn with_state<'a>(alloc: Global, command: Command<'a>) -> Result<Command<'a>, AllocError> {
    Ok(
        command
            .arg(
                Arg::new(alloc, "state")
                    .long("state")
                    .value_name("IMAGE")
                    .help(
                        "Keeps the filter in this file between runs; if it exists, its filter is used",
                    ),
            )?
            .arg(
                Arg::new(alloc, "max-bytes")
                    .long("max-bytes")
                    .value_name("BYTES")
                    .value_parser(value_parser!(u32))
                    .default_value("1073741824")
                    .help("Ends with an error if the file of --state has more BYTES"),
            )?,
    )
}

/// Returns the option that omits the note at the end.
pub fn no_note<'a>(alloc: Global) -> Arg<'a> {
    Arg::new(alloc, "no-note")
        .long("no-note")
        .action(ArgAction::SetTrue)
        .help(
            "Omits the note at the end: lines left out, how full the filter is, and its rate of false positives",
        )
}

/// Returns the number of items that a filter is made for by default, if the files have about this number of lines: at least 4096, and at
/// most 1000 million.
pub fn items_for(lines: Option<u64>) -> u64 {
    match lines {
        Some(lines) => lines.max(4096).min(1_000_000_000),
        None => DEFAULT_ITEMS,
    }
}

/// Returns whether the options name the number of items or the numbers of bits and hashes.
pub fn has_size(matches: &ArgMatches<'_>) -> bool {
    matches.get_one::<u64>("items").is_some() || matches.get_one::<u64>("bits").is_some()
}

/// Returns the size of a filter. It is for `items` if the options name no size.
pub fn size_of(matches: &ArgMatches<'_>, items: u64) -> FilterSize {
    if let Some(bits) = matches.get_one::<u64>("bits") {
        return FilterSize::Shape(Shape {
            bits,
            hashes: matches.get_one::<u16>("hashes").unwrap_or(0),
        });
    }
    FilterSize::Target(ErrorTarget {
        items: matches.get_one::<u64>("items").unwrap_or(items),
        questions: matches
            .get_one::<u64>("false-positives")
            .unwrap_or(QUESTIONS),
    })
}
