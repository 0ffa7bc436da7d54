//! Options of records and their fields.
use crate::arguments::columns_option::{BAD_FIELD, ColumnList, part_of};
use crate::arguments::options::delimiter_of;
use crate::item::selection::Selection;
use crate::item::weighing::{Unweighed, WeighedPart, WeighedRecord, Weighing};
use clap::{Arg, ArgAction, ArgMatches, Command};
use sketch_text::records::{Part, RecordPart, Split};
use std::alloc::{AllocError, Global};

/// The message of a delimiter that is not allowed.
const BAD_DELIMITER: &str = "the delimiter must be one character of ASCII";

/// The message of a delimiter of CSV that is not allowed.
const BAD_CSV_DELIMITER: &str =
    "the delimiter of CSV must be one character of ASCII, and neither a quote nor a line end";

/// The message of a weight of several fields.
const LIST_AS_WEIGHT: &str =
    "--weight must be one field; with --csv a name with a comma stands in quotes";

/// The message of an option for bad weights that is not allowed.
const BAD_UNWEIGHED: &str = "--bad-weight must be skip or 0";

/// The message of a delimiter without a field.
const LONE_DELIMITER: &str = "--delimiter needs a field";

/// The message of CSV without a field.
const NO_FIELD: &str = "--csv needs --field, and with --keys also --keys-field";

/// The message of a name without a header.
const NO_NAMES: &str = "--no-csv-header needs numbers of fields";

/// How the files of a run are read as CSV.
#[derive(Clone, Copy)]
pub struct CsvOptions<'a> {
    pub delimiter: u8,
    /// Whether the first record of each file is a header.
    pub header: bool,
    pub item: ColumnList<'a>,
    /// One column, if any.
    pub weight: Option<ColumnList<'a>>,
    /// What is done with a record that has an item and no weight.
    pub unweighed: Unweighed,
}

/// Adds the options that choose a field of a line or of a record of CSV.
pub fn with_fields<'a>(alloc: Global, command: Command<'a>) -> Result<Command<'a>, AllocError> {
    Ok(
        command
            .arg(
                Arg::new(alloc, "field")
                    .short('f')
                    .long("field")
                    .value_name("N")
                    .allow_hyphen_values(true)
                    .help(
                        "Takes field N of each line, between runs of white space; -1 is the last, and 1,7 are two; with --csv N may be a name",
                    ),
            )?
            .arg(
                Arg::new(alloc, "delimiter")
                    .short('d')
                    .long("delimiter")
                    .value_name("C")
                    .help("Takes fields between single characters C of ASCII; \\t is a tab"),
            )?
            .arg(
                Arg::new(alloc, "csv")
                    .long("csv")
                    .action(ArgAction::SetTrue)
                    .help("Reads records of CSV with quotes; the first of each file is a header"),
            )?
            .arg(
                Arg::new(alloc, "no-csv-header")
                    .long("no-csv-header")
                    .action(ArgAction::SetTrue)
                    .requires_arg("csv")?
                    .help("Takes the first record of CSV like the others"),
            )?,
    )
}

/// Adds the option that chooses the weight of a line or of a record of CSV.
pub fn with_weight<'a>(alloc: Global, command: Command<'a>) -> Result<Command<'a>, AllocError> {
    Ok(command.arg(
        Arg::new(alloc, "weight")
            .short('w')
            .long("weight")
            .value_name("N")
            .allow_hyphen_values(true)
            .help(
                "Weighs the item of each line by the whole number in field N; -1 is the last; with --csv N may be a name",
            ),
    )?)
}

/// Adds the option of what is done with a line that has no weight.
pub fn with_bad_weight<'a>(alloc: Global, command: Command<'a>) -> Result<Command<'a>, AllocError> {
    Ok(command.arg(
        Arg::new(alloc, "bad-weight")
            .long("bad-weight")
            .value_name("WHAT")
            .requires_arg("weight")?
            .help(
                "With skip or 0, takes a weight that is no whole number as 0, and notes how many there are; else it is an error",
            ),
    )?)
}

/// Returns what the options want to be done with a line that has no weight.
///
/// # Errors
///
/// Returns a message if the option is wrong.
pub fn unweighed_of(matches: &ArgMatches<'_>) -> Result<Unweighed, &'static str> {
    match matches.get_str("bad-weight") {
        None => Ok(Unweighed::Fails),
        Some("skip") => Ok(Unweighed::IsZero),
        Some("0") => Ok(Unweighed::IsZero),
        Some(_) => Err(BAD_UNWEIGHED),
    }
}

/// Returns how the options want CSV to be read, or `None` if they want lines. `item` and `weight` are the options of columns.
///
/// # Errors
///
/// Returns a message if the options are wrong.
pub fn csv_options<'a>(
    matches: &ArgMatches<'a>,
    item: &str,
    weight: Option<&str>,
) -> Result<Option<CsvOptions<'a>>, &'static str> {
    if !matches.get_flag("csv") {
        return Ok(None);
    }
    let Some(delimiter) = csv_delimiter_of(matches.get_str("delimiter")) else {
        return Err(BAD_CSV_DELIMITER);
    };
    let Some(item) = list_at(matches, item)? else {
        return Err(NO_FIELD);
    };
    let weight = match weight {
        Some(weight) => single_at(matches, weight)?,
        None => None,
    };
    let header = !matches.get_flag("no-csv-header");
    if !header && (item.has_name() || has_name(weight)) {
        return Err(NO_NAMES);
    }
    Ok(Some(CsvOptions {
        delimiter,
        header,
        item,
        weight,
        unweighed: unweighed_of(matches)?,
    }))
}

/// Returns the columns that an option chooses, if any.
fn list_at<'a>(
    matches: &ArgMatches<'a>,
    name: &str,
) -> Result<Option<ColumnList<'a>>, &'static str> {
    match matches.get_str(name) {
        Some(text) => match ColumnList::read(text) {
            Ok(list) => Ok(Some(list)),
            Err(message) => Err(message),
        },
        None => Ok(None),
    }
}

/// Returns the only column that an option chooses, if any.
fn single_at<'a>(
    matches: &ArgMatches<'a>,
    name: &str,
) -> Result<Option<ColumnList<'a>>, &'static str> {
    match list_at(matches, name) {
        Ok(Some(list)) if list.has_nth(1) => Err(LIST_AS_WEIGHT),
        other => other,
    }
}

/// Returns whether a column is named.
fn has_name(list: Option<ColumnList<'_>>) -> bool {
    match list {
        Some(list) => list.has_name(),
        None => false,
    }
}

/// Returns the delimiter of CSV, by default a comma, or `None` if it is not allowed.
fn csv_delimiter_of(text: Option<&str>) -> Option<u8> {
    let Some(text) = text else {
        return Some(b',');
    };
    match delimiter_of(text) {
        Some(byte) if byte != b'"' && byte != b'\n' && byte != b'\r' => Some(byte),
        _ => None,
    }
}

/// Returns the items of a line and their weights, as the options choose.
///
/// # Errors
///
/// Returns a message if the options are wrong.
pub fn weighing_of(matches: &ArgMatches<'_>) -> Result<Weighing, &'static str> {
    let chosen = weighed_line(matches)?;
    if matches.get_flag("words") {
        return Ok(Weighing::Once(Selection::Words));
    }
    Ok(match (chosen.item, chosen.weight) {
        (RecordPart::Line(item), None) => Weighing::Once(Selection::Part(item)),
        (RecordPart::Line(item), Some(RecordPart::Line(weight))) => Weighing::Field(WeighedPart {
            item,
            weight,
            unweighed: chosen.unweighed,
        }),
        _ => Weighing::Record(chosen),
    })
}

/// Returns the part of a line that is its item and the part with its weight, as the options choose.
///
/// # Errors
///
/// Returns a message if the options are wrong.
pub fn weighed_line(matches: &ArgMatches<'_>) -> Result<WeighedRecord, &'static str> {
    if has_lone_delimiter(matches) {
        return Err(LONE_DELIMITER);
    }
    let item = line_part(matches, "field")?;
    let weight = match single_at(matches, "weight")? {
        Some(list) => Some(part_of_line(matches, list)?),
        None => None,
    };
    Ok(WeighedRecord {
        item,
        weight,
        unweighed: unweighed_of(matches)?,
    })
}

/// Returns whether a delimiter is given without a field.
fn has_lone_delimiter(matches: &ArgMatches<'_>) -> bool {
    matches.get_str("delimiter").is_some()
        && matches.get_str("field").is_none()
        && matches.get_str("weight").is_none()
        && matches.get_str("keys-field").is_none()
}

/// Returns the part of a line that an option chooses: the whole line without it.
///
/// # Errors
///
/// Returns a message if the option is wrong.
pub fn line_part(matches: &ArgMatches<'_>, name: &str) -> Result<RecordPart, &'static str> {
    match list_at(matches, name)? {
        Some(list) => part_of_line(matches, list),
        None => Ok(RecordPart::Line(Part::Line)),
    }
}

/// Returns the part of a line that has these columns.
///
/// # Errors
///
/// Returns a message if the delimiter is wrong or a column is named.
fn part_of_line(
    matches: &ArgMatches<'_>,
    list: ColumnList<'_>,
) -> Result<RecordPart, &'static str> {
    let split = match matches.get_str("delimiter") {
        None => Split::Words,
        Some(text) => match delimiter_of(text) {
            Some(delimiter) => Split::Fields(delimiter),
            None => return Err(BAD_DELIMITER),
        },
    };
    match list.columns(split) {
        Some(columns) => Ok(part_of(columns)),
        None => Err(BAD_FIELD),
    }
}
