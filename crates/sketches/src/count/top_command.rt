//! Runs `sketches top`.
use crate::arguments::csv_options::{csv_options, weighing_of};
use crate::arguments::keys::key_of;
use crate::arguments::options::{BAD_ERROR, size_of};
use crate::arguments::shared_options::{
    BAD_THRESHOLD, STANDARD_INPUT, layout_of, max_line_of, rows_of, threshold_of,
};
use crate::count::top::{Options, top};
use crate::image::image_commands::image_file;
use crate::item::weighing::Weighing;
use crate::print::endings::{ERROR, end_of_files, fail, fail_inexact, message_of, note_unweighed};
use crate::print::output::Watched;
use crate::print::terminal::StandardOutput;
use crate::read::files::Files;
use clap::ArgMatches;

/// The message of a table's size that is not allowed.
const BAD_TABLE: &str = "--size must be a power of two from 8 to 2^30";

/// Runs `sketches top`. Returns the status.
pub fn run_top(rt: &HostRuntime, matches: &ArgMatches<'_>) -> u8 {
    let csv = match csv_options(matches, "field", Some("weight")) {
        Ok(csv) => csv,
        Err(message) => return fail(rt, message),
    };
    let Some(threshold) = threshold_of(matches) else {
        return fail(rt, BAD_THRESHOLD);
    };
    let Some(size) = size_of(matches) else {
        return fail(rt, BAD_ERROR);
    };
    let key = match key_of(rt, matches.get_str("key")) {
        Ok(key) => key,
        Err(fault) => return fail(rt, message_of(fault)),
    };
    let names = matches
        .get_strs("files")
        .unwrap_or(STANDARD_INPUT.as_slice());
    let mut files = Files::new(rt, names);
    files.show_progress(matches.get_flag("progress"));
    let weighing = match csv {
        Some(csv) => match files.columns(csv, max_line_of(matches) as usize) {
            Some(chosen) => Weighing::Record(chosen),
            None => return ERROR,
        },
        None => match weighing_of(matches) {
            Ok(weighing) => weighing,
            Err(message) => return fail(rt, message),
        },
    };
    let options = Options {
        weighing,
        threshold,
        rows: rows_of(matches),
        size,
        max_line: max_line_of(matches),
        layout: layout_of(matches, matches.get_flag("csv")),
        key,
    };
    let Some(mut image) = image_file(rt, matches) else {
        return fail(rt, "--save must name a file");
    };
    let status = match top(
        rt.alloc(),
        options,
        &mut files,
        &mut image,
        &mut Watched::new(StandardOutput::new(rt)),
    ) {
        Ok(summary) => {
            if !matches.get_flag("no-note") {
                note_not_utf8(rt, summary.not_utf8);
                note_unweighed(rt, summary.unweighed);
            }
            match summary.inexact {
                Some(error) => fail_inexact(rt, error),
                None => u8::from(!summary.complete || files.has_failed()),
            }
        }
        Err(failure) => end_of_files(rt, failure, &files, BAD_TABLE),
    };
    if image.has_failed() { ERROR } else { status }
}

/// Prints how many lines or records have items that are not UTF-8, if any.
fn note_not_utf8(rt: &HostRuntime, lines: u64) {
    let _ = match lines {
        0 => Ok(()),
        1 => eprintln!(rt;
            "sketches: 1 line has an item that is not UTF-8: its bytes are shown as U+FFFD"
        ),
        _ => eprintln!(rt;
            "sketches: {lines} lines have items that are not UTF-8: their bytes are shown as U+FFFD"
        ),
    };
}
