//! Runs the commands that make a filter.
use crate::arguments::filter_options::{BAD_FILTER, DEFAULT_ITEMS, has_size, items_for, size_of};
use crate::arguments::keyed_options::{open_keys, reads_input_twice};
use crate::arguments::keys::{key_of, seed_of};
use crate::arguments::record_options::weighed_record;
use crate::arguments::shared_options::{STANDARD_INPUT, max_line_of, usual_number};
use crate::arguments::words::shown;
use crate::failure::Failure;
use crate::filter::filter_size::{
    FilterSize, filter_of, has_size_of, is_past, percent_of, questions_of,
};
use crate::filter::join::{JoinFailure, JoinOptions, join};
use crate::filter::line_count::count_lines;
use crate::filter::uniq::{Summary, UniqOptions, uniq, uniq_after};
use crate::image::image_commands::end as end_of_images;
use crate::image::image_file::report;
use crate::image::images::ImageFailure;
use crate::image::state_file::StateFile;
use crate::print::ended_text::RecordForm;
use crate::print::endings::{ERROR, end, fail, message_of};
use crate::print::output::Watched;
use crate::print::terminal::StandardOutput;
use crate::read::file_sizes::{lines_of_files, size_of_file};
use crate::read::files::{Files, open};
use clap::ArgMatches;
use sketch_bloom::BloomFilter;
use sketch_frequencies::TableKey;
use sketch_text::records::RecordPart;
use std::alloc::AllocError;

/// The maximum number of times that a state is looked up and created.
const MAX_TRIES: u32 = 1000;

/// Runs `sketches uniq`. Returns the status.
pub fn run_uniq(rt: &HostRuntime, matches: &ArgMatches<'_>) -> u8 {
    let key = match key_of(rt, matches.get_str("key")) {
        Ok(key) => key,
        Err(fault) => return fail(rt, message_of(fault)),
    };
    let names = matches
        .get_strs("files")
        .unwrap_or(STANDARD_INPUT.as_slice());
    let mut files = Files::new(rt, names);
    files.show_progress(matches.get_flag("progress"));
    let part = match weighed_record(rt, matches, &mut files) {
        Ok(chosen) => chosen.item,
        Err(status) => return status,
    };
    let form = form_of(matches);
    let Ok(header) = header_of(rt, &files, form) else {
        return fail(rt, "no memory");
    };
    let options = UniqOptions {
        part,
        repeated: matches.get_flag("repeated"),
        form,
        max_line: max_line_of(matches),
    };
    let Some(name) = matches.get_str("state") else {
        let size = size_of(matches, items_for(lines_of_files(rt, names)));
        let seed = seed_of(key);
        let result = uniq(
            rt.alloc(),
            options,
            size,
            seed,
            &header,
            &mut files,
            &mut Watched::new(StandardOutput::new(rt)),
        );
        return match ended(rt, matches, &files, result) {
            Ok((_, status)) => status,
            Err(status) => status,
        };
    };
    if name == "-" {
        return fail(rt, "--state must name a file");
    }
    uniq_from(rt, matches, options, key, name, &header, &mut files)
}

/// Runs `uniq` from the filter in the file of a name, or from a new one, and keeps the filter there. Returns the status.
fn uniq_from(
    rt: &HostRuntime,
    matches: &ArgMatches<'_>,
    options: UniqOptions,
    key: TableKey,
    name: &str,
    header: &[u8],
    files: &mut Files<'_, '_, '_>,
) -> u8 {
    let size = size_of(matches, items_for(lines_of_files(rt, files.names())));
    let (mut state, filter) = match state_of(rt, matches, name, size, seed_of(key)) {
        Ok(state) => state,
        Err(status) => return status,
    };
    let outcome = uniq_after(
        rt.alloc(),
        options,
        filter,
        header,
        files,
        &mut Watched::new(StandardOutput::new(rt)),
    );
    let status = match ended(rt, matches, files, outcome) {
        Ok((filter, status)) => { if state.save(&filter) { status } else { ERROR } }
        Err(status) => status,
    };
    state.end();
    status
}

/// Locks the file of a state, and returns it with its filter. Creates it with an empty filter of a size and a seed if there is none.
/// Returns the status after a message if that fails.
fn state_of<'r>(
    rt: &'r HostRuntime,
    matches: &ArgMatches<'_>,
    name: &str,
    size: FilterSize,
    seed: u64,
) -> Result<(StateFile<'r>, BloomFilter), u8> {
    for _ in 0..MAX_TRIES {
        match StateFile::lock(rt, name) {
            Ok(Some(state)) => {
                let filter = kept_filter(rt, matches, name, size, &state)?;
                return Ok((state, filter));
            }
            Ok(None) => {}
            Err(error) => {
                return Err(end_of_images(rt, ImageFailure::Read(error), name));
            }
        }
        let empty = match filter_of(rt.alloc(), size, seed) {
            Ok(empty) => empty,
            Err(failure) => return Err(end(rt, failure, name, BAD_FILTER)),
        };
        match StateFile::create(rt, name, &empty) {
            Ok(Some(state)) => return Ok((state, empty)),
            Ok(None) => {}
            Err(failure) => {
                report(rt, name, failure);
                return Err(ERROR);
            }
        }
    }
    Err(fail(rt, "--state: other runs create and remove the file"))
}

/// Returns the filter in the file of a state. Returns the status after a message if it cannot be read, or has not the size that the
/// options name.
fn kept_filter(
    rt: &HostRuntime,
    matches: &ArgMatches<'_>,
    name: &str,
    size: FilterSize,
    state: &StateFile<'_>,
) -> Result<BloomFilter, u8> {
    let filter = match state.load(usual_number(matches, "max-bytes")) {
        Ok(filter) => filter,
        Err(failure) => return Err(end_of_images(rt, failure, name)),
    };
    if has_size(matches) && !has_size_of(&filter, size) {
        return Err(fail(
            rt,
            "--state has a filter of another size than --items or --bits: leave them out, or name another file",
        ));
    }
    Ok(filter)
}

/// Prints how a run of `uniq` ended. Returns its filter and its status, or the status of an error.
fn ended(
    rt: &HostRuntime,
    matches: &ArgMatches<'_>,
    files: &Files<'_, '_, '_>,
    outcome: Result<Summary, Failure>,
) -> Result<(BloomFilter, u8), u8> {
    let summary = match outcome {
        Ok(summary) => summary,
        Err(failure) => return Err(end(rt, failure, files.current(), BAD_FILTER)),
    };
    let what = "new items is taken for a repeated one";
    if !matches.get_flag("no-note") {
        note(
            rt,
            units_of(matches),
            summary.left_out,
            &summary.filter,
            what,
        );
    }
    warn_if_past(rt, &summary.filter, what);
    let status = u8::from(!summary.complete || files.has_failed());
    Ok((summary.filter, status))
}

/// Runs `sketches join`. Returns the status.
pub fn run_join(rt: &HostRuntime, matches: &ArgMatches<'_>) -> u8 {
    let names = matches
        .get_strs("files")
        .unwrap_or(STANDARD_INPUT.as_slice());
    let keys_name = matches.get_str("keys").unwrap_or("-");
    if reads_input_twice(keys_name, names) {
        return fail(rt, "standard input cannot be both FILE and --keys");
    }
    let key = match key_of(rt, matches.get_str("key")) {
        Ok(key) => key,
        Err(fault) => return fail(rt, message_of(fault)),
    };
    let (keys_part, mut keys) = match open_keys(rt, matches, keys_name) {
        Ok(keys) => keys,
        Err(status) => return status,
    };
    let mut files = Files::new(rt, names);
    files.show_progress(matches.get_flag("progress"));
    let part = match weighed_record(rt, matches, &mut files) {
        Ok(chosen) => chosen.item,
        Err(status) => return status,
    };
    let form = form_of(matches);
    let Ok(header) = header_of(rt, &files, form) else {
        return fail(rt, "no memory");
    };
    let items = match items_of(rt, matches, keys_name, keys_part) {
        Ok(items) => items,
        Err(failure) => return end_of_join(rt, failure, keys_name, keys_name),
    };
    let options = JoinOptions {
        part,
        keys_part,
        wanted: !matches.get_flag("invert-match"),
        form,
        size: size_of(matches, items),
        seed: seed_of(key),
        max_line: max_line_of(matches),
    };
    match join(
        rt.alloc(),
        options,
        &mut keys,
        &header,
        &mut files,
        &mut Watched::new(StandardOutput::new(rt)),
    ) {
        Ok(summary) => {
            let what = "other items is taken for a key";
            if !matches.get_flag("no-note") {
                note(
                    rt,
                    units_of(matches),
                    summary.left_out,
                    &summary.filter,
                    what,
                );
            }
            warn_if_past(rt, &summary.filter, what);
            u8::from(!summary.complete || files.has_failed())
        }
        Err(failure) => end_of_join(rt, failure, keys_name, files.current()),
    }
}

/// Returns how the options want records to be written.
fn form_of(matches: &ArgMatches<'_>) -> RecordForm {
    if matches.get_flag("json") {
        RecordForm::Json
    } else {
        RecordForm::Plain
    }
}

/// Returns the header that is written before the records. JSON has none.
fn header_of(
    rt: &HostRuntime,
    files: &Files<'_, '_, '_>,
    form: RecordForm,
) -> Result<Vec<u8>, AllocError> {
    match form {
        RecordForm::Json => Ok(Vec::new(rt.alloc())),
        _ => files.header(),
    }
}

/// Returns the words for what is left out, one and many.
fn units_of(matches: &ArgMatches<'_>) -> (&'static str, &'static str) {
    if matches.get_flag("csv") {
        ("record", "records")
    } else {
        ("line", "lines")
    }
}

/// Prints how many lines or records were left out, how full the filter is, and its rate of false positives, under ideal hashes.
fn note(rt: &HostRuntime, units: (&str, &str), left_out: u64, filter: &BloomFilter, what: &str) {
    let unit = if left_out == 1 { units.0 } else { units.1 };
    let percent = percent_of(filter);
    let _ = match questions_of(filter) {
        Some(questions) => eprintln!(rt;
            "sketches: {left_out} {unit} left out; the filter is {percent}% full: about 1 in {questions} {what}"
        ),
        None => eprintln!(rt;
            "sketches: {left_out} {unit} left out; the filter is {percent}% full: fewer than 1 in 10^12 {what}"
        ),
    };
}

/// Prints a warning if the filter is fuller than it is made for.
fn warn_if_past(rt: &HostRuntime, filter: &BloomFilter, what: &str) {
    if !is_past(filter) {
        return;
    }
    if let Some(questions) = questions_of(filter) {
        let _ = eprintln!(rt;
            "sketches: warning: the filter has more items than it is made for: about 1 in {questions} {what}; use a larger --items"
        );
    }
}

/// Returns the number of items that the filter is made for, unless the options name its size: the number of records of the keys if
/// their file is regular, at least 1, or else the default number.
///
/// # Errors
///
/// Returns `Unread` if the file cannot be read, and `Keys` with `LineTooLong` and `Memory` as [`join`] does.
fn items_of(
    rt: &HostRuntime,
    matches: &ArgMatches<'_>,
    name: &str,
    part: RecordPart,
) -> Result<u64, JoinFailure> {
    if has_size(matches) || size_of_file(rt, name).is_none() {
        return Ok(DEFAULT_ITEMS);
    }
    let mut keys = match open(rt, name) {
        Ok(keys) => keys,
        Err(error) => return Err(JoinFailure::Unread(error)),
    };
    let lines = count_lines(rt.alloc(), part, &mut keys, max_line_of(matches))?;
    Ok(lines.max(1))
}

/// Prints why a run ended. Returns the status.
fn end_of_join(rt: &HostRuntime, failure: JoinFailure, keys: &str, file: &str) -> u8 {
    match failure {
        JoinFailure::Unread(error) => {
            let _ = eprintln!(rt; "sketches: {}: {error}", shown(keys));
            ERROR
        }
        JoinFailure::Keys(failure) => end(rt, failure, keys, BAD_FILTER),
        JoinFailure::Lines(failure) => end(rt, failure, file, BAD_FILTER),
    }
}
