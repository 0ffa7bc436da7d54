//! Runs `sketches weigh`.
use crate::arguments::keyed_options::{open_keys, reads_input_twice};
use crate::arguments::keys::{key_of, seed_of};
use crate::arguments::record_options::weighed_record;
use crate::arguments::shared_options::{STANDARD_INPUT, max_line_of, style_of};
use crate::arguments::weigh_options::{max_keys_of, sketch_size_of};
use crate::arguments::words::shown;
use crate::print::endings::{ERROR, end, end_of_files, fail, message_of, note_unweighed};
use crate::print::output::Watched;
use crate::print::terminal::StandardOutput;
use crate::read::files::{Files, Opened};
use crate::weight::exact_weights::{ExactFailure, ExactOptions, weigh_exactly};
use crate::weight::weigh::{WeighOptions, weigh};
use clap::ArgMatches;
use std::hash::RandomState;
use std::io;

/// The message of a sketch's size that is not allowed.
const BAD_SKETCH: &str =
    "the sketch for --error and --outliers has 2^30 cells or more: use a larger --error or a smaller --outliers";

/// The message of a file with too many keys.
const TOO_MANY_KEYS: &str =
    "the file of keys has more distinct keys than --max-keys: use a larger one, or --error for estimates";

/// Runs `sketches weigh`. Returns the status.
pub fn run_weigh(rt: &HostRuntime, matches: &ArgMatches<'_>) -> u8 {
    let names = matches
        .get_strs("files")
        .unwrap_or(STANDARD_INPUT.as_slice());
    let keys_name = matches.get_str("keys").unwrap_or("-");
    if reads_input_twice(keys_name, names) {
        return fail(rt, "standard input cannot be both FILE and --keys");
    }
    let size = match sketch_size_of(matches) {
        Ok(size) => size,
        Err(message) => return fail(rt, message),
    };
    let key = match key_of(rt, matches.get_str("key")) {
        Ok(key) => key,
        Err(fault) => return fail(rt, message_of(fault)),
    };
    let (keys_part, mut keys) = match open_keys(rt, matches, keys_name) {
        Ok(keys) => keys,
        Err(status) => return status,
    };
    let mut files = Files::new(rt, names);
    files.show_progress(matches.get_flag("progress"));
    let chosen = match weighed_record(rt, matches, &mut files) {
        Ok(chosen) => chosen,
        Err(status) => return status,
    };
    let style = style_of(matches, matches.get_flag("csv"));
    let max_line = max_line_of(matches);
    let header = !matches.get_flag("no-header");
    let note = !matches.get_flag("no-note");
    match size {
        Some(size) => {
            let options = WeighOptions {
                chosen,
                keys_part,
                style,
                parts: size.parts,
                questions: size.questions,
                seed: seed_of(key),
                max_line,
                header,
            };
            estimate(rt, options, note, keys_name, &mut keys, &mut files)
        }
        None => {
            let options = ExactOptions {
                chosen,
                keys_part,
                max_keys: max_keys_of(matches),
                style,
                max_line,
                header,
            };
            sum(rt, options, note, keys_name, &mut keys, &mut files)
        }
    }
}

/// Prints estimates of weights. Returns the status.
fn estimate(
    rt: &HostRuntime,
    options: WeighOptions,
    note: bool,
    keys_name: &str,
    keys: &mut Opened<'_>,
    files: &mut Files<'_, '_, '_>,
) -> u8 {
    match weigh(
        rt.alloc(),
        options,
        files,
        keys,
        &mut Watched::new(StandardOutput::new(rt)),
    ) {
        Ok(done) => {
            if note {
                note_unweighed(rt, done.unweighed);
            }
            match done.failure {
                Some(error) => unread(rt, keys_name, error),
                None => u8::from(!done.complete || files.has_failed()),
            }
        }
        Err(failure) if files.is_done() => end(rt, failure, keys_name, BAD_SKETCH),
        Err(failure) => end_of_files(rt, failure, files, BAD_SKETCH),
    }
}

/// Prints exact weights. Returns the status.
fn sum(
    rt: &HostRuntime,
    options: ExactOptions,
    note: bool,
    keys_name: &str,
    keys: &mut Opened<'_>,
    files: &mut Files<'_, '_, '_>,
) -> u8 {
    let Ok(state) = RandomState::new(rt) else {
        return fail(rt, "no random bytes");
    };
    match weigh_exactly(
        rt.alloc(),
        options,
        state,
        keys,
        files,
        &mut Watched::new(StandardOutput::new(rt)),
    ) {
        Ok(done) => {
            if note {
                note_unweighed(rt, done.unweighed);
            }
            u8::from(!done.complete || files.has_failed())
        }
        Err(ExactFailure::Unread(error)) => unread(rt, keys_name, error),
        Err(ExactFailure::Keys(failure)) => end(rt, failure, keys_name, TOO_MANY_KEYS),
        Err(ExactFailure::Weights(failure)) => end_of_files(rt, failure, files, TOO_MANY_KEYS),
    }
}

/// Prints why the file of keys was not read whole. Returns the status.
fn unread(rt: &HostRuntime, name: &str, error: io::Error) -> u8 {
    let _ = eprintln!(rt; "sketches: {}: {error}", shown(name));
    ERROR
}
