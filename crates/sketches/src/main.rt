//! Summaries of the lines of files.
//!
//! `sketches top [-f N [-d C] | --words] [-n K] [--size M] [FILE..]` prints the most frequent lines, fields or words of files,
//! with bounds of how often each occurs. `--save IMAGE` saves the sketch. `sketches uniq [-f N [-d C]] [--items N] [--repeated]
//! [FILE..]` prints each line whose item was not seen before. `sketches join [-f N [-d C]] [-v] --keys FILE [FILE..]` prints the
//! lines whose items may be in a file of keys, or with `-v` the others. `sketches weigh [-f N [-d C]] --keys FILE [FILE..]` prints
//! how often each key of a file occurs, or a little more. `sketches merge [-n K] [--save IMAGE] IMAGE..` prints the report of `top`
//! for all lines that saved sketches counted. `sketches show IMAGE` prints what an image states. `--help` after a command lists all
//! its options.
//!
//! The status is 0, or 1 if a file could not be read and the others were. It is 2 after wrong arguments, if the output or an image
//! could not be written, if memory ran out, if a line was too long, or if an image could not be read. Messages are on standard
//! error. A closed pipe ends the program with status 0.
//!
//! Tables and filters hash under a random key. The option `--key` and the environment variable `DATASKETCHES_TABLE_KEY` fix it.
#![tactic(auto)]

mod arguments;
mod count;
mod failure;
mod filter;
mod image;
mod item;
mod print;
mod read;
mod weight;

use arguments::options::command;
use arguments::words::{shown_words, stray_word, words_of};
use clap::{ArgMatches, Error};
use count::top_command::run_top;
use filter::filter_commands::{run_join, run_uniq};
use image::image_commands::{run_merge, run_show};
use print::endings::{end_of_output, fail, fail_at};
use std::io::ErrorKind;
use std::process::ExitCode;
use weight::weigh_commands::run_weigh;

fn main(rt: HostRuntime) -> ExitCode {
    ExitCode::from(run(&rt))
}

/// Runs the command line. Returns the status.
fn run(rt: &HostRuntime) -> u8 {
    let alloc = rt.alloc();
    let words = match words_of(rt) {
        Ok(words) => words,
        Err(error) if error.kind() == ErrorKind::OutOfMemory => return fail(rt, "no memory"),
        Err(_) => return fail(rt, "an argument is not UTF-8"),
    };
    let Ok(command) = command(alloc) else {
        return fail(rt, "no memory");
    };
    match command.try_get_matches_from(words.as_slice()) {
        Ok(matches) => match matches.subcommand() {
            Some((name, matches)) => match stray_word(&words, matches) {
                Some(word) => fail_at(rt, word, "a name or value that is not UTF-8"),
                None => run_command(rt, name, matches),
            },
            None => fail(rt, "no command"),
        },
        Err(error) => end_of_words(rt, error, &words),
    }
}

/// Prints the help, or what is wrong with the words of the command line. Returns the status.
fn end_of_words(rt: &HostRuntime, error: Error, words: &[String]) -> u8 {
    let error = error_of(rt, words).unwrap_or(error);
    match error.print(rt) {
        Ok(()) => error.exit_code() as u8,
        Err(failed) => end_of_output(rt, failed),
    }
}

/// Returns what is wrong with words, as messages show them, or `None` if nothing is found to be.
fn error_of(rt: &HostRuntime, words: &[String]) -> Option<Error> {
    let words = shown_words(rt.alloc(), words).ok()?;
    let command = command(rt.alloc()).ok()?;
    command.try_get_matches_from(words.as_slice()).err()
}

/// Runs a command. Returns the status.
fn run_command(rt: &HostRuntime, name: &str, matches: &ArgMatches<'_>) -> u8 {
    match name {
        "top" => run_top(rt, matches),
        "uniq" => run_uniq(rt, matches),
        "join" => run_join(rt, matches),
        "weigh" => run_weigh(rt, matches),
        "merge" => run_merge(rt, matches),
        "show" => run_show(rt, matches),
        _ => fail(rt, "no command"),
    }
}
