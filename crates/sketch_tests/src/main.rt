//! Calls of the libraries, each alone, for tests that compare results, count allocations and let them fail.
//!
//! The first word of its arguments names a trial. A trial writes the results of its calls, and the sketches before and
//! after them. Allocations of two sizes of their own mark the calls that a trial tests. A library that is loaded before
//! the C library may count the allocations between the marks, and let one of them fail.
//!
//! | trial | shows |
//! |---|---|
//! | `session LEFT_OUT..` | a run of a session over commands of all kinds, without those at the given indices |
//! | `frequent_..`, `table_..`, `bytes_..` | a call of the library that may return `NoMemory`, alone |
//! | `allocation-free_..` | calls that allocate nothing |
//! | `limit_.. LIMIT COUNT..` | images read under a limit, and `memory_bytes` of their sketches; tables of items of some sizes |
//! | `known_..` | results that are known from outside, and printed values |
//! | `feeds-nothing_..`, `unclonable_..`, `unwritable_..`, `letter_..` | items hard to hash, clone, write or compare |
//!
//! Without a word it writes nothing. It ends with status 3 if something failed that no trial tests.
#![tactic(auto)]

mod allocation_free;
mod calls;
mod commands;
mod hard_items;
mod items;
mod known;
mod limits;
mod output;
mod session;
mod table;
mod texts;
mod trial;

use items::{FEEDS_NOTHING, LETTER, UNCLONABLE, UNWRITABLE};
use std::process::ExitCode;
use trial::Trial;

fn main(rt: HostRuntime) -> ExitCode {
    let mut trial = Trial::new(rt.alloc());
    let Ok(words) = std::env::args(&rt) else {
        return ExitCode::from(3);
    };
    let mut words = words.skip(1);
    let Some(name) = words.next() else {
        return ExitCode::SUCCESS;
    };
    let mut places = Vec::new(rt.alloc());
    for word in words {
        match word.parse::<usize>() {
            Ok(place) => trial.check(places.push(place)),
            Err(_) => trial.fail(),
        }
    }
    play(&mut trial, name.as_str(), &places);
    match trial.text() {
        Some(text) if rt.print(text).is_ok() => ExitCode::SUCCESS,
        _ => ExitCode::from(3),
    }
}

/// Plays the trial with this name.
fn play(trial: &mut Trial, name: &str, places: &[usize]) {
    match name {
        "session" => session::session(trial, places),
        _ => match name.split_once('_') {
            Some(("limit", call)) => limits::play(trial, call, places),
            Some((subject, call)) => play_subject(trial, subject, call),
            None => trial.fail(),
        },
    }
}

/// Plays the trial of a subject.
fn play_subject(trial: &mut Trial, subject: &str, call: &str) {
    match subject {
        "frequent" => calls::frequent::play(trial, call),
        "table" => calls::table::play(trial, call),
        "bytes" => calls::bytes::play(trial, call),
        "allocation-free" => allocation_free::play(trial, call),
        "feeds-nothing" => hard_items::play::<FEEDS_NOTHING>(trial, call),
        "unclonable" => hard_items::play::<UNCLONABLE>(trial, call),
        "unwritable" => hard_items::play::<UNWRITABLE>(trial, call),
        "letter" => hard_items::play::<LETTER>(trial, call),
        "known" => known::play(trial, call),
        _ => trial.fail(),
    }
}
