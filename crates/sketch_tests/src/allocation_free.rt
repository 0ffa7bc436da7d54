//! Calls that allocate nothing, and that neither the program nor the library for C makes.
pub mod base;
pub mod counts;
pub mod filter;
pub mod frequent;
pub mod session;
pub mod table;

use crate::items::FEEDS_NOTHING;
use crate::trial::Trial;
use frequent::{BY_REFERENCE, TOO_HEAVY};

/// Plays the trial with this name: one of the sketches, or of their parts.
pub fn play(trial: &mut Trial, calls: &str) {
    match calls {
        "updates_by_reference" => frequent::play_updates(trial, 1, &BY_REFERENCE),
        "refused_references" => frequent::play_updates(trial, u64::MAX, &TOO_HEAVY),
        "frequent" => frequent::questions(trial),
        "filter" => filter::filter(trial),
        "counts" => counts::counts(trial),
        "session" => session::session(trial),
        _ => play_parts(trial, calls),
    }
}

fn play_parts(trial: &mut Trial, calls: &str) {
    match calls {
        "writes" => base::writes(trial),
        "items" => base::items(trial),
        "texts" => base::texts(trial),
        "table_changes" => table::changes(trial),
        "table_questions" => table::questions::<FEEDS_NOTHING>(trial),
        "table_looks" => table::looks(trial),
        "table_walk" => table::walk::<FEEDS_NOTHING>(trial),
        _ => trial.fail(),
    }
}
