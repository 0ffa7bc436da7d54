//! The call of a table of six numbers that no sketch makes.
use crate::calls::refusable;
use crate::output::{write_error, write_values};
use crate::table::{free_table, put};
use crate::trial::Trial;

/// Plays the trial with this name.
pub fn play(trial: &mut Trial, call: &str) {
    match call {
        "entries" => entries(trial),
        _ => trial.fail(),
    }
}

/// Writes the length of the list of entries, or the error of that call. The table has six numbers with a count of 3
/// each, which is the number that a sketch keeps in 8 slots.
fn entries(trial: &mut Trial) {
    let Ok(mut map) = free_table(trial.alloc, 8) else {
        return trial.fail();
    };
    for item in 0..6i64 {
        put(&mut map, item, 3);
    }
    match refusable!(trial, map.active_entries()) {
        Ok(entries) => write_values(trial, "entries", &[entries.len()]),
        Err(e) => write_error(trial, e),
    }
}
