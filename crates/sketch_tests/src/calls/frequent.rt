//! Calls on a sketch of six strings, whose table must double for a seventh.
use crate::calls::refusable;
use crate::output::{write_error, write_outcome, write_rows};
use crate::texts::{SIX, UpdateBy, sketch_of, update, write_sketch};
use crate::trial::Trial;
use datasketches::error::Error;
use datasketches::frequencies::{ErrorType, Row};

/// Plays the trial with this name.
pub fn play(trial: &mut Trial, call: &str) {
    match call {
        "update" => play_update(trial, UpdateBy::Value),
        "update_ref" => play_update(trial, UpdateBy::Reference),
        "update_with_count_ref" => play_update(trial, UpdateBy::ReferenceWithCount(5)),
        "clone_row" => clone_row(trial),
        _ => trial.fail(),
    }
}

/// The strings that are looked up. One of them is not in the sketch.
const ASKED: [&str; 4] = ["a", "b", "c", "g"];

/// Writes a sketch before and after it is updated with a seventh string.
fn play_update(trial: &mut Trial, by: UpdateBy) {
    let Ok(mut sketch) = sketch_of(trial, 64, &SIX) else {
        return trial.fail();
    };
    write_sketch(trial, &sketch, &ASKED);
    let seventh = trial.string("g");
    let updated = refusable!(trial, update(&mut sketch, by, seventh));
    write_outcome(trial, updated);
    trial.write("after\n");
    write_sketch(trial, &sketch, &ASKED);
}

/// Returns the rows of a sketch of one string.
pub fn one_row(trial: &mut Trial) -> Result<Vec<Row<String>>, Error> {
    let sketch = sketch_of(trial, 64, &[("a", 1)])?;
    sketch.frequent_items(ErrorType::NoFalseNegatives)
}

/// Writes a row's clone.
fn write_clone_of_row(trial: &mut Trial, row: &Row<String>) {
    match refusable!(trial, row.try_clone()) {
        Ok(clone) => {
            trial.write("row");
            write_rows(trial, &[clone]);
        }
        Err(e) => write_error(trial, e),
    }
}

fn clone_row(trial: &mut Trial) {
    let Ok(rows) = one_row(trial) else {
        return trial.fail();
    };
    for row in &rows {
        write_clone_of_row(trial, row);
    }
}
