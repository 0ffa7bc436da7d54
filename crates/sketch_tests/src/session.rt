//! A run of a session over commands of all kinds.
use crate::commands::{Does, Row, commands};
use crate::output::{write_error, write_replies};
use crate::trial::{Trial, counted};
use datasketches::{Command, Session};

/// A string that is kept on the heap.
const LONG: &str = "a longer item, not kept in place";

/// Commands of all kinds.
const ALL: [Row; 68] = [
    // sketches of all four kinds
    ("f", Does::CreateFrequent(8), ""),
    ("g", Does::CreateFrequent(64), ""),
    ("c", Does::CreateCountU64(16), ""),
    ("i", Does::CreateCountI64(16), ""),
    ("b", Does::CreateBloom(2), ""),
    ("d", Does::CreateBloom(2), ""),
    // the one purge has no choice, since all counts are 3; all weights in `g` differ
    ("f", Does::Add(3), "p"),
    ("g", Does::Add(1), "p"),
    ("b", Does::Insert, "p"),
    ("f", Does::Add(3), "q"),
    ("g", Does::Add(2), "q"),
    ("b", Does::Insert, "q"),
    ("f", Does::Add(3), "r"),
    ("g", Does::Add(4), "r"),
    ("b", Does::Insert, "r"),
    ("f", Does::Add(3), "s"),
    ("g", Does::Add(8), "s"),
    ("b", Does::Insert, "s"),
    ("f", Does::Add(3), "t"),
    ("g", Does::Add(16), "t"),
    ("b", Does::Insert, "t"),
    ("f", Does::Add(3), "u"),
    ("g", Does::Add(32), "u"),
    ("b", Does::Insert, "u"),
    ("f", Does::Add(3), "v"),
    ("g", Does::Add(64), "v"),
    ("b", Does::Insert, "v"),
    ("g", Does::Add(200), "q"),
    ("f", Does::Add(200), "q"),
    ("c", Does::Add(200), "q"),
    ("d", Does::Insert, "q"),
    ("g", Does::Add(400), "r"),
    ("f", Does::Add(400), "r"),
    ("c", Does::Add(400), "r"),
    ("d", Does::Insert, "r"),
    ("g", Does::Add(800), LONG),
    ("f", Does::Add(800), LONG),
    ("c", Does::Add(800), LONG),
    ("d", Does::Insert, LONG),
    ("i", Does::AddSigned(-7), "q"),
    // images, and sketches that are read from them
    ("f", Does::Save, "f"),
    ("f", Does::ShowImage, ""),
    ("g", Does::Save, "g"),
    ("g", Does::ShowImage, ""),
    ("c", Does::Save, "c"),
    ("c", Does::ShowImage, ""),
    ("i", Does::Save, "i"),
    ("i", Does::ShowImage, ""),
    ("b", Does::Save, "b"),
    ("b", Does::ShowImage, ""),
    ("f", Does::Restore, "f2"),
    ("g", Does::Restore, "g2"),
    ("c", Does::Restore, "c2"),
    ("i", Does::Restore, "i2"),
    ("b", Does::Restore, "b2"),
    // merges and set operations, and changes of weights and sets
    ("f", Does::Merge, "f2"),
    ("g", Does::Merge, "g2"),
    ("c", Does::Merge, "c2"),
    ("i", Does::Merge, "i2"),
    ("c", Does::Merge, "i"),
    ("b", Does::Union, "d"),
    ("b2", Does::Intersect, "b"),
    ("d", Does::Difference, "b2"),
    ("c2", Does::Halve, ""),
    ("c", Does::Decay(1, 3), ""),
    ("f2", Does::Reset, ""),
    ("g", Does::ListRows, ""),
    ("f", Does::ListRows, ""),
];

/// Commands that show the images, and a report.
const IMAGES_AND_ROWS: [Row; 6] = [
    ("f", Does::ShowImage, ""),
    ("g", Does::ShowImage, ""),
    ("c", Does::ShowImage, ""),
    ("i", Does::ShowImage, ""),
    ("b", Does::ShowImage, ""),
    ("g", Does::ListRows, ""),
];

/// Returns all commands except those at the given indices.
fn all_but(trial: &mut Trial, left_out: &[usize]) -> Vec<Command<String>> {
    let mut kept = Vec::new(trial.alloc);
    for (place, row) in ALL.iter().enumerate() {
        if !left_out.contains(&place) {
            trial.check(kept.push(*row));
        }
    }
    commands(trial, &kept)
}

/// Runs the commands, and marks their allocations to be counted.
fn run(trial: &mut Trial, session: &mut Session<String>, commands: Vec<Command<String>>) {
    match counted!(trial, session.run(commands)) {
        Ok(replies) => write_replies(trial, &replies),
        Err(e) => {
            trial.write("run ");
            write_error(trial, e);
        }
    }
}

/// Runs commands that look something up, and writes their replies.
fn ask(trial: &mut Trial, session: &mut Session<String>, questions: &[Row]) {
    let questions = commands(trial, questions);
    match session.run(questions) {
        Ok(replies) => write_replies(trial, &replies),
        Err(_) => trial.fail(),
    }
}

/// Looks up the status of each sketch and the items in it, and then the images and a report.
fn ask_all(trial: &mut Trial, session: &mut Session<String>) {
    for name in ["f", "g", "c", "i", "b", "d", "f2", "g2", "c2", "i2", "b2"] {
        let questions = [
            (name, Does::GetStatus, ""),
            (name, Does::Ask, "p"),
            (name, Does::Ask, "q"),
            (name, Does::Ask, "r"),
            (name, Does::Ask, LONG),
        ];
        ask(trial, session, &questions);
    }
    ask(trial, session, &IMAGES_AND_ROWS);
}

/// Runs all commands except those at the given indices, and then looks everything up.
pub fn session(trial: &mut Trial, left_out: &[usize]) {
    let commands = all_but(trial, left_out);
    let mut session = Session::new(trial.alloc);
    run(trial, &mut session, commands);
    trial.write("then\n");
    ask_all(trial, &mut session);
}
