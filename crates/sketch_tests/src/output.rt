//! Sketches and results of calls as words.
use crate::trial::Trial;
use datasketches::error::{Error, ErrorKind};
use datasketches::frequencies::{FrequentItemsSketch, ReversePurgeItemHashMap, Row};
use datasketches::{Refusal, Reply};
use std::fmt::{Debug, Display};
use std::hash::Hash;

/// Writes whether a call succeeded, and its error if it did not.
pub fn write_outcome<V: Drop>(trial: &mut Trial, answer: Result<V, Error>) {
    match answer {
        Ok(_) => trial.write("accepted\n"),
        Err(e) => write_error(trial, e),
    }
}

/// Writes an error.
pub fn write_error(trial: &mut Trial, error: Error) {
    trial.write("refused ");
    trial.write(kind_of(error));
    trial.write_value(" ", &error.fault().name());
    trial.write("\n");
}

/// Returns the name of the kind of an error.
pub fn kind_of(error: Error) -> &'static str {
    match error.kind() {
        ErrorKind::InvalidArgument => "argument",
        ErrorKind::InvalidData => "data",
        ErrorKind::OutOfMemory => "memory",
    }
}

/// Returns the name of the fault of an error, or `none` if the call succeeded.
pub fn fault_of<V: Drop>(answer: Result<V, Error>) -> &'static str {
    match answer {
        Ok(_) => "none",
        Err(e) => e.fault().name(),
    }
}

/// Writes a line of a word and values after it.
pub fn write_values<V: Display>(trial: &mut Trial, word: &str, values: &[V]) {
    begin_values(trial, word, values);
    trial.write("\n");
}

/// Writes a word and values after it, without an end of line.
pub fn begin_values<V: Display>(trial: &mut Trial, word: &str, values: &[V]) {
    trial.write(word);
    for value in values {
        trial.write_value(" ", value);
    }
}

/// Writes a sketch's numbers, without an end of line.
pub fn begin_frequent<T: Eq + Hash + Drop>(trial: &mut Trial, sketch: &FrequentItemsSketch<T>) {
    let numbers = [
        sketch.num_active_items() as u64,
        sketch.maximum_error(),
        sketch.total_weight(),
        sketch.current_map_capacity() as u64,
        sketch.max_map_size() as u64,
    ];
    begin_values(trial, "frequent", &numbers);
}

/// Writes an item's estimate and bounds.
pub fn write_bounds<T: Eq + Hash + Drop>(
    trial: &mut Trial,
    sketch: &FrequentItemsSketch<T>,
    item: &T,
) {
    trial.write_value(" ", &sketch.estimate(item));
    trial.write_value("/", &sketch.lower_bound(item));
    trial.write_value("/", &sketch.upper_bound(item));
}

/// Writes a table's numbers, and the counts of the items.
pub fn write_table<T: Eq + Hash + Drop>(
    trial: &mut Trial,
    map: &ReversePurgeItemHashMap<T>,
    items: &[T],
) {
    begin_values(trial, "table", &[map.num_active(), map.len()]);
    for item in items {
        trial.write_value(" ", &map.get(item));
    }
    trial.write("\n");
}

/// Writes the number of bytes, and their sum.
pub fn write_bytes(trial: &mut Trial, bytes: &[u8]) {
    let mut sum = 0u64;
    for byte in bytes {
        sum = sum.wrapping_add(*byte as u64);
    }
    write_values(trial, "bytes", &[bytes.len() as u64, sum]);
}

/// Writes rows up to the end of a line: each item and its estimate.
pub fn write_rows(trial: &mut Trial, rows: &[Row<String>]) {
    for row in rows {
        trial.write_value(" ", row.item());
        trial.write_value("=", &row.estimate());
    }
    trial.write("\n");
}

/// Writes the replies to commands.
pub fn write_replies(trial: &mut Trial, replies: &[Reply<String>]) {
    for reply in replies {
        write_reply(trial, reply);
    }
}

/// Writes the reply to a command.
fn write_reply(trial: &mut Trial, reply: &Reply<String>) {
    match reply {
        Reply::Done => trial.write("done\n"),
        Reply::Bounds {
            estimate,
            lower,
            upper,
        } => write_values(trial, "bounds", &[*estimate, *lower, *upper]),
        Reply::Contains(found) => write_values(trial, "contains", &[*found]),
        Reply::Status(status) => write_debug(trial, "", status),
        Reply::Rows(rows) => {
            trial.write("rows");
            write_rows(trial, rows);
        }
        Reply::Image(bytes) => write_bytes(trial, bytes),
        Reply::Refused(Refusal::Call(error)) => write_error(trial, *error),
        Reply::Refused(refusal) => write_debug(trial, "refused ", refusal),
    }
}

/// Writes a line of a string and the debug output of a value after it.
pub fn write_debug<V: Debug>(trial: &mut Trial, before: &str, value: &V) {
    trial.write_value(before, &format_args!("{value:?}\n"));
}
