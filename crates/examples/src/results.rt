//! What the examples return, a module for each library.
mod any_sketches;
mod base;
mod bloom;
mod countmin;
mod frequencies;
mod hashes;
mod sessions;
mod tables;
mod texts;
mod windows;

use crate::callers;
use crate::lines::ResultLines;
use std::hash::RandomState;

/// The bytes of a key.
const RANDOM: [u8; 16] = [0, 1, 2, 3, 4, 5, 6, 7, 8, 9, 10, 11, 12, 13, 14, 15];

/// Writes all results.
pub fn write(lines: &mut ResultLines, state: RandomState) {
    base::write(lines, state);
    hashes::write(lines);
    texts::write(lines);
    tables::write(lines);
    bloom::write(lines);
    countmin::write(lines);
    frequencies::write(lines);
    any_sketches::write(lines);
    windows::write(lines, state);
    sessions::write(lines, state);
    write_callers(lines);
}

/// Writes what the callers of docs/CALLING.md return.
fn write_callers(lines: &mut ResultLines) {
    let alloc = lines.alloc;
    lines.show("surely_weighs", &callers::surely_weighs(alloc, 7, 8, 7));
    lines.show("is_in_union", &callers::is_in_union(alloc, 7, 8));
    lines.show("aged_estimate", &callers::aged_estimate(alloc, 7, 9));
}
