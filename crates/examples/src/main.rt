//! The examples of pages and docs, which `tests/docs/examples.py` writes into modules, and a program that prints what they return.
//!
//! The file `stdout` has the lines that are expected. They were written by hand; hashes are those of programs in another language.
#![tactic(auto)]

mod any_sketch_docs;
mod callers;
mod counter_table_docs;
mod datasketches_docs;
mod heavy_windows_docs;
mod lines;
mod pages;
mod results;
mod sketch_base_docs;
mod sketch_bloom_docs;
mod sketch_countmin_docs;
mod sketch_frequencies_docs;
mod sketch_text_docs;

use lines::ResultLines;
use std::hash::RandomState;
use std::process::ExitCode;

fn main(rt: HostRuntime) -> ExitCode {
    let mut lines = ResultLines::new(rt.alloc());
    let Ok(state) = RandomState::new(&rt) else {
        return ExitCode::from(3);
    };
    results::write(&mut lines, state);
    match lines.text() {
        Some(text) if rt.print(text).is_ok() => ExitCode::SUCCESS,
        _ => ExitCode::from(3),
    }
}
