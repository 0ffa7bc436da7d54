//! The callers as jobs over lines, to try them on your own data.
//!
//! The first argument names the job, and the others are numbers. The program reads all lines of standard input, then
//! prints a report.
//!
//! | job | lines | report |
//! |---|---|---|
//! | `group-by SIZE THRESHOLD` | `SHARD WEIGHT GROUP` | the heavy groups of all shards, heaviest first, with bounds and a bar |
//! | `join-prefilter BITS HASHES` | `key PART KEY`, `row KEY VALUE`, all numbers | the rows that may join |
//! | `takedown BITS HASHES` | `refuse ITEM ..`, `back ITEM ..`, `ask ITEM ..` | `refused` or `free` for each item of `ask` |
//! | `admission HASHES BUCKETS WINDOW CAPACITY` | `ITEM`, a number | the number of cache hits, with admission and without |
//!
//! The status is 0. If a job rejects its numbers or lines, the status is 1, with a message and no report.
mod admission;
mod group_by;
mod join_prefilter;
mod takedown;
mod words;

use anyhow::{Result, bail};
use std::alloc::Global;

/// Runs the job of this name. Returns an error if there is none, and the job's own errors.
pub fn run(
    alloc: Global,
    job: &str,
    numbers: &[u64],
    text: &str,
    report: &mut String,
) -> Result<()> {
    match job {
        "group-by" => group_by::run(alloc, numbers, text, report),
        "join-prefilter" => join_prefilter::run(alloc, numbers, text, report),
        "takedown" => takedown::run(alloc, numbers, text, report),
        "admission" => admission::run(alloc, numbers, text, report),
        _ => bail!("there is no such job"),
    }
}
