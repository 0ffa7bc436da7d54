//! Four small callers of the sketches, each with its own contract. The contracts are proved from the public contracts
//! of the sketches alone. The program runs each caller as a job over lines ([`jobs`]).
#![tactic(auto)]

mod admission;
mod group_by;
mod jobs;
mod join_prefilter;
mod takedown;

use anyhow::{Result, bail};
use std::io::Read;

fn main(rt: HostRuntime) -> Result<()> {
    let mut words = std::env::args(&rt)?.skip(1);
    let Some(job) = words.next() else {
        bail!("which job?");
    };
    let mut numbers = Vec::new(rt.alloc());
    for word in words {
        numbers.push(word.parse::<u64>()?)?;
    }
    let mut text = String::new(rt.alloc());
    rt.reader().read_to_string(&mut text)?;
    let mut report = String::new(rt.alloc());
    jobs::run(
        rt.alloc(),
        job.as_str(),
        &numbers,
        text.as_str(),
        &mut report,
    )?;
    rt.print(report.as_str())?;
    Ok(())
}
