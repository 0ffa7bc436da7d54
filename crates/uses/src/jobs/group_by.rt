//! Prints the heavy groups of many shards.
use crate::group_by::GroupSums;
use crate::jobs::words::{next_index, next_number};
use anyhow::{Context, Result, bail};
use sketch_base::Error;
use sketch_frequencies::Row;
use std::alloc::{AllocError, Global};
use std::fmt::Write;

/// The maximum number of shards.
const MAX_SHARDS: usize = 1024;

/// The limit of bytes of an image's sketch.
const MAX_BYTES: usize = 1 << 30;

/// The length of the heaviest group's bar.
const LONGEST_BAR: u64 = 40;

/// The sums of the shards, each in a sketch of one size.
#[derive(Drop)]
struct Shards {
    alloc: Global,
    size: usize,
    sums: Vec<GroupSums<String>>,
}

/// Sums the rows of each shard, merges the sums, and prints the heavy groups.
pub fn run(alloc: Global, numbers: &[u64], text: &str, report: &mut String) -> Result<()> {
    let [size, threshold] = numbers else {
        bail!("group-by SIZE THRESHOLD");
    };
    let mut shards = Shards {
        alloc,
        size: usize::try_from(*size)?,
        sums: Vec::new(alloc),
    };
    shards.add_rows(text)?;
    let all = shards.merged()?;
    write_report(&all, *threshold, report)
}

impl Shards {
    /// Adds each line `SHARD WEIGHT GROUP`.
    fn add_rows(&mut self, text: &str) -> Result<()> {
        for line in text.lines() {
            self.add_row(line)?;
        }
        Ok(())
    }

    fn add_row(&mut self, line: &str) -> Result<()> {
        let mut words = line.split_whitespace();
        let shard = next_index(&mut words, MAX_SHARDS)?;
        let weight = next_number(&mut words)?;
        let group = words.next().context("a short line")?;
        self.make_up_to(shard)?;
        if let Some(sums) = self.sums.get_mut(shard) {
            sums.add(String::from_str(self.alloc, group)?, weight)?;
        }
        Ok(())
    }

    /// Creates all shards up to this index.
    fn make_up_to(&mut self, last: usize) -> Result<(), Error> {
        for _ in self.sums.len()..=last {
            self.sums.push(GroupSums::new(self.alloc, self.size)?)?;
        }
        Ok(())
    }

    /// Returns the merged sums of all shards, by their images.
    fn merged(&self) -> Result<GroupSums<String>, Error> {
        let mut all = GroupSums::new(self.alloc, self.size)?;
        for sums in &self.sums {
            merge_image_of(self.alloc, &mut all, sums)?;
        }
        Ok(all)
    }
}

/// Merges the sums of a shard by their image.
fn merge_image_of(
    alloc: Global,
    all: &mut GroupSums<String>,
    shard: &GroupSums<String>,
) -> Result<(), Error> {
    let image = shard.image()?;
    let shard = GroupSums::from_image(alloc, &image, MAX_BYTES)?;
    all.merge(&shard)
}

/// Prints the heavy groups, heaviest first.
fn write_report(all: &GroupSums<String>, threshold: u64, report: &mut String) -> Result<()> {
    let rows = all.heavy_groups(threshold)?;
    write_rows(&rows, report)?;
    let error = all.maximum_error();
    let total = all.total_weight();
    writeln!(report, "groups {} error {error} total {total}", rows.len())?;
    Ok(())
}

fn write_rows(rows: &[Row<String>], report: &mut String) -> Result<(), AllocError> {
    let mut most = 0;
    for row in rows {
        most = row.upper_bound().max(most);
        write_row(row, most, report)?;
    }
    Ok(())
}

/// Prints a group with its bounds and a bar as long as its lower bound is a share of the largest upper bound.
fn write_row(row: &Row<String>, most: u64, report: &mut String) -> Result<(), AllocError> {
    let lower_bound = row.lower_bound();
    let upper_bound = row.upper_bound();
    write!(report, "{} {lower_bound} {upper_bound} ", row.item())?;
    for _ in 0..lower_bound / (most / LONGEST_BAR + 1) {
        report.push('#')?;
    }
    report.push('\n')
}
