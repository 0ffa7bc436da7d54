//! Prunes the rows of one side of a join that have no match on the other.
use crate::jobs::words::{next_index, next_number};
use crate::join_prefilter::{image_of_keys, prune_by_images};
use anyhow::{Result, bail};
use sketch_base::Error;
use sketch_bloom::BloomFilterBuilder;
use std::alloc::{AllocError, Global};
use std::fmt::Write;

/// The maximum number of parts.
const MAX_PARTS: usize = 1024;

/// The two sides of a join: the keys of each part of one, and the rows of the other.
#[derive(Drop)]
struct Sides {
    parts: Vec<Vec<u64>>,
    rows: Vec<(u64, u64)>,
}

/// Writes an image of each part's keys, prunes the rows that cannot join, and prints the others.
pub fn run(alloc: Global, numbers: &[u64], text: &str, report: &mut String) -> Result<()> {
    let [bits, hashes] = numbers else {
        bail!("join-prefilter BITS HASHES");
    };
    let hashes = u16::try_from(*hashes)?;
    let mut sides = Sides {
        parts: Vec::new(alloc),
        rows: Vec::new(alloc),
    };
    for line in text.lines() {
        sides.add_line(alloc, line)?;
    }
    let before = sides.rows.len();
    sides.prune(alloc, *bits, hashes)?;
    write_rows(&sides.rows, before, report)?;
    Ok(())
}

impl Sides {
    /// Adds the key or row of a line `key PART KEY` or `row KEY VALUE`.
    fn add_line(&mut self, alloc: Global, line: &str) -> Result<()> {
        let mut words = line.split_whitespace();
        match words.next() {
            Some("key") => {
                let part = next_index(&mut words, MAX_PARTS)?;
                self.add_key(alloc, part, next_number(&mut words)?)?;
            }
            Some("row") => {
                let key = next_number(&mut words)?;
                self.rows.push((key, next_number(&mut words)?))?;
            }
            _ => bail!("neither key nor row"),
        }
        Ok(())
    }

    /// Adds a key to a part.
    fn add_key(&mut self, alloc: Global, part: usize, key: u64) -> Result<(), AllocError> {
        for _ in self.parts.len()..=part {
            self.parts.push(Vec::new(alloc))?;
        }
        if let Some(keys) = self.parts.get_mut(part) {
            keys.push(key)?;
        }
        Ok(())
    }

    /// Prunes the rows that cannot join.
    fn prune(&mut self, alloc: Global, bits: u64, hashes: u16) -> Result<(), Error> {
        let images = images_of(alloc, bits, hashes, &self.parts)?;
        let builder = BloomFilterBuilder::with_size(bits, hashes);
        prune_by_images(alloc, builder, &images, &mut self.rows)
    }
}

/// Returns an image of each part's keys.
fn images_of(
    alloc: Global,
    bits: u64,
    hashes: u16,
    parts: &[Vec<u64>],
) -> Result<Vec<Vec<u8>>, Error> {
    let mut images = Vec::new(alloc);
    for keys in parts {
        let builder = BloomFilterBuilder::with_size(bits, hashes);
        images.push(image_of_keys(alloc, builder, keys)?)?;
    }
    Ok(images)
}

/// Prints the remaining rows, and their number of all rows.
fn write_rows(rows: &[(u64, u64)], before: usize, report: &mut String) -> Result<(), AllocError> {
    for (key, value) in rows {
        writeln!(report, "{key} {value}")?;
    }
    writeln!(report, "kept {} of {before} rows", rows.len())
}
