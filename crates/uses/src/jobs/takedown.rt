//! Keeps a takedown list by lines.
use crate::takedown::TakedownList;
use anyhow::{Result, bail};
use sketch_bloom::BloomFilterBuilder;
use std::alloc::{AllocError, Global};

/// Runs the lines of a list, and prints the results of its questions.
pub fn run(alloc: Global, numbers: &[u64], text: &str, report: &mut String) -> Result<()> {
    let [bits, hashes] = numbers else {
        bail!("takedown BITS HASHES");
    };
    let builder = BloomFilterBuilder::with_size(*bits, u16::try_from(*hashes)?);
    let mut list = TakedownList::new(alloc, builder)?;
    do_lines(alloc, &mut list, text, report)
}

fn do_lines(alloc: Global, list: &mut TakedownList, text: &str, report: &mut String) -> Result<()> {
    for line in text.lines() {
        do_line(alloc, list, line, report)?;
    }
    Ok(())
}

/// Runs a line `refuse ITEM ..`, `back ITEM ..` or `ask ITEM ..`.
fn do_line(alloc: Global, list: &mut TakedownList, line: &str, report: &mut String) -> Result<()> {
    let mut words = line.split_whitespace();
    let kind = words.next();
    let items = words.collect::<Vec<_>>(alloc)?;
    do_to_items(list, kind, &items, report)
}

/// Applies the verb to the items after it.
fn do_to_items(
    list: &mut TakedownList,
    kind: Option<&str>,
    items: &[&str],
    report: &mut String,
) -> Result<()> {
    match kind {
        Some("refuse") => refuse(list, items),
        Some("back") => list.take_back(items)?,
        Some("ask") => answer(list, items, report)?,
        _ => bail!("neither refuse nor back nor ask"),
    }
    Ok(())
}

/// Adds each item to the list.
fn refuse(list: &mut TakedownList, items: &[&str]) {
    for item in items {
        list.refuse(*item);
    }
}

/// Prints for each item whether it is rejected.
fn answer(list: &TakedownList, items: &[&str], report: &mut String) -> Result<(), AllocError> {
    for item in items {
        let answer = if list.is_refused(item) {
            "refused\n"
        } else {
            "free\n"
        };
        report.push_str(answer)?;
    }
    Ok(())
}
