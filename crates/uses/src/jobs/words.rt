//! Parses the words of a line.
use anyhow::{Result, bail, ensure};
use std::str::SplitWhitespace;

/// Parses the next word as a number.
pub fn next_number(words: &mut SplitWhitespace<'_>) -> Result<u64> {
    let Some(word) = words.next() else {
        bail!("a short line");
    };
    Ok(word.parse::<u64>()?)
}

/// Parses the next word as an index below a limit.
pub fn next_index(words: &mut SplitWhitespace<'_>, limit: usize) -> Result<usize> {
    let place = usize::try_from(next_number(words)?)?;
    ensure!(place < limit, "a place past the last");
    Ok(place)
}
