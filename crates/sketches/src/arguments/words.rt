//! The words of the command line. One that is not UTF-8 is marked, since no file can be opened by such a name.
use crate::arguments::shown::{DIGITS, Shown};
use clap::ArgMatches;
use sketch_base::from_utf8;
use std::alloc::{AllocError, Global};
use std::env::{Env, FillError};
use std::fmt::Write as _;
use std::io::ErrorKind;
use std::{env, io};

/// The first byte of a word that stands for an argument that is not UTF-8. No argument has it.
const MARK: char = '\0';

/// The maximum number of bytes of an argument, as for the system.
const MAX_BYTES: usize = 1 << 17;

/// Returns the words of the command line. A word that is not UTF-8 is marked, and has `\x` and two digits for each byte that is no
/// printable character of ASCII.
///
/// # Errors
///
/// Returns `OutOfMemory` if an allocation fails, and `InvalidData` if a word that begins with `-` is not UTF-8.
pub fn words_of(rt: &HostRuntime) -> io::Result<Vec<String>> {
    match env::args(rt) {
        Ok(words) => Ok(words.collect(rt.alloc())?),
        Err(error) if error.kind() == ErrorKind::InvalidData => marked_words(rt),
        Err(error) => Err(error),
    }
}

/// Returns the words of the command line, of which some are not UTF-8.
fn marked_words(rt: &HostRuntime) -> io::Result<Vec<String>> {
    let mut words = Vec::new(rt.alloc());
    let mut buffer = vec![in rt.alloc(); 0; MAX_BYTES]?;
    for index in 0..usize::MAX {
        match rt.arg(index, &mut buffer) {
            Ok(len) => {
                let bytes = buffer.get(..len).unwrap_or(b"".as_slice());
                words.push(word_of(rt.alloc(), bytes)?)?;
            }
            Err(FillError::NotPresent) => return Ok(words),
            Err(FillError::TooLong) => break,
        }
    }
    Err(io::Error::from(ErrorKind::InvalidData))
}

/// Returns the word of an argument.
fn word_of(alloc: Global, bytes: &[u8]) -> io::Result<String> {
    match from_utf8(bytes) {
        Ok(text) => Ok(String::from_str(alloc, text)?),
        Err(_) if bytes.first() == Some(&b'-') => Err(io::Error::from(ErrorKind::InvalidData)),
        Err(_) => Ok(marked_word(alloc, bytes)?),
    }
}

/// Returns the marked word of an argument that is not UTF-8.
fn marked_word(alloc: Global, bytes: &[u8]) -> Result<String, AllocError> {
    let mut word = String::new(alloc);
    word.push(MARK)?;
    for byte in bytes {
        if byte.is_ascii_graphic() || *byte == b' ' {
            word.push(char::from(*byte))?;
        } else {
            word.push_str("\\x")?;
            word.push(char::from(DIGITS[usize::from(*byte / 16)]))?;
            word.push(char::from(DIGITS[usize::from(*byte % 16)]))?;
        }
    }
    Ok(word)
}

/// Returns whether a word stands for an argument that is not UTF-8.
pub fn is_marked(word: &str) -> bool {
    word.starts_with(MARK)
}

/// Returns a word as messages show it.
pub fn shown(word: &str) -> Shown<'_> {
    Shown {
        text: word.strip_prefix(MARK).unwrap_or(word),
    }
}

/// Returns words as messages show them.
pub fn shown_words(alloc: Global, words: &[String]) -> Result<Vec<String>, AllocError> {
    let mut all = Vec::new(alloc);
    for word in words {
        let mut text = String::new(alloc);
        write!(text, "{}", shown(word.as_str()))?;
        all.push(text)?;
    }
    Ok(all)
}

/// Returns the last marked word, if there are more than `matches` has as names of files.
pub fn stray_word<'w>(words: &'w [String], matches: &ArgMatches<'_>) -> Option<&'w str> {
    let mut last = None;
    let mut count: usize = 0;
    for word in words.get(1..).unwrap_or(&[]) {
        if is_marked(word.as_str()) {
            count = count.saturating_add(1);
            last = Some(word.as_str());
        }
    }
    let files = matches.get_strs("files").unwrap_or(&[]);
    if count > files.iter().filter(|name| is_marked(name)).count() {
        last
    } else {
        None
    }
}
