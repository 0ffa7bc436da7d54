//! The sizes of files, and about how many lines they have.
use crate::read::files::open;
use std::io;
use std::io::Read;
use std::rt::Files;

/// The number of bytes at the front of a file whose lines are counted.
const FRONT: usize = 1 << 16;

/// Returns the number of bytes of a regular file, or `None` if no regular file has this name.
pub fn size_of_file(rt: &HostRuntime, name: &str) -> Option<u64> {
    if name == "-" {
        return None;
    }
    match rt.metadata(name) {
        Ok(metadata) if metadata.is_file() => Some(metadata.len()),
        _ => None,
    }
}

/// Returns the number of bytes of all these files, at most `u64::MAX`, or `None` if one of them is no regular file.
pub fn size_of_files(rt: &HostRuntime, names: &[&str]) -> Option<u64> {
    let mut bytes: u64 = 0;
    for name in names {
        bytes = bytes.saturating_add(size_of_file(rt, name)?);
    }
    Some(bytes)
}

/// Returns about how many lines all these files have, with a quarter more, or `None` if one of them is no regular file.
///
/// It counts the lines in the first bytes of each file, and takes the rest of the file to have lines of the same mean length. A file that
/// cannot be read has no lines.
pub fn lines_of_files(rt: &HostRuntime, names: &[&str]) -> Option<u64> {
    let mut buffer = match vec![in rt.alloc(); 0; FRONT] {
        Ok(buffer) => buffer,
        Err(_) => return None,
    };
    let mut lines: u64 = 0;
    for name in names {
        let bytes = size_of_file(rt, name)?;
        let (read, ended) = front_of(rt, name, &mut buffer).unwrap_or((0, 0));
        lines = lines.saturating_add(scaled(ended, bytes, read));
    }
    Some(lines.saturating_add(lines / 4))
}

/// Returns the number of lines of a file of this number of bytes, of which `read` were read that end `ended` lines.
fn scaled(ended: u64, bytes: u64, read: u64) -> u64 {
    if read == 0 {
        return 0;
    }
    let lines = u128::from(ended.saturating_add(1)) * u128::from(bytes.max(read))
        / u128::from(read);
    u64::try_from(lines).unwrap_or(u64::MAX)
}

/// Reads the first bytes of a file. Returns their number, and how many of them are line feeds.
fn front_of(rt: &HostRuntime, name: &str, buffer: &mut Vec<u8>) -> io::Result<(u64, u64)> {
    let mut file = open(rt, name)?;
    let count = file.read(buffer.as_mut_slice())?;
    let feeds = buffer
        .iter()
        .take(count)
        .filter(|byte| **byte == b'\n')
        .count();
    Ok((count as u64, feeds as u64))
}
