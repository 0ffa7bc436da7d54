//! Files beside an image that runs have left which were killed.
use crate::image::image_place::has_name;
use std::fs;
use std::fs::{File, read_dir, symlink_metadata};
use std::os::unix::fs::MetadataExt;
use std::path::Path;

/// The number of hexadecimal digits in the name of a new file.
const DIGITS: usize = 16;

/// The maximum number of names of a folder that are looked at.
const MAX_NAMES: u32 = 100_000;

/// Removes the files beside an image that runs have left which were killed, if they are of the owner of `own`.
///
/// Each run locks its own file, so a file that is not locked has no run. If the folder cannot be listed, nothing is removed.
pub fn remove_stale(rt: &HostRuntime, name: &str, own: &File) {
    let Ok(metadata) = own.metadata() else {
        return;
    };
    let path = Path::new(name);
    let Some(file_name) = path.file_name() else {
        return;
    };
    let folder = match path.parent() {
        Some(folder) if !folder.as_str().is_empty() => folder.as_str(),
        _ => ".",
    };
    let Ok(mut entries) = read_dir(rt, folder) else {
        return;
    };
    for _ in 0..MAX_NAMES {
        match entries.next() {
            None => return,
            Some(Ok(entry)) => {
                if is_new_name(entry.file_name(), file_name) {
                    remove_unlocked(rt, entry.path().as_str(), metadata.uid());
                }
            }
            Some(Err(_)) => continue,
        }
    }
}

/// Returns whether a name is one that a new file beside a file of a name has.
fn is_new_name(name: &str, file_name: &str) -> bool {
    let Some(rest) = name.strip_prefix(file_name) else {
        return false;
    };
    let Some(rest) = rest.strip_prefix('.') else {
        return false;
    };
    match rest.strip_suffix(".tmp") {
        Some(digits) => digits.len() == DIGITS && has_only_digits(digits),
        None => false,
    }
}

/// Returns whether each byte is a hexadecimal digit as a new name has it.
fn has_only_digits(digits: &str) -> bool {
    for byte in digits.as_bytes() {
        if !byte.is_ascii_digit() && !(b'a'..=b'f').contains(byte) {
            return false;
        }
    }
    true
}

/// Removes a regular file of an owner that no run has locked.
fn remove_unlocked(rt: &HostRuntime, path: &str, owner: u32) {
    match symlink_metadata(rt, path) {
        Ok(metadata) if metadata.is_file() && metadata.uid() == owner => {}
        _ => return,
    }
    let Ok(file) = File::open(rt, path) else {
        return;
    };
    if file.try_lock().is_ok() && has_name(rt, &file, path) {
        let _ = fs::remove_file(rt, path);
    }
}
