//! Where an image is saved: beside its file, under a name that no other file has, and then renamed.
use crate::image::image_file::Saved;
use crate::image::save::SaveFailure;
use crate::image::stale_images::remove_stale;
use std::fs::{File, Permissions, TryLockError};
use std::io::ErrorKind;
use std::os::unix::fs::{MetadataExt, OpenOptionsExt};
use std::path::Path;
use std::random::RandomSource;
use std::rt::Files;
use std::{fs, io};

/// The maximum number of symbolic links that lead to a file, as for the system.
const MAX_LINKS: u32 = 40;

/// The maximum number of names that are tried for a new file.
const MAX_TRIES: u32 = 16;

/// The mode of a file until it has that of the file that it replaces: its owner alone reads and writes it.
const PRIVATE: u32 = 0o600;

/// The mode of a new file, of which the system takes away what the user's mask has.
const DEFAULT: u32 = 0o666;

/// Returns the name of the file to which a name leads over symbolic links. There may be no such file.
pub fn target_of(rt: &HostRuntime, name: &str) -> io::Result<String> {
    let mut target = format!(in rt.alloc(); "{name}")?;
    for _ in 0..MAX_LINKS {
        let Ok(link) = fs::read_link(rt, target.as_str()) else {
            return Ok(target);
        };
        target = beside(rt, target.as_str(), link.as_str())?;
    }
    Err(io::Error::from(ErrorKind::InvalidInput))
}

/// Returns the path that a link in the folder of a file names.
fn beside(rt: &HostRuntime, name: &str, link: &str) -> io::Result<String> {
    let Some(folder) = Path::new(name).parent() else {
        return Ok(format!(in rt.alloc(); "{link}")?);
    };
    let path = folder.join(rt.alloc(), link)?;
    let text = path.as_str();
    Ok(format!(in rt.alloc(); "{text}")?)
}

/// Writes an image of the value beside a file, and renames it. It then has the mode of the file that it replaces.
pub fn replace<S: Saved>(rt: &HostRuntime, value: &S, name: &str) -> Result<(), SaveFailure> {
    let kept = match rt.metadata(name) {
        Ok(metadata) => Some(metadata.permissions()),
        Err(_) => None,
    };
    let (file, from) = create_beside(rt, name, kept.is_some())?;
    let saved = fill(rt, value, file, kept, from.as_str(), name);
    if saved.is_err() {
        let _ = fs::remove_file(rt, from.as_str());
    }
    saved
}

/// Creates a file beside another one, under a new name: never over a file, and never through a link. Locks it, so that no other run
/// takes it for one that a run has left. Removes such files.
pub fn create_beside(rt: &HostRuntime, name: &str, is_private: bool) -> io::Result<(File, String)> {
    let mode = if is_private { PRIVATE } else { DEFAULT };
    for _ in 0..MAX_TRIES {
        let from = new_name(rt, name)?;
        let created = File::options()
            .write(true)
            .create_new(true)
            .mode(mode)
            .open(rt, from.as_str());
        match created {
            Ok(file) if is_ours(rt, &file, from.as_str()) => {
                remove_stale(rt, name, &file);
                return Ok((file, from));
            }
            Ok(_) => continue,
            Err(error) if error.kind() == ErrorKind::AlreadyExists => continue,
            Err(error) => return Err(error),
        }
    }
    Err(io::Error::from(ErrorKind::AlreadyExists))
}

/// Locks a new file. Returns whether no other run took it before. A file system without locks has no run that does.
fn is_ours(rt: &HostRuntime, file: &File, name: &str) -> bool {
    match file.try_lock() {
        Ok(()) => has_name(rt, file, name),
        Err(TryLockError::WouldBlock) => false,
        Err(TryLockError::Error(_)) => true,
    }
}

/// Returns whether an open file still has its name: another run may have removed or replaced it before it was locked.
pub fn has_name(rt: &HostRuntime, file: &File, name: &str) -> bool {
    match (file.metadata(), rt.metadata(name)) {
        (Ok(open), Ok(named)) => open.dev() == named.dev() && open.ino() == named.ino(),
        _ => false,
    }
}

/// Returns a name with random digits after another one.
fn new_name(rt: &HostRuntime, name: &str) -> io::Result<String> {
    let mut bytes = [0; 8];
    rt.fill_bytes(&mut bytes)?;
    let digits = u64::from_le_bytes(bytes);
    Ok(format!(in rt.alloc(); "{name}.{digits:016x}.tmp")?)
}

/// Writes an image of the value to a file, gives it permissions, and renames it.
fn fill<S: Saved>(
    rt: &HostRuntime,
    value: &S,
    mut file: File,
    kept: Option<Permissions>,
    from: &str,
    to: &str,
) -> Result<(), SaveFailure> {
    value.write(&mut file)?;
    if let Some(permissions) = kept {
        file.set_permissions(permissions)?;
    }
    file.sync_all()?;
    fs::rename(rt, from, to)?;
    Ok(())
}
