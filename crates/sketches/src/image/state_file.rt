//! The file that keeps the filter of `uniq` between runs. One run at a time uses it.
use crate::arguments::words::shown;
use crate::image::filter_image::read_filter;
use crate::image::image_file::{is_special, report, save};
use crate::image::image_place::{create_beside, has_name, target_of};
use crate::image::images::ImageFailure;
use crate::image::save::{SaveFailure, write_filter};
use sketch_bloom::BloomFilter;
use std::fs::{File, TryLockError};
use std::io::ErrorKind;
use std::{fs, io};

/// The maximum number of times that a file is opened until it is locked and still has its name.
const MAX_TRIES: u32 = 1_000_000;

/// A file with the filter of a state, which is locked until this is dropped. A file that is not regular, as a device, is not locked.
#[derive(Drop)]
pub struct StateFile<'r> {
    rt: &'r HostRuntime,
    /// The name over all symbolic links.
    name: String,
    /// The open file, if it is locked.
    locked: Option<File>,
    /// Whether this run has created the file, and has not saved to it.
    is_new: bool,
}

impl<'r> StateFile<'r> {
    /// Locks the file of a name. Waits, after a message, while another run uses it. Returns `None` if there is no file.
    ///
    /// # Errors
    ///
    /// Returns an error if the file cannot be opened or locked.
    pub fn lock(rt: &'r HostRuntime, name: &str) -> io::Result<Option<StateFile<'r>>> {
        let target = target_of(rt, name)?;
        if is_special(rt, target.as_str()) {
            return Ok(Some(StateFile {
                rt,
                name: target,
                locked: None,
                is_new: false,
            }));
        }
        for _ in 0..MAX_TRIES {
            let file = match File::open(rt, target.as_str()) {
                Ok(file) => file,
                Err(error) if error.kind() == ErrorKind::NotFound => return Ok(None),
                Err(error) => return Err(error),
            };
            wait_for(rt, &file, name)?;
            if has_name(rt, &file, target.as_str()) {
                return Ok(Some(StateFile {
                    rt,
                    name: target,
                    locked: Some(file),
                    is_new: false,
                }));
            }
        }
        Err(io::Error::from(ErrorKind::WouldBlock))
    }

    /// Creates the file of a name with an empty filter, and locks it. Returns `None` if there is a file by now.
    ///
    /// # Errors
    ///
    /// Returns those of [`write_filter`], and `Write` if the file cannot be created or locked.
    pub fn create(
        rt: &'r HostRuntime,
        name: &str,
        empty: &BloomFilter,
    ) -> Result<Option<StateFile<'r>>, SaveFailure> {
        let target = target_of(rt, name)?;
        let (mut file, from) = create_beside(rt, target.as_str(), false)?;
        let linked = link(rt, empty, &mut file, from.as_str(), target.as_str());
        let _ = fs::remove_file(rt, from.as_str());
        if !linked? {
            return Ok(None);
        }
        Ok(Some(StateFile {
            rt,
            name: target,
            locked: Some(file),
            is_new: true,
        }))
    }

    /// Returns the filter in the file.
    ///
    /// # Errors
    ///
    /// Returns those of [`read_filter`].
    pub fn load(&self, limit: usize) -> Result<BloomFilter, ImageFailure> {
        let opened = File::open(self.rt, self.name.as_str());
        match read_filter(self.rt.alloc(), limit, opened) {
            Ok(filter) => Ok(filter),
            Err(failure) => Err(failure),
        }
    }

    /// Saves the filter in the file. Reports if it cannot be written. Returns whether it was written.
    pub fn save(&mut self, filter: &BloomFilter) -> bool {
        match save(self.rt, filter, self.name.as_str()) {
            Ok(()) => {
                self.is_new = false;
                true
            }
            Err(failure) => {
                report(self.rt, self.name.as_str(), failure);
                false
            }
        }
    }

    /// Ends the use of the file. Removes it if this run has created it and not saved to it.
    pub fn end(self) {
        let StateFile {
            rt,
            name,
            locked,
            is_new,
        } = self;
        if is_new {
            let _ = fs::remove_file(rt, name.as_str());
        }
        drop(locked);
    }
}

/// Writes the image of an empty filter to a locked file, and gives it a name that no file has. Returns whether it got the name.
fn link(
    rt: &HostRuntime,
    empty: &BloomFilter,
    file: &mut File,
    from: &str,
    to: &str,
) -> Result<bool, SaveFailure> {
    write_filter(empty, file)?;
    file.lock()?;
    match fs::hard_link(rt, from, to) {
        Ok(()) => Ok(true),
        Err(error) if error.kind() == ErrorKind::AlreadyExists => Ok(false),
        Err(error) => Err(SaveFailure::Write(error)),
    }
}

/// Locks an open file. Waits, after a message, while another run has locked it.
fn wait_for(rt: &HostRuntime, file: &File, name: &str) -> io::Result<()> {
    match file.try_lock() {
        Ok(()) => Ok(()),
        Err(TryLockError::WouldBlock) => {
            let _ = eprintln!(rt; "sketches: {}: waiting for another run", shown(name));
            file.lock()
        }
        Err(TryLockError::Error(error)) => Err(error),
    }
}
