//! The progress of reading, on a terminal.
use crate::read::file_sizes::size_of_files;
use std::io::IsTerminal;
use std::time::Instant;

/// The number of bytes of a MB.
const MEGABYTE: u64 = 1_000_000;

/// How many bytes of the files of a run were read. Standard error shows it while a run takes more than a second.
#[derive(Clone, Copy)]
pub struct Progress<'r> {
    rt: &'r HostRuntime,
    start: Instant,
    read: u64,
    total: u64,
    /// The number of seconds after the start at which it was shown last.
    shown: u64,
}

impl<'r> Progress<'r> {
    /// Starts with files of these names. Returns `None` if standard error is no terminal, or if one of the files is not regular.
    pub fn start(rt: &'r HostRuntime, names: &[&str]) -> Option<Self> {
        if !rt.stderr().is_terminal() {
            return None;
        }
        let total = size_of_files(rt, names)?;
        match Instant::now(rt) {
            Ok(start) => Some(Progress {
                rt,
                start,
                read: 0,
                total,
                shown: 0,
            }),
            Err(_) => None,
        }
    }

    /// Returns the progress after a file of this number of bytes.
    pub fn after(self, bytes: u64) -> Self {
        Progress {
            read: self.read.saturating_add(bytes),
            ..self
        }
    }

    /// Adds bytes that were read. Removes the line at the end of a file, where no bytes are read.
    pub fn add(&mut self, bytes: u64) {
        self.read = self.read.saturating_add(bytes);
        if bytes == 0 {
            self.remove();
            return;
        }
        let Ok(elapsed) = self.start.elapsed(self.rt) else {
            return;
        };
        if elapsed.as_secs() > self.shown {
            self.shown = elapsed.as_secs();
            let _ = eprint!(self.rt;
                "\x1b[Ksketches: {} of {} MB\r",
                self.read / MEGABYTE,
                self.total / MEGABYTE
            );
        }
    }

    /// Removes the line.
    fn remove(&self) {
        if self.shown > 0 {
            let _ = eprint!(self.rt; "\x1b[K");
        }
    }
}
