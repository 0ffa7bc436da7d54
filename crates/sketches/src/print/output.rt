//! Outputs, of which it is known with which error a write failed.
ghost use Rattle.std.specs.Prelude.{◌≡◌, ◌<◌, ℕ, List, Option, None, Some, IfErr, OnErr, OnOk, length};
ghost use Rattle.std.specs.Io.{WritesAtMost};
ghost use Rattle.std.specs.Io.KnownBytes.{Appends, WriteAppends};
ghost use Rattle.std.specs.declared.io.Error.{Error};
ghost use Rattle.sketches.specs.Outputs.{WritesFront};

use std::io;
use std::io::{ErrorKind, Write};

/// What a run writes to.
pub trait Output {
    // The bytes that were written, where they are known.
    ghost contents: { Self → Option (List ℕ) } = { λ _. None };

    // The error of the last write that failed, if any.
    ghost failure: { Self → Option Error };

    /// Writes all bytes.
    ///
    /// # Errors
    ///
    /// Returns the error of a write that fails. Bytes before may have been written.
    fn write_all(&mut self, bytes: &[u8]) -> io::Result<()>
        ensures written { OnOk result (Appends (contents self.old) (contents self.new) bytes.now) }
        ensures kept { OnOk result (failure self.new ≡ failure self.old) }
        ensures front { OnErr result (WritesFront (contents self.old) (contents self.new) bytes.now) }
        ensures failed { IfErr result (λ error. failure self.new ≡ Some error) };
}

/// A writer, and the error of the last of its writes that failed.
#[derive(Drop)]
pub struct Watched<W> {
    inner: W,
    failure: Option<io::Error>,
}

impl<W: Write> Watched<W> {
    /// Watches a writer from now on.
    pub fn new(inner: W) -> Self
        ensures { result ≡ record { inner = inner; failure = None } }
    {
        Watched {
            inner,
            failure: None,
        }
    }

    /// Writes some of the bytes. Returns their number, which is 0 if a signal interrupted the write.
    ///
    /// # Errors
    ///
    /// Returns an error if the write fails, or if the writer takes no byte.
    fn write_some(&mut self, bytes: &[u8]) -> io::Result<usize>
        ensures bound { WritesAtMost result bytes.now }
        ensures bytes { WriteAppends (W.contents self.old.inner) (W.contents self.new.inner) result bytes.now }
        ensures kept { OnOk result (self.new.failure ≡ self.old.failure) }
        ensures failed { IfErr result (λ error. self.new.failure ≡ Some error) }
    {
        match self.inner.write(bytes) {
            Ok(count) if count > 0 => Ok(count),
            Ok(_) => Err(self.noted(io::Error::from(ErrorKind::WriteZero))),
            Err(error) if error.kind() == ErrorKind::Interrupted => Ok(0),
            Err(error) => Err(self.noted(error)),
        }
    }

    /// Returns the error of a write, after it is noted.
    fn noted(&mut self, error: io::Error) -> io::Error
        ensures kept { self.new.inner ≡ self.old.inner }
        ensures noted { self.new.failure ≡ Some error }
        ensures same { result ≡ error }
    {
        self.failure = Some(error);
        error
    }
}

impl<W: Write> Output for Watched<W> {
    ghost contents = { λ w. W.contents w.inner };

    ghost failure = { λ w. w.failure };

    fn write_all(&mut self, bytes: &[u8]) -> io::Result<()> {
        let mut rest = bytes;
        'each: for _ in 0..u64::MAX {
            if rest.is_empty() {
                return Ok(());
            }
            let count = match self.write_some(rest) {
                Ok(count) => count,
                Err(error) => return Err(error),
            };
            rest = &rest[count..];
        }
        Err(self.noted(io::Error::from(ErrorKind::Interrupted)))
    }
}
