//! What records are read from.
ghost use Rattle.std.specs.Prelude.{◌≡◌, ◌≢◌, ◌<◌, ℕ, Bool, true, false, List, Option, None, IfErr, IfOk, length};
ghost use Rattle.std.specs.Io.{ReadsAtMost};
ghost use Rattle.std.specs.Io.KnownBytes.{ReadConsumes};
ghost use Rattle.std.specs.IoError.{error_kind};
ghost use Rattle.sketches.specs.Reading.{StopsAfter};

use std::io;
use std::io::ErrorKind;

/// An input that is read block by block.
pub trait LineSource {
    // The bytes that reads give from here on, where they are known.
    ghost remaining: { Self → Option (List ℕ) } = { λ _. None };

    // Whether a read fails after these bytes. If not, the input ends there.
    ghost fails: { Self → Bool } = { λ _. false };

    /// Reads into the front of the buffer. Returns the number of bytes, which is 0 only at the end or if the buffer is empty.
    ///
    /// # Errors
    ///
    /// Returns `Interrupted` if a signal interrupted the read, which can be retried. Returns another error if a read fails. No later
    /// read gives bytes then.
    fn read_some(&mut self, buf: &mut [u8]) -> io::Result<usize>
        ensures bound { ReadsAtMost result buf.new }
        ensures bytes { ReadConsumes (remaining self.old) (remaining self.new) result buf.new }
        ensures same { fails self.new ≡ fails self.old }
        ensures end { IfOk result (λ count. count ≡ 0 → 0 < length buf.new → StopsAfter (remaining self.new) (fails self.old) false) }
        ensures failed { IfErr result (λ error. error_kind error ≢ ErrorKind.Interrupted → StopsAfter (remaining self.new) (fails self.old) true) };
}
