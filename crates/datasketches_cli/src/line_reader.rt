//! Lines of a reader that is passed at each call.
ghost use Rattle.std.specs.Prelude.{◌≡◌, ◌≢◌, ◌≤◌, ◌+◌, ◌==◌, ◌↔◌, [], false, true, not, length, IsTrue, IfOk, OnOk, Contains};
ghost use Rattle.std.specs.Io.BufRead.{take_through, drop_through};
ghost use Rattle.std.specs.Io.KnownBytes.{IsAtEnd, prepend_known};
ghost use Rattle.std.specs.List.{position_or_len, slice_range};
ghost use Rattle.datasketches_cli.specs.Counts.{one_more};
ghost use Rattle.datasketches_cli.specs.Reading.{Fills, TakesFront, TakesLine};

use crate::counted::Counted;
use sketch_base::{Separator, first_separator};
use std::alloc::Global;
use std::io::{Error, ErrorKind, Read, Result};
use std::marker::Model;

/// The number of bytes that one read can return.
const READ_SIZE: usize = 1 << 16;

/// Bytes that were read and not returned yet. A contract sees the list of them.
///
/// The reader is passed at each call, and must be the same at all calls. So it can be inspected between calls.
#[derive(Drop)]
pub struct LineReader {
    buffer: Vec<u8>,
    start: usize,
    end: usize,
    /// The index of the first line feed, or `end` if there is none.
    feed: usize,
}

impl Model for LineReader {
    ghost use Rattle.std.specs.Prelude.{ℕ, ◌≡◌, ◌<◌, ◌≤◌, ◌+◌, ◌==◌, List, length};
    ghost use Rattle.std.specs.List.{position_or_len, slice_range};

    ghost Value = { List ℕ };

    ghost view = { λ l. slice_range l.buffer.items l.start l.end };

    ghost invariant = { λ l. (l.start ≤ l.end) × (l.end ≤ length l.buffer.items) × (0 < length l.buffer.items)
        × (l.feed ≡ l.start + position_or_len (λ byte. byte == 10) (slice_range l.buffer.items l.start l.end)) };
}

impl LineReader {
    /// Creates a line reader that has read nothing. Returns an error if its buffer cannot be allocated.
    pub fn new(alloc: Global) -> Result<Self>
        ensures { IfOk result (λ lines. lines ≡ []) }
    {
        Ok(LineReader {
            buffer: vec![in alloc; 0; READ_SIZE]?,
            start: 0,
            end: 0,
            feed: 0,
        })
    }

    /// Returns whether the next line was read already, with its line feed.
    pub fn has_line(&self) -> bool
        ensures { IsTrue result ↔ Contains self.now 10 }
    {
        self.feed < self.end
    }

    /// Returns the next line with its line feed. It must have been read already.
    pub fn line(&self) -> &[u8]
        requires { Contains self.now 10 }
        ensures { result.now ≡ take_through 10 self.now }
    {
        &self.buffer[self.start..self.feed + 1]
    }

    /// Skips the next line. It must have been read already.
    pub fn skip_line(&mut self)
        requires { Contains self.old 10 }
        ensures { self.new ≡ drop_through 10 self.old }
    {
        self.start = self.feed + 1;
        self.feed = first_feed(&self.buffer, self.start, self.end);
    }

    /// Replaces the contents of `line` by the next line with its end, or by nothing if no input is left. Returns
    /// whether there may be more input.
    ///
    /// Reads only if the line was not read already. Retries a read that a signal interrupted.
    pub fn read_line<R: Read>(
        &mut self,
        reader: &mut Counted<R>,
        line: &mut Vec<u8>,
    ) -> Result<bool>
        ensures line { OnOk result (TakesLine (not (length line.new.items == 0))
            (prepend_known self.old (R.remaining reader.old.inner))
            (prepend_known self.new (R.remaining reader.new.inner)) line.new.items) }
        ensures some { IfOk result (λ more. more ≡ true → line.new.items ≢ []) }
        ensures end { IfOk result (λ more. more ≡ false → (self.new ≡ [])
            × IsAtEnd (R.remaining reader.new.inner)) }
    {
        line.clear();
        // the label names the loop in its proof
        'tries: for _ in 0..u64::MAX {
            if self.take_line(line)? {
                return Ok(true);
            }
            if !self.fill(reader)? {
                return Ok(false);
            }
        }
        Err(Error::from(ErrorKind::Other))
    }

    /// Moves the bytes that were read, through the first line feed, to the end of `line`. Returns whether there was a
    /// line feed.
    fn take_line(&mut self, line: &mut Vec<u8>) -> Result<bool>
        ensures { IfOk result (λ ended. TakesFront ended self.old self.new line.old.items line.new.items) }
    {
        if self.has_line() {
            line.extend_from_slice(self.line())?;
            self.skip_line();
            return Ok(true);
        }
        line.extend_from_slice(&self.buffer[self.start..self.end])?;
        self.start = self.end;
        Ok(false)
    }

    /// Reads more input. All bytes that were read must have been returned.
    ///
    /// Returns whether there may be more input: bytes were read, or a signal interrupted the read and it must be
    /// retried.
    fn fill<R: Read>(&mut self, reader: &mut Counted<R>) -> Result<bool>
        requires { self.old ≡ [] }
        ensures bytes { IfOk result (λ more. Fills more (R.remaining reader.old.inner) self.new
            (R.remaining reader.new.inner) reader.old.failures reader.new.failures) }
        ensures reads { reader.new.reads ≡ one_more reader.old.reads }
    {
        self.start = 0;
        self.end = 0;
        self.feed = 0;
        match reader.read(&mut self.buffer) {
            Ok(count) => {
                self.end = count;
                self.feed = first_feed(&self.buffer, 0, count);
                Ok(count > 0)
            }
            Err(e) if e.kind() == ErrorKind::Interrupted => Ok(true),
            Err(e) => Err(e),
        }
    }
}

/// Returns the index of the first line feed in a range, or the end of the range if there is none.
fn first_feed(bytes: &[u8], start: usize, end: usize) -> usize
    requires ordered { start ≤ end }
    requires within { end ≤ length bytes.now }
    ensures { result ≡ start + position_or_len (λ byte. byte == 10) (slice_range bytes.now start end) }
{
    start + first_separator(&bytes[start..end], Separator::LineFeed)
}
