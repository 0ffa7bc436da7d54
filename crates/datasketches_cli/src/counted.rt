//! Streams that count their failed calls.
ghost use Rattle.std.specs.Prelude.{◌≡◌, ◌^◌, ◌-◌, OnOk, OnErr, IsErr};
ghost use Rattle.std.specs.Io.{ReadsAtMost, WritesAtMost};
ghost use Rattle.std.specs.Io.KnownBytes.{Appends, Keeps, ReadConsumes, WriteAppends};
ghost use Rattle.datasketches_cli.specs.Counts.{one_more, greatest};

use std::io::{Error, ErrorKind, Read, Result, Write};
use std::marker::Model;

/// A reader or writer with the number of its failed calls, up to `u64::MAX`.
///
/// It reads at most 2^64 - 1 times. A later read returns an error, so an endless input ends.
#[derive(Drop)]
pub struct Counted<S> {
    inner: S,
    failures: u64,
    reads: u64,
}

impl<S> Model for Counted<S> {
    ghost use Rattle.datasketches_cli.specs.Counts.{CountedStream};

    ghost Value = { CountedStream S };

    ghost view = { λ c. record { inner = c.inner; failures = c.failures; reads = c.reads } };
}

impl<S> Counted<S> {
    /// Wraps a stream. No call has failed yet.
    pub fn new(inner: S) -> Self
        ensures { result ≡ record { inner = inner; failures = 0; reads = 0 } }
    {
        Counted {
            inner,
            failures: 0,
            reads: 0,
        }
    }

    /// Returns the number of failed calls. It saturates at `u64::MAX`.
    pub fn failures(&self) -> u64
        ensures { result ≡ self.now.failures }
    {
        self.failures
    }

    /// Returns the stream itself. Its calls are no longer counted.
    pub fn into_inner(self) -> S
        ensures { result ≡ self.inner }
    {
        let Counted {
            inner,
            failures: _,
            reads: _,
        } = self;
        inner
    }
}

/// Returns the outcome of a call, and counts it if it is an error.
fn counting<T>(failures: &mut u64, outcome: Result<T>) -> Result<T>
    ensures same { result ≡ outcome }
    ensures kept { OnOk outcome (failures.new ≡ failures.old) }
    ensures counted { OnErr outcome (failures.new ≡ one_more failures.old) }
{
    if outcome.is_err() {
        *failures = failures.saturating_add(1);
    }
    outcome
}

impl<R: Read> Read for Counted<R> {
    ghost remaining = { λ c. R.remaining c.inner };

    fn read(&mut self, buf: &mut [u8]) -> Result<usize>
        ensures bound { ReadsAtMost result buf.new }
        ensures bytes { ReadConsumes (R.remaining self.old.inner) (R.remaining self.new.inner)
            result buf.new }
        ensures kept { OnOk result (self.new.failures ≡ self.old.failures) }
        ensures counted { OnErr result (self.new.failures ≡ one_more self.old.failures) }
        ensures reads { self.new.reads ≡ one_more self.old.reads }
        ensures limit { self.old.reads ≡ greatest → IsErr result }
    {
        if self.reads == u64::MAX {
            return counting(&mut self.failures, Err(Error::from(ErrorKind::Other)));
        }
        self.reads += 1;
        let outcome = self.inner.read(buf);
        counting(&mut self.failures, outcome)
    }
}

impl<W: Write> Write for Counted<W> {
    ghost contents = { λ c. W.contents c.inner };

    fn write(&mut self, buf: &[u8]) -> Result<usize>
        ensures bound { WritesAtMost result buf.now }
        ensures bytes { WriteAppends (W.contents self.old.inner) (W.contents self.new.inner)
            result buf.now }
        ensures kept { OnOk result (self.new.failures ≡ self.old.failures) }
        ensures counted { OnErr result (self.new.failures ≡ one_more self.old.failures) }
        ensures reads { self.new.reads ≡ self.old.reads }
    {
        let outcome = self.inner.write(buf);
        counting(&mut self.failures, outcome)
    }

    fn flush(&mut self) -> Result<()>
        ensures bytes { Keeps (W.contents self.old.inner) (W.contents self.new.inner) }
        ensures kept { OnOk result (self.new.failures ≡ self.old.failures) }
        ensures counted { OnErr result (self.new.failures ≡ one_more self.old.failures) }
        ensures reads { self.new.reads ≡ self.old.reads }
    {
        let outcome = self.inner.flush();
        counting(&mut self.failures, outcome)
    }

    fn write_all(&mut self, buf: &[u8]) -> Result<()>
        ensures bytes { OnOk result (Appends (W.contents self.old.inner)
            (W.contents self.new.inner) buf.now) }
        ensures kept { OnOk result (self.new.failures ≡ self.old.failures) }
        ensures counted { OnErr result (self.new.failures ≡ one_more self.old.failures) }
        ensures reads { self.new.reads ≡ self.old.reads }
    {
        let outcome = self.inner.write_all(buf);
        counting(&mut self.failures, outcome)
    }
}
