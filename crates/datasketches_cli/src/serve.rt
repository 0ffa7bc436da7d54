//! The loop that reads lines and writes replies.
ghost use Rattle.std.specs.Prelude.{◌≡◌, ◌<◌, ◌⊎◌, ◌↔◌, [], ◌++◌, true, false, Some, IsSome, IsTrue, IfOk, IfErr, OnOk, Contains};
ghost use Rattle.std.specs.Prelude.{string_bytes, string_len};
ghost use Rattle.std.specs.Io.BufRead.{strip_last};
ghost use Rattle.std.specs.Io.KnownBytes.{Appends, IsAtEnd, prepend_known};
ghost use Rattle.datasketches_cli.specs.Counts.{HasGrown};
ghost use Rattle.datasketches.specs.State.{SessionKeys};
ghost use Rattle.datasketches_cli.specs.KeyValues.{HasKeys};
ghost use Rattle.datasketches_cli.specs.Serving.{AnswersNext, HasOwnKeys, HasServed, WritesFront};
ghost use Rattle.datasketches_cli.specs.Steps.{nothing_served};
ghost use Rattle.datasketches_cli.specs.Transcript.{Serves, bad_line};

use crate::counted::Counted;
use crate::keys::Keys;
use crate::line_reader::LineReader;
use crate::responder::{LineOutcome, Responder};
use crate::stopped::Stopped;
use std::alloc::Global;
use std::fmt::Write as _;
use std::io::{Read, Write};

/// The end of a run that had no error.
#[derive(Clone, Copy, Debug, PartialEq, Eq)]
pub enum Ended {
    /// All lines were read, and the reply to each request was written.
    All,
    /// The line of this number, counted from 1, is not a request.
    BadLine(u128),
}

/// The error of a run.
#[derive(Clone, Copy, Debug, PartialEq, Eq)]
pub enum CliFault {
    /// A read or a write failed.
    Io,
    /// Memory ran out outside a request.
    Memory,
}

/// The number of gathered bytes at which replies are written.
const WRITE_SIZE: usize = 1 << 16;

/// Runs the requests of the reader's lines on a new session and new windows, and writes a reply line for each. Tables and
/// maps hash under `keys`.
///
/// A line ends at a line feed or at the end of input. One carriage return before that is dropped. A line without a word
/// has no reply. After a line that is not a request, it writes `bad line` and the line's number, and stops.
///
/// Replies are written before more input is read. Reading stops at end of file. If no error is returned, the writer's
/// count of failures is unchanged. After `All` the reader has no bytes left.
///
/// # Errors
///
/// Returns `Io` if a call of the reader or the writer failed in this run, or if a count of failures is `u64::MAX`.
/// Otherwise returns `Memory`. Replies to earlier lines may already be written.
pub fn serve<R: Read, W: Write>(
    alloc: Global,
    keys: Keys,
    reader: &mut Counted<R>,
    writer: &mut Counted<W>,
) -> Result<Ended, CliFault>
    ensures served { IfOk result (Serves keys (R.remaining reader.old.inner)
        (W.contents writer.old.inner) (W.contents writer.new.inner)) }
    ensures all_read { IfOk result (λ ended. ended ≡ Ended.All → IsAtEnd (R.remaining reader.new.inner)) }
    ensures all_written { OnOk result (writer.new.failures ≡ writer.old.failures) }
    ensures err { IfErr result (λ e. (e ≡ CliFault.Io)
        ↔ (HasGrown reader.old.failures reader.new.failures
        ⊎ HasGrown writer.old.failures writer.new.failures)) }
{
    let reads = reader.failures();
    let writes = writer.failures();
    match serve_lines(alloc, keys, &mut *reader, &mut *writer) {
        Ok(ended) => Ok(ended),
        Err(_) => {
            if has_grown(reads, reader.failures()) || has_grown(writes, writer.failures()) {
                Err(CliFault::Io)
            } else {
                Err(CliFault::Memory)
            }
        }
    }
}

/// Returns whether a count of failures may have grown.
fn has_grown(before: u64, now: u64) -> bool
    ensures { IsTrue result ↔ HasGrown before now }
{
    before < now || now == u64::MAX
}

/// Runs the requests of the lines.
fn serve_lines<R: Read, W: Write>(
    alloc: Global,
    keys: Keys,
    reader: &mut Counted<R>,
    writer: &mut Counted<W>,
) -> Result<Ended, Stopped>
    ensures { IfOk result (λ ended. (own : SessionKeys) × HasKeys keys own × HasServed own (R.remaining reader.old.inner)
        (R.remaining reader.new.inner) (W.contents writer.old.inner) (W.contents writer.new.inner) writer.old.failures
        writer.new.failures ended) }
{
    let mut lines = LineReader::new(alloc)?;
    let mut responder = Responder::new(alloc, keys);
    let mut line = Vec::new(alloc);
    answer_lines(&mut responder, &mut lines, reader, writer, &mut line)
}

/// Runs the requests of the lines on state that the caller owns, so that nothing is dropped where a call fails.
fn answer_lines<R: Read, W: Write>(
    responder: &mut Responder,
    lines: &mut LineReader,
    reader: &mut Counted<R>,
    writer: &mut Counted<W>,
    line: &mut Vec<u8>,
) -> Result<Ended, Stopped>
    requires serves { responder.old.state ≡ nothing_served responder.old.state.session.keys }
    requires keys { HasOwnKeys responder.old }
    requires gathers { string_bytes responder.old.replies ≡ [] }
    requires unread { lines.old ≡ [] }
    ensures { IfOk result (HasServed responder.old.state.session.keys (R.remaining reader.old.inner) (R.remaining reader.new.inner)
        (W.contents writer.old.inner) (W.contents writer.new.inner) writer.old.failures writer.new.failures) }
{
    for before in 0..u128::MAX {
        let number = before + 1;
        write_due(lines, writer, &mut responder.replies)?;
        let (became, more) = answer_next(responder, lines, reader, line)?;
        if is_bad(became) {
            write_bad(writer, &mut responder.replies, number)?;
            return Ok(Ended::BadLine(number));
        }
        if !more {
            write_out(writer, &mut responder.replies)?;
            return Ok(Ended::All);
        }
    }
    Err(Stopped)
}

/// Runs the request of the next line and gathers its reply.
///
/// Returns the outcome of the line, or `None` if no input is left, and whether there may be more input.
///
/// A line that was read whole is parsed in place. Otherwise more input is read, and the line replaces the contents of
/// `line`. No replies may be gathered in this case.
fn answer_next<R: Read>(
    responder: &mut Responder,
    lines: &mut LineReader,
    reader: &mut Counted<R>,
    line: &mut Vec<u8>,
) -> Result<(Option<LineOutcome>, bool), Stopped>
    requires gathered { ¬ Contains lines.old 10 → string_bytes responder.old.replies ≡ [] }
    requires keys { HasOwnKeys responder.old }
    ensures answered { IfOk result (λ found. AnswersNext (prepend_known lines.old (R.remaining reader.old.inner))
        (prepend_known lines.new (R.remaining reader.new.inner)) responder.old responder.new found.0) }
    ensures keys { OnOk result (HasOwnKeys responder.new) }
    ensures some { IfOk result (λ found. found.1 ≡ true → IsSome found.0) }
    ensures end { IfOk result (λ found. found.1 ≡ false → (lines.new ≡ [])
        × IsAtEnd (R.remaining reader.new.inner)) }
    ensures alone { Contains lines.old 10 → reader.new ≡ reader.old }
{
    if lines.has_line() {
        let became = responder.answer_line(without_end(lines.line()))?;
        lines.skip_line();
        return Ok((Some(became), true));
    }
    let more = lines.read_line(reader, line)?;
    if line.is_empty() {
        return Ok((None, false));
    }
    let became = responder.answer_line(without_end(line))?;
    Ok((Some(became), more))
}

/// Returns whether a line is not a request.
fn is_bad(became: Option<LineOutcome>) -> bool
    ensures { IsTrue result ↔ (became ≡ Some LineOutcome.Bad) }
{
    matches!(became, Some(LineOutcome::Bad))
}

/// Writes the gathered replies, then `bad line` and the line's number.
fn write_bad<W: Write>(
    writer: &mut Counted<W>,
    replies: &mut String,
    number: u128,
) -> Result<(), Stopped>
    ensures written { OnOk result (Appends (W.contents writer.old.inner)
        (W.contents writer.new.inner) (string_bytes replies.old ++ bad_line number)) }
    ensures kept { OnOk result (writer.new.failures ≡ writer.old.failures) }
{
    writeln!(replies, "bad line {number}")?;
    write_out(writer, replies)
}

/// Returns the line without its line feed, and without one carriage return before it.
fn without_end(line: &[u8]) -> &[u8]
    ensures { result.now ≡ strip_last 13 (strip_last 10 line.now) }
{
    without_last(b'\r', without_last(b'\n', line))
}

/// Returns the bytes without the last one, if that is `byte`. Otherwise returns all bytes.
fn without_last(byte: u8, bytes: &[u8]) -> &[u8]
    ensures { result.now ≡ strip_last byte bytes.now }
{
    match bytes.split_last() {
        Some((last, front)) if *last == byte => front,
        _ => bytes,
    }
}

/// Writes the gathered replies, if more input is read next or if they are at least `WRITE_SIZE` bytes.
fn write_due<W: Write>(
    lines: &LineReader,
    writer: &mut Counted<W>,
    replies: &mut String,
) -> Result<(), Stopped>
    ensures written { OnOk result (WritesFront (W.contents writer.old.inner)
        (W.contents writer.new.inner) (string_bytes replies.old) (string_bytes replies.new)) }
    ensures kept { OnOk result (writer.new.failures ≡ writer.old.failures) }
    ensures at_once { OnOk result (¬ Contains lines.now 10 → string_bytes replies.new ≡ []) }
    ensures few { OnOk result (string_len replies.new < WRITE_SIZE) }
{
    if lines.has_line() && replies.len() < WRITE_SIZE {
        return Ok(());
    }
    write_out(writer, replies)
}

/// Writes the gathered replies.
fn write_out<W: Write>(writer: &mut Counted<W>, replies: &mut String) -> Result<(), Stopped>
    ensures written { OnOk result (Appends (W.contents writer.old.inner)
        (W.contents writer.new.inner) (string_bytes replies.old)) }
    ensures kept { OnOk result (writer.new.failures ≡ writer.old.failures) }
    ensures empty { OnOk result (string_bytes replies.new ≡ []) }
{
    if replies.is_empty() {
        return Ok(());
    }
    writer.write_all(replies.as_bytes())?;
    // For a writer that buffers. No clause and no test detects whether this call is made. In clauses, a writer's
    // contents include the bytes that it buffers. Standard output buffers none.
    writer.flush()?;
    replies.clear();
    Ok(())
}
