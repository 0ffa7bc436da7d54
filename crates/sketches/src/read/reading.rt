//! Reads the records of one input.
ghost use Rattle.std.specs.Prelude.{◌≡◌, ◌≢◌, ◌⊎◌, ◌↔◌, ◌+◌, ◌<◌, ◌≤◌, length, take, drop, IfErr, IfOk, IfSome, IsErrOf, IsTrue, OnOk};
ghost use Rattle.std.specs.IoError.{error_kind};
ghost use Rattle.sketch_text.specs.declared.place.Place.TheVariants.{Start};
ghost use Rattle.sketches.specs.Reading.{FailsInput, FailsWithin, Fills, HasLongRecord, IsInOne, TakesInput, TakesRecords, place_of};

use crate::failure::Failure;
use crate::read::line_sink::LineSink;
use crate::read::line_source::LineSource;
use crate::read::records::finished_records;
use sketch_text::Place;
use sketch_text::records::Records;
use std::alloc::Global;
use std::io;
use std::io::ErrorKind;

/// The number of bytes that one read can return, if lines may be that long.
pub const BLOCK: usize = 1 << 18;

/// Passes the records of an input to a sink. Returns the error of a read, if one failed.
///
/// After such an error, the records that were read whole are taken. The buffer grows if a record does not fit, up to `limit`
/// bytes. A read that a signal interrupted is retried.
///
/// # Errors
///
/// Returns `LineTooLong` if a record has at least `limit` bytes before its line feed, also if a read fails after them. Returns
/// `Memory` if the buffer cannot grow, and after 2^64 - 1 reads. Returns the errors of the sink.
pub fn read_lines<R: LineSource, O, S: LineSink<O>>(
    alloc: Global,
    sink: &mut S,
    output: &mut O,
    reader: &mut R,
    buffer: &mut Vec<u8>,
    limit: usize,
) -> Result<Option<io::Error>, Failure>
    ensures taken { IfOk result (λ failure.
        TakesInput (S.splits sink.old) S.takes (R.remaining reader.old) (R.fails reader.old) failure (sink.old, output.old) (sink.new, output.new)) }
    ensures fits { OnOk result (IfSome (R.remaining reader.old) (λ bytes. HasLongRecord (S.splits sink.old) limit bytes → ⊥)) }
    ensures same { OnOk result (S.splits sink.new ≡ S.splits sink.old) }
    ensures failed { IfErr result (FailsInput (S.splits sink.old) S.takes S.fails S.fails limit (R.remaining reader.old) (sink.old, output.old) (sink.new, output.new)) }
{
    let records = sink.records();
    buffer.truncate(limit);
    let mut place = Place::Start;
    let mut held = 0;
    'reads: for _ in 0..u64::MAX {
        make_room(buffer, held, limit)?;
        let more = match fill(reader, buffer, held) {
            Ok(more) => more,
            Err(e) => return Ok(Some(e)),
        };
        let Some(count) = more else {
            continue;
        };
        if count == 0 {
            sink.take(alloc, output, &buffer[..held])?;
            return Ok(None);
        }
        let (kept, next) = take_records(
            alloc,
            sink,
            output,
            buffer,
            held,
            held + count,
            records,
            place,
        )?;
        held = kept;
        place = next;
    }
    Err(Failure::Memory)
}

/// Doubles the buffer if it is full, up to `limit` bytes.
///
/// # Errors
///
/// Returns `LineTooLong` if the buffer is full and has `limit` bytes or more, else `Memory` if it cannot grow.
fn make_room(buffer: &mut Vec<u8>, held: usize, limit: usize) -> Result<(), Failure>
    requires { held ≤ length buffer.old.items }
    ensures room { OnOk result (held < length buffer.new.items) }
    ensures kept { OnOk result (take held buffer.new.items ≡ take held buffer.old.items) }
    ensures limit { length buffer.old.items ≤ limit → OnOk result (length buffer.new.items ≤ limit) }
    ensures too_long { IsErrOf result Failure.LineTooLong ↔ ((held ≡ length buffer.old.items) × (limit ≤ held)) }
    ensures failed { IfErr result (λ failure. (failure ≡ Failure.Memory) ⊎ (failure ≡ Failure.LineTooLong)) }
{
    let len = buffer.len();
    if held < len {
        return Ok(());
    }
    if limit <= len {
        return Err(Failure::LineTooLong);
    }
    let wanted = len.saturating_mul(2).saturating_add(1).min(limit);
    buffer.resize(wanted, 0)?;
    Ok(())
}

/// Reads into the buffer, after the bytes that it holds. Returns `None` if a signal interrupted the read.
fn fill<R: LineSource>(
    reader: &mut R,
    buffer: &mut Vec<u8>,
    held: usize,
) -> io::Result<Option<usize>>
    requires { held < length buffer.old.items }
    ensures filled { Fills (R.remaining reader.old) (R.remaining reader.new) (R.fails reader.old) held buffer.old.items buffer.new.items result }
    ensures same { R.fails reader.new ≡ R.fails reader.old }
{
    match reader.read_some(&mut buffer[held..]) {
        Ok(count) => Ok(Some(count)),
        Err(e) if is_interrupted(&e) => Ok(None),
        Err(e) => Err(e),
    }
}

/// Returns whether a signal interrupted a read.
fn is_interrupted(error: &io::Error) -> bool
    ensures { IsTrue result ↔ (error_kind error.now ≡ ErrorKind.Interrupted) }
{
    error.kind() == ErrorKind::Interrupted
}

/// Passes the whole records in the first bytes of the buffer to a sink, and moves the bytes after them to its front. Returns the
/// number of those, and the place in a field after them.
///
/// No record ends among the first `held` bytes, after which the place is `place`.
fn take_records<O, S: LineSink<O>>(
    alloc: Global,
    sink: &mut S,
    output: &mut O,
    buffer: &mut Vec<u8>,
    held: usize,
    end: usize,
    records: Records,
    place: Place,
) -> Result<(usize, Place), Failure>
    requires held { held ≤ end }
    requires end { end ≤ length buffer.old.items }
    requires splits { S.splits sink.old ≡ records }
    requires one { IsInOne records Start (take held buffer.old.items) }
    requires place { place ≡ place_of records Start (take held buffer.old.items) }
    ensures taken { IfOk result (λ kept. TakesRecords records S.takes (sink.old, output.old) (sink.new, output.new)
        (take end buffer.old.items) buffer.new.items kept.0 kept.1) }
    ensures same { OnOk result (length buffer.new.items ≡ length buffer.old.items) }
    ensures failed { IfErr result (FailsWithin records S.fails (sink.old, output.old) (take end buffer.old.items) (sink.new, output.new)) }
{
    let (last, next) = finished_records(records, place, &buffer[held..end]);
    if last == 0 {
        return Ok((end, next));
    }
    let whole = held + last;
    sink.take(alloc, output, &buffer[..whole])?;
    buffer.copy_within(whole..end, 0);
    Ok((end - whole, next))
}
