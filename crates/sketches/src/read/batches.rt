//! Passes records and their items to a sink, many at once, and writes some of them.
ghost use Rattle.std.specs.Prelude.{◌≡◌, ◌≤◌, ◌<◌, Some, IfErr, OnOk, length, take};
ghost use Rattle.sketch_base.specs.Strings.{strings_at};
ghost use Rattle.sketches.specs.EndedText.{Prints};
ghost use Rattle.sketches.specs.RecordParts.{raws_by};
ghost use Rattle.sketches.specs.Unseen.{AreNextLines, written_by};

use crate::failure::Failure;
use crate::print::ended_text::EndedText;
use crate::read::batch_sink::BatchSink;
use crate::read::records::next_record_with_end;
use sketch_base::from_utf8;
use sketch_text::records::{RecordPart, whole_part_of};
use std::alloc::Global;

/// The maximum number of records that a sink takes at once.
pub const BATCH: usize = 16;

/// Writes the first records to `raws`, with their ends, and their items to `items`. Returns their number and the bytes after them.
///
/// It stops at a record without an item or whose item does not stand in one piece, at an item that is not UTF-8, and after as many
/// records as `raws` has elements.
#[inline(always)]
fn next_lines<'a>(
    part: RecordPart,
    bytes: &'a [u8],
    raws: &mut [&'a [u8]],
    items: &mut [&'a str],
) -> (usize, &'a [u8])
    requires { length items.old ≡ length raws.old }
    ensures few { result.0 ≤ length raws.new }
    ensures long { length raws.new ≡ length raws.old }
    ensures same { length items.new ≡ length raws.old }
    ensures shorter { 0 < result.0 → length result.1.now < length bytes.now }
    ensures lines { AreNextLines part bytes.now result.1.now (strings_at (take result.0 raws.new)) (strings_at (take result.0 items.new)) }
{
    let mut rest = bytes;
    let mut count = 0;
    'each: while count < raws.len() {
        let Some((raw, row, after)) = next_record_with_end(part, rest) else {
            return (count, rest);
        };
        let Some(item) = whole_part_of(part, row) else {
            return (count, rest);
        };
        let Ok(text) = from_utf8(item) else {
            return (count, rest);
        };
        raws[count] = raw;
        items[count] = text;
        count += 1;
        rest = after;
    }
    (count, rest)
}

/// Passes records to a sink, in order. Records that have items in UTF-8 are passed many at once.
///
/// # Errors
///
/// Returns `Memory` if an allocation fails.
#[inline(always)]
pub fn take_batches<S: BatchSink>(
    alloc: Global,
    sink: &mut S,
    part: RecordPart,
    bytes: &[u8],
) -> Result<(), Failure>
    ensures taken { OnOk result (S.takes part sink.old (raws_by part bytes.now) sink.new) }
    ensures failed { IfErr result (λ failure. failure ≡ Failure.Memory) }
{
    let mut rest = bytes;
    let mut raws = [b"".as_slice(); BATCH];
    let mut items = [""; BATCH];
    'each: loop {
        let (count, after) = next_lines(part, rest, &mut raws, &mut items);
        if count > 0 {
            sink.take_batch(part, &raws[..count], &items[..count])?;
            rest = after;
            continue;
        }
        let Some((raw, row, after)) = next_record_with_end(part, rest) else {
            return Ok(());
        };
        sink.take_record(alloc, part, raw, row)?;
        rest = after;
    }
}

/// Appends the records whose answer is `wanted`. Returns the number of other records.
///
/// # Errors
///
/// Returns `Memory` if an allocation fails.
#[inline(always)]
pub fn write_batch(
    wanted: bool,
    raws: &[&[u8]],
    answers: &[bool],
    written: &mut EndedText,
) -> Result<u64, Failure>
    requires { length answers.now ≡ length raws.now }
    ensures written { OnOk result (Prints (Some written.old.bytes.items) (Some written.new.bytes.items) written.old.form written.new.form
        (written_by wanted answers.now (strings_at raws.now))) }
    ensures failed { IfErr result (λ failure. failure ≡ Failure.Memory) }
{
    let mut left_out: u64 = 0;
    'each: for i in 0..raws.len() {
        if answers[i] != wanted {
            left_out = left_out.saturating_add(1);
            continue;
        }
        written.push(raws[i])?;
    }
    Ok(left_out)
}
