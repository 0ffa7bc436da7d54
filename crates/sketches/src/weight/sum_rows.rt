//! Writes the sums of keys.
ghost use Rattle.std.specs.Prelude.{◌≡◌, ◌++◌, IfErr, OnErr, OnOk};
ghost use Rattle.std.specs.Io.KnownBytes.{Appends};
ghost use Rattle.std.specs.List.{flat_map, slice_get};
ghost use Rattle.sketches.specs.Failures.{FailsWriting};
ghost use Rattle.sketches.specs.KeySums.{Sends, row_of, rows_at};
ghost use Rattle.sketches.specs.KeyWeights.{row_line};
ghost use Rattle.sketches.specs.Outputs.{WritesFront};

use crate::failure::Failure;
use crate::print::layout::Style;
use crate::print::output::Output;
use crate::print::weight_lines::append_line;
use crate::read::reading::BLOCK;
use crate::weight::file_keys::KeyMap;
use std::alloc::{AllocError, Global};

/// Writes the line of each entry at these indices: its sum, a tab and its key. An index that no entry has is left out.
///
/// # Errors
///
/// Returns `Memory` if an allocation fails, and `Write` if a write fails. Then the output has the front of what would be written.
pub fn write_rows<W: Output>(
    alloc: Global,
    style: Style,
    sums: &KeyMap,
    order: &[usize],
    writer: &mut W,
) -> Result<(), Failure>
    ensures written { OnOk result (Appends (W.contents writer.old) (W.contents writer.new) (flat_map (row_line style) (rows_at sums.now.entries order.now))) }
    ensures front { OnErr result (WritesFront (W.contents writer.old) (W.contents writer.new) (flat_map (row_line style) (rows_at sums.now.entries order.now))) }
    ensures failed { IfErr result (FailsWriting (W.failure writer.new)) }
{
    let mut written = Vec::new(alloc);
    let mut number = String::new(alloc);
    let mut rest = order;
    'each: loop {
        let Some((index, after)) = rest.split_first() else {
            send(0, &mut written, writer)?;
            return Ok(());
        };
        append_row(alloc, style, sums, *index, &mut written, &mut number)?;
        send(BLOCK, &mut written, writer)?;
        rest = after;
    }
}

/// Appends the line of the entry at an index, if any.
#[inline(always)]
fn append_row(
    alloc: Global,
    style: Style,
    sums: &KeyMap,
    index: usize,
    written: &mut Vec<u8>,
    number: &mut String,
) -> Result<(), AllocError>
    ensures { OnOk result (written.new.items ≡ written.old.items ++ flat_map (row_line style) (row_of (slice_get sums.now.entries index))) }
{
    let Some((key, sum)) = sums.get_index(index) else {
        return Ok(());
    };
    append_line(alloc, style, *sum, key, written, number)
}

/// Writes bytes and clears them, if they are at least `least`.
fn send<W: Output>(least: usize, written: &mut Vec<u8>, writer: &mut W) -> Result<(), Failure>
    ensures sent { OnOk result (Sends least (W.contents writer.old) written.old.items (W.contents writer.new) written.new.items) }
    ensures front { OnErr result (WritesFront (W.contents writer.old) (W.contents writer.new) written.old.items) }
    ensures failed { IfErr result (FailsWriting (W.failure writer.new)) }
{
    if written.len() < least {
        return Ok(());
    }
    match writer.write_all(written) {
        Ok(()) => {
            written.clear();
            Ok(())
        }
        Err(e) => Err(Failure::Write(e)),
    }
}
