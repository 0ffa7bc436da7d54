//! The records of inputs whose items were not seen before.
ghost use Rattle.std.specs.Prelude.{◌≡◌, ◌⊎◌, ◌+◌, IfErr, IfOk, IfSome, IsErrOf, OnOk};
ghost use Rattle.sketch_text.specs.Records.{splits_by};
ghost use Rattle.sketch_bloom.specs.State.{FilterState};
ghost use Rattle.sketches.specs.Failures.{FailsWrittenLines, FailsUniq};
ghost use Rattle.sketches.specs.FilterSizes.{HasNoSize, IsFilterOf};
ghost use Rattle.sketches.specs.Inputs.{HaveLongRecord, none_fails};
ghost use Rattle.sketches.specs.Unseen.{WritesSomeUnseen, WritesUnseen};

use crate::failure::Failure;
use crate::filter::filter_size::{FilterSize, filter_of};
use crate::filter::unseen::UnseenLines;
use crate::print::ended_text::{EndedText, RecordForm};
use crate::print::header::write_header;
use crate::print::output::Output;
use crate::read::inputs::{Inputs, read_inputs};
use crate::read::reading::BLOCK;
use sketch_bloom::BloomFilter;
use sketch_text::records::RecordPart;
use std::alloc::Global;

/// Which records are written.
#[derive(Clone, Copy)]
pub struct UniqOptions {
    /// The part of a record that is its item.
    pub part: RecordPart,
    /// Whether records whose items were seen before are written, in place of the others.
    pub repeated: bool,
    /// How the first record is written.
    pub form: RecordForm,
    /// The maximum number of bytes of a record before its line feed.
    pub max_line: u32,
}

/// What a run did.
#[derive(Drop)]
pub struct Summary {
    /// Whether no read failed.
    pub complete: bool,
    /// The number of records that were not written, at most `u64::MAX`.
    pub left_out: u64,
    /// The filter after the last record.
    pub filter: BloomFilter,
}

/// Writes a header, and then the records of the inputs whose items were not seen before, or, if `repeated`, the others. The filter is
/// a new one of this size and seed.
///
/// An item was seen before if the filter that has taken the items of all records before contains it. A record without an item was not
/// seen before. The records are written as they are read, with their ends. One without an end gets a line feed if another one follows.
/// In JSON each is an object in a line of its own, without its end.
///
/// # Errors
///
/// Returns `BadSize` if a filter of this size is not allowed, and then reads and writes nothing. Returns `LineTooLong` if a record
/// exceeds the limit, `Memory` if an allocation fails, and `Write` if a write fails. Then the output has the front of what would be written.
pub fn uniq<I: Inputs, W: Output>(
    alloc: Global,
    options: UniqOptions,
    size: FilterSize,
    seed: u64,
    header: &[u8],
    inputs: &mut I,
    writer: &mut W,
) -> Result<Summary, Failure>
    ensures written { IfOk result (λ summary. (filter : FilterState) × IsFilterOf size seed filter
        × IfSome (I.inputs inputs.old) (λ all. WritesUnseen options.form options.repeated options.part header.now filter summary.filter all
        (I.fails inputs.old) (W.contents writer.old) (W.contents writer.new))) }
    ensures complete { IfOk result (λ summary. IfSome (I.inputs inputs.old) (λ _. summary.complete ≡ none_fails (I.fails inputs.old))) }

    // When each error comes, and what it leaves unchanged.
    ensures failed { IfErr result (FailsUniq options size (I.inputs inputs.old) (W.failure writer.new)) }
    ensures front { IfErr result (λ failure. (writer.new ≡ writer.old) ⊎ ((filter : FilterState) × IsFilterOf size seed filter
        × IfSome (I.inputs inputs.old) (λ all. WritesSomeUnseen options.form options.repeated options.part header.now filter all
        (W.contents writer.old) (W.contents writer.new)))) }
    ensures too_long { OnOk result (IfSome (I.inputs inputs.old) (λ all. HaveLongRecord (splits_by options.part) (options.max_line + 1) all → ⊥)) }
    ensures bad_size { HasNoSize size → IsErrOf result Failure.BadSize }
    ensures unread { IsErrOf result Failure.BadSize → (inputs.new ≡ inputs.old) × (writer.new ≡ writer.old) }
{
    let filter = filter_of(alloc, size, seed)?;
    match uniq_after(alloc, options, filter, header, inputs, writer) {
        Ok(summary) => Ok(summary),
        Err(failure) => Err(failure),
    }
}

/// Does the same as [`uniq`] with a filter that may have taken items before, such as those of earlier runs.
///
/// # Errors
///
/// Returns those of `uniq`, except for `BadSize`.
pub fn uniq_after<I: Inputs, W: Output>(
    alloc: Global,
    options: UniqOptions,
    filter: BloomFilter,
    header: &[u8],
    inputs: &mut I,
    writer: &mut W,
) -> Result<Summary, Failure>
    ensures written { IfOk result (λ summary. IfSome (I.inputs inputs.old) (λ all. WritesUnseen options.form options.repeated options.part header.now filter
        summary.filter all (I.fails inputs.old) (W.contents writer.old) (W.contents writer.new))) }
    ensures complete { IfOk result (λ summary. IfSome (I.inputs inputs.old) (λ _. summary.complete ≡ none_fails (I.fails inputs.old))) }
    ensures too_long { OnOk result (IfSome (I.inputs inputs.old) (λ all. HaveLongRecord (splits_by options.part) (options.max_line + 1) all → ⊥)) }
    ensures failed { IfErr result (FailsWrittenLines options.part (options.max_line + 1) (I.inputs inputs.old) (W.failure writer.new)) }
    ensures front { IfErr result (λ failure. IfSome (I.inputs inputs.old) (λ all. WritesSomeUnseen options.form options.repeated options.part header.now filter
        all (W.contents writer.old) (W.contents writer.new))) }
{
    let mut lines = UnseenLines {
        filter,
        part: options.part,
        repeated: options.repeated,
        left_out: 0,
        written: EndedText {
            alloc,
            bytes: Vec::new(alloc),
            form: options.form,
        },
    };
    let limit = options.max_line as usize + 1;
    let mut buffer = vec![in alloc; 0; limit.min(BLOCK)]?;
    write_header(header, writer)?;
    let complete = read_inputs(alloc, &mut lines, writer, inputs, &mut buffer, limit)?;
    Ok(Summary {
        complete,
        left_out: lines.left_out,
        filter: lines.filter,
    })
}
