//! The records of inputs whose items are in a file of keys.
ghost use Rattle.std.specs.Prelude.{◌≡◌, ◌⊎◌, ◌+◌, false, IfErr, IfOk, IfSome, IsErrOf, OnOk};
ghost use Rattle.sketch_text.specs.Records.{splits_by};
ghost use Rattle.sketch_bloom.specs.State.{FilterState};
ghost use Rattle.sketches.specs.FilterSizes.{HasNoSize, IsFilterOf};
ghost use Rattle.sketches.specs.Inputs.{HaveLongRecord, none_fails};
ghost use Rattle.sketches.specs.JoinFailures.{FailsInsertion, FailsJoin, IsOfKeys};
ghost use Rattle.sketches.specs.Joined.{WritesJoined, WritesSomeJoined, keys_of};
ghost use Rattle.sketches.specs.Reading.{HasLongRecord};
ghost use Rattle.sketches.specs.Unseen.{with_items};

use crate::failure::Failure;
use crate::filter::filter_size::{FilterSize, filter_of};
use crate::filter::joined::JoinedLines;
use crate::filter::key_lines::KeyLines;
use crate::print::ended_text::{EndedText, RecordForm};
use crate::print::header::write_header;
use crate::print::output::Output;
use crate::read::inputs::{Inputs, read_inputs};
use crate::read::line_source::LineSource;
use crate::read::reading::{BLOCK, read_lines};
use sketch_bloom::BloomFilter;
use sketch_text::records::RecordPart;
use std::alloc::Global;
use std::io;

/// Which records are written, and the filter of the keys.
#[derive(Clone, Copy)]
pub struct JoinOptions {
    /// The part of a record that is its item.
    pub part: RecordPart,
    /// The part of a record of the file of keys that is a key.
    pub keys_part: RecordPart,
    /// Whether the records are written whose items may be keys. If not, the others are written.
    pub wanted: bool,
    /// How the first record is written.
    pub form: RecordForm,
    /// The size of the filter.
    pub size: FilterSize,
    /// The seed of the filter's hash.
    pub seed: u64,
    /// The maximum number of bytes of a record before its line feed.
    pub max_line: u32,
}

/// What a run did.
#[derive(Drop)]
pub struct JoinSummary {
    /// Whether no read of an input failed.
    pub complete: bool,
    /// The number of records that were not written, at most `u64::MAX`.
    pub left_out: u64,
    /// The filter of all keys.
    pub filter: BloomFilter,
}

/// The error that ends a run.
#[derive(Debug, Drop)]
pub enum JoinFailure {
    /// A read of the file of keys failed.
    Unread(io::Error),
    /// The filter could not be made, or a key could not be inserted.
    Keys(Failure),
    /// A record could not be written.
    Lines(Failure),
}

/// Writes a header, and then the records of the inputs whose items may be keys, or, unless `wanted`, the others, which are certainly
/// not keys.
///
/// An item may be a key if the filter that has taken all keys contains it. A record without an item is no key. The records are written
/// as they are read, with their ends. One without an end gets a line feed if another one follows. In JSON each is an object in a line of
/// its own, without its end.
///
/// # Errors
///
/// Returns `Unread` if a read of the keys fails. Returns `Keys` with `BadSize` if a filter of this size is not allowed, with
/// `LineTooLong` if a record of the keys exceeds the limit, and with `Memory` if an allocation fails. Then no input is read and nothing
/// is written, and after `BadSize` no key is read. Returns `Lines` with `LineTooLong` if a record exceeds the limit, with `Memory` if
/// an allocation fails, and with `Write` if a write fails. Then the output has the front of what would be written.
pub fn join<K: LineSource, I: Inputs, W: Output>(
    alloc: Global,
    options: JoinOptions,
    keys: &mut K,
    header: &[u8],
    inputs: &mut I,
    writer: &mut W,
) -> Result<JoinSummary, JoinFailure>
    ensures written { IfOk result (λ summary. (filter : FilterState) × IsFilterOf options.size options.seed filter
        × IfSome (K.remaining keys.old) (λ bytes. IfSome (I.inputs inputs.old) (λ all. WritesJoined options.form options.wanted options.part header.now filter summary.filter
        (keys_of options.keys_part bytes) all (I.fails inputs.old) (W.contents writer.old) (W.contents writer.new)))) }
    ensures complete { IfOk result (λ summary. IfSome (I.inputs inputs.old) (λ _. summary.complete ≡ none_fails (I.fails inputs.old))) }
    ensures complete_keys { OnOk result (IfSome (K.remaining keys.old) (λ _. K.fails keys.old ≡ false)) }

    // When each error comes, and what it leaves unchanged.
    ensures failed { IfErr result (FailsJoin options (K.remaining keys.old) (K.fails keys.old) (I.inputs inputs.old) (W.failure writer.new)) }
    ensures front { IfErr result (λ failure. (writer.new ≡ writer.old) ⊎ ((filter : FilterState) × IsFilterOf options.size options.seed filter
        × IfSome (K.remaining keys.old) (λ bytes. IfSome (I.inputs inputs.old) (λ all. WritesSomeJoined options.form options.wanted options.part header.now
        filter (keys_of options.keys_part bytes) all (W.contents writer.old) (W.contents writer.new))))) }
    ensures too_long { OnOk result (IfSome (I.inputs inputs.old) (λ all. HaveLongRecord (splits_by options.part) (options.max_line + 1) all → ⊥)) }
    ensures too_long_keys { OnOk result (IfSome (K.remaining keys.old) (λ bytes. HasLongRecord (splits_by options.keys_part) (options.max_line + 1) bytes → ⊥)) }
    ensures bad_size { HasNoSize options.size → IsErrOf result (JoinFailure.Keys Failure.BadSize) }
    ensures unread_keys { IsErrOf result (JoinFailure.Keys Failure.BadSize) → keys.new ≡ keys.old }
    ensures unread { IfErr result (λ failure. IsOfKeys failure → (inputs.new ≡ inputs.old) × (writer.new ≡ writer.old)) }
{
    let empty = match filter_of(alloc, options.size, options.seed) {
        Ok(empty) => empty,
        Err(failure) => return Err(JoinFailure::Keys(failure)),
    };
    let limit = options.max_line as usize + 1;
    let mut buffer = match vec![in alloc; 0; limit.min(BLOCK)] {
        Ok(buffer) => buffer,
        Err(_) => return Err(JoinFailure::Keys(Failure::Memory)),
    };
    let filter = insert_keys(alloc, empty, options.keys_part, keys, &mut buffer, limit)?;
    let mut lines = JoinedLines {
        filter,
        part: options.part,
        wanted: options.wanted,
        left_out: 0,
        written: EndedText {
            alloc,
            bytes: Vec::new(alloc),
            form: options.form,
        },
    };
    if let Err(failure) = write_header(header, writer) {
        return Err(JoinFailure::Lines(failure));
    }
    match read_inputs(alloc, &mut lines, writer, inputs, &mut buffer, limit) {
        Ok(complete) => Ok(JoinSummary {
            complete,
            left_out: lines.left_out,
            filter: lines.filter,
        }),
        Err(failure) => Err(JoinFailure::Lines(failure)),
    }
}

/// Inserts all keys into a filter, and returns it.
///
/// # Errors
///
/// Returns `Unread` if a read of the keys fails. Returns `Keys` with `LineTooLong` if a record has at least `limit` bytes, and with
/// `Memory` if an allocation fails.
fn insert_keys<K: LineSource>(
    alloc: Global,
    filter: BloomFilter,
    part: RecordPart,
    keys: &mut K,
    buffer: &mut Vec<u8>,
    limit: usize,
) -> Result<BloomFilter, JoinFailure>
    ensures inserted { IfOk result (λ inserted. IfSome (K.remaining keys.old) (λ bytes. inserted ≡ with_items filter (keys_of part bytes))) }
    ensures complete { OnOk result (IfSome (K.remaining keys.old) (λ _. K.fails keys.old ≡ false)) }
    ensures too_long { OnOk result (IfSome (K.remaining keys.old) (λ bytes. HasLongRecord (splits_by part) limit bytes → ⊥)) }
    ensures failed { IfErr result (FailsInsertion part limit (K.remaining keys.old) (K.fails keys.old)) }
{
    let mut lines = KeyLines { filter, part };
    match read_lines(alloc, &mut lines, &mut (), keys, buffer, limit) {
        Ok(None) => Ok(lines.filter),
        Ok(Some(error)) => Err(JoinFailure::Unread(error)),
        Err(failure) => Err(JoinFailure::Keys(failure)),
    }
}
