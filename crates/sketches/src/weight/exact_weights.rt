//! The exact weights of keys in inputs.
ghost use Rattle.std.specs.Prelude.{◌≡◌, ◌⊎◌, ◌+◌, false, Option, IfErr, IfOk, IfSome, OnErr, OnOk};
ghost use Rattle.std.specs.Io.KnownBytes.{Appends};
ghost use Rattle.std.specs.declared.io.Error.{Error};
ghost use Rattle.sketch_text.specs.Records.{splits_by};
ghost use Rattle.sketches.specs.Failures.{FailsWriting};
ghost use Rattle.sketches.specs.Inputs.{HaveLongRecord, none_fails};
ghost use Rattle.sketches.specs.KeySums.{ComesWhileWriting, FailsExact, FailsFileKeys, FailsSums, HaveFewKeys, HoldsKeys, IsOfKeys, SumsInputs, WritesSomeSums, WritesSums, rows_text};
ghost use Rattle.sketches.specs.KeyWeights.{parts_in};
ghost use Rattle.sketches.specs.Outputs.{WritesFront};
ghost use Rattle.sketches.specs.Reading.{HasLongRecord};

use crate::failure::Failure;
use crate::item::weighing::WeighedRecord;
use crate::print::layout::Style;
use crate::print::output::Output;
use crate::read::inputs::{Inputs, read_inputs};
use crate::read::line_source::LineSource;
use crate::read::reading::{BLOCK, read_lines};
use crate::weight::file_keys::{FileKeys, KeyMap};
use crate::weight::key_sums::KeySums;
use crate::weight::sum_rows::write_rows;
use crate::weight::weigh::write_total;
use sketch_text::records::RecordPart;
use std::alloc::Global;
use std::hash::RandomState;
use std::io;

/// What is weighed and printed.
#[derive(Clone, Copy)]
pub struct ExactOptions {
    /// The item of a record of an input, and its weight.
    pub chosen: WeighedRecord,
    /// The part of a record of the file of keys that is its key.
    pub keys_part: RecordPart,
    /// The maximum number of distinct keys.
    pub max_keys: u32,
    /// How the total and the keys are printed.
    pub style: Style,
    /// The maximum number of bytes of a record before its line feed.
    pub max_line: u32,
    /// Whether the first line shows the total.
    pub header: bool,
}

/// What a run read.
#[derive(Drop)]
pub struct ExactSummary {
    /// Whether no read of an input failed.
    pub complete: bool,
    /// The number of records that have an item and no weight, and whose weight is 0, at most `u64::MAX`.
    pub unweighed: u64,
}

/// The error that ends a run.
#[derive(Debug, Drop)]
pub enum ExactFailure {
    /// A read of the file of keys failed.
    Unread(io::Error),
    /// The keys could not be taken.
    Keys(Failure),
    /// The weights could not be summed or written.
    Weights(Failure),
}

/// Writes a line for each key of a file: its weight in the inputs, a tab and the key.
///
/// The weight of a key is the sum of the weights of the items of the inputs that are equal to it. Keys are written in the order of
/// their file, which is read first. A record of the file without the part has no key. The first line has the total of all weights, if it
/// is wanted.
///
/// # Errors
///
/// Returns `Unread` if a read of the keys fails. Returns `Keys` with `BadSize` if the file has more than `max_keys` distinct keys, with
/// `LineTooLong` if a record of the keys exceeds the limit, and with `Memory` if an allocation fails. Then no input is read and nothing
/// is written. Returns `Weights` with `TooManyItems` if the total exceeds 2^64 - 1, with `BadWeight` if a record with an item has no weight
/// and this is an error, and with `LineTooLong` if a record exceeds the limit. The output is not written then. Returns `Weights` with
/// `Memory` if an allocation fails, and with `Write` if a write fails. Then the output has the front of what would be written.
pub fn weigh_exactly<I: Inputs, R: LineSource, W: Output>(
    alloc: Global,
    options: ExactOptions,
    state: RandomState,
    keys: &mut R,
    inputs: &mut I,
    writer: &mut W,
) -> Result<ExactSummary, ExactFailure>
    ensures written { IfOk result (λ done. IfSome (R.remaining keys.old) (λ bytes. IfSome (I.inputs inputs.old)
        (λ all. WritesSums options all (I.fails inputs.old) bytes done.unweighed (W.contents writer.old) (W.contents writer.new)))) }
    ensures complete { IfOk result (λ done. IfSome (I.inputs inputs.old) (λ _. done.complete ≡ none_fails (I.fails inputs.old))) }
    ensures complete_keys { OnOk result (IfSome (R.remaining keys.old) (λ _. R.fails keys.old ≡ false)) }
    ensures few { OnOk result (IfSome (R.remaining keys.old) (λ bytes. HaveFewKeys options.max_keys (parts_in options.keys_part bytes))) }

    // When each error comes, and what it leaves unchanged.
    ensures failed { IfErr result (FailsExact options (R.remaining keys.old) (R.fails keys.old) (I.inputs inputs.old) (W.failure writer.new)) }
    ensures too_long { OnOk result (IfSome (I.inputs inputs.old) (λ all. HaveLongRecord (splits_by options.chosen.item) (options.max_line + 1) all → ⊥)) }
    ensures too_long_keys { OnOk result (IfSome (R.remaining keys.old) (λ bytes. HasLongRecord (splits_by options.keys_part) (options.max_line + 1) bytes → ⊥)) }
    ensures unread { IfErr result (λ failure. IsOfKeys failure → (inputs.new ≡ inputs.old) × (writer.new ≡ writer.old)) }
    ensures unwritten { IfErr result (λ failure. (writer.new ≡ writer.old) ⊎ (ComesWhileWriting failure × IfSome (R.remaining keys.old)
        (λ bytes. IfSome (I.inputs inputs.old) (λ all. WritesSomeSums options all (I.fails inputs.old) bytes (W.contents writer.old) (W.contents writer.new))))) }
{
    let limit = options.max_line as usize + 1;
    let mut buffer = match vec![in alloc; 0; limit.min(BLOCK)] {
        Ok(buffer) => buffer,
        Err(_) => return Err(ExactFailure::Keys(Failure::Memory)),
    };
    let file = keys_of(alloc, options, state, keys, &mut buffer, limit)?;
    let (done, complete) = match sums_of(
        alloc,
        options.chosen,
        file.sums,
        inputs,
        &mut buffer,
        limit,
    ) {
        Ok(done) => done,
        Err(failure) => return Err(ExactFailure::Weights(failure)),
    };
    match write_sums(alloc, options, &done.sums, done.total, &file.order, writer) {
        Ok(()) => Ok(ExactSummary {
            complete,
            unweighed: done.records_unweighed(),
        }),
        Err(failure) => Err(ExactFailure::Weights(failure)),
    }
}

/// Returns the keys of a file.
///
/// # Errors
///
/// Returns `Unread` if a read fails. Returns `Keys` with `BadSize` if the file has more than `max_keys` distinct keys, with `LineTooLong`
/// if a record has at least `limit` bytes, and with `Memory` if an allocation fails.
fn keys_of<R: LineSource>(
    alloc: Global,
    options: ExactOptions,
    state: RandomState,
    keys: &mut R,
    buffer: &mut Vec<u8>,
    limit: usize,
) -> Result<FileKeys, ExactFailure>
    ensures taken { IfOk result (λ file. IfSome (R.remaining keys.old) (λ bytes. HoldsKeys file.sums.entries file.order.items (parts_in options.keys_part bytes))) }
    ensures complete { OnOk result (IfSome (R.remaining keys.old) (λ _. R.fails keys.old ≡ false)) }
    ensures too_long { OnOk result (IfSome (R.remaining keys.old) (λ bytes. HasLongRecord (splits_by options.keys_part) limit bytes → ⊥)) }
    ensures few { OnOk result (IfSome (R.remaining keys.old) (λ bytes. HaveFewKeys options.max_keys (parts_in options.keys_part bytes))) }
    ensures failed { IfErr result (FailsFileKeys options limit (R.remaining keys.old) (R.fails keys.old)) }
{
    let mut file = FileKeys {
        part: options.keys_part,
        max_keys: options.max_keys,
        sums: KeyMap::with_hasher(alloc, state),
        order: Vec::new(alloc),
    };
    match read_lines(alloc, &mut file, &mut (), keys, buffer, limit) {
        Ok(None) => Ok(file),
        Ok(Some(error)) => Err(ExactFailure::Unread(error)),
        Err(failure) => Err(ExactFailure::Keys(failure)),
    }
}

/// Adds the weights of the items of inputs to the sums of keys. Returns the sums, and whether no read failed.
///
/// # Errors
///
/// Returns `LineTooLong` if a record has at least `limit` bytes, `TooManyItems` if the total exceeds 2^64 - 1, `BadWeight` if a record with
/// an item has no weight and this is an error, and `Memory` if an allocation fails.
fn sums_of<I: Inputs>(
    alloc: Global,
    chosen: WeighedRecord,
    sums: KeyMap,
    inputs: &mut I,
    buffer: &mut Vec<u8>,
    limit: usize,
) -> Result<(KeySums, bool), Failure>
    ensures summed { IfOk result (λ done. IfSome (I.inputs inputs.old) (λ all. SumsInputs chosen sums.entries all (I.fails inputs.old) done.0.sums.entries done.0.total done.0.unweighed)) }
    ensures complete { IfOk result (λ done. IfSome (I.inputs inputs.old) (λ _. done.1 ≡ none_fails (I.fails inputs.old))) }
    ensures too_long { OnOk result (IfSome (I.inputs inputs.old) (λ all. HaveLongRecord (splits_by chosen.item) limit all → ⊥)) }
    ensures failed { (write_error : Option Error) → IfErr result (FailsSums chosen limit (I.inputs inputs.old) write_error) }
{
    let mut adder = KeySums {
        sums,
        total: 0,
        chosen,
        count: 0,
        unweighed: 0,
    };
    let complete = read_inputs(alloc, &mut adder, &mut (), inputs, buffer, limit)?;
    Ok((adder, complete))
}

/// Writes the line of the total, if it is wanted, and the lines of the entries at these indices.
///
/// # Errors
///
/// Returns `Memory` if an allocation fails, and `Write` if a write fails.
fn write_sums<W: Output>(
    alloc: Global,
    options: ExactOptions,
    sums: &KeyMap,
    total: u64,
    order: &[usize],
    writer: &mut W,
) -> Result<(), Failure>
    ensures written { OnOk result (Appends (W.contents writer.old) (W.contents writer.new) (rows_text options total sums.now.entries order.now)) }
    ensures front { OnErr result (WritesFront (W.contents writer.old) (W.contents writer.new) (rows_text options total sums.now.entries order.now)) }
    ensures failed { IfErr result (FailsWriting (W.failure writer.new)) }
{
    write_total(alloc, options.style, options.header, total, writer)?;
    write_rows(alloc, options.style, sums, order, writer)?;
    Ok(())
}
