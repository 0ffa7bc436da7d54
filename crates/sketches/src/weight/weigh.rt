//! The weights of keys in inputs.
ghost use Rattle.std.specs.Prelude.{◌≡◌, ◌⊎◌, ◌+◌, ◌≤◌, is_some, IfErr, IfOk, IfSome, IsErrOf, OnErr, OnOk};
ghost use Rattle.std.specs.Io.KnownBytes.{Appends};
ghost use Rattle.sketch_text.specs.Records.{splits_by};
ghost use Rattle.sketches.specs.Failures.{FailsWriting};
ghost use Rattle.sketches.specs.WeighFailures.{ComesLate, FailsTable, FailsWeigh};
ghost use Rattle.sketches.specs.Inputs.{HaveLongRecord, none_fails};
ghost use Rattle.sketches.specs.Outputs.{WritesFront};
ghost use Rattle.sketches.specs.Reading.{HasLongRecord};
ghost use Rattle.sketches.specs.KeyWeights.{IsEmptyTable, WritesSomeWeights, WritesWeights, total_line, usable_seed};

use crate::failure::Failure;
use crate::item::weighing::WeighedRecord;
use crate::print::layout::Style;
use crate::print::output::Output;
use crate::print::weight_lines::write_total_line;
use crate::read::inputs::{Inputs, read_inputs};
use crate::read::line_source::LineSource;
use crate::read::reading::{BLOCK, read_lines};
use crate::weight::item_weigher::ItemWeigher;
use crate::weight::key_weights::KeyWeights;
use sketch_base::{DEFAULT_UPDATE_SEED, ErrorKind, compute_seed_hash};
use sketch_countmin::{CountMinSketch, suggest_num_buckets, suggest_num_hashes};
use sketch_text::records::RecordPart;
use std::alloc::{AllocError, Global};
use std::io;

/// What is weighed and printed, and the size of the sketch.
#[derive(Clone, Copy)]
pub struct WeighOptions {
    /// The item of a record of an input, and its weight.
    pub chosen: WeighedRecord,
    /// The part of a record of the file of keys that is its key.
    pub keys_part: RecordPart,
    /// How each line is written.
    pub style: Style,
    /// A number should exceed its weight by at most the total over this number.
    pub parts: u64,
    /// About one of this number of keys may exceed that, under ideal hashes.
    pub questions: u64,
    /// The seed of the sketch's hashes.
    pub seed: u64,
    /// The maximum number of bytes of a record before its line feed.
    pub max_line: u32,
    /// Whether the first line shows the total.
    pub header: bool,
}

/// What a run read.
#[derive(Drop)]
pub struct Weighed {
    /// Whether no read of an input failed.
    pub complete: bool,
    /// The number of records that have an item and no weight, and whose weight is 0, at most `u64::MAX`.
    pub unweighed: u64,
    /// The error of a read of the file of keys, if any.
    pub failure: Option<io::Error>,
}

/// Writes a line for each key of a file: a number that is at least its weight in the inputs, and the key.
///
/// The weight of a key is the sum of the weights of the items of the inputs that are equal to it. Keys are written in the order of
/// their file. A record of the file without the part has no key. The first line has the total of all weights, if it is wanted.
///
/// # Errors
///
/// Returns `BadSize` if a sketch of this size is not allowed, and then reads and writes nothing. Returns `TooManyItems` if the total
/// exceeds 2^64 - 1, and `BadWeight` if a record with an item has no weight and this is an error. The output is not written then. Returns
/// `LineTooLong` if a record exceeds the limit, `Memory` if an allocation fails, and `Write` if a write fails. Then the output has the
/// front of what would be written.
pub fn weigh<I: Inputs, R: LineSource, W: Output>(
    alloc: Global,
    options: WeighOptions,
    inputs: &mut I,
    keys: &mut R,
    writer: &mut W,
) -> Result<Weighed, Failure>
    ensures written { IfOk result (λ done. IfSome (I.inputs inputs.old) (λ all. IfSome (R.remaining keys.old)
        (λ bytes. WritesWeights options all (I.fails inputs.old) bytes (R.fails keys.old) done.unweighed (W.contents writer.old) (W.contents writer.new)))) }
    ensures complete { IfOk result (λ done. IfSome (I.inputs inputs.old) (λ _. done.complete ≡ none_fails (I.fails inputs.old))) }
    ensures complete_keys { IfOk result (λ done. IfSome (R.remaining keys.old) (λ _. is_some done.failure ≡ R.fails keys.old)) }

    // When each error comes, and what it leaves unchanged.
    ensures failed { IfErr result (FailsWeigh options (I.inputs inputs.old) (R.remaining keys.old) (W.failure writer.new)) }
    ensures too_long { OnOk result (IfSome (I.inputs inputs.old) (λ all. HaveLongRecord (splits_by options.chosen.item) (options.max_line + 1) all → ⊥)) }
    ensures too_long_keys { OnOk result (IfSome (R.remaining keys.old) (λ bytes. HasLongRecord (splits_by options.keys_part) (options.max_line + 1) bytes → ⊥)) }
    ensures bad_size { (options.parts ≡ 0) ⊎ (options.questions ≤ 1) → IsErrOf result Failure.BadSize }
    ensures unread { IsErrOf result Failure.BadSize → (inputs.new ≡ inputs.old) × (keys.new ≡ keys.old) }
    ensures unwritten { IfErr result (λ failure. (writer.new ≡ writer.old) ⊎ (ComesLate failure × IfSome (I.inputs inputs.old)
        (λ all. IfSome (R.remaining keys.old) (λ bytes. WritesSomeWeights options all (I.fails inputs.old) bytes (W.contents writer.old) (W.contents writer.new))))) }
{
    let sketch = table_for(alloc, options.parts, options.questions, options.seed)?;
    let mut weigher = ItemWeigher {
        sketch,
        chosen: options.chosen,
        count: 0,
        unweighed: 0,
    };
    let limit = options.max_line as usize + 1;
    let mut buffer = vec![in alloc; 0; limit.min(BLOCK)]?;
    let complete = read_inputs(alloc, &mut weigher, &mut (), inputs, &mut buffer, limit)?;
    let unweighed = weigher.records_unweighed();
    let sketch = weigher.sketch;
    write_total(
        alloc,
        options.style,
        options.header,
        sketch.total_weight(),
        writer,
    )?;
    let mut lines = KeyWeights {
        sketch,
        part: options.keys_part,
        style: options.style,
        written: Vec::new(alloc),
        number: String::new(alloc),
    };
    let failure = read_lines(alloc, &mut lines, writer, keys, &mut buffer, limit)?;
    Ok(Weighed {
        complete,
        unweighed,
        failure,
    })
}

/// Creates an empty sketch for an error of the total over `parts`, which one of `questions` keys may exceed under ideal hashes.
///
/// # Errors
///
/// Returns `BadSize` if a sketch of this size is not allowed, and `Memory` if it cannot be allocated.
fn table_for(
    alloc: Global,
    parts: u64,
    questions: u64,
    seed: u64,
) -> Result<CountMinSketch<u64>, Failure>
    ensures made { IfOk result (IsEmptyTable parts questions seed) }
    ensures bad_size { (parts ≡ 0) ⊎ (questions ≤ 1) → IsErrOf result Failure.BadSize }
    ensures failed { IfErr result (FailsTable parts questions) }
{
    let num_buckets = suggest_num_buckets(parts)?;
    let num_hashes = suggest_num_hashes(questions)?;
    let sketch = CountMinSketch::with_seed(alloc, num_hashes, num_buckets, usable_seed(seed))?;
    Ok(sketch)
}

/// Returns a seed, or the default seed if the hash of the seed is 0, which no sketch allows.
fn usable_seed(seed: u64) -> u64
    ensures { result ≡ usable_seed seed }
{
    match compute_seed_hash(seed, ErrorKind::InvalidArgument) {
        Ok(_) => seed,
        Err(_) => DEFAULT_UPDATE_SEED,
    }
}

/// Writes the line of the total, if it is wanted.
///
/// # Errors
///
/// Returns `Memory` if an allocation fails, and `Write` if the writer fails.
pub fn write_total<W: Output>(
    alloc: Global,
    style: Style,
    wanted: bool,
    total: u64,
    writer: &mut W,
) -> Result<(), Failure>
    ensures written { OnOk result (Appends (W.contents writer.old) (W.contents writer.new) (total_line style wanted total)) }
    ensures front { OnErr result (WritesFront (W.contents writer.old) (W.contents writer.new) (total_line style wanted total)) }
    ensures failed { IfErr result (FailsWriting (W.failure writer.new)) }
{
    if !wanted {
        return Ok(());
    }
    let mut text = String::new(alloc);
    write_total_line(&mut text, style, total)?;
    match writer.write_all(text.as_bytes()) {
        Ok(()) => Ok(()),
        Err(e) => Err(Failure::Write(e)),
    }
}
