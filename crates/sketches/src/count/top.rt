//! The most frequent items of inputs.
ghost use Rattle.std.specs.Prelude.{◌≡◌, ◌⊎◌, ◌+◌, ◌<◌, true, IfErr, IfNone, IfOk, IfSome, IsErrOf, IsSome, OnOk};
ghost use Rattle.sketch_frequencies.specs.Sizes.{size_fault};
ghost use Rattle.sketches.specs.Failures.{ComesAfterKeeping, FailsTop, IsOfOutput};
ghost use Rattle.sketches.specs.Images.{KeepsItems, StopsTop};
ghost use Rattle.sketches.specs.Inputs.{HaveLongRecord, none_fails};
ghost use Rattle.sketches.specs.Reports.{IsErrorOf, WritesReport};
ghost use Rattle.sketches.specs.Weighed.{splits_of};

use crate::count::counting::ItemCounter;
use crate::failure::Failure;
use crate::image::save::Keeper;
use crate::item::weighing::Weighing;
use crate::print::layout::Layout;
use crate::print::output::Output;
use crate::print::report::report;
use crate::print::threshold::Threshold;
use crate::read::inputs::{Inputs, read_inputs};
use crate::read::reading::BLOCK;
use sketch_frequencies::{FrequentItemsSketch, TableKey};
use std::alloc::Global;

/// What is counted and printed.
#[derive(Clone, Copy)]
pub struct Options {
    /// The items of a line and their weights.
    pub weighing: Weighing,
    /// Which rows are printed.
    pub threshold: Threshold,
    /// The maximum number of rows.
    pub rows: usize,
    /// The maximum number of slots of the table.
    pub size: usize,
    /// The maximum number of bytes of a line before its line feed.
    pub max_line: u32,
    /// How the report is written.
    pub layout: Layout,
    /// How the table hashes.
    pub key: TableKey,
}

/// What a run read, and how it ended.
#[derive(Drop)]
pub struct Summary {
    /// Whether no read failed.
    pub complete: bool,
    /// The number of records whose items are not UTF-8, at most `u64::MAX`.
    pub not_utf8: u64,
    /// The number of records that have an item and no weight, and whose weight is 0, at most `u64::MAX`.
    pub unweighed: u64,
    /// The error, if exact numbers are wanted and it is not 0. No report is written then.
    pub inexact: Option<u64>,
}

/// Writes a report on the most frequent items of the inputs' lines. Writes nothing if exact numbers are wanted and the error is not 0.
///
/// The report is written as a whole, after all inputs are read and the sketch is kept.
///
/// # Errors
///
/// Returns `BadSize` if the size is not a power of two from 8 to 2^30, and then reads nothing. Returns `LineTooLong` if a line
/// exceeds the limit, `BadWeight` if a line with an item has no weight, `TooManyItems` if the weights of all items are at least
/// 2^64, and `Memory` if an allocation fails. The output is not written then, and no sketch is kept, except that `Memory` may come after
/// it was. Returns `Write` if a write fails: then the output has the front of the report, and the sketch was kept.
pub fn top<I: Inputs, K: Keeper, W: Output>(
    alloc: Global,
    options: Options,
    inputs: &mut I,
    keeper: &mut K,
    writer: &mut W,
) -> Result<Summary, Failure>
    ensures written { IfOk result (λ summary. IfNone summary.inexact (WritesReport options (I.inputs inputs.old) (I.fails inputs.old) summary
        (W.contents writer.old) (W.contents writer.new))) }
    ensures inexact { IfOk result (λ summary. IfSome summary.inexact
        (λ error. (options.layout.exact ≡ true) × (0 < error) × (writer.new ≡ writer.old))) }
    ensures inexact_error { IfOk result (λ summary. IfSome summary.inexact (IsErrorOf options (I.inputs inputs.old) (I.fails inputs.old) summary)) }
    ensures kept { OnOk result (KeepsItems options (I.inputs inputs.old) (I.fails inputs.old) (K.kept keeper.new)) }
    ensures complete { IfOk result (λ summary. IfSome (I.inputs inputs.old) (λ _. summary.complete ≡ none_fails (I.fails inputs.old))) }

    // When each error comes, and what it leaves unchanged.
    ensures failed { IfErr result (FailsTop options (I.inputs inputs.old) (StopsTop options (I.inputs inputs.old) (I.fails inputs.old) (K.kept keeper.new)
        (W.failure writer.new) (W.contents writer.old) (W.contents writer.new))) }
    ensures too_long { OnOk result (IfSome (I.inputs inputs.old) (λ all. HaveLongRecord (splits_of options.weighing) (options.max_line + 1) all → ⊥)) }
    ensures bad_size { IsSome (size_fault options.size) → IsErrOf result Failure.BadSize }
    ensures unread { IsErrOf result Failure.BadSize → inputs.new ≡ inputs.old }
    ensures unwritten { IfErr result (λ failure. IsOfOutput failure ⊎ (writer.new ≡ writer.old)) }
    ensures unkept { IfErr result (λ failure. (keeper.new ≡ keeper.old)
        ⊎ (ComesAfterKeeping failure × KeepsItems options (I.inputs inputs.old) (I.fails inputs.old) (K.kept keeper.new))) }
{
    let sketch = FrequentItemsSketch::with_key(alloc, options.size, options.key)?;
    let mut counter = ItemCounter {
        sketch,
        weighing: options.weighing,
        count: 0,
        not_utf8: 0,
        unweighed: 0,
    };
    let limit = options.max_line as usize + 1;
    let mut buffer = vec![in alloc; 0; limit.min(BLOCK)]?;
    let complete = read_inputs(alloc, &mut counter, &mut (), inputs, &mut buffer, limit)?;
    let not_utf8 = counter.records_not_utf8();
    let unweighed = counter.records_unweighed();
    keeper.keep(&counter.sketch);
    let Some(text) = report(
        alloc,
        &counter.sketch,
        options.layout,
        options.threshold,
        options.rows,
    )?
    else {
        return Ok(Summary {
            complete,
            not_utf8,
            unweighed,
            inexact: Some(counter.sketch.maximum_error()),
        });
    };
    match writer.write_all(&text) {
        Ok(()) => Ok(Summary {
            complete,
            not_utf8,
            unweighed,
            inexact: None,
        }),
        Err(e) => Err(Failure::Write(e)),
    }
}
