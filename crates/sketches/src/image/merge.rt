//! Merges of images.
ghost use Rattle.std.specs.Prelude.{◌≡◌, ◌⊎◌, ◌+◌, ◌<◌, true, IfErr, IfNone, IfOk, IfSome, OnOk};
ghost use Rattle.std.specs.String.{string_eq};
ghost use Rattle.sketch_frequencies.specs.History.FrequentHistory.{Merge};
ghost use Rattle.sketch_frequencies.specs.Stands.{ExtendsBoth, ExtendsBothBudgets};
ghost use Rattle.sketch_frequencies.specs.State.{IsState};
ghost use Rattle.sketch_frequencies.specs.Steps.{JoinsEqual};
ghost use Rattle.sketches.specs.ImageFailures.{ComesAfterKeeping, EndsAdding, EndsMerge, IsWriteFailure};
ghost use Rattle.sketches.specs.Images.{IsMergedError, KeepsMerged, Merges, StopsMerge, WritesMerge};

use crate::image::images::{ImageFailure, Images, read_image};
use crate::image::save::Keeper;
use crate::print::layout::Layout;
use crate::print::output::Output;
use crate::print::report::report;
use crate::print::threshold::Threshold;
use sketch_base::Fault;
use sketch_frequencies::{FrequentItemsImageOptions, FrequentItemsSketch};
use std::alloc::Global;

/// How images are merged and printed.
#[derive(Clone, Copy)]
pub struct MergeOptions {
    /// The maximum number of bytes of an image, and of its table and strings, and the key under which tables hash.
    pub images: FrequentItemsImageOptions,
    /// Which rows are printed.
    pub threshold: Threshold,
    /// The maximum number of rows.
    pub rows: usize,
    /// How the report is written.
    pub layout: Layout,
}

/// Writes a report on the items of all images. The merged sketch is kept before.
///
/// The report is written as a whole after all images are read. If exact numbers are wanted and the error is not 0,
/// returns the error and writes nothing.
///
/// # Errors
///
/// Returns those of [`merge_images`]. The output is not written then, and no sketch is kept, except that `Memory` may come after it was.
/// Returns `Write` if a write fails: then the output has the front of the report, and the sketch was kept.
pub fn merge<I: Images, K: Keeper, W: Output>(
    alloc: Global,
    options: MergeOptions,
    images: &mut I,
    keeper: &mut K,
    writer: &mut W,
) -> Result<Option<u64>, ImageFailure>
    ensures written { IfOk result (λ inexact. IfNone inexact (IfSome (I.images images.old)
        (λ all. WritesMerge options all (W.contents writer.old) (W.contents writer.new)))) }
    ensures inexact { IfOk result (λ inexact. IfSome inexact
        (λ error. (options.layout.exact ≡ true) × (0 < error) × (writer.new ≡ writer.old))) }
    ensures inexact_error { IfOk result (λ inexact. IfSome inexact (λ error. IfSome (I.images images.old) (λ all. IsMergedError options all error))) }
    ensures kept { OnOk result (IfSome (I.images images.old)
        (λ all. IfSome (K.kept keeper.new) (Merges options.images.max_bytes all))) }
    ensures keyed { OnOk result (IfSome (K.kept keeper.new) (λ kept. kept.key ≡ options.images.key)) }
    ensures err { IfErr result (λ failure. IfSome (I.images images.old) (λ all. EndsMerge options.images.max_bytes all
        (StopsMerge options all (K.kept keeper.new) (W.failure writer.new) (W.contents writer.old) (W.contents writer.new)) failure)) }
    ensures unwritten { IfErr result (λ failure. IsWriteFailure failure ⊎ (writer.new ≡ writer.old)) }
    ensures unkept { IfErr result (λ failure. (keeper.new ≡ keeper.old)
        ⊎ (ComesAfterKeeping failure × IfSome (I.images images.old) (λ all. KeepsMerged options all (K.kept keeper.new)))) }
{
    let sketch = merge_images(alloc, &options.images, images)?;
    keeper.keep(&sketch);
    let Ok(shown) = report(
        alloc,
        &sketch,
        options.layout,
        options.threshold,
        options.rows,
    ) else {
        return Err(ImageFailure::Memory);
    };
    let Some(text) = shown else {
        return Ok(Some(sketch.maximum_error()));
    };
    match writer.write_all(&text) {
        Ok(()) => Ok(None),
        Err(error) => Err(ImageFailure::Write(error)),
    }
}

/// Returns the sketch of the first image, after those of the others were merged into it in order.
///
/// It keeps the maximum size of the first image, and its table hashes under the key of the options. Two sketches are in memory at a time.
///
/// # Errors
///
/// Returns `NoImage` if there is none, and those of [`read_image`] for the first image that has one. Returns `TooManyItems` if the
/// total of all images exceeds 2^64 - 1, and `Memory` if an allocation fails.
fn merge_images<I: Images>(
    alloc: Global,
    options: &FrequentItemsImageOptions,
    images: &mut I,
) -> Result<FrequentItemsSketch<String>, ImageFailure>
    ensures key { IfOk result (λ sketch. sketch.key ≡ options.now.key) }
    ensures merged { IfOk result (λ sketch. IfSome (I.images images.old) (λ all. Merges options.now.max_bytes all sketch)) }
    ensures err { IfErr result (λ failure. IfSome (I.images images.old) (λ all. EndsMerge options.now.max_bytes all (λ _. ⊥) failure)) }
{
    let Some(first) = images.next() else {
        return Err(ImageFailure::NoImage);
    };
    let mut sketch = read_image(alloc, options, first)?;
    'each: for _ in 0..u64::MAX {
        let Some(opened) = images.next() else {
            return Ok(sketch);
        };
        let other = read_image(alloc, options, opened)?;
        add(&mut sketch, &other)?;
    }
    Err(ImageFailure::Memory)
}

/// Merges another sketch into a sketch.
fn add(
    sketch: &mut FrequentItemsSketch<String>,
    other: &FrequentItemsSketch<String>,
) -> Result<(), ImageFailure>
    ensures state { IsState string_eq sketch.new }
    ensures key { OnOk result (sketch.new.key ≡ sketch.old.key) }
    ensures join { OnOk result (JoinsEqual string_eq sketch.old other.now sketch.new) }
    ensures stands { OnOk result (ExtendsBoth string_eq sketch.old other.now sketch.new Merge) }
    ensures budget { OnOk result (ExtendsBothBudgets string_eq sketch.old other.now sketch.new Merge) }
    ensures err { IfErr result (EndsAdding (sketch.old.total + other.now.total)) }
{
    let Err(error) = sketch.merge(other) else {
        return Ok(());
    };
    match error.fault() {
        Fault::NoMemory => Err(ImageFailure::Memory),
        _ => Err(ImageFailure::TooManyItems),
    }
}
