//! Adds the items of records with their weights.
ghost use Rattle.std.specs.Prelude.{◌≡◌, [], ◌∷◌, Some, IfErr, OnOk};
ghost use Rattle.std.specs.Str.Lossy.{utf8_lossy};
ghost use Rattle.sketch_text.specs.Records.{records_by, splits_by};
ghost use Rattle.sketches.specs.Added.{AddsLine, AddsLines, AddsWeighed};
ghost use Rattle.sketches.specs.Failures.{FailsLine, FailsLines, FailsWeighing};
ghost use Rattle.sketches.specs.LineNumbers.{lines_of};
ghost use Rattle.sketches.specs.Skipped.{skipped_rows, skips_row};
ghost use Rattle.sketches.specs.Utf8Lines.{GrowsBy, not_utf8_in, not_utf8_of};
ghost use Rattle.sketches.specs.Weighed.{with_weight};

use crate::failure::Failure;
use crate::item::utf8_lines::count_item;
use crate::item::weighing::{WeighedRecord, Weighing};
use crate::weight::item_weigher::{bad_weight, counted_weight, lines_of_row};
use sketch_base::from_utf8;
use sketch_frequencies::FrequentItemsSketch;
use sketch_text::records::{next_record, record_part_of};
use std::alloc::Global;

/// Adds the item of each record with the weight of the record. Adds to `count` the number of lines of each record. Increments `not_utf8`
/// for each record whose item is not UTF-8, and `bad` for each that has an item and no weight.
///
/// # Errors
///
/// Returns `BadWeight` at the first record with an item and without a weight, if this is an error. It has the number of the record's first
/// line, if `count` lines come before `bytes`. Returns `TooManyItems` if the total would exceed `u64::MAX`, and `Memory` if an allocation
/// fails.
#[inline(never)]
pub fn add_records(
    alloc: Global,
    sketch: &mut FrequentItemsSketch<String>,
    chosen: WeighedRecord,
    bytes: &[u8],
    count: &mut u64,
    not_utf8: &mut u64,
    bad: &mut u64,
) -> Result<(), Failure>
    ensures added { OnOk result (AddsLines (Weighing.Record chosen) sketch.old bytes.now sketch.new) }
    ensures failed { IfErr result (FailsLines (Weighing.Record chosen) sketch.old count.old bytes.now) }
    ensures counted { OnOk result (GrowsBy not_utf8.old (not_utf8_in (Weighing.Record chosen) (records_by chosen.item bytes.now)) not_utf8.new) }
    ensures skipped { OnOk result (GrowsBy bad.old (skipped_rows chosen (records_by chosen.item bytes.now)) bad.new) }
    ensures numbered { OnOk result (GrowsBy count.old (lines_of (splits_by chosen.item) (records_by chosen.item bytes.now)) count.new) }
{
    let mut text = Vec::new(alloc);
    let mut rest = bytes;
    'each: loop {
        let Some((row, after)) = next_record(chosen.item, rest) else {
            return Ok(());
        };
        let number = count.saturating_add(1);
        text.clear();
        add_record(alloc, sketch, chosen, row, &mut text, number, not_utf8, bad)?;
        *count = count.saturating_add(lines_of_row(chosen.item, row));
        rest = after;
    }
}

/// Adds the item of a record with the weight of the record. Increments `not_utf8` if the item is not UTF-8. `text` is empty.
#[inline(always)]
fn add_record(
    alloc: Global,
    sketch: &mut FrequentItemsSketch<String>,
    chosen: WeighedRecord,
    row: &[u8],
    text: &mut Vec<u8>,
    number: u64,
    not_utf8: &mut u64,
    bad: &mut u64,
) -> Result<(), Failure>
    requires { text.old.items ≡ [] }
    ensures added { OnOk result (AddsLine (Weighing.Record chosen) sketch.old row.now sketch.new) }
    ensures failed { IfErr result (FailsLine (Weighing.Record chosen) sketch.old number row.now) }
    ensures counted { OnOk result (GrowsBy not_utf8.old (not_utf8_in (Weighing.Record chosen) (row.now ∷ [])) not_utf8.new) }
    ensures skipped { OnOk result (GrowsBy bad.old (skips_row chosen row.now) bad.new) }
{
    let Some(item) = record_part_of(chosen.item, row, text)? else {
        return Ok(());
    };
    let Some(weight) = counted_weight(alloc, chosen, row, bad)? else {
        return Err(bad_weight(alloc, chosen.weight, row, number));
    };
    add_text(alloc, sketch, item, weight, not_utf8)
}

/// Adds bytes with a weight, with U+FFFD for those that are not UTF-8. Increments `not_utf8` if there are such bytes.
#[inline(always)]
fn add_text(
    alloc: Global,
    sketch: &mut FrequentItemsSketch<String>,
    bytes: &[u8],
    weight: u64,
    not_utf8: &mut u64,
) -> Result<(), Failure>
    ensures added { OnOk result (AddsWeighed sketch.old (with_weight (utf8_lossy bytes.now ∷ []) (Some weight)) sketch.new) }
    ensures failed { IfErr result (FailsWeighing sketch.old (with_weight (utf8_lossy bytes.now ∷ []) (Some weight)) (λ _. ⊥)) }
    ensures counted { GrowsBy not_utf8.old (not_utf8_of bytes.now) not_utf8.new }
{
    count_item(bytes, not_utf8);
    match from_utf8(bytes) {
        Ok(text) => add_string(sketch, text, weight),
        Err(_) => {
            let text = String::from_utf8_lossy(alloc, bytes)?;
            add_string(sketch, text.as_str(), weight)
        }
    }
}

/// Adds a string with a weight.
#[inline(always)]
fn add_string(
    sketch: &mut FrequentItemsSketch<String>,
    text: &str,
    weight: u64,
) -> Result<(), Failure>
    ensures added { OnOk result (AddsWeighed sketch.old (with_weight (text.now ∷ []) (Some weight)) sketch.new) }
    ensures failed { IfErr result (FailsWeighing sketch.old (with_weight (text.now ∷ []) (Some weight)) (λ _. ⊥)) }
{
    sketch.update_item_with_count(text, weight)?;
    Ok(())
}
