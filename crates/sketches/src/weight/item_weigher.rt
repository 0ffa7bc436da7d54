//! Adds the items of records with their weights to a Count-Min sketch.
ghost use Rattle.std.specs.Prelude.{◌≡◌, ◌-◌, ◌^◌, [], ◌∷◌, min, IfErr, IfOk, OnOk};
ghost use Rattle.sketches.specs.KeyWeights.{CountsLines, CountsWeighed, unweighed_line, weighed_line};
ghost use Rattle.sketch_text.specs.Records.{records_by, splits_by};
ghost use Rattle.sketches.specs.Failures.{IsBadWeight};
ghost use Rattle.sketches.specs.LineNumbers.{lines_of, lines_of_row};
ghost use Rattle.sketches.specs.Skipped.{skipped_rows, skips, skips_row};
ghost use Rattle.sketches.specs.Utf8Lines.{GrowsBy};
ghost use Rattle.sketches.specs.WeighFailures.{FailsCounting, FailsLines, FailsRecord};
ghost use Rattle.sketches.specs.Weights.{counted_weight, weight_on};

use crate::count::weighed_lines::bad_field;
use crate::failure::Failure;
use crate::item::raw_item::RawItem;
use crate::item::weighing::WeighedRecord;
use crate::item::weights::taken_weight;
use crate::read::csv_header::line_feeds;
use crate::read::line_sink::LineSink;
use sketch_base::from_utf8;
use sketch_countmin::CountMinSketch;
use sketch_text::records::{RecordPart, Records, next_record, number_of, record_part_of};
use std::alloc::{AllocError, Global};

/// Adds the items of the records that it takes, with their weights.
#[derive(Drop)]
pub struct ItemWeigher {
    pub sketch: CountMinSketch<u64>,
    pub chosen: WeighedRecord,
    /// The number of lines of this input that were taken.
    pub count: u64,
    /// The number of records that have an item and no weight, and whose weight is 0, at most `u64::MAX`.
    pub unweighed: u64,
}

impl ItemWeigher {
    /// Returns the number of records that have an item and no weight, and whose weight is 0, at most `u64::MAX`.
    pub fn records_unweighed(&self) -> u64
        ensures { result ≡ self.now.unweighed }
    {
        self.unweighed
    }
}

impl LineSink<()> for ItemWeigher {
    ghost use Rattle.std.proofs.Common.{ap};
    ghost use Rattle.sketches.specs.declared.item.weighing.WeighedRecord.{WeighedRecord};
    ghost use Rattle.sketches.specs.KeyWeightLaws.{counts_none, counts_both, counts_sooner, counts_later};
    ghost use Rattle.sketches.specs.LineNumberLaws.{row_numbers_both, row_numbers_none};
    ghost use Rattle.sketches.specs.SkippedLaws.{rows_both, rows_none};

    ghost splits = { λ s. splits_by s.chosen.item };

    ghost begins = { λ old new. new ≡ record { sketch = old.sketch; chosen = old.chosen; count = 0; unweighed = old.unweighed } };

    ghost takes = { λ old bytes new. (CountsLines old.0.chosen old.0.sketch (records_by old.0.chosen.item bytes) new.0.sketch
        × (new.0.chosen ≡ old.0.chosen)) × GrowsBy old.0.unweighed (skipped_rows old.0.chosen (records_by old.0.chosen.item bytes)) new.0.unweighed
        × GrowsBy old.0.count (lines_of (splits_by old.0.chosen.item) (records_by old.0.chosen.item bytes)) new.0.count };

    ghost fails = { λ old bytes new failure. FailsLines old.0.chosen old.0.sketch.total old.0.count (records_by old.0.chosen.item bytes) failure };

    ghost takes_same = { λ r s xs taken. ap (λ (p : WeighedRecord). splits_by p.item) taken.0.1 };

    ghost takes_none = { λ s. (counts_none s.0.chosen s.0.sketch, rows_none s.0.chosen s.0.unweighed, row_numbers_none s.0.chosen s.0.count) };

    ghost takes_both = { λ r s t xs ys whole first second. (
      counts_both r.0.chosen xs ys whole r.0.sketch s.0.sketch t.0.sketch s.0.chosen t.0.chosen first.0 second.0,
      rows_both r.0.chosen xs ys whole r.0.unweighed s.0.unweighed t.0.unweighed s.0.chosen first.0.1 first.1 second.1,
      row_numbers_both r.0.chosen xs ys whole r.0.count s.0.count t.0.count s.0.chosen first.0.1 first.2 second.2,
    ) };

    ghost fails_sooner = { λ r t xs ys e whole. counts_sooner r.0.chosen xs ys whole r.0.sketch.total r.0.count e };

    ghost fails_later = { λ r s t xs ys e whole takes. counts_later r.0.chosen xs ys whole r.0.sketch.total s.0.sketch.total r.0.count s.0.count
        s.0.chosen e takes.0.0.0.total takes.0.0.1 takes.0.1 takes.2 };

    fn records(&self) -> Records {
        self.chosen.item.records()
    }

    fn begin(&mut self) {
        self.count = 0;
    }

    fn take(&mut self, alloc: Global, _output: &mut (), bytes: &[u8]) -> Result<(), Failure> {
        add_lines(
            alloc,
            &mut self.sketch,
            self.chosen,
            bytes,
            &mut self.count,
            &mut self.unweighed,
        )
    }
}

/// Adds the item of each record of bytes with the weight of the record. Adds to `count` the number of lines of each record. Increments
/// `bad` for each record that has an item and no weight.
///
/// # Errors
///
/// Returns `BadWeight` at the first record with an item and without a weight, if this is an error. It has the number of the record's first
/// line, if `count` lines come before `bytes`. Returns `TooManyItems` if the total would exceed `u64::MAX`, and `Memory` if an allocation fails.
fn add_lines(
    alloc: Global,
    sketch: &mut CountMinSketch<u64>,
    chosen: WeighedRecord,
    bytes: &[u8],
    count: &mut u64,
    bad: &mut u64,
) -> Result<(), Failure>
    ensures added { OnOk result (CountsLines chosen sketch.old (records_by chosen.item bytes.now) sketch.new) }
    ensures failed { IfErr result (FailsLines chosen sketch.old.total count.old (records_by chosen.item bytes.now)) }
    ensures numbered { OnOk result (GrowsBy count.old (lines_of (splits_by chosen.item) (records_by chosen.item bytes.now)) count.new) }
    ensures skipped { OnOk result (GrowsBy bad.old (skipped_rows chosen (records_by chosen.item bytes.now)) bad.new) }
{
    let mut rest = bytes;
    'each: loop {
        let Some((row, after)) = next_record(chosen.item, rest) else {
            return Ok(());
        };
        add_line(alloc, sketch, chosen, row, count.saturating_add(1), bad)?;
        *count = count.saturating_add(lines_of_row(chosen.item, row));
        rest = after;
    }
}

/// Returns the number of lines of a record, at most `u64::MAX`. A record of CSV has one more than it has line feeds.
pub fn lines_of_row(part: RecordPart, row: &[u8]) -> u64
    ensures { result ≡ min (lines_of_row (splits_by part) row.now) (2 ^ 64 - 1) }
{
    match part.records() {
        Records::Lines => 1,
        Records::Csv(_) => line_feeds(row).saturating_add(1),
    }
}

/// Adds the item of a record with the weight of the record. The first line of the record has the number `number`.
#[inline(always)]
fn add_line(
    alloc: Global,
    sketch: &mut CountMinSketch<u64>,
    chosen: WeighedRecord,
    row: &[u8],
    number: u64,
    bad: &mut u64,
) -> Result<(), Failure>
    ensures added { OnOk result (CountsWeighed sketch.old (weighed_line chosen row.now) sketch.new × (unweighed_line chosen row.now ≡ [])) }
    ensures failed { IfErr result (FailsRecord chosen sketch.old.total number row.now) }
    ensures skipped { OnOk result (GrowsBy bad.old (skips_row chosen row.now) bad.new) }
{
    let mut text = Vec::new(alloc);
    let Some(item) = record_part_of(chosen.item, row, &mut text)? else {
        return Ok(());
    };
    let Some(weight) = counted_weight(alloc, chosen, row, bad)? else {
        return Err(bad_weight(alloc, chosen.weight, row, number));
    };
    add_item(sketch, item, weight)
}

/// Returns the weight that counts of a record that has an item, or `None` if it has none. Increments `bad` if it has none and this is no
/// error.
#[inline(always)]
pub fn counted_weight(
    alloc: Global,
    chosen: WeighedRecord,
    row: &[u8],
    bad: &mut u64,
) -> Result<Option<u64>, AllocError>
    ensures weight { IfOk result (λ weight. weight ≡ counted_weight chosen row.now) }
    ensures skipped { OnOk result (GrowsBy bad.old (skips chosen.unweighed (weight_on chosen.weight row.now)) bad.new) }
{
    match weight_of(alloc, chosen.weight, row)? {
        Some(weight) => Ok(Some(weight)),
        None => Ok(taken_weight(chosen.unweighed, bad)),
    }
}

/// Returns the weight of a record: 1, or the number that a part spells. Returns `None` if the record does not have the part, or if the part
/// is not a number below 2^64.
#[inline(always)]
fn weight_of(alloc: Global, part: Option<RecordPart>, row: &[u8]) -> Result<Option<u64>, AllocError>
    ensures { IfOk result (λ weight. weight ≡ weight_on part row.now) }
{
    let Some(part) = part else {
        return Ok(Some(1));
    };
    let mut text = Vec::new(alloc);
    match record_part_of(part, row, &mut text)? {
        Some(digits) => Ok(number_of(digits)),
        None => Ok(None),
    }
}

/// Returns the error of a record that has no weight in a part, and whose first line has the number `number`.
pub fn bad_weight(alloc: Global, part: Option<RecordPart>, row: &[u8], number: u64) -> Failure
    ensures { IsBadWeight number result }
{
    let Some(part) = part else {
        return bad_field(alloc, b"".as_slice(), number);
    };
    let mut text = Vec::new(alloc);
    match record_part_of(part, row, &mut text) {
        Ok(found) => bad_field(alloc, found.unwrap_or(b"".as_slice()), number),
        Err(_) => Failure::Memory,
    }
}

/// Adds an item with a weight.
#[inline(always)]
fn add_item(sketch: &mut CountMinSketch<u64>, item: &[u8], weight: u64) -> Result<(), Failure>
    ensures added { OnOk result (CountsWeighed sketch.old ((item.now, weight) ∷ []) sketch.new) }
    ensures failed { IfErr result (FailsCounting sketch.old.total ((item.now, weight) ∷ []) (λ _. ⊥)) }
{
    match from_utf8(item) {
        Ok(text) => sketch.update_item_with_weight(text, weight)?,
        Err(_) => sketch.update_item_with_weight(&RawItem { bytes: item }, weight)?,
    }
    Ok(())
}
