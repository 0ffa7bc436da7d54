//! Adds the weights of items to the sums of keys.
ghost use Rattle.std.specs.Prelude.{◌≡◌, [], ◌∷◌, IfErr, OnOk};
ghost use Rattle.sketch_text.specs.Records.{records_by, splits_by};
ghost use Rattle.sketches.specs.KeySums.{AddsItems, AddsLines, AddsWeight, names};
ghost use Rattle.sketches.specs.KeyWeights.{unweighed_line, weighed_line};
ghost use Rattle.sketches.specs.LineNumbers.{lines_of};
ghost use Rattle.sketches.specs.Skipped.{skipped_rows, skips_row};
ghost use Rattle.sketches.specs.Utf8Lines.{GrowsBy};
ghost use Rattle.sketches.specs.WeighFailures.{FailsCounting, FailsLines, FailsRecord};

use crate::failure::Failure;
use crate::item::weighing::WeighedRecord;
use crate::read::line_sink::LineSink;
use crate::weight::file_keys::KeyMap;
use crate::weight::item_weigher::{bad_weight, counted_weight, lines_of_row};
use sketch_text::records::{Records, next_record, record_part_of};
use std::alloc::Global;

/// Adds the weight of each item of the records that it takes to a total, and to the sum of the key that is equal to the item.
#[derive(Drop)]
pub struct KeySums {
    pub sums: KeyMap,
    pub total: u64,
    pub chosen: WeighedRecord,
    /// The number of lines of this input that were taken.
    pub count: u64,
    /// The number of records that have an item and no weight, and whose weight is 0, at most `u64::MAX`.
    pub unweighed: u64,
}

impl KeySums {
    /// Returns the number of records that have an item and no weight, and whose weight is 0, at most `u64::MAX`.
    pub fn records_unweighed(&self) -> u64
        ensures { result ≡ self.now.unweighed }
    {
        self.unweighed
    }
}

impl LineSink<()> for KeySums {
    ghost use Rattle.std.proofs.Common.{ap};
    ghost use Rattle.sketches.specs.declared.item.weighing.WeighedRecord.{WeighedRecord};
    ghost use Rattle.sketches.specs.KeyWeightLaws.{counts_sooner, counts_later};
    ghost use Rattle.sketches.specs.KeySumLaws.{sums_none, sums_both};
    ghost use Rattle.sketches.specs.LineNumberLaws.{row_numbers_both, row_numbers_none};
    ghost use Rattle.sketches.specs.SkippedLaws.{rows_both, rows_none};

    ghost splits = { λ s. splits_by s.chosen.item };

    ghost begins = { λ old new. new ≡ record { sums = old.sums; total = old.total; chosen = old.chosen; count = 0; unweighed = old.unweighed } };

    ghost takes = { λ old bytes new. (AddsLines old.0.chosen old.0.sums.entries old.0.total (records_by old.0.chosen.item bytes) new.0.sums.entries new.0.total
        × (new.0.chosen ≡ old.0.chosen)) × GrowsBy old.0.unweighed (skipped_rows old.0.chosen (records_by old.0.chosen.item bytes)) new.0.unweighed
        × GrowsBy old.0.count (lines_of (splits_by old.0.chosen.item) (records_by old.0.chosen.item bytes)) new.0.count };

    ghost fails = { λ old bytes new failure. FailsLines old.0.chosen old.0.total old.0.count (records_by old.0.chosen.item bytes) failure };

    ghost takes_same = { λ r s xs taken. ap (λ (p : WeighedRecord). splits_by p.item) taken.0.1 };

    ghost takes_none = { λ s. (sums_none s.0.chosen s.0.sums.entries s.0.total, rows_none s.0.chosen s.0.unweighed, row_numbers_none s.0.chosen s.0.count) };

    ghost takes_both = { λ r s t xs ys whole first second. (
      sums_both r.0.chosen xs ys whole r.0.sums.entries s.0.sums.entries t.0.sums.entries
          r.0.total s.0.total t.0.total s.0.chosen t.0.chosen first.0 second.0,
      rows_both r.0.chosen xs ys whole r.0.unweighed s.0.unweighed t.0.unweighed s.0.chosen first.0.1 first.1 second.1,
      row_numbers_both r.0.chosen xs ys whole r.0.count s.0.count t.0.count s.0.chosen first.0.1 first.2 second.2,
    ) };

    ghost fails_sooner = { λ r t xs ys e whole. counts_sooner r.0.chosen xs ys whole r.0.total r.0.count e };

    ghost fails_later = { λ r s t xs ys e whole takes. counts_later r.0.chosen xs ys whole r.0.total s.0.total r.0.count s.0.count
        s.0.chosen e takes.0.0.0.total_is takes.0.0.1 takes.0.1 takes.2 };

    fn records(&self) -> Records {
        self.chosen.item.records()
    }

    fn begin(&mut self) {
        self.count = 0;
    }

    fn take(&mut self, alloc: Global, _output: &mut (), bytes: &[u8]) -> Result<(), Failure> {
        add_lines(
            alloc,
            self.chosen,
            bytes,
            &mut self.sums,
            &mut self.total,
            &mut self.count,
            &mut self.unweighed,
        )
    }
}

/// Adds the item of each record of bytes with the weight of the record. Adds to `count` the number of lines of each record. Increments
/// `bad` for each record that has an item and no weight.
///
/// # Errors
///
/// Returns `BadWeight` at the first record with an item and without a weight, if this is an error. It has the number of the record's first
/// line, if `count` lines come before `bytes`. Returns `TooManyItems` if the total would exceed `u64::MAX`, and `Memory` if an allocation fails.
fn add_lines(
    alloc: Global,
    chosen: WeighedRecord,
    bytes: &[u8],
    sums: &mut KeyMap,
    total: &mut u64,
    count: &mut u64,
    bad: &mut u64,
) -> Result<(), Failure>
    ensures added { OnOk result (AddsLines chosen sums.old.entries total.old (records_by chosen.item bytes.now) sums.new.entries total.new) }
    ensures failed { IfErr result (FailsLines chosen total.old count.old (records_by chosen.item bytes.now)) }
    ensures numbered { OnOk result (GrowsBy count.old (lines_of (splits_by chosen.item) (records_by chosen.item bytes.now)) count.new) }
    ensures skipped { OnOk result (GrowsBy bad.old (skipped_rows chosen (records_by chosen.item bytes.now)) bad.new) }
{
    let mut rest = bytes;
    'each: loop {
        let Some((row, after)) = next_record(chosen.item, rest) else {
            return Ok(());
        };
        add_line(
            alloc,
            chosen,
            row,
            count.saturating_add(1),
            sums,
            total,
            bad,
        )?;
        *count = count.saturating_add(lines_of_row(chosen.item, row));
        rest = after;
    }
}

/// Adds the item of a record with the weight of the record. The first line of the record has the number `number`.
#[inline(always)]
fn add_line(
    alloc: Global,
    chosen: WeighedRecord,
    row: &[u8],
    number: u64,
    sums: &mut KeyMap,
    total: &mut u64,
    bad: &mut u64,
) -> Result<(), Failure>
    ensures added { OnOk result (AddsItems sums.old.entries total.old (weighed_line chosen row.now) sums.new.entries total.new × (unweighed_line chosen row.now ≡ [])) }
    ensures failed { IfErr result (FailsRecord chosen total.old number row.now) }
    ensures skipped { OnOk result (GrowsBy bad.old (skips_row chosen row.now) bad.new) }
{
    let mut text = Vec::new(alloc);
    let Some(item) = record_part_of(chosen.item, row, &mut text)? else {
        return Ok(());
    };
    let Some(weight) = counted_weight(alloc, chosen, row, bad)? else {
        return Err(bad_weight(alloc, chosen.weight, row, number));
    };
    add_item(item, weight, sums, total)
}

/// Adds an item with a weight.
#[inline(always)]
fn add_item(item: &[u8], weight: u64, sums: &mut KeyMap, total: &mut u64) -> Result<(), Failure>
    ensures added { OnOk result (AddsItems sums.old.entries total.old ((item.now, weight) ∷ []) sums.new.entries total.new) }
    ensures failed { IfErr result (FailsCounting total.old ((item.now, weight) ∷ []) (λ _. ⊥)) }
{
    let Some(sum) = total.checked_add(weight) else {
        return Err(Failure::TooManyItems);
    };
    *total = sum;
    add_weight(item, weight, sums);
    Ok(())
}

/// Adds a weight to the sum of the key that is equal to an item, if any. The sum is at most `u64::MAX`.
#[inline(always)]
fn add_weight(item: &[u8], weight: u64, sums: &mut KeyMap)
    ensures names { names sums.new.entries ≡ names sums.old.entries }
    ensures added { AddsWeight sums.old.entries item.now weight sums.new.entries }
{
    if let Some(sum) = sums.get_mut(item) {
        *sum = sum.saturating_add(weight);
    }
}
