//! Counts the items of records.
ghost use Rattle.std.specs.Prelude.{◌≡◌, ℕ, refl, [], ◌∷◌, IfErr, OnOk};
ghost use Rattle.std.specs.Str.{IsUtf8};
ghost use Rattle.std.specs.Str.Lines.{lines};
ghost use Rattle.sketch_base.specs.Split.{words_of};
ghost use Rattle.sketches.specs.Added.{AddsLines, AddsStrings};
ghost use Rattle.sketches.specs.Failures.{FailsAdding, FailsLines};
ghost use Rattle.sketches.specs.Items.{items_of, items_of_line, items_of_raw_line};
ghost use Rattle.sketches.specs.LineNumbers.{lines_counted};
ghost use Rattle.sketches.specs.Skipped.{skipped_in};
ghost use Rattle.sketches.specs.Utf8Lines.{GrowsBy, not_utf8_in};

use crate::count::record_items::add_records;
use crate::count::weighed_lines::add_weighed_lines;
use crate::failure::Failure;
use crate::item::selection::Selection;
use crate::item::utf8_lines::str_of;
use crate::item::weighing::Weighing;
use crate::read::line_sink::LineSink;
use sketch_base::{Lines, Strings, Words, from_utf8};
use sketch_frequencies::FrequentItemsSketch;
use sketch_text::records::{Records, next_raw_line, part_of};
use std::alloc::{AllocError, Global};

/// Adds the items of the records that it takes, with their weights.
#[derive(Drop)]
pub struct ItemCounter {
    pub sketch: FrequentItemsSketch<String>,
    pub weighing: Weighing,
    /// The number of lines of this input that were taken, if weights stand in them.
    pub count: u64,
    /// The number of records whose items are not UTF-8, at most `u64::MAX`.
    pub not_utf8: u64,
    /// The number of records that have an item and no weight, and whose weight is 0, at most `u64::MAX`.
    pub unweighed: u64,
}

impl ItemCounter {
    /// Returns the number of records whose items are not UTF-8, at most `u64::MAX`.
    pub fn records_not_utf8(&self) -> u64
        ensures { result ≡ self.now.not_utf8 }
    {
        self.not_utf8
    }

    /// Returns the number of records that have an item and no weight, and whose weight is 0, at most `u64::MAX`.
    pub fn records_unweighed(&self) -> u64
        ensures { result ≡ self.now.unweighed }
    {
        self.unweighed
    }
}

impl LineSink<()> for ItemCounter {
    ghost use Rattle.sketches.specs.WeighingLaws.{lines_added_none, lines_added_both, lines_fail_sooner, lines_fail_later};
    ghost use Rattle.sketches.specs.LineNumberLaws.{numbers_both, numbers_none};
    ghost use Rattle.sketches.specs.SkippedLaws.{skips_no_records, skips_both};
    ghost use Rattle.sketches.specs.Utf8LineLaws.{grows_no_records, grows_both};
    ghost use Rattle.sketches.specs.Weighed.{records_of, splits_of};
    ghost use Rattle.std.proofs.Common.{ap};

    ghost splits = { λ s. splits_of s.weighing };

    ghost begins = { λ old new. new ≡ record { sketch = old.sketch; weighing = old.weighing; count = 0; not_utf8 = old.not_utf8; unweighed = old.unweighed } };

    ghost takes = { λ old bytes new. (AddsLines old.0.weighing old.0.sketch bytes new.0.sketch
        × (new.0.weighing ≡ old.0.weighing)) × GrowsBy old.0.not_utf8 (not_utf8_in old.0.weighing (records_of old.0.weighing bytes)) new.0.not_utf8
        × GrowsBy old.0.unweighed (skipped_in old.0.weighing (records_of old.0.weighing bytes)) new.0.unweighed
        × GrowsBy old.0.count (lines_counted old.0.weighing (records_of old.0.weighing bytes)) new.0.count };

    ghost fails = { λ old bytes new failure. FailsLines old.0.weighing old.0.sketch old.0.count bytes failure };

    ghost takes_same = { λ r s xs taken. ap splits_of taken.0.1 };

    ghost takes_none = { λ s. ((lines_added_none s.0.weighing s.0.sketch, refl), grows_no_records s.0.weighing s.0.not_utf8, skips_no_records s.0.weighing s.0.unweighed, numbers_none s.0.weighing s.0.count) };

    ghost takes_both = { λ r s t xs ys whole first second. (
      lines_added_both r.0.weighing xs ys whole
          r.0.sketch s.0.sketch t.0.sketch s.0.weighing t.0.weighing first.0 second.0,
      grows_both r.0.weighing xs ys whole r.0.not_utf8 s.0.not_utf8 t.0.not_utf8 s.0.weighing first.0.1 first.1 second.1,
      skips_both r.0.weighing xs ys whole r.0.unweighed s.0.unweighed t.0.unweighed s.0.weighing first.0.1 first.2 second.2,
      numbers_both r.0.weighing xs ys whole r.0.count s.0.count t.0.count s.0.weighing first.0.1 first.3 second.3,
    ) };

    ghost fails_sooner = { λ r t xs ys e whole. lines_fail_sooner r.0.weighing xs ys whole r.0.sketch r.0.count e };

    ghost fails_later = { λ r s t xs ys e whole first. lines_fail_later r.0.weighing xs ys whole
        r.0.sketch s.0.sketch r.0.count s.0.count s.0.weighing e first.0 first.3 };

    fn records(&self) -> Records {
        self.weighing.records()
    }

    fn begin(&mut self) {
        self.count = 0;
    }

    fn take(&mut self, alloc: Global, _output: &mut (), bytes: &[u8]) -> Result<(), Failure> {
        match self.weighing {
            Weighing::Once(selection) => add_once(
                alloc,
                &mut self.sketch,
                selection,
                bytes,
                &mut self.not_utf8,
            ),
            Weighing::Field(part) => add_weighed_lines(
                alloc,
                &mut self.sketch,
                part,
                bytes,
                &mut self.count,
                &mut self.not_utf8,
                &mut self.unweighed,
            ),
            Weighing::Record(chosen) => add_records(
                alloc,
                &mut self.sketch,
                chosen,
                bytes,
                &mut self.count,
                &mut self.not_utf8,
                &mut self.unweighed,
            ),
        }
    }
}

/// Adds 1 to the weight of each item of the lines of bytes. Increments `not_utf8` for each line whose items are not UTF-8.
fn add_once(
    alloc: Global,
    sketch: &mut FrequentItemsSketch<String>,
    selection: Selection,
    bytes: &[u8],
    not_utf8: &mut u64,
) -> Result<(), Failure>
    ensures added { OnOk result (AddsLines (Weighing.Once selection) sketch.old bytes.now sketch.new) }
    ensures failed { IfErr result (λ failure. (count : ℕ) → FailsLines (Weighing.Once selection) sketch.old count bytes.now failure) }
    ensures counted { OnOk result (GrowsBy not_utf8.old (not_utf8_in (Weighing.Once selection) (lines bytes.now)) not_utf8.new) }
{
    add_items(alloc, sketch, selection, bytes, not_utf8)
}

/// Adds 1 to the weight of each item of the lines of bytes. Increments `not_utf8` for each line whose items are not UTF-8.
fn add_items(
    alloc: Global,
    sketch: &mut FrequentItemsSketch<String>,
    selection: Selection,
    bytes: &[u8],
    not_utf8: &mut u64,
) -> Result<(), Failure>
    ensures added { OnOk result (AddsStrings sketch.old (items_of selection bytes.now) sketch.new) }
    ensures failed { IfErr result (FailsAdding sketch.old (items_of selection bytes.now)) }
    ensures counted { OnOk result (GrowsBy not_utf8.old (not_utf8_in (Weighing.Once selection) (lines bytes.now)) not_utf8.new) }
{
    match from_utf8(bytes) {
        Ok(text) => add_text(sketch, selection, text),
        Err(_) => add_raw_lines(alloc, sketch, selection, bytes, not_utf8),
    }
}

/// Adds 1 to the weight of each item of the lines of a string.
fn add_text(
    sketch: &mut FrequentItemsSketch<String>,
    selection: Selection,
    text: &str,
) -> Result<(), Failure>
    ensures added { OnOk result (AddsStrings sketch.old (items_of selection text.now) sketch.new) }
    ensures failed { IfErr result (FailsAdding sketch.old (items_of selection text.now)) }
{
    let mut lines = Lines::new(text);
    'each: loop {
        let Some(line) = lines.next_str() else {
            return Ok(());
        };
        add_line(sketch, selection, line)?;
    }
}

/// Adds 1 to the weight of each item of the lines of bytes that are not UTF-8 as a whole. Increments `not_utf8` for each line
/// whose items are not.
fn add_raw_lines(
    alloc: Global,
    sketch: &mut FrequentItemsSketch<String>,
    selection: Selection,
    bytes: &[u8],
    not_utf8: &mut u64,
) -> Result<(), Failure>
    ensures added { OnOk result (AddsStrings sketch.old (items_of selection bytes.now) sketch.new) }
    ensures failed { IfErr result (FailsAdding sketch.old (items_of selection bytes.now)) }
    ensures counted { OnOk result (GrowsBy not_utf8.old (not_utf8_in (Weighing.Once selection) (lines bytes.now)) not_utf8.new) }
{
    let mut rest = bytes;
    'each: loop {
        let Some((line, after)) = next_raw_line(rest) else {
            return Ok(());
        };
        add_raw_line(alloc, sketch, selection, line, not_utf8)?;
        rest = after;
    }
}

/// Adds 1 to the weight of each item of a line of bytes. Increments `not_utf8` if its items are not UTF-8.
fn add_raw_line(
    alloc: Global,
    sketch: &mut FrequentItemsSketch<String>,
    selection: Selection,
    line: &[u8],
    not_utf8: &mut u64,
) -> Result<(), Failure>
    ensures added { OnOk result (AddsStrings sketch.old (items_of_raw_line selection line.now) sketch.new) }
    ensures failed { IfErr result (FailsAdding sketch.old (items_of_raw_line selection line.now)) }
    ensures counted { GrowsBy not_utf8.old (not_utf8_in (Weighing.Once selection) (line.now ∷ [])) not_utf8.new }
{
    match str_of(selection, line, not_utf8) {
        Some(text) => add_line(sketch, selection, text),
        None => {
            let text = String::from_utf8_lossy(alloc, line)?;
            add_line(sketch, selection, text.as_str())
        }
    }
}

/// Adds 1 to the weight of each item of a line.
#[inline(always)]
fn add_line(
    sketch: &mut FrequentItemsSketch<String>,
    selection: Selection,
    line: &str,
) -> Result<(), Failure>
    ensures added { OnOk result (AddsStrings sketch.old (items_of_line selection line.now) sketch.new) }
    ensures failed { IfErr result (FailsAdding sketch.old (items_of_line selection line.now)) }
    ensures utf8 { IsUtf8 line.now }
{
    match selection {
        Selection::Words => add_words(sketch, line),
        Selection::Part(part) => match part_of(part, line) {
            Some(item) => add_item(sketch, item),
            None => Ok(()),
        },
    }
}

/// Adds 1 to the weight of each word of a line.
fn add_words(sketch: &mut FrequentItemsSketch<String>, line: &str) -> Result<(), Failure>
    ensures added { OnOk result (AddsStrings sketch.old (words_of line.now) sketch.new) }
    ensures failed { IfErr result (FailsAdding sketch.old (words_of line.now)) }
{
    sketch.update_all(Words::new(line))?;
    Ok(())
}

/// Adds 1 to the weight of an item.
#[inline(always)]
fn add_item(sketch: &mut FrequentItemsSketch<String>, item: &str) -> Result<(), Failure>
    ensures added { OnOk result (AddsStrings sketch.old (item.now ∷ []) sketch.new) }
    ensures failed { IfErr result (FailsAdding sketch.old (item.now ∷ [])) }
{
    sketch.update_item(item)?;
    Ok(())
}
