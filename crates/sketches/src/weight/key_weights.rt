//! Writes the weights of keys.
ghost use Rattle.std.specs.Prelude.{◌≡◌, Some, OnOk, pos};
ghost use Rattle.sketch_countmin.specs.State.{IsMinCell};
ghost use Rattle.sketch_text.specs.Records.{part_in};
ghost use Rattle.sketches.specs.Unseen.{hashed};
ghost use Rattle.sketches.specs.KeyWeights.{WritesEstimates, WritesSomeEstimates, parts_in};

use crate::failure::Failure;
use crate::item::raw_item::RawItem;
use crate::print::layout::Style;
use crate::print::output::Output;
use crate::print::weight_lines::append_line;
use crate::read::line_sink::LineSink;
use sketch_base::from_utf8;
use sketch_countmin::CountMinSketch;
use sketch_text::records::{RecordPart, Records, next_record, record_part_of};
use std::alloc::{AllocError, Global};

/// Writes a line for each key of the records that it takes: its estimate and the key.
#[derive(Drop)]
pub struct KeyWeights {
    pub sketch: CountMinSketch<u64>,
    pub part: RecordPart,
    /// How a line is written.
    pub style: Style,
    /// The lines that are written next.
    pub written: Vec<u8>,
    /// The number that is written next.
    pub number: String,
}

impl<W: Output> LineSink<W> for KeyWeights {
    ghost use Rattle.std.proofs.Common.{ap};
    ghost use Rattle.sketch_text.specs.Records.{splits_by};
    ghost use Rattle.sketches.specs.KeyWeightLaws.{keys_none, keys_both, some_sooner, some_later};
    ghost use Rattle.sketches.specs.Failures.{FailsWriting};

    ghost splits = { λ s. splits_by s.part };

    ghost takes = { λ old bytes new. WritesEstimates old.0.style old.0.sketch (parts_in old.0.part bytes) (W.contents old.1) (W.contents new.1)
        × (new.0.sketch ≡ old.0.sketch) × (new.0.part ≡ old.0.part) × (new.0.style ≡ old.0.style) };

    ghost fails = { λ old bytes new failure. FailsWriting (W.failure new.1) failure
        × WritesSomeEstimates old.0.style old.0.sketch (parts_in old.0.part bytes) (W.contents old.1) (W.contents new.1) };

    ghost takes_same = { λ r s xs taken. ap splits_by taken.2 };

    ghost takes_none = { λ s. keys_none s.0.style s.0.sketch s.0.part (W.contents s.1) };

    ghost takes_both = { λ r s t xs ys whole. keys_both xs ys r.0.style s.0.style t.0.style r.0.sketch s.0.sketch t.0.sketch
        r.0.part s.0.part t.0.part whole (W.contents r.1) (W.contents s.1) (W.contents t.1) };

    ghost fails_sooner = { λ r t xs ys e whole fails. (fails.0, some_sooner xs ys r.0.style r.0.sketch r.0.part whole (W.contents r.1) (W.contents t.1) fails.1) };

    ghost fails_later = { λ r s t xs ys e whole takes fails. (
      fails.0,
      some_later xs ys r.0.style s.0.style r.0.sketch s.0.sketch r.0.part s.0.part whole
          (W.contents r.1) (W.contents s.1) (W.contents t.1) takes fails.1,
    ) };

    fn records(&self) -> Records {
        self.part.records()
    }

    fn begin(&mut self) {}

    fn take(&mut self, alloc: Global, output: &mut W, bytes: &[u8]) -> Result<(), Failure> {
        self.written.clear();
        append_lines(
            alloc,
            &self.sketch,
            self.part,
            self.style,
            bytes,
            &mut self.written,
            &mut self.number,
        )?;
        match output.write_all(&self.written) {
            Ok(()) => Ok(()),
            Err(e) => Err(Failure::Write(e)),
        }
    }
}

/// Appends the line of each key of the records of bytes.
fn append_lines(
    alloc: Global,
    sketch: &CountMinSketch<u64>,
    part: RecordPart,
    style: Style,
    bytes: &[u8],
    written: &mut Vec<u8>,
    number: &mut String,
) -> Result<(), AllocError>
    ensures { OnOk result (WritesEstimates style sketch.now (parts_in part bytes.now) (Some written.old.items) (Some written.new.items)) }
{
    let mut rest = bytes;
    'each: loop {
        let Some((row, after)) = next_record(part, rest) else {
            return Ok(());
        };
        append_key(alloc, sketch, part, style, row, written, number)?;
        rest = after;
    }
}

/// Appends the line of the key of a record, if it has one.
#[inline(always)]
fn append_key(
    alloc: Global,
    sketch: &CountMinSketch<u64>,
    part: RecordPart,
    style: Style,
    row: &[u8],
    written: &mut Vec<u8>,
    number: &mut String,
) -> Result<(), AllocError>
    ensures { OnOk result (WritesEstimates style sketch.now (part_in part row.now) (Some written.old.items) (Some written.new.items)) }
{
    let mut text = Vec::new(alloc);
    let Some(key) = record_part_of(part, row, &mut text)? else {
        return Ok(());
    };
    append_line(alloc, style, estimate_of(sketch, key), key, written, number)?;
    Ok(())
}

/// Returns the estimate of an item.
#[inline(always)]
fn estimate_of(sketch: &CountMinSketch<u64>, item: &[u8]) -> u64
    ensures { IsMinCell sketch.now (hashed item.now) (pos result) }
{
    match from_utf8(item) {
        Ok(text) => sketch.estimate_item(text),
        Err(_) => sketch.estimate_item(&RawItem { bytes: item }),
    }
}
