//! Writes the records whose items a filter contains.
ghost use Rattle.std.specs.Prelude.{◌≡◌, ◌≤◌, Some, IfErr, OnOk, length, map};
ghost use Rattle.sketch_base.specs.Strings.{strings_at};
ghost use Rattle.sketch_bloom.specs.State.{contains_item};
ghost use Rattle.sketches.specs.EndedText.{Prints, text_of};
ghost use Rattle.sketches.specs.Outputs.{WritesFront};
ghost use Rattle.sketches.specs.Joined.{joined_lines};
ghost use Rattle.sketches.specs.RecordParts.{raws_by};
ghost use Rattle.sketches.specs.Unseen.{hashed, written_by};

use crate::failure::Failure;
use crate::item::line_items::contains_record;
use crate::print::ended_text::EndedText;
use crate::print::output::Output;
use crate::read::batch_sink::BatchSink;
use crate::read::batches::{BATCH, take_batches, write_batch};
use crate::read::line_sink::LineSink;
use sketch_base::Strs;
use sketch_bloom::BloomFilter;
use sketch_text::records::{RecordPart, Records};
use std::alloc::Global;

/// Writes the records whose items the filter contains, or, unless `wanted`, the others.
#[derive(Drop)]
pub struct JoinedLines {
    pub filter: BloomFilter,
    pub part: RecordPart,
    pub wanted: bool,
    /// The number of records that were not written, at most `u64::MAX`.
    pub left_out: u64,
    /// The records that are written next.
    pub written: EndedText,
}

impl<W: Output> LineSink<W> for JoinedLines {
    ghost use Rattle.std.proofs.Common.{ap};
    ghost use Rattle.sketch_text.specs.Records.{splits_by};
    ghost use Rattle.sketches.specs.JoinedLaws.{lines_none, lines_both, front_sooner, front_later};
    ghost use Rattle.sketches.specs.Failures.{FailsWriting};

    ghost splits = { λ s. splits_by s.part };

    ghost takes = { λ old bytes new. Prints (W.contents old.1) (W.contents new.1) old.0.written.form new.0.written.form (joined_lines old.0.wanted old.0.part old.0.filter (raws_by old.0.part bytes))
        × (new.0.filter ≡ old.0.filter) × (new.0.part ≡ old.0.part) × (new.0.wanted ≡ old.0.wanted) };

    ghost fails = { λ old bytes new failure. FailsWriting (W.failure new.1) failure
        × WritesFront (W.contents old.1) (W.contents new.1) (text_of old.0.written.form (joined_lines old.0.wanted old.0.part old.0.filter (raws_by old.0.part bytes))) };

    ghost takes_same = { λ r s xs taken. ap splits_by taken.2 };

    ghost takes_none = { λ s. lines_none s.0.wanted s.0.part s.0.filter (W.contents s.1) s.0.written.form };

    ghost takes_both = { λ r s t xs ys whole. lines_both xs ys r.0.wanted r.0.part whole s.0.wanted s.0.part t.0.wanted t.0.part
        r.0.filter s.0.filter t.0.filter (W.contents r.1) (W.contents s.1) (W.contents t.1) r.0.written.form s.0.written.form t.0.written.form };

    ghost fails_sooner = { λ r t xs ys e whole fails. (fails.0, front_sooner xs ys r.0.wanted r.0.part whole r.0.filter (W.contents r.1) (W.contents t.1) r.0.written.form fails.1) };

    ghost fails_later = { λ r s t xs ys e whole takes fails. (
      fails.0,
      front_later xs ys r.0.wanted r.0.part whole s.0.wanted s.0.part
          r.0.filter s.0.filter (W.contents r.1) (W.contents s.1) (W.contents t.1) r.0.written.form s.0.written.form takes fails.1,
    ) };

    fn records(&self) -> Records {
        self.part.records()
    }

    fn begin(&mut self) {}

    fn take(&mut self, alloc: Global, output: &mut W, bytes: &[u8]) -> Result<(), Failure> {
        self.written.bytes.clear();
        let part = self.part;
        take_batches(alloc, self, part, bytes)?;
        match output.write_all(&self.written.bytes) {
            Ok(()) => Ok(()),
            Err(e) => Err(Failure::Write(e)),
        }
    }
}

impl BatchSink for JoinedLines {
    ghost use Rattle.sketches.specs.JoinedLaws.{joined_none, joined_more};

    ghost takes = { λ part old raws new. Prints (Some old.written.bytes.items) (Some new.written.bytes.items) old.written.form new.written.form (joined_lines old.wanted part old.filter raws)
        × (new.filter ≡ old.filter) × (new.part ≡ old.part) × (new.wanted ≡ old.wanted) };

    ghost takes_none = { λ part s. joined_none part s.part s.wanted s.filter s.written.bytes.items s.written.form };

    ghost takes_both = { λ part r s t xs ys. joined_more xs ys part r.part r.wanted s.part s.wanted t.part t.wanted
        r.filter s.filter t.filter r.written.bytes.items s.written.bytes.items t.written.bytes.items r.written.form s.written.form t.written.form };

    #[inline(always)]
    fn take_batch(
        &mut self,
        _part: RecordPart,
        raws: &[&[u8]],
        items: &[&str],
    ) -> Result<(), Failure> {
        let others = join_batch(&self.filter, self.wanted, raws, items, &mut self.written)?;
        self.left_out = self.left_out.saturating_add(others);
        Ok(())
    }

    #[inline(always)]
    fn take_record(
        &mut self,
        alloc: Global,
        part: RecordPart,
        raw: &[u8],
        row: &[u8],
    ) -> Result<(), Failure> {
        if contains_record(alloc, &self.filter, part, row)? == self.wanted {
            self.written.push(raw)?;
        } else {
            self.left_out = self.left_out.saturating_add(1);
        }
        Ok(())
    }
}

/// Appends the records of those items that the filter contains, or, unless `wanted`, the others. Returns the number of other records.
///
/// # Errors
///
/// Returns `Memory` if an allocation fails.
#[inline(always)]
fn join_batch(
    filter: &BloomFilter,
    wanted: bool,
    raws: &[&[u8]],
    items: &[&str],
    written: &mut EndedText,
) -> Result<u64, Failure>
    requires few { length raws.now ≤ BATCH }
    requires same { length items.now ≡ length raws.now }
    ensures written { OnOk result (Prints (Some written.old.bytes.items) (Some written.new.bytes.items) written.old.form written.new.form
        (written_by wanted (map (contains_item filter.now) (map hashed (strings_at items.now))) (strings_at raws.now))) }
    ensures failed { IfErr result (λ failure. failure ≡ Failure.Memory) }
{
    let mut answers = [false; BATCH];
    let answers = &mut answers[..raws.len()];
    filter.contains_all(Strs(items), answers);
    write_batch(wanted, raws, answers, written)
}
