//! Writes the records whose items were not seen before.
ghost use Rattle.std.specs.Prelude.{◌≡◌, ◌≤◌, Some, IfErr, OnOk, length, map};
ghost use Rattle.sketch_base.specs.Strings.{strings_at};
ghost use Rattle.sketch_bloom.specs.State.{all_inserted, answers_in_turn};
ghost use Rattle.sketches.specs.EndedText.{Prints, text_of};
ghost use Rattle.sketches.specs.Outputs.{WritesFront};
ghost use Rattle.sketches.specs.RecordParts.{raws_by};
ghost use Rattle.sketches.specs.Unseen.{hashed, unseen_lines, with_lines, written_by};

use crate::failure::Failure;
use crate::item::line_items::insert_record;
use crate::print::ended_text::EndedText;
use crate::print::output::Output;
use crate::read::batch_sink::BatchSink;
use crate::read::batches::{BATCH, take_batches, write_batch};
use crate::read::line_sink::LineSink;
use sketch_base::Strs;
use sketch_bloom::BloomFilter;
use sketch_text::records::{RecordPart, Records};
use std::alloc::Global;

/// Writes the records whose items were not seen before, or, if `repeated`, the others.
#[derive(Drop)]
pub struct UnseenLines {
    pub filter: BloomFilter,
    pub part: RecordPart,
    pub repeated: bool,
    /// The number of records that were not written, at most `u64::MAX`.
    pub left_out: u64,
    /// The records that are written next.
    pub written: EndedText,
}

impl<W: Output> LineSink<W> for UnseenLines {
    ghost use Rattle.std.proofs.Common.{ap};
    ghost use Rattle.sketch_text.specs.Records.{splits_by};
    ghost use Rattle.sketches.specs.UnseenLaws.{takes_nothing, takes_lines, front_sooner, front_later};
    ghost use Rattle.sketches.specs.Failures.{FailsWriting};

    ghost splits = { λ s. splits_by s.part };

    ghost takes = { λ old bytes new. (new.0.filter ≡ with_lines old.0.part old.0.filter (raws_by old.0.part bytes))
        × Prints (W.contents old.1) (W.contents new.1) old.0.written.form new.0.written.form (unseen_lines old.0.repeated old.0.part old.0.filter (raws_by old.0.part bytes))
        × (new.0.part ≡ old.0.part) × (new.0.repeated ≡ old.0.repeated) };

    ghost fails = { λ old bytes new failure. FailsWriting (W.failure new.1) failure
        × WritesFront (W.contents old.1) (W.contents new.1) (text_of old.0.written.form (unseen_lines old.0.repeated old.0.part old.0.filter (raws_by old.0.part bytes))) };

    ghost takes_same = { λ r s xs taken. ap splits_by taken.2 };

    ghost takes_none = { λ s. takes_nothing s.0.filter s.0.part s.0.repeated (W.contents s.1) s.0.written.form };

    ghost takes_both = { λ r s t xs ys whole. takes_lines xs ys r.0.repeated r.0.part whole s.0.repeated s.0.part t.0.repeated t.0.part
        r.0.filter s.0.filter t.0.filter (W.contents r.1) (W.contents s.1) (W.contents t.1) r.0.written.form s.0.written.form t.0.written.form };

    ghost fails_sooner = { λ r t xs ys e whole fails. (fails.0, front_sooner xs ys r.0.repeated r.0.part whole r.0.filter (W.contents r.1) (W.contents t.1) r.0.written.form fails.1) };

    ghost fails_later = { λ r s t xs ys e whole takes fails. (
      fails.0,
      front_later xs ys r.0.repeated r.0.part whole s.0.repeated s.0.part
          r.0.filter s.0.filter (W.contents r.1) (W.contents s.1) (W.contents t.1) r.0.written.form s.0.written.form takes fails.1,
    ) };

    fn records(&self) -> Records {
        self.part.records()
    }

    fn begin(&mut self) {}

    fn take(&mut self, alloc: Global, output: &mut W, bytes: &[u8]) -> Result<(), Failure> {
        self.written.bytes.clear();
        let part = self.part;
        take_batches(alloc, self, part, bytes)?;
        match output.write_all(&self.written.bytes) {
            Ok(()) => Ok(()),
            Err(e) => Err(Failure::Write(e)),
        }
    }
}

impl BatchSink for UnseenLines {
    ghost use Rattle.sketches.specs.UnseenLaws.{takes_no_lines, takes_more_lines};

    ghost takes = { λ part old raws new. (new.filter ≡ with_lines part old.filter raws)
        × Prints (Some old.written.bytes.items) (Some new.written.bytes.items) old.written.form new.written.form (unseen_lines old.repeated part old.filter raws)
        × (new.part ≡ old.part) × (new.repeated ≡ old.repeated) };

    ghost takes_none = { λ part s. takes_no_lines s.filter part s.repeated s.part s.written.bytes.items s.written.form };

    ghost takes_both = { λ part r s t xs ys. takes_more_lines xs ys part r.repeated r.part s.repeated s.part t.repeated t.part
        r.filter s.filter t.filter r.written.bytes.items s.written.bytes.items t.written.bytes.items r.written.form s.written.form t.written.form };

    #[inline(always)]
    fn take_batch(
        &mut self,
        _part: RecordPart,
        raws: &[&[u8]],
        items: &[&str],
    ) -> Result<(), Failure> {
        let others = choose_batch(
            &mut self.filter,
            self.repeated,
            raws,
            items,
            &mut self.written,
        )?;
        self.left_out = self.left_out.saturating_add(others);
        Ok(())
    }

    #[inline(always)]
    fn take_record(
        &mut self,
        alloc: Global,
        part: RecordPart,
        raw: &[u8],
        row: &[u8],
    ) -> Result<(), Failure> {
        if insert_record(alloc, &mut self.filter, part, row)? == self.repeated {
            self.written.push(raw)?;
        } else {
            self.left_out = self.left_out.saturating_add(1);
        }
        Ok(())
    }
}

/// Inserts items into the filter. Appends the records of those that it had not taken, or, if `repeated`, the others. Returns the
/// number of other records.
///
/// # Errors
///
/// Returns `Memory` if an allocation fails.
#[inline(always)]
fn choose_batch(
    filter: &mut BloomFilter,
    repeated: bool,
    raws: &[&[u8]],
    items: &[&str],
    written: &mut EndedText,
) -> Result<u64, Failure>
    requires few { length raws.now ≤ BATCH }
    requires same { length items.now ≡ length raws.now }
    ensures written { OnOk result (Prints (Some written.old.bytes.items) (Some written.new.bytes.items) written.old.form written.new.form
        (written_by repeated (answers_in_turn filter.old (map hashed (strings_at items.now))) (strings_at raws.now))) }
    ensures filter { filter.new ≡ all_inserted filter.old (map hashed (strings_at items.now)) }
    ensures failed { IfErr result (λ failure. failure ≡ Failure.Memory) }
{
    let mut answers = [false; BATCH];
    let seens = &mut answers[..raws.len()];
    filter.contains_and_insert_all(Strs(items), seens);
    write_batch(repeated, raws, seens, written)
}
