//! Counts the records of an input.
ghost use Rattle.std.specs.Prelude.{◌≡◌, ◌+◌, ◌≤◌, ◌^◌, false, IfErr, IfOk, IfSome, OnOk, length};
ghost use Rattle.sketch_text.specs.Records.{splits_by};
ghost use Rattle.sketches.specs.JoinFailures.{FailsCount};
ghost use Rattle.sketches.specs.Reading.{HasLongRecord};
ghost use Rattle.sketches.specs.RecordParts.{raws_by};

use crate::failure::Failure;
use crate::filter::join::JoinFailure;
use crate::read::line_sink::LineSink;
use crate::read::line_source::LineSource;
use crate::read::reading::{BLOCK, read_lines};
use crate::read::records::next_record_with_end;
use sketch_text::records::{RecordPart, Records};
use std::alloc::Global;

/// The number of records that were taken.
#[derive(Drop)]
pub struct LineCount {
    part: RecordPart,
    lines: u64,
}

impl LineSink<()> for LineCount {
    ghost use Rattle.std.proofs.Common.{ap};
    ghost use Rattle.sketch_text.specs.Records.{splits_by};
    ghost use Rattle.sketches.specs.CountedLines.{counts_none, counts_both, exceeds_sooner, exceeds_later};
    ghost use Rattle.sketches.specs.declared.failure.Failure.TheVariants.{TooManyItems};

    ghost splits = { λ s. splits_by s.part };

    ghost takes = { λ old bytes new. (new.0.lines ≡ old.0.lines + length (raws_by old.0.part bytes)) × (new.0.part ≡ old.0.part) };

    ghost fails = { λ old bytes new failure. (failure ≡ TooManyItems) × (2 ^ 64 ≤ old.0.lines + length (raws_by old.0.part bytes)) };

    ghost takes_same = { λ r s xs taken. ap splits_by taken.1 };

    ghost takes_none = { λ s. counts_none s.0.part s.0.lines };

    ghost takes_both = { λ r s t xs ys whole. counts_both xs ys r.0.part s.0.part t.0.part whole r.0.lines s.0.lines t.0.lines };

    ghost fails_sooner = { λ r t xs ys e whole. exceeds_sooner xs ys r.0.part whole r.0.lines e };

    ghost fails_later = { λ r s t xs ys e whole. exceeds_later xs ys r.0.part s.0.part whole r.0.lines s.0.lines e };

    fn records(&self) -> Records {
        self.part.records()
    }

    fn begin(&mut self) {}

    fn take(&mut self, _alloc: Global, _output: &mut (), bytes: &[u8]) -> Result<(), Failure> {
        match self
            .lines
            .checked_add(number_of_lines(self.part, bytes) as u64)
        {
            Some(lines) => {
                self.lines = lines;
                Ok(())
            }
            None => Err(Failure::TooManyItems),
        }
    }
}

/// Returns the number of records of an input that may have a part.
///
/// # Errors
///
/// Returns `Unread` if a read fails. Returns `Keys` with `LineTooLong` if a record has more than `max_line` bytes, with `Memory` if
/// an allocation fails, and with `TooManyItems` if there are 2^64 records or more.
pub fn count_lines<R: LineSource>(
    alloc: Global,
    part: RecordPart,
    reader: &mut R,
    max_line: u32,
) -> Result<u64, JoinFailure>
    ensures counted { IfOk result (λ lines. IfSome (R.remaining reader.old) (λ bytes. lines ≡ length (raws_by part bytes))) }
    ensures complete { OnOk result (IfSome (R.remaining reader.old) (λ _. R.fails reader.old ≡ false)) }
    ensures too_long { OnOk result (IfSome (R.remaining reader.old) (λ bytes. HasLongRecord (splits_by part) (max_line + 1) bytes → ⊥)) }
    ensures failed { IfErr result (FailsCount part (max_line + 1) (R.remaining reader.old) (R.fails reader.old)) }
{
    let limit = max_line as usize + 1;
    let mut buffer = match vec![in alloc; 0; limit.min(BLOCK)] {
        Ok(buffer) => buffer,
        Err(_) => return Err(JoinFailure::Keys(Failure::Memory)),
    };
    let mut count = LineCount { part, lines: 0 };
    match read_lines(alloc, &mut count, &mut (), reader, &mut buffer, limit) {
        Ok(None) => Ok(count.lines),
        Ok(Some(error)) => Err(JoinFailure::Unread(error)),
        Err(failure) => Err(JoinFailure::Keys(failure)),
    }
}

/// Returns the number of records of bytes.
fn number_of_lines(part: RecordPart, bytes: &[u8]) -> usize
    ensures { result ≡ length (raws_by part bytes.now) }
{
    let mut rest = bytes;
    let mut lines = 0;
    'each: loop {
        let Some((_, _, after)) = next_record_with_end(part, rest) else {
            return lines;
        };
        lines += 1;
        rest = after;
    }
}
