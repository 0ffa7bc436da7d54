//! Inserts the keys of records into a filter.
ghost use Rattle.std.specs.Prelude.{◌≡◌};
ghost use Rattle.sketches.specs.RecordParts.{raws_by};
ghost use Rattle.sketches.specs.Unseen.{with_lines};

use crate::failure::Failure;
use crate::item::line_items::insert_record;
use crate::read::batch_sink::BatchSink;
use crate::read::batches::take_batches;
use crate::read::line_sink::LineSink;
use sketch_base::Strs;
use sketch_bloom::BloomFilter;
use sketch_text::records::{RecordPart, Records};
use std::alloc::Global;

/// Inserts the items of records into a filter.
#[derive(Drop)]
pub struct KeyLines {
    pub filter: BloomFilter,
    pub part: RecordPart,
}

impl LineSink<()> for KeyLines {
    ghost use Rattle.std.proofs.Common.{ap};
    ghost use Rattle.sketch_text.specs.Records.{splits_by};
    ghost use Rattle.sketches.specs.JoinedLaws.{key_lines_none, key_lines_both};
    ghost use Rattle.sketches.specs.declared.failure.Failure.TheVariants.{Memory};

    ghost splits = { λ s. splits_by s.part };

    ghost takes = { λ old bytes new. (new.0.filter ≡ with_lines old.0.part old.0.filter (raws_by old.0.part bytes)) × (new.0.part ≡ old.0.part) };

    ghost fails = { λ old bytes new failure. failure ≡ Memory };

    ghost takes_same = { λ r s xs taken. ap splits_by taken.1 };

    ghost takes_none = { λ s. key_lines_none s.0.part s.0.filter };

    ghost takes_both = { λ r s t xs ys whole. key_lines_both xs ys r.0.part s.0.part t.0.part whole r.0.filter s.0.filter t.0.filter };

    ghost fails_sooner = { λ r t xs ys e whole fails. fails };

    ghost fails_later = { λ r s t xs ys e whole takes fails. fails };

    fn records(&self) -> Records {
        self.part.records()
    }

    fn begin(&mut self) {}

    fn take(&mut self, alloc: Global, _output: &mut (), bytes: &[u8]) -> Result<(), Failure> {
        let part = self.part;
        take_batches(alloc, self, part, bytes)
    }
}

impl BatchSink for KeyLines {
    ghost use Rattle.sketches.specs.JoinedLaws.{keys_none, keys_both};

    ghost takes = { λ part old raws new. (new.filter ≡ with_lines part old.filter raws) × (new.part ≡ old.part) };

    ghost takes_none = { λ part s. keys_none part s.part s.filter };

    ghost takes_both = { λ part r s t xs ys. keys_both xs ys part r.part s.part t.part r.filter s.filter t.filter };

    #[inline(always)]
    fn take_batch(
        &mut self,
        _part: RecordPart,
        _raws: &[&[u8]],
        items: &[&str],
    ) -> Result<(), Failure> {
        self.filter.insert_all(Strs(items));
        Ok(())
    }

    #[inline(always)]
    fn take_record(
        &mut self,
        alloc: Global,
        part: RecordPart,
        _raw: &[u8],
        row: &[u8],
    ) -> Result<(), Failure> {
        insert_record(alloc, &mut self.filter, part, row)?;
        Ok(())
    }
}
