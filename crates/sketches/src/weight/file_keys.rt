//! Takes the keys of a file.
ghost use Rattle.std.specs.Prelude.{◌≡◌, ℕ, List, [], ◌∷◌, IfErr, IfOk, OnOk};
ghost use Rattle.sketch_text.specs.Records.{part_in};
ghost use Rattle.sketches.specs.KeySums.{FailsTakingKeys, FindsKey, StaysWithin, TakesKeys};
ghost use Rattle.sketches.specs.KeyWeights.{parts_in};

use crate::failure::Failure;
use crate::read::line_sink::LineSink;
use indexmap::IndexMap;
use sketch_text::records::{RecordPart, Records, next_record, record_part_of};
use std::alloc::Global;
use std::hash::RandomState;

/// A map from keys to the sums of their weights. It hashes under a random key.
pub type KeyMap = IndexMap<Vec<u8>, u64, RandomState>;

/// Takes the keys of the records that it takes, with sums of 0.
#[derive(Drop)]
pub struct FileKeys {
    /// The part of a record that is its key.
    pub part: RecordPart,
    /// The maximum number of distinct keys.
    pub max_keys: u32,
    /// The distinct keys.
    pub sums: KeyMap,
    /// The index of the key of each record with a key, in order.
    pub order: Vec<usize>,
}

impl LineSink<()> for FileKeys {
    ghost use Rattle.std.proofs.Common.{ap};
    ghost use Rattle.sketch_text.specs.Records.{splits_by};
    ghost use Rattle.sketches.specs.KeySumLaws.{keys_none, keys_both, keys_sooner, keys_later};

    ghost splits = { λ s. splits_by s.part };

    ghost takes = { λ old bytes new. TakesKeys old.0.sums.entries old.0.order.items (parts_in old.0.part bytes) new.0.sums.entries new.0.order.items
        × (new.0.part ≡ old.0.part) × (new.0.max_keys ≡ old.0.max_keys)
        × StaysWithin old.0.max_keys old.0.sums.entries new.0.sums.entries };

    ghost fails = { λ old bytes new failure. FailsTakingKeys old.0.max_keys old.0.sums.entries old.0.order.items (parts_in old.0.part bytes) failure };

    ghost takes_same = { λ r s xs taken. ap splits_by taken.1 };

    ghost takes_none = { λ s. keys_none s.0.part s.0.max_keys s.0.sums.entries s.0.order.items };

    ghost takes_both = { λ r s t xs ys whole. keys_both xs ys r.0.part s.0.part t.0.part whole r.0.max_keys s.0.max_keys t.0.max_keys
        r.0.sums.entries s.0.sums.entries t.0.sums.entries r.0.order.items s.0.order.items t.0.order.items };

    ghost fails_sooner = { λ r t xs ys e whole. keys_sooner xs ys r.0.part whole r.0.max_keys r.0.sums.entries r.0.order.items e };

    ghost fails_later = { λ r s t xs ys e whole. keys_later xs ys r.0.part s.0.part whole r.0.max_keys s.0.max_keys
        r.0.sums.entries s.0.sums.entries r.0.order.items s.0.order.items e };

    fn records(&self) -> Records {
        self.part.records()
    }

    fn begin(&mut self) {}

    fn take(&mut self, alloc: Global, _output: &mut (), bytes: &[u8]) -> Result<(), Failure> {
        add_keys(
            alloc,
            self.part,
            self.max_keys,
            bytes,
            &mut self.sums,
            &mut self.order,
        )
    }
}

/// Adds the key of each record of bytes.
///
/// # Errors
///
/// Returns `BadSize` if there are more than `max_keys` distinct keys, and `Memory` if an allocation fails.
fn add_keys(
    alloc: Global,
    part: RecordPart,
    max_keys: u32,
    bytes: &[u8],
    sums: &mut KeyMap,
    order: &mut Vec<usize>,
) -> Result<(), Failure>
    ensures taken { OnOk result (TakesKeys sums.old.entries order.old.items (parts_in part bytes.now) sums.new.entries order.new.items) }
    ensures within { OnOk result (StaysWithin max_keys sums.old.entries sums.new.entries) }
    ensures failed { IfErr result (FailsTakingKeys max_keys sums.old.entries order.old.items (parts_in part bytes.now)) }
{
    let mut rest = bytes;
    'each: loop {
        let Some((row, after)) = next_record(part, rest) else {
            return Ok(());
        };
        add_record(alloc, part, max_keys, row, sums, order)?;
        rest = after;
    }
}

/// Adds the key of a record, if it has one.
#[inline(always)]
fn add_record(
    alloc: Global,
    part: RecordPart,
    max_keys: u32,
    row: &[u8],
    sums: &mut KeyMap,
    order: &mut Vec<usize>,
) -> Result<(), Failure>
    ensures taken { OnOk result (TakesKeys sums.old.entries order.old.items (part_in part row.now) sums.new.entries order.new.items) }
    ensures within { OnOk result (StaysWithin max_keys sums.old.entries sums.new.entries) }
    ensures failed { IfErr result (FailsTakingKeys max_keys sums.old.entries order.old.items (part_in part row.now)) }
{
    let mut text = Vec::new(alloc);
    let Some(key) = record_part_of(part, row, &mut text)? else {
        return Ok(());
    };
    add_key(alloc, max_keys, key, sums, order)
}

/// Adds a key.
fn add_key(
    alloc: Global,
    max_keys: u32,
    key: &[u8],
    sums: &mut KeyMap,
    order: &mut Vec<usize>,
) -> Result<(), Failure>
    ensures taken { OnOk result (TakesKeys sums.old.entries order.old.items (key.now ∷ []) sums.new.entries order.new.items) }
    ensures within { OnOk result (StaysWithin max_keys sums.old.entries sums.new.entries) }
    ensures failed { IfErr result (FailsTakingKeys max_keys sums.old.entries order.old.items (key.now ∷ [])) }
{
    let index = index_of(alloc, max_keys, key, sums)?;
    order.push(index)?;
    Ok(())
}

/// Returns the index of a key. If the map does not have it, adds it with a sum of 0.
#[inline(always)]
fn index_of(alloc: Global, max_keys: u32, key: &[u8], sums: &mut KeyMap) -> Result<usize, Failure>
    ensures found { IfOk result (FindsKey sums.old.entries key.now sums.new.entries) }
    ensures within { OnOk result (StaysWithin max_keys sums.old.entries sums.new.entries) }
    ensures failed { (order : List ℕ) → IfErr result (FailsTakingKeys max_keys sums.old.entries order (key.now ∷ [])) }
{
    if let Some((index, _, _)) = sums.get_full(key) {
        return Ok(index);
    }
    let len = sums.len();
    if len >= max_keys as usize {
        return Err(Failure::BadSize);
    }
    let stored = Vec::from_slice(alloc, key)?;
    sums.insert(stored, 0)?;
    Ok(len)
}
