//! Callers with contracts of their own, which follow from the contracts of the calls.
ghost use Rattle.std.specs.Prelude.{◌≡◌, ◌≤◌, ◌≤ℤ◌, pos, true, IfOk, nat_eq};
ghost use Rattle.std.specs.Hash as fed;
ghost use Rattle.sketch_base.specs.Hashes.{fed_bytes};
ghost use Rattle.sketch_countmin.specs.History as counts;
ghost use Rattle.sketch_frequencies.specs.History.{true_weight};
ghost use Rattle.sketch_frequencies.specs.History.FrequentHistory.{New, Update};

use sketch_base::Error;
use sketch_bloom::{BloomFilterBuilder, laws};
use sketch_countmin::CountMinSketch;
use sketch_frequencies::FrequentItemsSketch;
use std::alloc::Global;

/// Returns a lower bound of a visitor's weight after two visits. It is at most the true weight.
pub fn surely_weighs(alloc: Global, first: u64, second: u64, visitor: u64) -> Result<u64, Error>
    ensures { IfOk result (λ bound.
        bound ≤ true_weight nat_eq (Update (Update (New 64 48) first 3) second 4) visitor) }
{
    let mut visits = FrequentItemsSketch::with_sample_size(alloc, 64, 48)?;
    visits.update_with_count(first, 3)?;
    visits.update_with_count(second, 4)?;
    Ok(visits.lower_bound(&visitor))
}

/// Returns whether a key that one of two machines has seen is in the union of their filters. It is.
pub fn is_in_union(alloc: Global, key: u64, other: u64) -> Result<bool, Error>
    ensures { IfOk result (λ found. found ≡ true) }
{
    laws::membership();
    laws::union_is_set_union();
    let mut north = BloomFilterBuilder::with_size(959, 7).build(alloc)?;
    let mut south = BloomFilterBuilder::with_size(959, 7).build(alloc)?;
    north.insert(key);
    south.insert(other);
    south.union(&north)?;
    Ok(south.contains(&key))
}

/// Returns an estimate after halving. It is at least half of the weight that was added, rounded down.
pub fn aged_estimate(alloc: Global, item: u64, bytes: u64) -> Result<u64, Error>
    ensures { IfOk result (λ estimate.
        counts.own_value (counts.Halve (counts.Update (counts.New 4 128 9001) (fed_bytes fed.u64 item) (pos bytes)))
        (fed_bytes fed.u64 item) ≤ℤ pos estimate) }
{
    let mut recent: CountMinSketch<u64> = CountMinSketch::with_seed(alloc, 4, 128, 9001)?;
    recent.update_with_weight(item, bytes)?;
    recent.halve();
    Ok(recent.estimate(item))
}
