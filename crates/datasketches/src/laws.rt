//! Laws of the sketches of a session. The functions do nothing: their `ensures` clauses are the laws.
//!
//! A new session stands for the assignment with no name. [`run`](crate::Session::run) leaves a session that stands for
//! the assignment as its commands and replies changed it. So the laws hold of each sketch of a session after any list
//! of commands.
ghost use Rattle.std.specs.Prelude.{◌≡◌, ◌↔◌, ℕ, ℤ, pos, ◌*◌, ◌+◌, ◌<◌, ◌≤◌, ◌-ℤ◌, ◌≤ℤ◌, true, false, List, length};
ghost use Rattle.std.specs.FinSet as set;
ghost use Rattle.counter_table.specs.Bytes.{option_bytes};
ghost use Rattle.counter_table.specs.Tables.{count_of, sum_of};
ghost use Rattle.sketch_bloom.specs.History.{denoted_set};
ghost use Rattle.sketch_bloom.specs.State.{IsFilterState, item_positions, contains_item};
ghost use Rattle.sketch_countmin.specs.History.{IsExact, IsNonnegative, absolute_weight, cell_share, own_value, others_share};
ghost use Rattle.sketch_countmin.specs.Rows.{cell_at};
ghost use Rattle.sketch_countmin.specs.State.{IsMin, IsMinCell};
ghost use Rattle.sketch_countmin.specs.Streams.{CellsAreSharesOfStreams};
ghost use Rattle.sketch_frequencies.specs.History.{true_weight, total_weight, own_size, min_size, own_sample, min_sample, HasUsualSamples};
ghost use Rattle.sketch_frequencies.specs.Stands.{HasFewItems, KeepsTailBudget};
ghost use Rattle.sketch_frequencies.specs.State.{IsState, capacity};
ghost use Rattle.sketch_frequencies.specs.Streams.{EnclosesStreams, KeepsBudgetOfStreams};
ghost use Rattle.datasketches.specs.Clusters.{LoadKeepsShown, StrangersAreSketches, ProcessStandsForHistories, ContainsWhatAnyContains};
ghost use Rattle.datasketches.specs.Laws.{OfEachFrequent, OfEachFilter, OfEachCount, CountIsState, ActionKeepsFit, ActionKeepsTold, StepKeepsFit, StepKeepsTold};

use sketch_bloom::laws as bloom;
use sketch_countmin::laws as countmin;
use sketch_frequencies::{FrequentItemValue, laws as frequencies};

/// States what holds of each frequent items sketch.
///
/// - `state`, `within`: it is one that sketch calls can leave, and its counts and its error together are at most the
///   total weight.
/// - `few`: it holds at most 3/4 of its greatest size in counters.
/// - `encloses`: each true weight lies between the item's count and that count plus the error.
/// - `exact`: the error is 0 if there are few distinct items.
/// - `budget`: it keeps the tail budget.
/// - `sample`: its purges sample the number of counters that its history says.
///
/// Let L be the smallest sample size and M the smallest maximum size of all sketches that took part since the last reset.
///
/// - `sampled`: the error is at most 2 / L of the total weight.
/// - `small`: it is at most 8 / 3M of the total weight if no sample size was chosen and M is at most 1024.
/// - `large`: it is at most 1 / 512 of the total weight if no sample size was chosen and M is above 1024.
pub fn frequent_items_bounds<T: FrequentItemValue>()
    ensures state { OfEachFrequent T.eq T.codec T.content (λ s h. IsState T.eq s) }
    ensures within { OfEachFrequent T.eq T.codec T.content (λ s h. sum_of s.counters + s.error ≤ total_weight h) }
    ensures few { OfEachFrequent T.eq T.codec T.content (λ s h. length s.counters ≤ capacity (own_size h)) }
    ensures encloses { OfEachFrequent T.eq T.codec T.content (λ s h. (x : T)
        → (count_of T.eq s.counters x ≤ true_weight T.eq h x)
        × (true_weight T.eq h x ≤ count_of T.eq s.counters x + s.error)) }
    ensures exact { OfEachFrequent T.eq T.codec T.content (λ s h. HasFewItems T.eq h → s.error ≡ 0) }
    ensures budget { OfEachFrequent T.eq T.codec T.content (KeepsTailBudget T.eq) }
    ensures sample { OfEachFrequent T.eq T.codec T.content (λ s h. s.sample_size ≡ own_sample h) }
    ensures sampled { OfEachFrequent T.eq T.codec T.content (λ s h. min_sample h * s.error ≤ 2 * total_weight h) }
    ensures small { OfEachFrequent T.eq T.codec T.content (λ s h. HasUsualSamples h
        → min_size h ≤ 1024 → 3 * min_size h * s.error ≤ 8 * total_weight h) }
    ensures large { OfEachFrequent T.eq T.codec T.content (λ s h. HasUsualSamples h
        → 1024 < min_size h → 512 * s.error ≤ total_weight h) }
{
    frequencies::error_bounds::<T>();
}

/// States what holds of each Count-Min sketch.
///
/// - `state`: it is one that sketch calls can leave.
/// - `total`, `empty`: its total is the weight of the history. If that is 0, every cell is 0.
/// - `cells`: each cell is its bucket's share of the history.
/// - `raised`: an item's estimate is its own value plus the least, over the rows, of the value of the other items in
///   its buckets. This holds if nothing was halved or decayed.
pub fn count_min_bounds<T: FrequentItemValue>()
    ensures state { CountIsState T.eq T.codec T.content }
    ensures total { OfEachCount T.eq T.codec T.content (λ s h. s.total ≡ absolute_weight h) }
    ensures empty { OfEachCount T.eq T.codec T.content (λ s h. absolute_weight h ≡ 0
        → (r b : ℕ) → cell_at s.rows r b ≡ pos 0) }
    ensures cells { OfEachCount T.eq T.codec T.content (λ s h. (r : ℕ) → r < s.hashes
        → (b : ℕ) → b < s.buckets → cell_at s.rows r b ≡ cell_share s.buckets s.seed h r b) }
    ensures raised { OfEachCount T.eq T.codec T.content (λ s h. IsExact h
        → (bytes : List ℕ) (least : ℤ) → IsMinCell s bytes least
        → IsMin s.hashes (others_share s.buckets s.seed h bytes) (least -ℤ own_value h bytes)) }
{
    countmin::min_cell_bounds();
}

/// States what holds of each Count-Min sketch without negative weights, also after halving and decay.
///
/// An item's own value is at most its estimate, which is at most the total weight of the history.
pub fn count_min_bounds_of_nonnegative_weights<T: FrequentItemValue>()
    ensures encloses { OfEachCount T.eq T.codec T.content (λ s h. IsNonnegative h
        → (bytes : List ℕ) (least : ℤ) → IsMinCell s bytes least
        → (own_value h bytes ≤ℤ least) × (least ≤ℤ pos (absolute_weight h))) }
{
    countmin::min_cell_bounds();
}

/// States what holds of each Bloom filter.
///
/// - `state`, `set`: it is one that filter calls can leave, and its set is the one that its history denotes.
/// - `denoted`, `empty`: it contains an item exactly if that set has all of the item's positions. A filter of the empty
///   set contains nothing.
pub fn bloom_filter_membership<T: FrequentItemValue>()
    ensures state { OfEachFilter T.eq T.codec T.content (λ s h. IsFilterState s) }
    ensures set { OfEachFilter T.eq T.codec T.content (λ s h. s.set ≡ denoted_set h) }
    ensures empty { OfEachFilter T.eq T.codec T.content (λ s h. s.set ≡ set.empty
        → (bytes : List ℕ) → contains_item s bytes ≡ false) }
    ensures denoted { OfEachFilter T.eq T.codec T.content (λ s h. (bytes : List ℕ)
        → (contains_item s bytes ≡ true)
        ↔ ((p : ℕ) → set.contains (item_positions s bytes) p ≡ true → set.contains (denoted_set h) p ≡ true)) }
{
    bloom::membership();
}

/// States that after an action a session stands for its earlier assignment, as the action and its reply changed it.
///
/// The lines of the program are such actions, so the law holds of its sessions too. `From` maps a command to its
/// action.
pub fn steps_keep_histories<T: FrequentItemValue>()
    ensures action { ActionKeepsFit (option_bytes T.row) T.eq T.hash_input T.codec T.content }
    ensures command { StepKeepsFit (option_bytes T.row) T.eq T.hash_input T.codec T.content }
{}

/// States what holds of loaded sketches, by actions (`action`) and by commands (`told`).
///
/// A sketch that is loaded from bytes of any origin stands for each history that the bytes are truly of. If the bytes
/// are another session's image, loaded under the image's kind, the sketch stands for the image's history (`shown`).
///
/// The history of an untrusted image is not known (`strangers`). If it loads, it is a valid sketch, whose counts and
/// error together are at most its total. Every later call keeps that.
pub fn loads_keep_histories<T: FrequentItemValue>()
    ensures action { ActionKeepsTold (option_bytes T.row) T.eq T.hash_input T.codec T.content }
    ensures told { StepKeepsTold (option_bytes T.row) T.eq T.hash_input T.codec T.content }
    ensures shown { LoadKeepsShown (option_bytes T.row) T.eq T.hash_input T.codec T.content }
    ensures strangers { StrangersAreSketches T.eq T.codec T.content }
{}

/// States what holds of many sessions with their own streams, which load and merge one another's images.
///
/// Loads and merges come in any order and any tree. Each session stands for its histories (`fits`). A sketch has its
/// own stream, and those of all sketches that were merged into it since its last reset. Merges may come before or after
/// its own updates. A stream counts as often as it was merged.
///
/// - Each true weight, summed over these streams, lies between its bounds.
/// - The tail budget is kept for all streams together, with the least sample size.
/// - Each cell of a Count-Min sketch is its bucket's share of all streams. A halved or decayed sketch is one stream.
/// - A filter contains what each of its parts contains. The parts are the filter before each insertion and both sides
///   of each union, since the last intersection, difference or reset.
pub fn clusters_keep_histories<T: FrequentItemValue>()
    ensures fits { ProcessStandsForHistories (option_bytes T.row) T.eq T.hash_input T.codec T.content }
    ensures encloses { OfEachFrequent T.eq T.codec T.content (EnclosesStreams T.eq) }
    ensures budget { OfEachFrequent T.eq T.codec T.content (KeepsBudgetOfStreams T.eq) }
    ensures cells { OfEachCount T.eq T.codec T.content CellsAreSharesOfStreams }
    ensures contains { ContainsWhatAnyContains T.eq T.codec T.content }
{
    frequencies::stream_bounds::<T>();
    countmin::stream_cells();
    bloom::parts_are_contained();
}
