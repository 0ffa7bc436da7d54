//! Laws that follow from the contracts of the calls, as theorems.
ghost use Rattle.std.specs.Prelude.{◌≡◌, ℕ, ℤ, pos, List, ◌+◌, ◌*◌, ◌-ℤ◌, ◌<◌, ◌≤◌, ◌≤ℤ◌, ◌↔◌, IfOk, IfErr, OnOk, OnErr, IsOk, IsErrOf, IsTrue};
ghost use Rattle.sketch_base.specs.Errors.{invalid_argument, no_memory};
ghost use Rattle.sketch_countmin.specs.History.{CountHistory, IsExact, IsNonnegative, followed_by, own_value, others_share};
ghost use Rattle.sketch_countmin.specs.Laws.{SpelledIsImage, SpelledIsFront, ImageIsOfOne, ImageIsOfSome, ImageIsWithinLimits};
ghost use Rattle.sketch_countmin.specs.Rows.{cell_at};
ghost use Rattle.sketch_countmin.specs.Sizes.{IsETimesWithin};
ghost use Rattle.sketch_countmin.specs.Stands.{StandsFor};
ghost use Rattle.sketch_countmin.specs.State.{CountState, margin, IsCountState, SameShape, Joins, IsMin, IsMinCell};
ghost use Rattle.sketch_countmin.specs.Streams.{CellsAreSharesOfStreams};

use crate::count_min_sketch::CountMinSketch;
use crate::count_min_value::CountMinValue;
use sketch_base::{Error, Fault};
use std::alloc::Global;

/// Merges two sketches, and returns whether the result equals the sketch of one stream.
///
/// It returns `true` if nothing in the second history was halved or decayed, and `stream` stands for the first history
/// followed by the second.
///
/// # Errors
///
/// The errors of [`merge`](CountMinSketch::merge). The first sketch is then unchanged.
pub fn merge_as_one_stream<T: CountMinValue>(
    first: &mut CountMinSketch<T>,
    second: &CountMinSketch<T>,
    stream: &CountMinSketch<T>,
) -> Result<bool, Error>
    ensures value { IfOk result (λ same. IsTrue same ↔ (first.new ≡ stream.now)) }
    ensures one_stream { IfOk result (λ same. (g h : CountHistory)
        → StandsFor first.old g → StandsFor second.now h → IsExact h → StandsFor stream.now (followed_by g h)
        → IsTrue same) }
    ensures joined { OnOk result (Joins first.old second.now first.new) }
    ensures err { OnErr result (first.new ≡ first.old) }
    ensures mismatch { ¬ SameShape first.old second.now → IsErrOf result (invalid_argument Fault.Mismatch) }
    ensures overflow { SameShape first.old second.now → T.greatest < first.old.total + second.now.total
        → IsErrOf result (invalid_argument Fault.WeightOverflow) }
    ensures succeeds { SameShape first.old second.now → first.old.total + second.now.total ≤ T.greatest → IsOk result }
{
    first.merge(second)?;
    let _ = stream.num_hashes();
    Ok(*first == *stream)
}

/// States what the minimum of an item's cells guarantees. Does nothing.
///
/// - If no weight is negative, it is at least the item's own share of the history and at most the total, also after
///   halving and decay.
/// - If nothing was halved or decayed, it exceeds the own share by the minimum, over the rows, of the other items'
///   share of the bucket.
/// - If the total is 0, every cell is 0.
pub fn min_cell_bounds()
    ensures encloses { (s : CountState) (h : CountHistory) (bytes : List ℕ) (least : ℤ)
        → 0 < s.buckets → StandsFor s h → IsNonnegative h → IsMinCell s bytes least
        → (own_value h bytes ≤ℤ least) × (least ≤ℤ pos s.total) }
    ensures raised { (s : CountState) (h : CountHistory) (bytes : List ℕ) (least : ℤ)
        → 0 < s.buckets → StandsFor s h → IsExact h → IsMinCell s bytes least
        → IsMin s.hashes (others_share s.buckets s.seed h bytes) (least -ℤ own_value h bytes) }
    ensures empty { (greatest : ℕ) (s : CountState) → IsCountState greatest s → s.total ≡ 0
        → (r b : ℕ) → cell_at s.rows r b ≡ pos 0 }
{}

/// States that each cell of a merged sketch is its bucket's share of all its streams together. Does nothing.
///
/// The streams are the sketch's own updates, and those of the sketches that were merged into it, since the last halving
/// or decay. A stream counts as often as it was merged. A halved or decayed sketch is one stream from then on.
pub fn stream_cells()
    ensures { (s : CountState) (h : CountHistory) → StandsFor s h → CellsAreSharesOfStreams s h }
{}

/// States how far the upper bound is above the estimate. Does nothing.
///
/// If e times n is at most the number of buckets, it is above by at most the total over n. This is so for the buckets
/// that [`suggest_num_buckets`](crate::suggest_num_buckets) returns for n, or more. How many weights exceed the upper
/// bound is not proved.
pub fn margin_bound()
    ensures { (s : CountState) (n : ℕ) → IsETimesWithin n s.buckets → n * margin s ≤ s.total }
{}

/// States the laws of images. Does nothing.
///
/// What is written for a sketch is an image of it. No bytes are an image of two sketches under one seed. Bytes are an
/// image of some sketch exactly if no check fails, and that sketch is within the limits.
pub fn image_laws<T: CountMinValue>()
    ensures spelled { SpelledIsImage T.least T.greatest }
    ensures front { SpelledIsFront T.least T.greatest }
    ensures one { ImageIsOfOne T.least T.greatest }
    ensures some { ImageIsOfSome T.least T.greatest }
    ensures within_limits { ImageIsWithinLimits T.least T.greatest }
{}

/// Writes the sketch as an image and reads it back under its own seed. The result equals the sketch.
///
/// # Errors
///
/// `NoMemory` if the image or the sketch cannot be allocated.
pub fn restored<T: CountMinValue>(
    alloc: Global,
    sketch: &CountMinSketch<T>,
) -> Result<CountMinSketch<T>, Error>
    ensures same { IfOk result (λ copy. copy ≡ sketch.now) }
    ensures err { IfErr result (λ e. e ≡ no_memory) }
{
    let image = sketch.serialize()?;
    CountMinSketch::deserialize_with_seed(alloc, &image, sketch.seed())
}
