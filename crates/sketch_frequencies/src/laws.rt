//! The laws of images and of the error. Except for `restored`, each function has an empty body: its contract is the law.
//!
//! The laws are about the states that contracts of [`FrequentItemsSketch`] name. Laws of images have an item's contents
//! instead of the item.
ghost use Rattle.std.specs.Prelude.{◌≡◌, ℕ, ◌*◌, ◌<◌, ◌≤◌, IfOk, IfErr};
ghost use Rattle.counter_table.specs.declared.table_key.TableKey.TheVariants.{Plain};
ghost use Rattle.sketch_frequencies.specs.History.{FrequentHistory, budget_size, min_size, min_sample, total_weight, HasUsualSamples};
ghost use Rattle.sketch_frequencies.specs.Image.{IsImageWritingRefusal};
ghost use Rattle.sketch_frequencies.specs.Laws.{SpelledIsImage, SpelledIsFront, ImageIsOfOne, ImageIsOfSome, ImageIsWithinTotal};
ghost use Rattle.sketch_frequencies.specs.Stands.{Encloses, KeepsTailBudget};
ghost use Rattle.sketch_frequencies.specs.State.{FrequentState, max_sample_size};
ghost use Rattle.sketch_frequencies.specs.Streams.{EnclosesStreams, KeepsBudgetOfStreams};
ghost use Rattle.sketch_frequencies.specs.SuggestedSizes.{usual_budget};
ghost use Rattle.sketch_frequencies.specs.Steps.{HoldsSame};

use crate::frequent_item_value::FrequentItemValue;
use crate::frequent_items_sketch::FrequentItemsSketch;
use sketch_base::Error;
use std::alloc::Global;

/// Proves the laws of images.
///
/// The bytes that `serialize` writes are an image of the sketch (`spelled`), whatever bytes follow (`front`). Two sketches with
/// the same image differ at most in their sample sizes, in their keys, in their numbers of purges and in which of equal items they
/// hold (`one`). Bytes are an image of some sketch exactly if no check fails (`some`). For every image, also an untrusted one, the
/// counts plus the error are at most the total (`within`).
pub fn image_laws<T: FrequentItemValue>()
    ensures spelled { SpelledIsImage T.codec }
    ensures front { SpelledIsFront T.codec }
    ensures one { ImageIsOfOne T.codec }
    ensures some { ImageIsOfSome T.codec }
    ensures within { ImageIsWithinTotal T.codec }
{}

/// Proves the bounds that the tail budget gives for the error.
///
/// Let W be the total weight, and L the smallest sample size of all sketches that took part since the last reset, also of those
/// that were set: L * error <= 2 * W. Let `new` have created all of them with no size set, and let M be their smallest maximum
/// size: 3 * M * error <= 8 * W if M <= 1024, and 512 * error <= W otherwise.
pub fn error_bounds<T: Eq>()
    ensures sampled { (s : FrequentState T) (h : FrequentHistory T) → Encloses T.eq s h → KeepsTailBudget T.eq s h
        → min_sample h * s.error ≤ 2 * total_weight h }
    ensures small { (s : FrequentState T) (h : FrequentHistory T) → Encloses T.eq s h → KeepsTailBudget T.eq s h
        → HasUsualSamples h → min_size h ≤ 1024 → 3 * min_size h * s.error ≤ 8 * total_weight h }
    ensures large { (s : FrequentState T) (h : FrequentHistory T) → Encloses T.eq s h → KeepsTailBudget T.eq s h
        → HasUsualSamples h → 1024 < min_size h → 512 * s.error ≤ total_weight h }
{}

/// Proves the error bound that a maximum size gives.
///
/// If the tail budget may set n items aside, n * error is at most the total weight (`budget`). So it is if `new` created all
/// sketches that took part, and each maximum size is at least an m whose tail budget is n or more (`usual`).
/// [`suggest_max_map_size`](crate::suggest_max_map_size) returns such an m for n.
pub fn map_size_bounds<T: Eq>()
    ensures budget { (s : FrequentState T) (h : FrequentHistory T) (n : ℕ) → Encloses T.eq s h → KeepsTailBudget T.eq s h
        → n ≤ budget_size h → n * s.error ≤ total_weight h }
    ensures usual { (s : FrequentState T) (h : FrequentHistory T) (m n : ℕ) → Encloses T.eq s h → KeepsTailBudget T.eq s h
        → HasUsualSamples h → m ≤ min_size h → n ≤ usual_budget m → n * s.error ≤ total_weight h }
{}

/// Proves that the bounds and the tail budget of a merged sketch hold for all its streams together.
///
/// The streams are the sketch's own updates, and those of the sketches that were merged into it since its last reset. A stream
/// counts as often as it was merged. Each true weight, summed over the streams, lies between its bounds (`encloses`). The tail
/// budget is kept for the sum, with the smallest sample size of the streams (`budget`).
pub fn stream_bounds<T: Eq>()
    ensures encloses { (s : FrequentState T) (h : FrequentHistory T) → Encloses T.eq s h → EnclosesStreams T.eq s h }
    ensures budget { (s : FrequentState T) (h : FrequentHistory T) → KeepsTailBudget T.eq s h → KeepsBudgetOfStreams T.eq s h }
{}

/// Writes an image of the sketch and reads it again.
///
/// The result has the same counters, error, total and sizes, and may hold other items that are equal to the sketch's. Its
/// sample size and its key are those of a sketch that `new` creates with its maximum size, and it counts no purges.
///
/// # Errors
///
/// Returns the errors of [`serialize`](FrequentItemsSketch::serialize), and `NoMemory` if the sketch cannot be allocated.
pub fn restored<T: FrequentItemValue + Drop>(
    alloc: Global,
    sketch: &FrequentItemsSketch<T>,
) -> Result<FrequentItemsSketch<T>, Error>
    ensures same { IfOk result (λ copy. HoldsSame T.eq sketch.now copy) }
    ensures sample { IfOk result (λ copy. copy.sample_size ≡ max_sample_size sketch.now.max_size) }
    ensures key { IfOk result (λ copy. copy.key ≡ Plain) }
    ensures purges { IfOk result (λ copy. copy.purges ≡ 0) }
    ensures err { IfErr result (IsImageWritingRefusal T.codec T.content sketch.now.counters) }
{
    let image = sketch.serialize()?;
    FrequentItemsSketch::deserialize(alloc, &image)
}
