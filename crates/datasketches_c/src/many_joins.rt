//! Sketches into which those of many handles are combined.
ghost use Rattle.std.specs.Option.{option_map};
ghost use Rattle.std.specs.Ordering.{int_eq};
ghost use Rattle.std.specs.Prelude.{◌≡◌, ℤ, List, map, nat_eq};
ghost use Rattle.sketch_frequencies.specs.ManyMerges.{total_of_all};
ghost use Rattle.sketch_frequencies.specs.State.{TotalHasRoom};
ghost use Rattle.datasketches_c.specs.FrequentStrings.{strings_eq};
ghost use Rattle.datasketches_c.specs.ManyHandles.{OnEachKind, OrNoMemory};
ghost use Rattle.datasketches_c.specs.ManyJoins.{IsMerged, IsUnited, MergesAllInto, MergesAllNumbers};
ghost use Rattle.datasketches_c.specs.Numbers.{OnRefused, ok};
ghost use Rattle.datasketches_c.specs.Sharing.{reads};

use crate::handle::SketchHandle;
use crate::held_sketch::HeldSketch;
use crate::kind::Kind;
use crate::many_handles::{give_all, refusal_of_handles, take_all, taken_parts};
use crate::status_code::{OK, on_done, refusal_number};
use sketch_base::Fault;
use sketch_bloom::BloomFilter;
use sketch_countmin::{CountMinSketch, CountMinValue};
use sketch_frequencies::{EqualClone, FrequentItemsSketch};
use std::alloc::Global;
use std::hash::Hash;

/// A kind of sketches that can be combined with many other sketches of the kind.
pub(crate) trait JoinsMany: Kind {
    ghost joins_many: { Self → List Self → Self → ℤ → Type 0 };

    /// Combines the other sketches into this one. Returns the result's number.
    fn join_with_many(&mut self, others: &[&Self]) -> i32
        ensures call { joins_many self.old (map (λ other. other.now) others.now) self.new result }
        ensures refused { OnRefused result (self.new ≡ self.old) };
}

/// Combines sketches that were taken out of handles into a sketch.
fn join_taken<K: JoinsMany>(alloc: Global, sketch: &mut K, taken: &[Option<Box<HeldSketch>>]) -> i32
    requires { OnEachKind (reads K.part) (map (option_map (λ boxed. boxed.value)) taken.now) ok (λ bs. ok ≡ ok) }
    ensures call { OnEachKind (reads K.part) (map (option_map (λ boxed. boxed.value)) taken.now) result (λ bs.
        OrNoMemory result bs (K.joins_many sketch.old bs sketch.new result)) }
    ensures refused { OnRefused result (sketch.new ≡ sketch.old) }
{
    match taken_parts::<K>(alloc, taken) {
        Ok(others) => sketch.join_with_many(&others),
        Err(_) => refusal_number(Fault::NoMemory),
    }
}

/// Combines the sketches of handles, which keep them, into a sketch.
pub(crate) fn join_many_into<K: JoinsMany>(
    alloc: Global,
    sketch: &mut K,
    handles: &mut [SketchHandle],
) -> i32
    ensures kept { map (λ handle. handle.value) handles.new ≡ map (λ handle. handle.value) handles.old }
    ensures call { OnEachKind (reads K.part) (map (λ handle. handle.value) handles.old) result (λ bs.
        OrNoMemory result bs (K.joins_many sketch.old bs sketch.new result)) }
    ensures refused { OnRefused result (sketch.new ≡ sketch.old) }
{
    let refusal = refusal_of_handles::<K>(alloc, handles);
    if refusal != OK {
        return refusal;
    }
    let Ok(taken) = take_all(alloc, handles) else {
        return refusal_number(Fault::NoMemory);
    };
    let answer = join_taken(alloc, sketch, &taken);
    give_all(alloc, handles, taken);
    answer
}

impl JoinsMany for BloomFilter {
    ghost joins_many = { IsUnited };

    fn join_with_many(&mut self, others: &[&BloomFilter]) -> i32 {
        on_done!(self.union_all(others))
    }
}

impl<V: CountMinValue> JoinsMany for CountMinSketch<V>
where
    CountMinSketch<V>: Kind,
{
    ghost joins_many = { IsMerged V.greatest };

    fn join_with_many(&mut self, others: &[&CountMinSketch<V>]) -> i32 {
        on_done!(self.merge_all(others))
    }
}

/// Merges the other sketches into this one. Returns the result's number.
fn merge_frequent<T: EqualClone + Hash + Drop>(
    sketch: &mut FrequentItemsSketch<T>,
    others: &[&FrequentItemsSketch<T>],
) -> i32
    ensures merges { MergesAllInto T.eq sketch.old (map (λ other. other.now) others.now) sketch.new result }
    ensures refused { OnRefused result (sketch.new ≡ sketch.old) }
    ensures infallible { T.clones_never_fail → sketch.old.size ≡ sketch.old.max_size
        → TotalHasRoom sketch.old (total_of_all (map (λ other. other.now) others.now)) → result ≡ ok }
{
    on_done!(sketch.merge_all(others))
}

impl JoinsMany for FrequentItemsSketch<i64> {
    ghost joins_many = { MergesAllNumbers int_eq };

    fn join_with_many(&mut self, others: &[&FrequentItemsSketch<i64>]) -> i32 {
        merge_frequent(self, others)
    }
}

impl JoinsMany for FrequentItemsSketch<u64> {
    ghost joins_many = { MergesAllNumbers nat_eq };

    fn join_with_many(&mut self, others: &[&FrequentItemsSketch<u64>]) -> i32 {
        merge_frequent(self, others)
    }
}

impl JoinsMany for FrequentItemsSketch<String> {
    ghost joins_many = { MergesAllInto strings_eq };

    fn join_with_many(&mut self, others: &[&FrequentItemsSketch<String>]) -> i32 {
        merge_frequent(self, others)
    }
}
