//! The kinds of sketches, each as its library's type.
ghost use Rattle.std.specs.Prelude.{◌≡◌, Option, Some, None, MatchOption};
ghost use Rattle.datasketches_c.specs.Kinds.{filter_of, count_i64_of, count_u64_of, frequent_i64_of, frequent_u64_of, frequent_strings_of};
ghost use Rattle.datasketches_c.specs.Sharing.{reads};
ghost use Rattle.datasketches_c.specs.declared.held_sketch.HeldSketch.{HeldSketch as OfAnyKind};

use crate::held_sketch::HeldSketch;
use any_sketch::AnySketch;
use sketch_bloom::BloomFilter;
use sketch_countmin::CountMinSketch;
use sketch_frequencies::FrequentItemsSketch;

/// A type of sketches that is one of the kinds.
pub(crate) trait Kind: Drop {
    ghost part: { OfAnyKind → Option Self };

    /// Returns the sketch for reading if it is of this kind, shared or not.
    fn part_in(held: &HeldSketch) -> Option<&Self>
        ensures { MatchOption result (reads part held.now ≡ None) (λ s. reads part held.now ≡ Some s.now) };
}

impl Kind for BloomFilter {
    ghost part = { filter_of };

    #[inline(always)]
    fn part_in(held: &HeldSketch) -> Option<&BloomFilter> {
        match held.get() {
            Some(AnySketch::Filter(sketch)) => Some(sketch),
            _ => None,
        }
    }
}

impl Kind for CountMinSketch<i64> {
    ghost part = { count_i64_of };

    #[inline(always)]
    fn part_in(held: &HeldSketch) -> Option<&CountMinSketch<i64>> {
        match held.get() {
            Some(AnySketch::CountI64(sketch)) => Some(sketch),
            _ => None,
        }
    }
}

impl Kind for CountMinSketch<u64> {
    ghost part = { count_u64_of };

    #[inline(always)]
    fn part_in(held: &HeldSketch) -> Option<&CountMinSketch<u64>> {
        match held.get() {
            Some(AnySketch::CountU64(sketch)) => Some(sketch),
            _ => None,
        }
    }
}

impl Kind for FrequentItemsSketch<i64> {
    ghost part = { frequent_i64_of };

    #[inline(always)]
    fn part_in(held: &HeldSketch) -> Option<&FrequentItemsSketch<i64>> {
        match held.get() {
            Some(AnySketch::FrequentI64(sketch)) => Some(sketch),
            _ => None,
        }
    }
}

impl Kind for FrequentItemsSketch<u64> {
    ghost part = { frequent_u64_of };

    #[inline(always)]
    fn part_in(held: &HeldSketch) -> Option<&FrequentItemsSketch<u64>> {
        match held.get() {
            Some(AnySketch::FrequentU64(sketch)) => Some(sketch),
            _ => None,
        }
    }
}

impl Kind for FrequentItemsSketch<String> {
    ghost part = { frequent_strings_of };

    #[inline(always)]
    fn part_in(held: &HeldSketch) -> Option<&FrequentItemsSketch<String>> {
        match held.get() {
            Some(AnySketch::FrequentStrings(sketch)) => Some(sketch),
            _ => None,
        }
    }
}

/// Does `$work` on the sketch of a handle, which it may read, and gives the result of `$work`. The sketch may be shared. It is
/// taken out of the handle, and put back after the work.
///
/// Returns from the function with `NO_SKETCH` if the handle has no sketch, and with `WRONG_KIND` if it is not of the kind.
macro_rules! reading_kind {
    ($alloc:expr, $handle:expr, $kind:ty, $sketch:ident => $work:expr) => {{
        let Some(boxed) = $handle.take($alloc) else {
            return $crate::status_code::NO_SKETCH;
        };
        match <$kind as $crate::kind::Kind>::part_in(&*boxed) {
            Some($sketch) => {
                let answer = $work;
                $handle.give(boxed);
                answer
            }
            None => {
                $handle.give(boxed);
                $crate::status_code::WRONG_KIND
            }
        }
    }};
}

pub(crate) use reading_kind;
