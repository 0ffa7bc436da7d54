//! Walks over the table of counters.
ghost use Rattle.std.specs.Prelude.{◌≡◌, ◌+◌, ◌<◌, ◌≤◌, ◌^◌, [], length, slice_index_or, IfSome, IsPermutation};
ghost use Rattle.std.specs.Iterator.{at_most, item_count, UpTo};
ghost use Rattle.std.specs.Iterator.SizeHint.{IsWithinCount};
ghost use Rattle.counter_table.specs.Slots.{IsTableSize, entries_of};

use crate::slot::Slot;
use std::iter::FusedIterator;
use std::marker::Model;

/// An iterator over the entries of a table: each once, in an unspecified order, and then `None` every time.
///
/// # Examples
///
/// ```
/// use counter_table::ReversePurgeItemHashMap;
///
/// fn most_visited(visits: &ReversePurgeItemHashMap<u64>) -> Option<u64> {
///     let mut most = None;
///     let mut greatest = 0;
///     for (page, count) in visits.iter() {
///         if count > greatest {
///             greatest = count;
///             most = Some(*page);
///         }
///     }
///     most
/// }
/// ```
#[derive(Debug, Drop)]
pub struct ReversePurgeItemIter<'a, T> {
    slots: &'a [Slot<T>],
    // the index of the next step, and the distance to the index of the step after it
    index: usize,
    stride: usize,
    probed: usize,
    // the number of remaining entries
    left: usize,
}

impl<'a, T> Model for ReversePurgeItemIter<'a, T> {
    ghost use Rattle.counter_table.specs.Walk.{Walk};

    ghost Value = { Walk T };

    ghost use Rattle.counter_table.specs.Walking.{walk_of, IsWalking};

    ghost view = { walk_of };

    ghost invariant = { IsWalking };
}

impl<'a, T> ReversePurgeItemIter<'a, T> {
    /// Starts a walk over the `active` entries in these slots.
    ///
    /// Its stride is odd, so that it visits every index before it visits one again. The stride is about 0.618 of the size, so
    /// that the walk leaves a cluster at once.
    pub(crate) fn new(slots: &'a [Slot<T>], active: usize) -> Self
        requires size { IsTableSize (length slots.now) }
        requires active { active ≡ length (entries_of slots.now) }
        ensures rest { IsPermutation (entries_of slots.now) result.rest }
        ensures given { result.given ≡ [] }
        ensures probed { result.probed ≡ 0 }
        ensures size { result.size ≡ length slots.now }
    {
        ReversePurgeItemIter {
            slots,
            index: 0,
            stride: (slots.len() * 618 / 1000) | 1,
            probed: 0,
            left: active,
        }
    }

    /// Returns the number of slots that the walk has probed so far.
    ///
    /// It is at least the number of entries that the walk has returned, and at most the number of slots. Each returned entry
    /// makes the number greater, and a `None` leaves it unchanged.
    pub fn slots_read(&self) -> usize
        ensures probed { result ≡ self.now.probed }
        ensures at_least { length self.now.given ≤ result }
        ensures at_most { result ≤ self.now.size }
    {
        self.probed
    }
}

impl<'a, T> Iterator for ReversePurgeItemIter<'a, T> {
    ghost use Rattle.counter_table.specs.Walk.{WalkGives};

    type Item = (&'a T, u64);

    ghost next_gives = { WalkGives };

    ghost remaining = { item_count (λ walk. walk.rest) };

    #[inline]
    fn next(&mut self) -> Option<(&'a T, u64)> {
        if self.left == 0 {
            return None;
        }
        let slots = self.slots;
        // The label names the loop for its proof.
        'walk: loop {
            let index = self.index;
            self.index = (index + self.stride) & (slots.len() - 1);
            if let Slot::Taken { count, item, .. } = read_slot(slots, index, &mut self.probed) {
                self.left -= 1;
                return Some((item, *count));
            }
        }
    }

    /// Returns the number of remaining entries as both bounds.
    fn size_hint(&self) -> (usize, Option<usize>)
        ensures lower { IsWithinCount result.0 (at_most (length self.now.rest)) }
        ensures upper { IfSome result.1 (UpTo (at_most (length self.now.rest))) }
        ensures exact { (result.0 ≡ length self.now.rest) × (result.1 ≡ Some result.0) }
    {
        (self.left, Some(self.left))
    }
}

impl<'a, T> ExactSizeIterator for ReversePurgeItemIter<'a, T> {
    fn len(&self) -> usize {
        self.left
    }
}

impl<'a, T> FusedIterator for ReversePurgeItemIter<'a, T> {}

/// Returns a slot, and counts the probe. Walks read slots by this call alone.
#[inline(always)]
fn read_slot<'a, T>(slots: &'a [Slot<T>], index: usize, probed: &mut usize) -> &'a Slot<T>
    requires index { index < length slots.now }
    requires probed { probed.old < 2 ^ 30 }
    ensures value { result.now ≡ slice_index_or slots.now index Slot.Free }
    ensures counted { probed.new ≡ probed.old + 1 }
{
    *probed += 1;
    &slots[index]
}
