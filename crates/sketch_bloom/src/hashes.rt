//! The two hashes of an item, and those of several items before the first is looked up or inserted.
//!
//! The hashes of one item do not depend on those of another. So a processor computes several at once, and then loads
//! the words of several at once.
ghost use Rattle.std.specs.Prelude.{◌≡◌, ◌<◌, ◌≤◌, [], ◌++◌, map, take, length};
ghost use Rattle.sketch_bloom.specs.Pairs.{pair_of};

use sketch_base::{Item, Items};

/// The number of items that are hashed before the first of them is looked up or inserted.
pub const BLOCK: usize = 16;

/// Returns the two hashes of an item: under the seed, and under the first hash.
#[inline(always)]
pub fn hashes_of<X: Item>(item: &X, seed: u64) -> (u64, u64)
    ensures { result ≡ pair_of seed (X.bytes item.now) }
{
    let h0 = item.xxh64(seed);
    (h0, item.xxh64(h0))
}

/// Writes the two hashes of each of the next items to `pairs`, and returns their number. It is less than the length of
/// `pairs` only if no items are left.
#[inline(always)]
pub fn next_pairs<I: Items>(items: &mut I, seed: u64, pairs: &mut [(u64, u64)]) -> usize
    ensures few { result ≤ length pairs.new }
    ensures same { length pairs.new ≡ length pairs.old }
    ensures hashed { map (pair_of seed) (I.list items.old)
        ≡ take result pairs.new ++ map (pair_of seed) (I.list items.new) }
    ensures all { result < length pairs.new → I.list items.new ≡ [] }
{
    let mut count = 0;
    // The label is for the prover.
    'each: while count < pairs.len() {
        let Some(item) = items.next() else {
            return count;
        };
        pairs[count] = hashes_of(&item, seed);
        count += 1;
    }
    count
}
