//! The rows of a sketch, and the index of an item's cell in each.
ghost use Rattle.std.specs.Prelude.{◌≡◌, ℕ, ◌+◌, ◌*◌, ◌%◌, ◌^◌, ◌<◌, length, slice_index, vec_len, IfOk, IsTrue};
ghost use Rattle.std.specs.Int.{is_power_of_two};
ghost use Rattle.sketch_countmin.specs.Buckets.{row_seed, buckets_by};

use sketch_base::{Divisor, Rehashable, murmur3_of_u64};
use std::alloc::{AllocError, Global};

/// The rows of a sketch: the seed of each, and the number of cells in each.
#[derive(Drop)]
pub struct Rows<'a> {
    pub seeds: &'a [u64],
    pub buckets: Divisor,
    ghost some: { 0 < length seeds.now },
    ghost fits: { length seeds.now * buckets < 2 ^ 64 },
}

impl<'a> Rows<'a> {
    /// Returns the index of the cell of hashed bytes in a row. `masked` requires a power of two of buckets.
    #[inline(always)]
    pub fn index<R: Rehashable>(&self, masked: bool, bytes: &R, row: usize) -> usize
        requires masked { IsTrue masked → IsTrue (is_power_of_two self.now.buckets) }
        requires hashable { R.can_hash bytes.now }
        requires row { row < length self.now.seeds.now }
        ensures index { result ≡ row * self.now.buckets
            + buckets_by self.now.buckets self.now.seeds.now (R.bytes bytes.now) row }
        ensures bucket { buckets_by self.now.buckets self.now.seeds.now (R.bytes bytes.now) row < self.now.buckets }
        ensures inside { result < length self.now.seeds.now * self.now.buckets }
    {
        self.index_by_seed(masked, bytes, row, self.seeds[row])
    }

    /// Does the same as [`index`](Self::index), given the row's seed: a loop over items reads it once.
    #[inline(always)]
    pub fn index_by_seed<R: Rehashable>(
        &self,
        masked: bool,
        bytes: &R,
        row: usize,
        seed: u64,
    ) -> usize
        requires masked { IsTrue masked → IsTrue (is_power_of_two self.now.buckets) }
        requires hashable { R.can_hash bytes.now }
        requires row { row < length self.now.seeds.now }
        requires seed { seed ≡ slice_index self.now.seeds.now row }
        ensures index { result ≡ row * self.now.buckets
            + buckets_by self.now.buckets self.now.seeds.now (R.bytes bytes.now) row }
        ensures bucket { buckets_by self.now.buckets self.now.seeds.now (R.bytes bytes.now) row < self.now.buckets }
        ensures inside { result < length self.now.seeds.now * self.now.buckets }
    {
        let bucket = bucket_in(self.buckets, masked, bytes.murmur3(seed).0);
        row * self.buckets.divisor() as usize + bucket as usize
    }
}

/// Returns the bucket of a hash. `masked` takes the remainder by a mask, and requires a power of two of buckets.
#[inline(always)]
fn bucket_in(buckets: Divisor, masked: bool, hash: u64) -> u64
    requires { IsTrue masked → IsTrue (is_power_of_two buckets) }
    ensures value { result ≡ hash % buckets }
    ensures below { result < buckets }
{
    if masked {
        buckets.rem_by_mask(hash)
    } else {
        buckets.rem_by_reciprocal(hash)
    }
}

/// Returns the number of buckets as a [`Divisor`], which computes the bucket of a hash without a division.
pub fn bucket_count(num_buckets: u32) -> Divisor
    requires { 1 < num_buckets }
    ensures { result ≡ num_buckets }
{
    Divisor::new(num_buckets as u64)
}

/// Returns the seeds of the rows.
pub fn row_seeds(alloc: Global, rows: u8, seed: u64) -> Result<Vec<u64>, AllocError>
    ensures size { IfOk result (λ v. vec_len v ≡ rows) }
    ensures seeds { IfOk result (λ v. (r : ℕ) → r < rows → slice_index v.items r ≡ row_seed r seed) }
{
    let mut seeds = Vec::with_capacity(alloc, rows as usize)?;
    for row in 0..rows {
        seeds.push(murmur3_of_u64(row as u64, seed).0)?;
    }
    Ok(seeds)
}
