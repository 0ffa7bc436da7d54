//! The builder of filters.
ghost use Rattle.std.specs.Prelude.{◌≡◌, None, IfOk, IfErr, IsOk};
ghost use Rattle.sketch_base.specs.Errors.{refusal_of};
ghost use Rattle.sketch_bloom.specs.Building.{request_fault, words_for};
ghost use Rattle.sketch_bloom.specs.History.BloomHistory.{New};
ghost use Rattle.sketch_bloom.specs.Stands.{StandsFor};
ghost use Rattle.sketch_bloom.specs.State.{IsFilterState, empty_state};

use crate::bloom_filter::BloomFilter;
use crate::limits::{MAX_NUM_BITS, MAX_NUM_HASHES};
use sketch_base::{DEFAULT_UPDATE_SEED, Error, Fault};
use std::alloc::Global;
use std::marker::Model;

/// A builder with the number of bits, the number of hashes and the seed of a filter.
///
/// [`build`](BloomFilterBuilder::build) checks them, and nothing before it does.
///
/// # Examples
///
/// ```
/// use sketch_base::Error;
/// use sketch_bloom::{BloomFilter, BloomFilterBuilder};
/// use std::alloc::Global;
///
/// fn filter_of_visitors(alloc: Global) -> Result<BloomFilter, Error> {
///     BloomFilterBuilder::with_size(959, 7).seed(42).build(alloc)
/// }
/// ```
#[derive(Debug, Clone, Drop)]
pub struct BloomFilterBuilder {
    num_bits: u64,
    num_hashes: u16,
    seed: u64,
}

impl Model for BloomFilterBuilder {
    ghost use Rattle.sketch_bloom.specs.Building.{Request};

    ghost Value = { Request };

    ghost view = { λ b. record { num_bits = b.num_bits; num_hashes = b.num_hashes; seed = b.seed } };
}

impl BloomFilterBuilder {
    /// Creates a builder for a filter of at least `num_bits` bits and `num_hashes` positions for each item. The seed is
    /// 9001.
    pub fn with_size(num_bits: u64, num_hashes: u16) -> Self
        ensures { result ≡ record { num_bits = num_bits; num_hashes = num_hashes; seed = DEFAULT_UPDATE_SEED } }
    {
        BloomFilterBuilder {
            num_bits,
            num_hashes,
            seed: DEFAULT_UPDATE_SEED,
        }
    }

    /// Sets the seed.
    pub fn seed(mut self, seed: u64) -> Self
        ensures { result ≡ record self { seed = seed } }
    {
        self.seed = seed;
        self
    }

    /// Creates the filter with an empty set. Its number of words of 64 bits is the number of bits over 64, rounded up.
    ///
    /// # Errors
    ///
    /// The first of these that applies:
    ///
    /// - `BadNumBits` unless the number of bits is from 1 to 137438953152;
    /// - `BadNumHashes` unless the number of hashes is from 1 to 32767;
    /// - `NoMemory` if the words cannot be allocated.
    pub fn build(self, alloc: Global) -> Result<BloomFilter, Error>
        ensures ok { IfOk result (λ filter.
            filter ≡ empty_state (words_for self.num_bits) self.num_hashes self.seed) }
        ensures state { IfOk result (λ filter. IsFilterState filter) }
        ensures stands { IfOk result (λ filter.
            StandsFor filter (New (words_for self.num_bits) self.num_hashes self.seed)) }
        ensures accepted { IsOk result → request_fault self ≡ None }
        ensures refused { IfErr result (λ e. e ≡ refusal_of (request_fault self)) }
    {
        if self.num_bits == 0 || self.num_bits > MAX_NUM_BITS {
            return Err(Error::invalid_argument(Fault::BadNumBits));
        }
        if self.num_hashes == 0 || self.num_hashes > MAX_NUM_HASHES {
            return Err(Error::invalid_argument(Fault::BadNumHashes));
        }
        let num_words = self.num_bits.div_ceil(64) as usize;
        BloomFilter::with_words(alloc, num_words, self.num_hashes, self.seed)
    }
}
