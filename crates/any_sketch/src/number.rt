//! The numbers that sketches have.
ghost use Rattle.std.specs.Prelude.{◌≡◌};
ghost use Rattle.any_sketch.specs.Numbers.{HoldsFew, IsBounded, bytes_of, count_number, filter_number, frequent_number, number_of};

use crate::any_sketch::AnySketch;
use crate::kind::Kind;
use sketch_bloom::BloomFilter;
use sketch_countmin::{CountMinSketch, CountMinValue};
use sketch_frequencies::FrequentItemsSketch;
use std::hash::Hash;

/// A number that sketches of some kinds have.
#[derive(Clone, Copy)]
pub enum Number {
    /// The number of the sketch's kind.
    Kind,
    /// The seed of a filter or a Count-Min sketch.
    Seed,
    /// All bits of a filter.
    NumBits,
    /// The set bits of a filter.
    BitsUsed,
    /// The positions of an item in a filter, or the rows of a Count-Min sketch.
    NumHashes,
    /// The cells in a row of a Count-Min sketch.
    NumBuckets,
    /// The total weight of a Count-Min sketch or a sketch of frequent items.
    TotalWeight,
    /// The difference between the bounds of each item in a sketch of frequent items.
    MaximumError,
    /// The tracked items of a sketch of frequent items.
    NumActiveItems,
    /// The maximum number of tracked items, at the maximum size of the table.
    MaximumMapCapacity,
    /// The number of tracked items at which the table grows.
    CurrentMapCapacity,
    /// The maximum number of slots of the table.
    MaxMapSize,
    /// The number of counters that a purge samples.
    SampleSize,
}

/// Returns a number of a filter, if it has it.
fn filter_number(sketch: &BloomFilter, which: Number) -> Option<u64>
    ensures { result ≡ filter_number sketch.now which }
{
    match which {
        Number::Kind => Some(Kind::Filter.number() as u64),
        Number::Seed => Some(sketch.seed()),
        Number::NumBits => Some(sketch.capacity() as u64),
        Number::BitsUsed => Some(sketch.bits_used()),
        Number::NumHashes => Some(sketch.num_hashes() as u64),
        _ => None,
    }
}

/// Returns a number of a Count-Min sketch of a kind, if it has it.
fn count_number<V: CountMinValue>(
    kind: Kind,
    sketch: &CountMinSketch<V>,
    which: Number,
) -> Option<u64>
    ensures { result ≡ count_number kind sketch.now which }
{
    match which {
        Number::Kind => Some(kind.number() as u64),
        Number::Seed => Some(sketch.seed()),
        Number::NumHashes => Some(sketch.num_hashes() as u64),
        Number::NumBuckets => Some(sketch.num_buckets() as u64),
        Number::TotalWeight => Some(sketch.total_weight().to_number() as u64),
        _ => None,
    }
}

/// Returns a number of a sketch of frequent items of a kind, if it has it.
fn frequent_number<T: Eq + Hash + Drop>(
    kind: Kind,
    sketch: &FrequentItemsSketch<T>,
    which: Number,
) -> Option<u64>
    ensures number { result ≡ frequent_number kind sketch.now which }
    ensures bounded { HoldsFew sketch.now }
{
    // For the prover: this brings in what holds of every sketch.
    let _ = sketch.num_active_items();
    match which {
        Number::Kind => Some(kind.number() as u64),
        Number::TotalWeight => Some(sketch.total_weight()),
        Number::MaximumError => Some(sketch.maximum_error()),
        Number::NumActiveItems => Some(sketch.num_active_items() as u64),
        Number::MaximumMapCapacity => Some(sketch.maximum_map_capacity() as u64),
        Number::CurrentMapCapacity => Some(sketch.current_map_capacity() as u64),
        Number::MaxMapSize => Some(sketch.max_map_size() as u64),
        Number::SampleSize => Some(sketch.sample_size() as u64),
        _ => None,
    }
}

impl AnySketch {
    /// Returns a number of the sketch, or `None` if its kind does not have it. Takes constant time, and does not allocate.
    pub fn number(&self, which: Number) -> Option<u64>
        ensures number { result ≡ number_of self.now which }

        // Three quarters of the maximum size bound the counters of frequent items, and the total bounds the error.
        ensures bounded { IsBounded self.now }
    {
        match self {
            AnySketch::Filter(sketch) => filter_number(sketch, which),
            AnySketch::CountU64(sketch) => count_number(Kind::CountU64, sketch, which),
            AnySketch::CountI64(sketch) => count_number(Kind::CountI64, sketch, which),
            AnySketch::FrequentU64(sketch) => frequent_number(Kind::FrequentU64, sketch, which),
            AnySketch::FrequentI64(sketch) => frequent_number(Kind::FrequentI64, sketch, which),
            AnySketch::FrequentStrings(sketch) => frequent_number(
                Kind::FrequentStrings,
                sketch,
                which,
            ),
        }
    }

    /// Returns how many bytes the sketch takes, by a formula: 8 for each word of a filter, and for each cell and each row of a Count-Min
    /// sketch; of frequent items 28 for each slot of a table of numbers, or 44 for each slot of a table of strings and their bytes.
    /// Takes one pass over the table of a sketch of frequent items. Does not allocate.
    pub fn memory_bytes(&self) -> usize
        ensures { result ≡ bytes_of self.now }
    {
        match self {
            AnySketch::Filter(sketch) => sketch.estimated_size(),
            AnySketch::CountI64(sketch) => sketch.estimated_size(),
            AnySketch::CountU64(sketch) => sketch.estimated_size(),
            AnySketch::FrequentI64(sketch) => sketch.memory_bytes(),
            AnySketch::FrequentU64(sketch) => sketch.memory_bytes(),
            AnySketch::FrequentStrings(sketch) => sketch.memory_bytes(),
        }
    }
}
