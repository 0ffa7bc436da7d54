//! Sketches of any kind.
ghost use Rattle.std.specs.Prelude.{◌≡◌};
ghost use Rattle.any_sketch.specs.Kinds.{kind_of};

use crate::kind::Kind;
use sketch_bloom::BloomFilter;
use sketch_countmin::CountMinSketch;
use sketch_frequencies::FrequentItemsSketch;

/// A sketch of one of the kinds.
///
/// A call that the kind does not have returns [`WrongKind`](crate::AnyError::WrongKind), and changes nothing.
#[derive(Drop)]
pub enum AnySketch {
    FrequentStrings(FrequentItemsSketch<String>),
    FrequentI64(FrequentItemsSketch<i64>),
    FrequentU64(FrequentItemsSketch<u64>),
    CountI64(CountMinSketch<i64>),
    CountU64(CountMinSketch<u64>),
    Filter(BloomFilter),
}

impl AnySketch {
    /// Returns the kind.
    pub fn kind(&self) -> Kind
        ensures { result ≡ kind_of self.now }
    {
        match self {
            AnySketch::FrequentStrings(_) => Kind::FrequentStrings,
            AnySketch::FrequentI64(_) => Kind::FrequentI64,
            AnySketch::FrequentU64(_) => Kind::FrequentU64,
            AnySketch::CountI64(_) => Kind::CountI64,
            AnySketch::CountU64(_) => Kind::CountU64,
            AnySketch::Filter(_) => Kind::Filter,
        }
    }
}
