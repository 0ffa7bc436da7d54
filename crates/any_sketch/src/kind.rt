//! The kinds of sketches.
ghost use Rattle.std.specs.Prelude.{◌≡◌};
ghost use Rattle.any_sketch.specs.KindNumbers.{kind_number, kind_numbered};

/// A kind of sketches.
#[derive(Clone, Copy, Debug, PartialEq, Eq)]
pub enum Kind {
    /// A Bloom filter.
    Filter,
    /// A Count-Min sketch with weights in `u64`.
    CountU64,
    /// A Count-Min sketch with weights in `i64`.
    CountI64,
    /// A sketch of frequent items that are `u64`.
    FrequentU64,
    /// A sketch of frequent items that are `i64`.
    FrequentI64,
    /// A sketch of frequent items that are strings.
    FrequentStrings,
}

impl Kind {
    /// Returns the number of the kind, from 1 to 6, by which C and stored data name it.
    pub fn number(self) -> u16
        ensures { result ≡ kind_number self }
    {
        match self {
            Kind::Filter => 1,
            Kind::CountU64 => 2,
            Kind::CountI64 => 3,
            Kind::FrequentU64 => 4,
            Kind::FrequentI64 => 5,
            Kind::FrequentStrings => 6,
        }
    }

    /// Returns the kind of a number, or `None` if it is that of none.
    pub fn of_number(number: i32) -> Option<Kind>
        ensures { result ≡ kind_numbered number }
    {
        match number {
            1 => Some(Kind::Filter),
            2 => Some(Kind::CountU64),
            3 => Some(Kind::CountI64),
            4 => Some(Kind::FrequentU64),
            5 => Some(Kind::FrequentI64),
            6 => Some(Kind::FrequentStrings),
            _ => None,
        }
    }
}
