//! The causes of errors.
ghost use Rattle.std.specs.Prelude.{◌≡◌};
ghost use Rattle.sketch_base.specs.Faults.{fault_text, fault_name};

use std::fmt;

/// The cause of an [`Error`](crate::Error).
///
/// # Examples
///
/// ```
/// use sketch_base::Error;
///
/// fn reason(error: &Error) -> &'static str {
///     error.fault().text()
/// }
/// ```
#[derive(Clone, Copy, Debug, PartialEq, Eq)]
pub enum Fault {
    /// The number of bits of a filter is out of range.
    BadNumBits,
    /// The number of hashes is out of range.
    BadNumHashes,
    /// The number of buckets is below 3.
    BadNumBuckets,
    /// Hashes times buckets is 2^30 or more.
    TableTooLarge,
    /// The 16-bit hash of the seed is 0.
    ZeroSeedHash,
    /// Two sketches differ in shape or seed.
    Mismatch,
    /// The total weight would exceed the maximum of its type.
    WeightOverflow,
    /// A map size is not a power of two.
    MapSizeNotPowerOfTwo,
    /// A map size is below 8.
    MapSizeTooSmall,
    /// A map size is above 2^30.
    MapSizeTooLarge,
    /// An item is too long to be written to an image.
    ItemTooLong,
    /// There are too few bytes.
    InsufficientData,
    /// The bytes are an image of another family of sketches.
    BadFamily,
    /// The serial version of an image is not supported.
    BadVersion,
    /// The number of preamble longs is not one of the family's.
    BadPreamble,
    /// A filter has no words.
    BadNumWords,
    /// The stored number of set bits is wrong.
    BadBitCount,
    /// The stored hash of the seed is not that of the given seed.
    SeedHashMismatch,
    /// A number is out of the range of its type.
    ValueOutOfRange,
    /// The total weight is negative.
    NegativeTotal,
    /// A counter exceeds the total weight.
    CellAboveTotal,
    /// The current map size is below 8.
    LgCurTooSmall,
    /// The maximum map size is above 2^30.
    LgMaxTooLarge,
    /// The current map size is above the maximum.
    LgCurAboveMax,
    /// The empty flag does not match the preamble.
    EmptyFlagMismatch,
    /// There are more active items than the map can hold.
    TooManyActive,
    /// The total weight is 0 in an image that is not marked empty.
    ZeroTotal,
    /// The sum of the weights exceeds the total weight.
    WeightsExceedTotal,
    /// The weights and the error together exceed the total weight.
    ErrorExceedsTotal,
    /// A string is not valid UTF-8.
    InvalidUtf8,
    /// An item is invalid. This is for the item types of users.
    BadItem,
    /// An allocation failed.
    NoMemory,
    /// The number of counters that a purge samples is out of range.
    BadSampleSize,
    /// The number of windows is out of range.
    BadWindows,
    /// There is no offset, an offset is below the one before it, or an offset exceeds the number of bytes.
    BadOffsets,
    /// A record has an item and no weight: no number in decimal digits that is in range.
    BadWeight,
}

impl Fault {
    ghost use Rattle.sketch_base.specs.Faults.{fault_words};

    /// Returns the message, for people to read.
    pub fn text(self) -> &'static str
        ensures { result.now ≡ fault_text self }
    {
        self.words().1
    }

    /// Returns the name of the variant, such as `MapSizeTooSmall`.
    pub fn name(self) -> &'static str
        ensures { result.now ≡ fault_name self }
    {
        self.words().0
    }

    /// Returns the name and the message.
    fn words(self) -> (&'static str, &'static str)
        ensures { (result.0.now, result.1.now) ≡ fault_words self }
    {
        WORDS[self as usize]
    }
}

/// The name and the message of each fault, in the order of the variants.
static WORDS: [(&str, &str); 36] = [
    ("BadNumBits", "num_bits out of range"),
    ("BadNumHashes", "num_hashes out of range"),
    ("BadNumBuckets", "num_buckets below 3"),
    ("TableTooLarge", "table too large"),
    ("ZeroSeedHash", "seed hash is zero"),
    ("Mismatch", "shapes or seeds differ"),
    ("WeightOverflow", "total weight overflow"),
    ("MapSizeNotPowerOfTwo", "map size is not a power of two"),
    ("MapSizeTooSmall", "map size below 8"),
    ("MapSizeTooLarge", "map size above 2^30"),
    ("ItemTooLong", "item too long"),
    ("InsufficientData", "insufficient data"),
    ("BadFamily", "wrong family"),
    ("BadVersion", "wrong serial version"),
    ("BadPreamble", "wrong preamble longs"),
    ("BadNumWords", "number of words below 1"),
    ("BadBitCount", "wrong number of set bits"),
    ("SeedHashMismatch", "seed hashes differ"),
    ("ValueOutOfRange", "value out of range"),
    ("NegativeTotal", "total weight is negative"),
    ("CellAboveTotal", "counter exceeds total weight"),
    ("LgCurTooSmall", "current map size below 8"),
    ("LgMaxTooLarge", "greatest map size above 2^30"),
    ("LgCurAboveMax", "current map size above greatest"),
    ("EmptyFlagMismatch", "empty flag does not match preamble"),
    ("TooManyActive", "too many active items"),
    ("ZeroTotal", "total weight is zero"),
    ("WeightsExceedTotal", "weights exceed total weight"),
    ("ErrorExceedsTotal", "weights and error exceed total weight"),
    ("InvalidUtf8", "invalid UTF-8"),
    ("BadItem", "bad item"),
    ("NoMemory", "out of memory"),
    ("BadSampleSize", "sample size out of range"),
    ("BadWindows", "windows out of range"),
    ("BadOffsets", "offsets missing, descending or out of range"),
    ("BadWeight", "weight missing or no number in range"),
];

/// Writes the message of the fault.
impl fmt::Display for Fault {
    ghost use Rattle.std.specs.Prelude.{Some};
    ghost use Rattle.sketch_base.specs.Faults.{fault_text};

    ghost output = { λ fault. Some (fault_text fault) };

    fn fmt<W: fmt::Write>(&self, f: &mut fmt::Formatter<W>) -> fmt::Result {
        f.write_str(self.text())
    }
}
