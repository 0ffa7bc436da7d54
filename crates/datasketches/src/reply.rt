//! Replies of a session.
ghost use Rattle.std.specs.Prelude.{◌≡◌};
ghost use Rattle.datasketches.specs.Replies.{done_or};
ghost use Rattle.datasketches.specs.Refusals.{refusal_text, refusal_name};

use sketch_base::Error;
use sketch_frequencies::Row;
use std::fmt;

/// The reply to a command.
///
/// # Examples
///
/// ```
/// use datasketches::{Command, Reply, Session};
///
/// fn is_done(session: &mut Session<u64>, command: Command<u64>) -> bool {
///     matches!(session.apply(command), Reply::Done)
/// }
/// ```
#[derive(Debug, PartialEq, Eq, Drop)]
pub enum Reply<T> {
    /// The command was done.
    Done,
    /// An item's estimate and bounds.
    Bounds {
        estimate: i128,
        lower: i128,
        upper: i128,
    },
    /// Whether a filter contains an item.
    Contains(bool),
    /// The numbers of a sketch.
    Status(Status),
    /// The frequent items above a threshold, descending by estimate.
    Rows(Vec<Row<T>>),
    /// The bytes of an image.
    Image(Vec<u8>),
    /// The command was rejected, and nothing changed.
    Refused(Refusal),
}

impl<T> Reply<T> {
    /// Returns `Done`, or `Refused` with the reason.
    pub fn from_outcome(outcome: Result<(), Refusal>) -> Self
        ensures { result ≡ done_or outcome }
    {
        match outcome {
            Ok(()) => Reply::Done,
            Err(refusal) => Reply::Refused(refusal),
        }
    }
}

/// An item's estimate and the bounds of its weight.
///
/// # Examples
///
/// ```
/// use datasketches::Bounds;
///
/// fn is_exact(bounds: Bounds) -> bool {
///     bounds.lower == bounds.upper
/// }
/// ```
#[derive(Clone, Copy, Debug, PartialEq, Eq)]
pub struct Bounds {
    /// The estimate.
    pub estimate: i128,
    /// The lower bound.
    pub lower: i128,
    /// The upper bound.
    pub upper: i128,
}

/// The numbers of a sketch.
///
/// # Examples
///
/// ```
/// use datasketches::Status;
///
/// fn max_slots(status: Status) -> Option<usize> {
///     match status {
///         Status::Frequent { max, .. } => Some(max),
///         _ => None,
///     }
/// }
/// ```
#[derive(Clone, Copy, Debug, PartialEq, Eq)]
pub enum Status {
    /// A frequent items sketch: counters, error, total weight, slots now and at most, and the number of counters that
    /// fit into the slots now.
    Frequent {
        active: usize,
        error: u64,
        total: u64,
        size: usize,
        max: usize,
        capacity: usize,
    },
    /// A Count-Min sketch of signed weights: total weight, hashes, buckets and seed.
    CountI64 {
        total: i64,
        hashes: u8,
        buckets: u32,
        seed: u64,
    },
    /// A Count-Min sketch of nonnegative weights: total weight, hashes, buckets and seed.
    CountU64 {
        total: u64,
        hashes: u8,
        buckets: u32,
        seed: u64,
    },
    /// A Bloom filter: set bits, all bits, hashes and seed.
    Bloom {
        bits: u64,
        capacity: usize,
        hashes: u16,
        seed: u64,
    },
}

/// The reason why a command was rejected.
///
/// # Examples
///
/// ```
/// use datasketches::Refusal;
///
/// fn word_for(refusal: Refusal) -> &'static str {
///     refusal.name()
/// }
/// ```
#[derive(Clone, Copy, Debug, PartialEq, Eq)]
pub enum Refusal {
    /// No sketch, or no image, has the name.
    NoSuchName,
    /// A sketch, or an image, has the name already.
    NameTaken,
    /// The sketch is of a kind that does not support the command, or the two sketches are of different kinds.
    WrongKind,
    /// Both names are the same: a sketch is not combined with itself.
    SameName,
    /// The fraction is not above 0 and at most 1.
    BadFraction,
    /// The sketch's own call returned this error.
    Call(Error),
}

impl Refusal {
    /// Returns the message for people.
    pub fn text(self) -> &'static str
        ensures { result.now ≡ refusal_text self }
    {
        self.words().1
    }

    /// Returns the name of the variant, such as `NoSuchName`. For `Call` returns the name of the fault, such as
    /// `MapSizeTooSmall`.
    pub fn name(self) -> &'static str
        ensures { result.now ≡ refusal_name self }
    {
        self.words().0
    }

    /// Returns the name and the message.
    fn words(self) -> (&'static str, &'static str)
        ensures name { result.0.now ≡ refusal_name self }
        ensures text { result.1.now ≡ refusal_text self }
    {
        match self {
            Refusal::NoSuchName => ("NoSuchName", "no such name"),
            Refusal::NameTaken => ("NameTaken", "name is taken"),
            Refusal::WrongKind => ("WrongKind", "wrong kind of sketch"),
            Refusal::SameName => ("SameName", "both names are the same"),
            Refusal::BadFraction => ("BadFraction", "fraction not above 0 and at most 1"),
            Refusal::Call(error) => (error.fault().name(), error.fault().text()),
        }
    }
}

/// Prints the message.
impl fmt::Display for Refusal {
    ghost use Rattle.std.specs.Prelude.{Some};
    ghost use Rattle.datasketches.specs.Refusals.{refusal_text};

    ghost output = { λ refusal. Some (refusal_text refusal) };

    fn fmt<W: fmt::Write>(&self, f: &mut fmt::Formatter<W>) -> fmt::Result {
        f.write_str(self.text())
    }
}

impl std::error::Error for Refusal {}

/// Wraps the error of a call in `Call`.
impl From<Error> for Refusal {
    ghost use Rattle.std.specs.Prelude.{◌≡◌};
    ghost use Rattle.datasketches.specs.declared.reply.Refusal.TheVariants.{Call};

    ghost from_gives = { λ error refusal. refusal ≡ Call error };

    fn from(error: Error) -> Self {
        Refusal::Call(error)
    }
}
