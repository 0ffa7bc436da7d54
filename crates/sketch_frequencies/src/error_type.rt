//! Which items a report lists as frequent.
ghost use Rattle.std.specs.Prelude.{◌≡◌};

/// The kind of error that a report may make. A sketch knows each weight only up to its error.
///
/// [`frequent_items_with_threshold`](crate::FrequentItemsSketch::frequent_items_with_threshold) has an example of both.
///
/// # Examples
///
/// ```
/// use sketch_frequencies::ErrorType;
///
/// fn kind_of_report(may_miss_items: bool) -> ErrorType {
///     if may_miss_items {
///         ErrorType::NoFalsePositives
///     } else {
///         ErrorType::NoFalseNegatives
///     }
/// }
/// ```
#[derive(Clone, Copy, Debug, PartialEq, Eq)]
pub enum ErrorType {
    /// No item above the threshold is missing: the report lists the items whose upper bound is above it.
    NoFalseNegatives,
    /// No item at or below the threshold is listed: the report lists the items whose lower bound is above it.
    NoFalsePositives,
}

impl ErrorType {
    ghost use Rattle.sketch_frequencies.specs.Above.{is_above};

    /// Returns whether the bound that this kind compares is above the floor.
    #[inline]
    pub(crate) fn is_above(self, floor: u64, lower_bound: u64, upper_bound: u64) -> bool
        ensures { result ≡ is_above self floor lower_bound upper_bound }
    {
        match self {
            ErrorType::NoFalseNegatives => upper_bound > floor,
            ErrorType::NoFalsePositives => lower_bound > floor,
        }
    }
}
