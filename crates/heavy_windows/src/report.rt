//! Reports on a tenant.
use sketch_frequencies::Row;

/// The heavy hitters in the windows of a tenant.
///
/// # Examples
///
/// ```
/// use heavy_windows::{Error, ErrorType, HeavyWindows, Report};
/// use std::alloc::Global;
///
/// fn load_of_a_customer(alloc: Global) -> Result<Report<&'static str>, Error> {
///     let mut load = HeavyWindows::new(alloc, 24, 1024)?;
///     load.add(7, "/search", 5_300)?;
///     load.turn(7)?;
///     load.add(7, "/search", 1_200)?;
///     load.report(7, ErrorType::NoFalsePositives, 1_000)
/// }
/// ```
#[derive(Debug, Drop)]
pub struct Report<T> {
    /// The rows of the items, in descending order of their estimates.
    pub rows: Vec<Row<T>>,
    /// The difference between the upper and the lower bound of each row, which enclose the item's true weight.
    pub maximum_error: u64,
    /// The total weight of the windows together.
    pub total_weight: u64,
}
