//! The bounds of an item's weight.

/// The estimate of an item's weight, and its upper bound.
///
/// The estimate is the lower bound of the original crate, which collisions can raise above the true weight.
#[derive(Clone, Copy, Debug)]
pub struct CountMinBounds<T> {
    /// The minimum of the item's cells.
    pub estimate: T,
    /// The estimate plus the margin of the sketch, or the maximum of `T` if this exceeds it.
    pub upper_bound: T,
}
