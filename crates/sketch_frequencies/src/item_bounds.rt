//! Bounds and the estimate of an item's weight.

/// The bounds of an item's true weight, and its estimate.
///
/// The true weight lies between `lower_bound` and `upper_bound`, both included. They differ by the sketch's error. The
/// fields stand in memory in this order, as C has them.
#[repr(C)]
#[derive(Clone, Copy, Debug, PartialEq, Eq)]
pub struct ItemBounds {
    /// The lower bound: the item's count, or 0 if the item is not tracked.
    pub lower_bound: u64,
    /// The estimate: the upper bound, or 0 if the item is not tracked.
    pub estimate: u64,
    /// The upper bound: the lower bound plus the sketch's error.
    pub upper_bound: u64,
}
