//! Which rows are printed.
ghost use Rattle.std.specs.Prelude.{ℕ, ◌↔◌, ◌*◌, ◌^◌, ◌<◌};
ghost use Rattle.sketches.specs.Thresholds.{IsAbove};

use crate::print::percent::{Percent, WHOLE};

/// Which rows are printed: those whose upper bounds are above the threshold.
#[derive(Clone, Copy)]
pub enum Threshold {
    /// A weight.
    Weight(u64),
    /// A percentage of the total weight.
    Share(Percent),
}

impl Threshold {
    /// Returns the weight that an upper bound has to exceed, for a total weight.
    pub fn weight(self, total: u64) -> u64
        ensures { (n : ℕ) → IsAbove self total n ↔ (result < n) }
    {
        match self {
            Threshold::Weight(weight) => weight,
            Threshold::Share(percent) => share_of(percent, total),
        }
    }
}

/// Returns a percentage of a total, rounded down.
fn share_of(percent: Percent, total: u64) -> u64
    ensures { (n : ℕ) → (percent.millionths * total < 10 ^ 8 * n) ↔ (result < n) }
{
    (u128::from(percent.millionths) * u128::from(total) / u128::from(WHOLE)) as u64
}
