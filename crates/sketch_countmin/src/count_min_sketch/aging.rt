//! Halving and decay, by which old weights count less than new ones.
ghost use Rattle.std.specs.Prelude.{◌≡◌, ◌<◌, ◌≤◌};
ghost use Rattle.sketch_countmin.specs.History.CountHistory.{Halve, Decay};
ghost use Rattle.sketch_countmin.specs.Stands.{Extends};
ghost use Rattle.sketch_countmin.specs.State.{IsCountState, halved_state, decayed_state};

use crate::count_min_sketch::CountMinSketch;
use crate::unsigned_count_min_value::UnsignedCountMinValue;

impl<T: UnsignedCountMinValue> CountMinSketch<T> {
    /// Halves each cell and the total, rounded down. Does not allocate.
    pub fn halve(&mut self)
        ensures value { self.new ≡ halved_state self.old }
        ensures state { IsCountState T.greatest self.new }
        ensures stands { Extends self.old self.new Halve }
    {
        self.grid.halve();
        self.total = self.total.halve();
    }

    /// Multiplies each cell and the total by `numerator / denominator`, rounded down. Does not allocate.
    ///
    /// `0 < numerator <= denominator` is required.
    ///
    /// # Examples
    ///
    /// ```
    /// use sketch_countmin::CountMinSketch;
    ///
    /// fn age(traffic: &mut CountMinSketch<u64>) {
    ///     traffic.decay(9, 10);
    /// }
    /// ```
    pub fn decay(&mut self, numerator: u64, denominator: u64)
        requires positive { 0 < numerator }
        requires at_most_one { numerator ≤ denominator }
        ensures value { self.new ≡ decayed_state numerator denominator self.old }
        ensures state { IsCountState T.greatest self.new }
        ensures stands { Extends self.old self.new (λ h. Decay h numerator denominator) }
    {
        self.grid.scale(numerator, denominator);
        self.total = self.total.scale_nonnegative(numerator, denominator as u128);
    }
}
