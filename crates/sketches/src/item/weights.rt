//! The weights of lines.
ghost use Rattle.std.specs.Prelude.{◌≡◌, None};
ghost use Rattle.sketches.specs.Skipped.{skips};
ghost use Rattle.sketches.specs.Utf8Lines.{GrowsBy};
ghost use Rattle.sketches.specs.Weights.{taken_weight, weight_in};

use crate::item::weighing::Unweighed;
use sketch_text::records::{Part, number_of, raw_part_of};

/// Returns the weight in a part of a line.
///
/// Returns `None` if the line has no such part, or if the part is not a whole number of decimal digits, at most `u64::MAX`. A sign
/// or a blank is not allowed.
#[inline(always)]
pub fn weight_of(part: Part, line: &[u8]) -> Option<u64>
    ensures { result ≡ weight_in part line.now }
{
    match raw_part_of(part, line) {
        Some(text) => number_of(text),
        None => None,
    }
}

/// Returns the weight of a record that has an item and no weight: 0, or `None` if it fails. Increments `bad`, up to `u64::MAX`, if it is 0.
pub fn taken_weight(unweighed: Unweighed, bad: &mut u64) -> Option<u64>
    ensures weight { result ≡ taken_weight unweighed None }
    ensures skipped { GrowsBy bad.old (skips unweighed None) bad.new }
{
    match unweighed {
        Unweighed::Fails => None,
        Unweighed::IsZero => {
            *bad = bad.saturating_add(1);
            Some(0)
        }
    }
}
