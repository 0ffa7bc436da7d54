//! Percentages.
ghost use Rattle.std.specs.Prelude.{◌<◌, ◌≤◌, IfSome};

use sketch_text::records::number_of;

/// The number of millionths of a percent in 100 percent.
pub const WHOLE: u32 = 100_000_000;

/// A percentage from 0 to 100, in millionths of a percent.
#[derive(Clone, Copy)]
pub struct Percent {
    pub millionths: u32,
    ghost within: { millionths ≤ 100000000 },
}

/// Returns the percentage of a text such as `5%` or `0.25%`, with up to 6 decimals. Returns `None` if it is none, or above 100.
pub fn percent_of(text: &str) -> Option<Percent> {
    let number = text.strip_suffix('%')?;
    let (whole, decimals) = match number.split_once('.') {
        Some((whole, decimals)) => (whole, decimals_of(decimals)?),
        None => (number, 0),
    };
    let whole = number_of(whole.as_bytes())?;
    if whole > 100 {
        return None;
    }
    let millionths = 1_000_000 * whole as u32 + decimals;
    if millionths > WHOLE {
        return None;
    }
    Some(Percent { millionths })
}

/// Returns the least number of parts of a whole of which each is at most the percentage of a text. Returns `None` if the text is no
/// percentage, or 0 percent.
pub fn parts_of(text: &str) -> Option<u64> {
    let percent = percent_of(text)?;
    if percent.millionths == 0 {
        return None;
    }
    Some(u64::from(WHOLE.div_ceil(percent.millionths)))
}

/// Returns the millionths that 1 to 6 decimals spell.
fn decimals_of(text: &str) -> Option<u32>
    ensures { IfSome result (λ millionths. millionths < 1000000) }
{
    let digits = text.as_bytes();
    let scale = match digits.len() {
        1 => 100_000,
        2 => 10_000,
        3 => 1_000,
        4 => 100,
        5 => 10,
        6 => 1,
        _ => return None,
    };
    let number = number_of(digits)?;
    if number >= 1_000_000 / u64::from(scale) {
        return None;
    }
    Some(scale * number as u32)
}
