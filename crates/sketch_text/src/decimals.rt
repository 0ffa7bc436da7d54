//! Numbers in decimal digits.
ghost use Rattle.std.specs.Prelude.{◌≡◌, ℕ, List, Option};
ghost use Rattle.sketch_text.specs.Decimals.{negative, number_in, signed_in};

/// Returns the number that decimal digits spell, or `None` if another byte is among them, there are none, or it exceeds `u64::MAX`.
#[inline(always)]
pub fn number_of(text: &[u8]) -> Option<u64>
    ensures { result ≡ number_in text.now }
{
    if text.is_empty() {
        return None;
    }
    let mut value: u64 = 0;
    'digits: for at in 0..text.len() {
        let byte = text[at];
        if !byte.is_ascii_digit() {
            return None;
        }
        let digit = u64::from(byte - b'0');
        if value > (u64::MAX - digit) / 10 {
            return None;
        }
        value = 10 * value + digit;
    }
    Some(value)
}

/// Returns the number that decimal digits spell, with or without a minus sign before them. Returns `None` if another byte is among
/// them, there are none, or the number is out of range.
#[inline(always)]
pub fn signed_number_of(text: &[u8]) -> Option<i64>
    ensures { result ≡ signed_in text.now }
{
    let Some((first, digits)) = text.split_first() else {
        return None;
    };
    if *first == b'-' {
        return negative(number_of(digits)?);
    }
    i64::try_from(number_of(text)?).ok()
}

/// Returns minus a number, or `None` if it is below `i64::MIN`.
fn negative(size: u64) -> Option<i64>
    ensures { result ≡ negative size }
{
    i64::try_from(-(size as i128)).ok()
}

/// A type of weights that stand in records as decimal digits: `u64`, or `i64` with or without a minus sign.
pub trait RecordWeight: Copy + Drop {
    /// One, the weight of a record without a weight.
    const ONE: Self;

    ghost ONE: { Self };

    // The weight in bytes, if they spell one.
    ghost reads: { List ℕ → Option Self };

    /// Returns the weight that bytes spell, or `None` if they spell none.
    fn read_from(text: &[u8]) -> Option<Self>
        ensures { result ≡ reads text.now };
}

impl RecordWeight for u64 {
    const ONE: u64 = 1;

    ghost ONE = { 1 };

    ghost reads = { number_in };

    #[inline(always)]
    fn read_from(text: &[u8]) -> Option<u64> {
        number_of(text)
    }
}

impl RecordWeight for i64 {
    ghost use Rattle.std.specs.Prelude.{pos};

    const ONE: i64 = 1;

    ghost ONE = { pos 1 };

    ghost reads = { signed_in };

    #[inline(always)]
    fn read_from(text: &[u8]) -> Option<i64> {
        signed_number_of(text)
    }
}
