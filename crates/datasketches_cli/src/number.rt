//! Parses numbers.
ghost use Rattle.std.specs.Prelude.{◌≡◌, ◌<◌, ◌^◌, [], ◌∷◌, IfSome};
ghost use Rattle.datasketches_cli.specs.Grammar.{number_below, signed_number};

/// Parses a word of decimal digits as a number of 64 bits.
pub fn number_of(word: &str) -> Option<u64>
    ensures { result ≡ number_below (2 ^ 64) word.now }
{
    // most weights are of one digit
    if let [byte] = word.as_bytes() {
        return digit_of(*byte);
    }
    // std's `parse` accepts a sign before the digits
    if word.as_bytes().first() == Some(&b'+') {
        return None;
    }
    word.parse::<u64>().ok()
}

/// Returns the value of a decimal digit.
fn digit_of(byte: u8) -> Option<u64>
    ensures { result ≡ number_below (2 ^ 64) (byte ∷ []) }
{
    if byte.is_ascii_digit() {
        Some(u64::from(byte - b'0'))
    } else {
        None
    }
}

/// Parses a word of decimal digits as a number below a limit.
pub fn number_below(word: &str, limit: u64) -> Option<u64>
    ensures number { result ≡ number_below limit word.now }
    ensures below { IfSome result (λ number. number < limit) }
{
    match number_of(word) {
        Some(number) if number < limit => Some(number),
        _ => None,
    }
}

/// Parses a word of decimal digits, after a minus sign if any, as a signed number of 64 bits.
pub fn signed_number(word: &str) -> Option<i64>
    ensures { result ≡ signed_number word.now }
{
    if word.as_bytes().first() == Some(&b'+') {
        return None;
    }
    word.parse::<i64>().ok()
}
