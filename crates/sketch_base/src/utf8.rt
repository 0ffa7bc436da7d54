//! Bytes that are tested for UTF-8.
ghost use Rattle.std.specs.Prelude.{ℕ, ◌≡◌, ◌+◌, ◌<◌, ◌≤◌, IfErr, IsTrue, MatchResult, length, slice_index};
ghost use Rattle.std.specs.Str.{IsAscii, IsErrorLen, IsUtf8, IsValidUpTo, error_len, valid_up_to};

use std::simd::prelude::*;
use std::str::Utf8Error;

/// Returns the string of bytes, as `str::from_utf8` does. Short bytes of ASCII take less time.
///
/// # Errors
///
/// The error of `str::from_utf8` if the bytes are not UTF-8.
///
/// # Examples
///
/// ```
/// use sketch_base::from_utf8;
///
/// fn is_text(bytes: &[u8]) -> bool {
///     from_utf8(bytes).is_ok()
/// }
/// ```
#[inline]
pub fn from_utf8(bytes: &[u8]) -> Result<&str, Utf8Error>
    ensures cases { MatchResult result (λ text. (text.now ≡ bytes.now) × IsUtf8 bytes.now)
        (λ e. ¬ (IsUtf8 bytes.now) × IsValidUpTo bytes.now (valid_up_to e)) }
    ensures error_len { IfErr result (λ e. IsErrorLen bytes.now (valid_up_to e) (error_len e)) }
{
    if is_ascii(bytes) {
        return Ok(unsafe { str::from_utf8_unchecked(bytes) });
    }
    str::from_utf8(bytes)
}

/// Returns whether bytes are known to be ASCII. They are not known to be if they are fewer than 8.
#[inline(always)]
fn is_ascii(bytes: &[u8]) -> bool
    ensures { IsTrue result → IsAscii bytes.now }
{
    if bytes.len() >= 16 {
        is_ascii_by::<16>(bytes)
    } else if bytes.len() >= 8 {
        is_ascii_by::<8>(bytes)
    } else {
        false
    }
}

/// Returns whether at least `N` bytes are ASCII, of which it sees `N` at a time.
#[inline(always)]
fn is_ascii_by<const N: usize>(bytes: &[u8]) -> bool
    requires lanes { 0 < N }
    requires few { N ≤ 64 }
    requires enough { N ≤ length bytes.now }
    ensures { IsTrue result → IsAscii bytes.now }
{
    let last = bytes.len() - N;
    let mut at = 0;
    while at < last {
        if !are_ascii::<N>(bytes, at) {
            return false;
        }
        at += N;
    }
    are_ascii::<N>(bytes, last)
}

/// Returns whether the `N` bytes from index `at` are ASCII.
#[inline(always)]
fn are_ascii<const N: usize>(bytes: &[u8], at: usize) -> bool
    requires few { N ≤ 64 }
    requires room { at + N ≤ length bytes.now }
    ensures { IsTrue result → (i : ℕ) → at ≤ i → i < at + N → slice_index bytes.now i < 128 }
{
    let lanes = Simd::<u8, N>::from_slice(&bytes[at..]);
    lanes.simd_ge(Simd::splat(128)).to_bitmask() == 0
}
