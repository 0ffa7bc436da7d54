//! The fields of bytes and of strings, between delimiters of one byte.
ghost use Rattle.std.specs.Prelude.{◌≡◌, ◌<◌, ◌==◌, [], ◌∷◌, MatchOption, drop, take};
ghost use Rattle.std.specs.List.{slice_split};

use sketch_base::{OneByte, first_member};

/// Returns the field of an index, counted from 0, between delimiters, or `None` if there are too few fields. Does not
/// allocate.
///
/// A field may be empty. The bytes need not be UTF-8.
#[inline(always)]
pub fn nth_field_of_bytes(bytes: &[u8], delimiter: u8, index: u32) -> Option<&[u8]>
    ensures { MatchOption result (take 1 (drop index (slice_split (λ byte. byte == delimiter) bytes.now)) ≡ [])
        (λ field. take 1 (drop index (slice_split (λ byte. byte == delimiter) bytes.now)) ≡ field.now ∷ []) }
{
    let mut rest = bytes;
    'fields: for at in 0..index {
        let (_, after) = rest.split_at(first_member(rest, OneByte(delimiter)));
        if after.is_empty() {
            return None;
        }
        let (_, later) = after.split_at(1);
        rest = later;
    }
    let (field, _) = rest.split_at(first_member(rest, OneByte(delimiter)));
    Some(field)
}

/// Returns the field of an index in a string, counted from 0, between delimiters of ASCII, or `None` if there are too few
/// fields. Does not allocate.
#[inline(always)]
pub fn nth_field(text: &str, delimiter: u8, index: u32) -> Option<&str>
    requires ascii { delimiter < 128 }
    ensures { MatchOption result (take 1 (drop index (slice_split (λ byte. byte == delimiter) text.now)) ≡ [])
        (λ field. take 1 (drop index (slice_split (λ byte. byte == delimiter) text.now)) ≡ field.now ∷ []) }
{
    let field = nth_field_of_bytes(text.as_bytes(), delimiter, index)?;
    Some(unsafe { str::from_utf8_unchecked(field) })
}
