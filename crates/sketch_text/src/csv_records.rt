//! The records of CSV.
ghost use Rattle.std.specs.Prelude.{◌≡◌, ◌==◌, ◌≤◌, ◌++◌, ℕ, true, IfSome, length, take};
ghost use Rattle.std.specs.Str.Lines.{strip_carriage_return};
ghost use Rattle.sketch_base.specs.Split.{SplitsAt};
ghost use Rattle.sketch_text.specs.Csv.{IsBehindLastEnd, IsFirstEnd, IsFirstCut, IsStill, TakesRecord, after_bytes, csv_records, cuts, place_after, raw_csv_records};
ghost use Rattle.sketch_text.specs.Records.{IsEndOf};
ghost use Rattle.sketch_text.specs.declared.place.Place.TheVariants.{Start};

use crate::place::{Place, QUOTE};
use crate::two_bytes::TwoBytes;
use sketch_base::{ByteSet, OneByte, first_member};

/// Returns the index of the first byte of `stops` outside of quotes, or the number of bytes if there is none. Returns the place
/// there, too.
pub(crate) fn first_cut<E: ByteSet, T: ByteSet>(
    ends: E,
    stops: T,
    place: Place,
    bytes: &[u8],
) -> (usize, Place)
    requires within { (x : ℕ) → T.member stops x ≡ true → E.member ends x ≡ true }
    ensures bound { result.0 ≤ length bytes.now }
    ensures cut { IsFirstCut (E.member ends) (T.member stops) place bytes.now result.0 }
    ensures place { result.1 ≡ after_bytes (E.member ends) place (take result.0 bytes.now) }
{
    let mut at = 0;
    let mut here = place;
    'bytes: while at < bytes.len() {
        let (_, rest) = bytes.split_at(at);
        at += still(ends, here, rest);
        if at == bytes.len() {
            return (at, here);
        }
        let byte = bytes[at];
        if cuts(stops, here, byte) {
            return (at, here);
        }
        here = here.after(byte, ends.contains(byte));
        at += 1;
    }
    (at, here)
}

/// Returns whether a byte at a place is one of `stops` outside of quotes.
#[inline(always)]
fn cuts<T: ByteSet>(stops: T, place: Place, byte: u8) -> bool
    ensures { result ≡ cuts (T.member stops) place byte }
{
    !place.is_quoted() && stops.contains(byte)
}

/// Returns a number of first bytes that leave the place as it is, and none of which ends a field.
#[inline(always)]
fn still<E: ByteSet>(ends: E, place: Place, bytes: &[u8]) -> usize
    ensures bound { result ≤ length bytes.now }
    ensures still { IsStill (E.member ends) place (take result bytes.now) }
{
    match place {
        Place::Quoted => first_member(bytes, OneByte(QUOTE)),
        Place::Bare => first_member(bytes, ends),
        Place::Start | Place::Closed => 0,
    }
}

/// Returns the index of the first byte that ends a record, or the number of bytes if none does.
#[inline(always)]
fn next_end(delimiter: u8, place: Place, bytes: &[u8]) -> usize
    ensures bound { result ≤ length bytes.now }
    ensures end { IsFirstEnd delimiter place bytes.now result }
{
    if !place.is_quoted() {
        let at = first_member(bytes, TwoBytes(b'\n', QUOTE));
        if at == bytes.len() || bytes[at] == b'\n' {
            return at;
        }
    }
    let (at, _) = first_cut(TwoBytes(b'\n', delimiter), OneByte(b'\n'), place, bytes);
    at
}

/// Returns the number of bytes through the last end of a record, or 0 if there is none, and the place after all bytes.
///
/// A record ends at a line feed outside of quotes. The bytes follow others, after which they are at `place`. So a stream can be split
/// at this index. The bytes after it may begin a record that is continued, from the place that is returned.
pub fn finished_csv_records(delimiter: u8, place: Place, bytes: &[u8]) -> (usize, Place)
    ensures bound { result.0 ≤ length bytes.now }
    ensures last { IsBehindLastEnd delimiter place bytes.now result.0 }
    ensures records { place ≡ Start → SplitsAt (csv_records delimiter) bytes.now result.0 }
    ensures raw { place ≡ Start → SplitsAt (raw_csv_records delimiter) bytes.now result.0 }
    ensures place { result.1 ≡ place_after delimiter place bytes.now }
{
    let mut done = 0;
    let mut here = place;
    'records: loop {
        let (_, rest) = bytes.split_at(done);
        let end = next_end(delimiter, here, rest);
        if end == rest.len() {
            let (_, last) = first_cut(TwoBytes(b'\n', delimiter), OneByte(b'\n'), here, rest);
            return (done, last);
        }
        done += end + 1;
        here = Place::Start;
    }
}

/// Returns the first record of bytes with its end, the same record without it, and the bytes after it. Returns `None` if there are no
/// bytes.
///
/// A record ends at a line feed outside of quotes, or at the end of the bytes. Its end is the line feed and a carriage return before
/// it. The bytes need not be UTF-8. Does not allocate.
#[inline(always)]
pub fn next_csv_record(bytes: &[u8], delimiter: u8) -> Option<(&[u8], &[u8], &[u8])>
    ensures taken { TakesRecord delimiter bytes.now result }
    ensures whole { IfSome result (λ taken. bytes.now ≡ taken.0.now ++ taken.2.now) }
    ensures end { IfSome result (λ taken. IsEndOf bytes.now taken.2.now) }
{
    if bytes.is_empty() {
        return None;
    }
    let at = next_end(delimiter, Place::Start, bytes);
    if at == bytes.len() {
        let (row, after) = bytes.split_at(at);
        return Some((row, row, after));
    }
    let (raw, after) = bytes.split_at(at + 1);
    let (row, _) = raw.split_at(at);
    Some((raw, without_carriage_return(row), after))
}

/// Returns a record without the carriage return at its end, if there is one.
#[inline(always)]
pub(crate) fn without_carriage_return(row: &[u8]) -> &[u8]
    ensures { result.now ≡ strip_carriage_return row.now }
{
    let len = row.len();
    if len == 0 || row[len - 1] != b'\r' {
        return row;
    }
    &row[..len - 1]
}
