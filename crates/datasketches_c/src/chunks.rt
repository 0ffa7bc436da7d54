//! Calls for a chunk of a stream: where its last finished word, line or record ends, and where its first invalid UTF-8 begins.
ghost use Rattle.std.specs.Prelude.{◌≡◌, ◌≤◌, length};
ghost use Rattle.datasketches_c.specs.Chunks.{IsFinishedIn, IsValidPart, chunk_numbered};

use sketch_base::{Separator, finished_lines, finished_words};
use sketch_text::{Place, finished_csv_records};

/// What a chunk of a stream has.
#[derive(Clone, Copy)]
pub enum Chunk {
    /// Words between ASCII white space.
    Words,
    /// Lines.
    Lines,
    /// Records of CSV.
    CsvRecords,
    /// Characters of UTF-8.
    Utf8,
}

/// Returns what chunks have that one of `DS_CHUNK_WORDS` and so on of C names, or `None` if it is none of them.
fn chunk_numbered(chunk: i32) -> Option<Chunk>
    ensures { result ≡ chunk_numbered chunk }
{
    match chunk {
        1 => Some(Chunk::Words),
        2 => Some(Chunk::Lines),
        3 => Some(Chunk::CsvRecords),
        4 => Some(Chunk::Utf8),
        _ => None,
    }
}

/// Returns the number of bytes before the first that is not part of valid UTF-8.
fn valid_up_to(text: &[u8]) -> usize
    ensures bound { result ≤ length text.now }
    ensures valid { IsValidPart text.now result }
{
    match str::from_utf8(text) {
        Ok(valid) => valid.len(),
        Err(error) => error.valid_up_to(),
    }
}

/// Returns how many bytes of a chunk are finished, whatever comes after them, or 0 if none are.
///
/// - `chunk` 1: the bytes through the last byte of ASCII white space. The words of these bytes are finished.
/// - `chunk` 2: the bytes through the last line feed. The lines of these bytes are finished.
/// - `chunk` 3: the bytes through the last end of a record of CSV with this byte between fields. A record ends at a line feed outside of
///   quotes. The bytes begin with a record, and those after the last end may go on in what follows them.
/// - `chunk` 4: the bytes before the first that is not part of valid UTF-8. All are if they are UTF-8.
/// - Another `chunk`: 0.
#[unsafe(no_mangle)]
pub extern "C" fn ds_finished(chunk: i32, bytes: &[u8], delimiter: u8) -> usize
    ensures bound { result ≤ length bytes.now }
    ensures finished { IsFinishedIn (chunk_numbered chunk) delimiter bytes.now result }
{
    match chunk_numbered(chunk) {
        Some(Chunk::Words) => finished_words(bytes, Separator::AsciiWhitespace),
        Some(Chunk::Lines) => finished_lines(bytes),
        Some(Chunk::CsvRecords) => {
            let (end, _) = finished_csv_records(delimiter, Place::Start, bytes);
            end
        }
        Some(Chunk::Utf8) => valid_up_to(bytes),
        None => 0,
    }
}
