//! The header of a file of CSV.
ghost use Rattle.std.specs.Prelude.{◌≡◌};
ghost use Rattle.sketches.specs.LineNumbers.{feeds_in};

use crate::read::files::Input;
use sketch_text::{
    Place, append_csv_text, finished_csv_records, next_csv_record, nth_csv_field, plain_csv_text,
};
use std::alloc::{AllocError, Global};
use std::io;
use std::io::{ErrorKind, Read};

/// The number of bytes that are read at once.
const BLOCK: usize = 1 << 16;

/// The bytes of U+FEFF, which some programs write first.
const BYTE_ORDER_MARK: &[u8; 3] = b"\xEF\xBB\xBF";

/// A file after its header, and the header. A byte order mark before it is no part of it.
#[derive(Drop)]
pub struct Headed {
    /// The bytes that were read.
    front: Vec<u8>,
    /// The number of bytes of the byte order mark.
    mark: usize,
    /// The number of bytes of the mark and of the header with its end.
    len: usize,
    delimiter: u8,
}

impl Headed {
    /// Reads the header of a file, which is its first record, or only a byte order mark if it has no header.
    ///
    /// # Errors
    ///
    /// Returns those of the file, `OutOfMemory` if an allocation fails, and `InvalidData` if the header has more than `limit` bytes.
    pub fn read(
        alloc: Global,
        input: &mut Input,
        delimiter: u8,
        limit: usize,
        has_header: bool,
    ) -> io::Result<Self> {
        let mut block = vec![in alloc; 0; BLOCK]?;
        let mut front = Vec::new(alloc);
        let mut place = Place::Start;
        let mut seen = 0;
        for _ in 0..u64::MAX {
            if seen > limit.saturating_add(BYTE_ORDER_MARK.len()) {
                return Err(io::Error::from(ErrorKind::InvalidData));
            }
            let count = match input.read(&mut block) {
                Ok(count) => count,
                Err(e) if e.kind() == ErrorKind::Interrupted => continue,
                Err(e) => return Err(e),
            };
            front.extend_from_slice(block.get(..count).unwrap_or(b"".as_slice()))?;
            if count > 0 && may_begin_mark(&front) {
                continue;
            }
            let from = mark_of(&front).max(seen);
            let (end, next) = finished_csv_records(
                delimiter,
                place,
                front.get(from..).unwrap_or(b"".as_slice()),
            );
            place = next;
            seen = front.len();
            if count == 0 || end > 0 || !has_header {
                break;
            }
        }
        let mark = mark_of(&front);
        let (len, text) = match next_csv_record(after(&front, mark), delimiter) {
            Some((raw, row, _)) if has_header => (raw.len(), row.len()),
            _ => (0, 0),
        };
        if text > limit {
            return Err(io::Error::from(ErrorKind::InvalidData));
        }
        Ok(Headed {
            front,
            mark,
            len: mark.saturating_add(len),
            delimiter,
        })
    }

    /// Returns the index of the first field that has this name, or `None` if no field has it. The name is spelled as a field of CSV.
    pub fn index_of(&self, alloc: Global, name: &str) -> Result<Option<u32>, AllocError> {
        let Some((_, row, _)) = next_csv_record(after(&self.front, self.mark), self.delimiter)
        else {
            return Ok(None);
        };
        let mut text = Vec::new(alloc);
        append_csv_text(name.as_bytes(), &mut text)?;
        for index in 0..u32::MAX {
            let Some(field) = nth_csv_field(row, self.delimiter, index) else {
                return Ok(None);
            };
            if is_text(alloc, field, &text)? {
                return Ok(Some(index));
            }
        }
        Ok(None)
    }

    /// Returns the number of line feeds in the header.
    pub fn lines(&self) -> u64 {
        line_feeds(self.front.get(..self.len).unwrap_or(b"".as_slice()))
    }

    /// Returns the bytes that were read after the header.
    pub fn into_rest(self, input: Input) -> AfterHeader {
        AfterHeader {
            front: self.front,
            mark: self.mark,
            at: self.len,
            input,
        }
    }
}

/// Returns whether bytes are the beginning of a byte order mark, and not a whole one.
fn may_begin_mark(bytes: &[u8]) -> bool {
    bytes.len() < BYTE_ORDER_MARK.len() && BYTE_ORDER_MARK.as_slice().starts_with(bytes)
}

/// Returns the number of bytes of the byte order mark at the front of bytes, if any.
fn mark_of(bytes: &[u8]) -> usize {
    if bytes.starts_with(BYTE_ORDER_MARK.as_slice()) {
        BYTE_ORDER_MARK.len()
    } else {
        0
    }
}

/// Returns the bytes from an index on.
fn after(bytes: &[u8], at: usize) -> &[u8] {
    bytes.get(at..).unwrap_or(b"".as_slice())
}

/// Returns the number of line feeds in bytes.
pub fn line_feeds(bytes: &[u8]) -> u64
    ensures { result ≡ feeds_in bytes.now }
{
    bytes.iter().filter(|byte| **byte == b'\n').count() as u64
}

/// Returns whether a field has a text.
fn is_text(alloc: Global, field: &[u8], text: &[u8]) -> Result<bool, AllocError> {
    match plain_csv_text(field) {
        Some(plain) => Ok(plain == text),
        None => {
            let mut whole = Vec::new(alloc);
            append_csv_text(field, &mut whole)?;
            Ok(whole.as_slice() == text)
        }
    }
}

/// A file after its header.
#[derive(Drop)]
pub struct AfterHeader {
    front: Vec<u8>,
    mark: usize,
    at: usize,
    input: Input,
}

impl AfterHeader {
    /// Returns the byte order mark, if any, and the header, if nothing was read after them.
    pub fn header(&self) -> &[u8] {
        self.front.get(..self.at).unwrap_or(b"".as_slice())
    }

    /// Returns whether the header has a byte after the mark, if nothing was read after it.
    pub fn has_header(&self) -> bool {
        self.at > self.mark
    }
}

impl Read for AfterHeader {
    fn read(&mut self, buf: &mut [u8]) -> io::Result<usize> {
        let rest = self.front.get(self.at..).unwrap_or(b"".as_slice());
        if rest.is_empty() {
            return self.input.read(buf);
        }
        let count = rest.len().min(buf.len());
        buf[..count].copy_from_slice(&rest[..count]);
        self.at += count;
        Ok(count)
    }
}
