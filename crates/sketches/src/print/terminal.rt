//! Standard output. If it is a terminal, it gets no control characters of items.
ghost use Rattle.std.specs.Prelude.{◌≤◌, length};
ghost use Rattle.std.specs.Io.{WritesAtMost};

use std::io;
use std::io::{IsTerminal, Stdout, Write};

/// The number of bytes that are escaped at once.
const BLOCK: usize = 4096;

/// The first byte of the control characters from U+0080 to U+009F in UTF-8.
const LEAD: u8 = 0xC2;

/// The hexadecimal digits.
const DIGITS: &[u8; 16] = b"0123456789abcdef";

/// Standard output. A terminal gets `\x` and two digits for each byte of a control character, but for tabs and line feeds.
#[derive(Drop)]
pub enum StandardOutput {
    Bytes(Stdout),
    Terminal(Stdout),
}

impl StandardOutput {
    /// Returns standard output.
    pub fn new(rt: &HostRuntime) -> Self {
        let stdout = rt.stdout();
        if stdout.is_terminal() {
            StandardOutput::Terminal(stdout)
        } else {
            StandardOutput::Bytes(stdout)
        }
    }
}

impl Write for StandardOutput {
    fn write(&mut self, buf: &[u8]) -> io::Result<usize> {
        match self {
            StandardOutput::Bytes(stdout) => stdout.write(buf),
            StandardOutput::Terminal(stdout) => write_shown(stdout, buf),
        }
    }

    fn flush(&mut self) -> io::Result<()> {
        match self {
            StandardOutput::Bytes(stdout) => stdout.flush(),
            StandardOutput::Terminal(stdout) => stdout.flush(),
        }
    }
}

/// Writes the first bytes with control characters escaped. Returns their number.
fn write_shown(stdout: &mut Stdout, bytes: &[u8]) -> io::Result<usize>
    ensures { WritesAtMost result bytes.now }
{
    let mut text = [0; 4 * BLOCK];
    let mut len = 0;
    let count = whole_front(bytes);
    let front = bytes.get(..count).unwrap_or(bytes);
    let mut before = 0;
    for (index, byte) in front.iter().enumerate() {
        let next = front.get(index.saturating_add(1)).copied().unwrap_or(0);
        if is_control(before, *byte, next) {
            len = append(&mut text, len, b"\\x".as_slice());
            len = append(
                &mut text,
                len,
                &[
                    DIGITS[usize::from(*byte / 16)],
                    DIGITS[usize::from(*byte % 16)],
                ],
            );
        } else {
            len = append(&mut text, len, &[*byte]);
        }
        before = *byte;
    }
    stdout.write_all(text.get(..len).unwrap_or(text.as_slice()))?;
    Ok(count)
}

/// Returns the number of bytes that are written at once: a control character of two bytes is not cut.
fn whole_front(bytes: &[u8]) -> usize
    ensures { result ≤ length bytes.now }
{
    if bytes.len() <= BLOCK {
        return bytes.len();
    }
    match bytes.get(BLOCK - 1) {
        Some(byte) if *byte == LEAD => BLOCK - 1,
        _ => BLOCK,
    }
}

/// Returns whether a byte between others is one of a control character, and neither a tab nor a line feed.
fn is_control(before: u8, byte: u8, next: u8) -> bool {
    if byte < 32 || byte == 127 {
        return byte != b'\t' && byte != b'\n';
    }
    (byte == LEAD && is_second(next)) || (before == LEAD && is_second(byte))
}

/// Returns whether a byte is the second one of a control character from U+0080 to U+009F.
fn is_second(byte: u8) -> bool {
    byte >= 0x80 && byte <= 0x9F
}

/// Puts bytes at an index of a text, if they fit. Returns the index after them.
fn append(text: &mut [u8; 4 * BLOCK], at: usize, bytes: &[u8]) -> usize {
    let end = at.saturating_add(bytes.len());
    match text.get_mut(at..end) {
        Some(place) => {
            place.copy_from_slice(bytes);
            end
        }
        None => at,
    }
}
