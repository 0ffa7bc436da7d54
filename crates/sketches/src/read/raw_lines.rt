//! Lines of bytes that may not be UTF-8.
ghost use Rattle.std.specs.Prelude.{◌≡◌, ◌++◌, IfSome};
ghost use Rattle.std.specs.Str.Lines.{strip_carriage_return};
ghost use Rattle.sketches.specs.RawLines.{TakesRawLine};

use sketch_base::{Separator, first_separator};

/// Returns the first line of bytes with its end, the same line without it, and the bytes after it. Returns `None` if there are no
/// bytes.
///
/// The end is the line feed and a carriage return before it. The last line may have no end. So the lines with their ends, one after
/// another, are the bytes.
#[inline(always)]
pub fn next_line_with_end(bytes: &[u8]) -> Option<(&[u8], &[u8], &[u8])>
    ensures taken { TakesRawLine bytes.now result }
    ensures whole { IfSome result (λ taken. bytes.now ≡ taken.0.now ++ taken.2.now) }
{
    if bytes.is_empty() {
        return None;
    }
    let at = first_separator(bytes, Separator::LineFeed);
    if at == bytes.len() {
        let (line, after) = bytes.split_at(at);
        return Some((line, line, after));
    }
    let (raw, after) = bytes.split_at(at + 1);
    let (line, _) = raw.split_at(at);
    Some((raw, without_carriage_return(line), after))
}

/// Returns a line without the carriage return at its end, if there is one.
pub fn without_carriage_return(line: &[u8]) -> &[u8]
    ensures { result.now ≡ strip_carriage_return line.now }
{
    let len = line.len();
    if len == 0 || line[len - 1] != b'\r' {
        return line;
    }
    &line[..len - 1]
}
