//! Strings in JSON.
ghost use Rattle.std.specs.Prelude.{◌≡◌, ◌++◌, OnOk};
ghost use Rattle.std.specs.Str.Lossy.{utf8_lossy};
ghost use Rattle.sketches.specs.Json.{MeansString, escaped_byte, json_escaped, json_lossy, numbered_byte};

use sketch_base::from_utf8;
use std::alloc::{AllocError, Global};

/// The hexadecimal digits.
const DIGITS: &[u8; 16] = b"0123456789abcdef";

/// Appends the bytes of a string as a JSON string has them between its quotes.
pub fn append_escaped(bytes: &[u8], out: &mut Vec<u8>) -> Result<(), AllocError>
    ensures appended { OnOk result (out.new.items ≡ out.old.items ++ json_escaped bytes.now) }

    // A reader of JSON gets the string back, so no two strings are written alike.
    ensures means { MeansString (json_escaped bytes.now) bytes.now }
{
    for byte in bytes {
        append_byte(*byte, out)?;
    }
    Ok(())
}

/// Appends bytes that may not be UTF-8 as a JSON string has them between its quotes, with U+FFFD for each sequence that is not UTF-8.
pub fn append_lossy(alloc: Global, bytes: &[u8], out: &mut Vec<u8>) -> Result<(), AllocError>
    ensures appended { OnOk result (out.new.items ≡ out.old.items ++ json_lossy bytes.now) }
    ensures means { MeansString (json_lossy bytes.now) (utf8_lossy bytes.now) }
{
    match from_utf8(bytes) {
        Ok(_) => append_escaped(bytes, out),
        Err(_) => {
            let text = String::from_utf8_lossy(alloc, bytes)?;
            append_escaped(text.as_bytes(), out)
        }
    }
}

/// Appends a byte of a string, escaped if JSON wants it.
fn append_byte(byte: u8, out: &mut Vec<u8>) -> Result<(), AllocError>
    ensures { OnOk result (out.new.items ≡ out.old.items ++ escaped_byte byte) }
{
    if byte < 32 {
        return append_control(byte, out);
    }
    if byte == b'"' || byte == b'\\' {
        out.push(b'\\')?;
    }
    out.push(byte)?;
    Ok(())
}

/// Appends a control character by its number, in four hexadecimal digits.
fn append_control(byte: u8, out: &mut Vec<u8>) -> Result<(), AllocError>
    ensures { OnOk result (out.new.items ≡ out.old.items ++ numbered_byte byte) }
{
    out.extend_from_slice(b"\\u00".as_slice())?;
    out.push(DIGITS[usize::from(byte / 16)])?;
    out.push(DIGITS[usize::from(byte % 16)])?;
    Ok(())
}
