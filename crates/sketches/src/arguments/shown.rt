//! Names and values in messages.
use std::fmt;

/// The hexadecimal digits.
pub const DIGITS: &[u8; 16] = b"0123456789abcdef";

/// A name or a value in a message. A control character is written as `\x` and two digits for each of its bytes, so that a message is one
/// line, and a terminal gets none of them.
#[derive(Clone, Copy)]
pub struct Shown<'a> {
    pub text: &'a str,
}

impl fmt::Display for Shown<'_> {
    fn fmt<W: fmt::Write>(&self, f: &mut fmt::Formatter<W>) -> fmt::Result {
        for c in self.text.chars() {
            if c.is_control() {
                write_control(f, c)?;
            } else {
                f.write_char(c)?;
            }
        }
        Ok(())
    }
}

/// Writes the bytes of a control character. One from U+0080 to U+009F has two bytes, of which the second is its number.
fn write_control<W: fmt::Write>(f: &mut fmt::Formatter<W>, c: char) -> fmt::Result {
    let byte = (u32::from(c) % 256) as u8;
    if byte >= 0x80 {
        f.write_str("\\xc2")?;
    }
    f.write_str("\\x")?;
    f.write_char(char::from(DIGITS[usize::from(byte / 16)]))?;
    f.write_char(char::from(DIGITS[usize::from(byte % 16)]))
}
