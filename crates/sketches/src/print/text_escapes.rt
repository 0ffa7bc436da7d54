//! Items in lines of text.
ghost use Rattle.std.specs.List.{list_any};
ghost use Rattle.std.specs.Prelude.{◌≡◌, ◌++◌, OnOk, false};
ghost use Rattle.sketches.specs.TextEscapes.{ends_part, item_of_text, text_byte, text_escaped};

use std::alloc::AllocError;

/// Appends an item, with a backslash and a letter for a tab and the bytes of line ends, and two backslashes for one.
pub fn append_text(item: &[u8], out: &mut Vec<u8>) -> Result<(), AllocError>
    ensures appended { OnOk result (out.new.items ≡ out.old.items ++ text_escaped item.now) }

    // A reader gets the item back, so no two items are written alike. What is written has no tab and no line end.
    ensures means { item_of_text (text_escaped item.now) ≡ item.now }
    ensures inside { list_any ends_part (text_escaped item.now) ≡ false }
{
    for byte in item {
        append_byte(*byte, out)?;
    }
    Ok(())
}

/// Appends a byte of an item.
fn append_byte(byte: u8, out: &mut Vec<u8>) -> Result<(), AllocError>
    ensures { OnOk result (out.new.items ≡ out.old.items ++ text_byte byte) }
{
    match byte {
        b'\t' => out.extend_from_slice(b"\\t".as_slice())?,
        b'\n' => out.extend_from_slice(b"\\n".as_slice())?,
        b'\r' => out.extend_from_slice(b"\\r".as_slice())?,
        b'\\' => out.extend_from_slice(b"\\\\".as_slice())?,
        _ => out.push(byte)?,
    }
    Ok(())
}
