//! The lines of `weigh`: the total, and the number of each key.
ghost use Rattle.std.specs.Prelude.{◌≡◌, ◌++◌, [], OnOk, string_bytes};
ghost use Rattle.sketches.specs.KeyWeights.{row_line, total_in};
ghost use Rattle.sketches.specs.declared.print.layout.Style.TheVariants.{Escaped, Json, Plain};

use crate::print::json::append_lossy;
use crate::print::layout::Style;
use crate::print::text_escapes::append_text;
use std::alloc::{AllocError, Global};
use std::fmt::Write as _;

/// Writes the line of the total: in words, or as a JSON object.
pub fn write_total_line(out: &mut String, style: Style, total: u64) -> Result<(), AllocError>
    ensures { OnOk result (string_bytes out.new ≡ string_bytes out.old ++ total_in style total) }
{
    match style {
        Style::Plain => write_plain_total(out, total),
        Style::Escaped => write_plain_total(out, total),
        Style::Json => write_json_total(out, total),
    }
}

/// Writes the line of the total in words.
fn write_plain_total(out: &mut String, total: u64) -> Result<(), AllocError>
    ensures { OnOk result (string_bytes out.new ≡ string_bytes out.old ++ total_in Plain total) }
{
    writeln!(out, "# total {total}")?;
    Ok(())
}

/// Writes the line of the total as a JSON object.
fn write_json_total(out: &mut String, total: u64) -> Result<(), AllocError>
    ensures { OnOk result (string_bytes out.new ≡ string_bytes out.old ++ total_in Json total) }
{
    writeln!(out, "{{\"total\":{total}}}")?;
    Ok(())
}

/// Appends the line of a key: its number, a tab and the key, which may be escaped, or a JSON object.
pub fn append_line(
    alloc: Global,
    style: Style,
    weight: u64,
    key: &[u8],
    out: &mut Vec<u8>,
    number: &mut String,
) -> Result<(), AllocError>
    ensures { OnOk result (out.new.items ≡ out.old.items ++ row_line style (weight, key.now)) }
{
    number.clear();
    match style {
        Style::Plain => append_plain(weight, key, out, number),
        Style::Escaped => append_escaped(weight, key, out, number),
        Style::Json => append_json(alloc, weight, key, out, number),
    }
}

/// Appends a number, a tab and a key. `number` is empty at the call.
fn append_plain(
    weight: u64,
    key: &[u8],
    out: &mut Vec<u8>,
    number: &mut String,
) -> Result<(), AllocError>
    requires { string_bytes number.old ≡ [] }
    ensures { OnOk result (out.new.items ≡ out.old.items ++ row_line Plain (weight, key.now)) }
{
    write!(number, "{weight}\t")?;
    out.extend_from_slice(number.as_bytes())?;
    out.extend_from_slice(key)?;
    out.push(b'\n')?;
    Ok(())
}

/// Appends a number, a tab and an escaped key. `number` is empty at the call.
fn append_escaped(
    weight: u64,
    key: &[u8],
    out: &mut Vec<u8>,
    number: &mut String,
) -> Result<(), AllocError>
    requires { string_bytes number.old ≡ [] }
    ensures { OnOk result (out.new.items ≡ out.old.items ++ row_line Escaped (weight, key.now)) }
{
    write!(number, "{weight}\t")?;
    out.extend_from_slice(number.as_bytes())?;
    append_text(key, out)?;
    out.push(b'\n')?;
    Ok(())
}

/// Appends a JSON object of a number and a key. `number` is empty at the call.
fn append_json(
    alloc: Global,
    weight: u64,
    key: &[u8],
    out: &mut Vec<u8>,
    number: &mut String,
) -> Result<(), AllocError>
    requires { string_bytes number.old ≡ [] }
    ensures { OnOk result (out.new.items ≡ out.old.items ++ row_line Json (weight, key.now)) }
{
    write!(number, "{{\"weight\":{weight},\"item\":\"")?;
    out.extend_from_slice(number.as_bytes())?;
    append_lossy(alloc, key, out)?;
    out.extend_from_slice(b"\"}\n".as_slice())?;
    Ok(())
}
