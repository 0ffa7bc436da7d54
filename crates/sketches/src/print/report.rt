//! The text of a report.
ghost use Rattle.std.specs.Prelude.{◌≡◌, ◌<◌, ◌++◌, true, false, codes, decimal, IfErr, IfNone, IfOk, IfSome, OnOk, length, min, string_bytes, take};
ghost use Rattle.std.specs.List.{flat_map, AllPairs};
ghost use Rattle.std.specs.String.{string_eq};
ghost use Rattle.sketch_base.specs.Errors.{no_memory};
ghost use Rattle.sketch_frequencies.specs.Rows.{MissesNone, ShowsExactly};
ghost use Rattle.sketch_frequencies.specs.declared.error_type.ErrorType.TheVariants.{NoFalseNegatives};
ghost use Rattle.sketches.specs.Reports.{Precedes, ShowsTop, header_in, json_numbers, plain_numbers, report_text, row_cmp, row_line};
ghost use Rattle.sketches.specs.declared.print.layout.Style.TheVariants.{Escaped, Json, Plain};

use crate::failure::Failure;
use crate::print::json::append_escaped;
use crate::print::layout::{Layout, Style};
use crate::print::text_escapes::append_text;
use crate::print::threshold::Threshold;
use sketch_frequencies::{Error, ErrorType, FrequentItemsSketch, Row};
use std::alloc::{AllocError, Global};
use std::cmp::Ordering;
use std::fmt::Write as _;

/// Returns the header, if it is wanted, and the lines of the first rows above a threshold, at most `count`.
///
/// Returns `None` if exact numbers are wanted and the error is not 0. The rows are in descending order of upper bounds, and those of equal
/// ones in ascending order of items.
///
/// # Errors
///
/// Returns `Memory` if an allocation fails.
pub fn report(
    alloc: Global,
    sketch: &FrequentItemsSketch<String>,
    layout: Layout,
    threshold: Threshold,
    count: usize,
) -> Result<Option<Vec<u8>>, Failure>
    ensures shown { IfOk result (λ text. IfSome text (λ bytes. ShowsTop sketch.now layout threshold count bytes.items)) }
    ensures inexact { IfOk result (λ text. IfNone text ((layout.exact ≡ true) × (0 < sketch.now.error))) }
    ensures failed { IfErr result (λ failure. failure ≡ Failure.Memory) }
{
    if layout.exact && sketch.maximum_error() > 0 {
        return Ok(None);
    }
    let least = threshold.weight(sketch.total_weight());
    let rows = ordered_rows(sketch, least)?;
    let text = text_of(
        alloc,
        layout,
        sketch.maximum_error(),
        sketch.total_weight(),
        first_rows(&rows, count),
    )?;
    Ok(Some(text))
}

/// Returns the tracked items whose upper bounds are above a threshold, in the order of a report.
fn ordered_rows(sketch: &FrequentItemsSketch<String>, least: u64) -> Result<Vec<Row<String>>, Error>
    ensures exact { IfOk result (λ rows. ShowsExactly string_eq NoFalseNegatives least sketch.now rows.items) }
    ensures misses { IfOk result (λ rows. MissesNone string_eq least sketch.now rows.items) }
    ensures order { IfOk result (λ rows. AllPairs Precedes rows.items) }
    ensures failed { IfErr result (λ e. e ≡ no_memory) }
{
    let mut rows = sketch.frequent_items_with_threshold(ErrorType::NoFalseNegatives, least)?;
    rows.sort_unstable_by(|a, b| order_of(a, b));
    Ok(rows)
}

/// Returns the order of two rows of a report: descending upper bounds, and ascending items of equal ones.
fn order_of(a: &Row<String>, b: &Row<String>) -> Ordering
    ensures { result ≡ row_cmp a.now b.now }
{
    match b.upper_bound().cmp(&a.upper_bound()) {
        Ordering::Less => Ordering::Less,
        Ordering::Equal => a.item().cmp(b.item()),
        Ordering::Greater => Ordering::Greater,
    }
}

/// Returns the header, if it is wanted, and the lines of rows.
fn text_of(
    alloc: Global,
    layout: Layout,
    error: u64,
    total: u64,
    rows: &[Row<String>],
) -> Result<Vec<u8>, AllocError>
    ensures { IfOk result (λ text. text.items ≡ report_text layout error total rows.now) }
{
    let mut text = String::new(alloc);
    if layout.header {
        write_header(&mut text, layout.style, error, total)?;
    }
    match layout.style {
        Style::Plain => {
            write_plain(&mut text, layout.exact, rows)?;
            Ok(text.into_bytes())
        }
        Style::Escaped => {
            let mut bytes = text.into_bytes();
            append_texts(alloc, &mut bytes, layout.exact, rows)?;
            Ok(bytes)
        }
        Style::Json => {
            let mut bytes = text.into_bytes();
            append_rows(alloc, &mut bytes, layout.exact, rows)?;
            Ok(bytes)
        }
    }
}

/// Writes the line of the error and the total.
fn write_header(out: &mut String, style: Style, error: u64, total: u64) -> Result<(), AllocError>
    ensures { OnOk result (string_bytes out.new ≡ string_bytes out.old ++ header_in style error total) }
{
    match style {
        Style::Plain => write_plain_header(out, error, total),
        Style::Escaped => write_plain_header(out, error, total),
        Style::Json => write_json_header(out, error, total),
    }
}

/// Writes the line of the error and the total in words.
fn write_plain_header(out: &mut String, error: u64, total: u64) -> Result<(), AllocError>
    ensures { OnOk result (string_bytes out.new ≡ string_bytes out.old ++ header_in Plain error total) }
{
    writeln!(out, "# error {error} of {total}")?;
    Ok(())
}

/// Writes the line of the error and the total as a JSON object.
fn write_json_header(out: &mut String, error: u64, total: u64) -> Result<(), AllocError>
    ensures { OnOk result (string_bytes out.new ≡ string_bytes out.old ++ header_in Json error total) }
{
    writeln!(out, "{{\"error\":{error},\"total\":{total}}}")?;
    Ok(())
}

/// Writes a line for each row: its weight, or its bounds, and its item, separated by tabs.
fn write_plain(out: &mut String, exact: bool, rows: &[Row<String>]) -> Result<(), AllocError>
    ensures { OnOk result (string_bytes out.new ≡ string_bytes out.old ++ flat_map (row_line exact Plain) rows.now) }
{
    if exact {
        write_weights(out, rows)
    } else {
        write_rows(out, rows)
    }
}

/// Writes a line for each row: its lower bound, a tab and its item.
fn write_weights(out: &mut String, rows: &[Row<String>]) -> Result<(), AllocError>
    ensures { OnOk result (string_bytes out.new ≡ string_bytes out.old ++ flat_map (row_line true Plain) rows.now) }
{
    for row in rows {
        writeln!(out, "{}\t{}", row.lower_bound(), row.item())?;
    }
    Ok(())
}

/// Writes a line for each row: its lower bound, its upper bound and its item, separated by tabs.
fn write_rows(out: &mut String, rows: &[Row<String>]) -> Result<(), AllocError>
    ensures { OnOk result (string_bytes out.new ≡ string_bytes out.old ++ flat_map (row_line false Plain) rows.now) }
{
    for row in rows {
        writeln!(
            out,
            "{}\t{}\t{}",
            row.lower_bound(),
            row.upper_bound(),
            row.item()
        )?;
    }
    Ok(())
}

/// Appends a line for each row, whose item is escaped.
fn append_texts(
    alloc: Global,
    out: &mut Vec<u8>,
    exact: bool,
    rows: &[Row<String>],
) -> Result<(), AllocError>
    ensures { OnOk result (out.new.items ≡ out.old.items ++ flat_map (row_line exact Escaped) rows.now) }
{
    let mut numbers = String::new(alloc);
    for row in rows {
        append_text_row(out, &mut numbers, exact, row)?;
    }
    Ok(())
}

/// Appends the line of a row: its weight, or its bounds, and its escaped item, separated by tabs.
fn append_text_row(
    out: &mut Vec<u8>,
    numbers: &mut String,
    exact: bool,
    row: &Row<String>,
) -> Result<(), AllocError>
    ensures { OnOk result (out.new.items ≡ out.old.items ++ row_line exact Escaped row.now) }
{
    write_plain_numbers(numbers, exact, row)?;
    out.extend_from_slice(numbers.as_bytes())?;
    append_text(row.item().as_bytes(), out)?;
    out.push(b'\n')?;
    Ok(())
}

/// Writes the front of the line of a row, up to its item, in place of a text.
fn write_plain_numbers(out: &mut String, exact: bool, row: &Row<String>) -> Result<(), AllocError>
    ensures { OnOk result (string_bytes out.new ≡ plain_numbers exact row.now) }
{
    out.clear();
    if exact {
        write_plain_weight(out, row.lower_bound())
    } else {
        write_plain_bounds(out, row.lower_bound(), row.upper_bound())
    }
}

/// Writes a weight and a tab.
fn write_plain_weight(out: &mut String, weight: u64) -> Result<(), AllocError>
    ensures { OnOk result (string_bytes out.new ≡ string_bytes out.old ++ decimal weight ++ codes "\t") }
{
    write!(out, "{weight}\t")?;
    Ok(())
}

/// Writes two bounds, each with a tab after it.
fn write_plain_bounds(out: &mut String, lower: u64, upper: u64) -> Result<(), AllocError>
    ensures { OnOk result (string_bytes out.new ≡ string_bytes out.old
        ++ decimal lower ++ codes "\t" ++ decimal upper ++ codes "\t") }
{
    write!(out, "{lower}\t{upper}\t")?;
    Ok(())
}

/// Appends a JSON object for each row, in a line of its own.
fn append_rows(
    alloc: Global,
    out: &mut Vec<u8>,
    exact: bool,
    rows: &[Row<String>],
) -> Result<(), AllocError>
    ensures { OnOk result (out.new.items ≡ out.old.items ++ flat_map (row_line exact Json) rows.now) }
{
    let mut numbers = String::new(alloc);
    for row in rows {
        append_row(out, &mut numbers, exact, row)?;
    }
    Ok(())
}

/// Appends the JSON object of a row: its weight, or its bounds, and its item.
fn append_row(
    out: &mut Vec<u8>,
    numbers: &mut String,
    exact: bool,
    row: &Row<String>,
) -> Result<(), AllocError>
    ensures { OnOk result (out.new.items ≡ out.old.items ++ row_line exact Json row.now) }
{
    write_numbers(numbers, exact, row)?;
    out.extend_from_slice(numbers.as_bytes())?;
    append_escaped(row.item().as_bytes(), out)?;
    out.extend_from_slice(b"\"}\n".as_slice())?;
    Ok(())
}

/// Writes the front of the JSON object of a row, up to its item, in place of a text.
fn write_numbers(out: &mut String, exact: bool, row: &Row<String>) -> Result<(), AllocError>
    ensures { OnOk result (string_bytes out.new ≡ json_numbers exact row.now) }
{
    out.clear();
    if exact {
        write_weight(out, row.lower_bound())
    } else {
        write_bounds(out, row.lower_bound(), row.upper_bound())
    }
}

/// Writes the front of a JSON object with a weight.
fn write_weight(out: &mut String, weight: u64) -> Result<(), AllocError>
    ensures { OnOk result (string_bytes out.new ≡ string_bytes out.old
        ++ codes "{\"count\":" ++ decimal weight ++ codes ",\"item\":\"") }
{
    write!(out, "{{\"count\":{weight},\"item\":\"")?;
    Ok(())
}

/// Writes the front of a JSON object with bounds.
fn write_bounds(out: &mut String, lower: u64, upper: u64) -> Result<(), AllocError>
    ensures { OnOk result (string_bytes out.new ≡ string_bytes out.old
        ++ codes "{\"lower\":" ++ decimal lower ++ codes ",\"upper\":" ++ decimal upper ++ codes ",\"item\":\"") }
{
    write!(out, "{{\"lower\":{lower},\"upper\":{upper},\"item\":\"")?;
    Ok(())
}

/// Returns the first rows, at most `count`.
fn first_rows(rows: &[Row<String>], count: usize) -> &[Row<String>]
    ensures { result.now ≡ take (min count (length rows.now)) rows.now }
{
    if count < rows.len() {
        &rows[..count]
    } else {
        rows
    }
}
