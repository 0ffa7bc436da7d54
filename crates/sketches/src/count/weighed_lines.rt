//! Adds the items of lines with the weights that stand in the lines.
ghost use Rattle.std.specs.Prelude.{◌≡◌, [], ◌∷◌, IfErr, OnOk};
ghost use Rattle.std.specs.Str.Lines.{lines};
ghost use Rattle.std.specs.Str.Lossy.{utf8_lossy};
ghost use Rattle.sketches.specs.Added.{AddsLine, AddsLines};
ghost use Rattle.sketches.specs.Failures.{FailsLine, FailsLines, IsBadWeight};
ghost use Rattle.sketches.specs.LineNumbers.{lines_counted};
ghost use Rattle.sketches.specs.Skipped.{skipped_in, skips, skips_line};
ghost use Rattle.sketches.specs.Utf8Lines.{GrowsBy, not_utf8_in};
ghost use Rattle.sketches.specs.Weighed.{line_weight};
ghost use Rattle.sketches.specs.Weights.{weight_in};

use crate::failure::{BadWeight, Failure};
use crate::item::selection::Selection;
use crate::item::utf8_lines::str_of;
use crate::item::weighing::{WeighedPart, Weighing};
use crate::item::weights::{taken_weight, weight_of};
use sketch_frequencies::FrequentItemsSketch;
use sketch_text::records::{Part, next_raw_line, part_of, raw_part_of};
use std::alloc::{AllocError, Global};

/// The maximum number of characters of a bad weight in a message.
const SHOWN: usize = 40;

/// Adds the item of each line with the weight of the line. Increments `count` for each line, `not_utf8` for each whose item is not UTF-8, and
/// `bad` for each that has an item and no weight.
///
/// # Errors
///
/// Returns `BadWeight` at the first line with an item and without a weight, if this is an error. It has the number of
/// this line, if `count` lines come before `bytes`. Returns `TooManyItems` if the total would exceed `u64::MAX`, and `Memory` if an
/// allocation fails.
#[inline(never)]
pub fn add_weighed_lines(
    alloc: Global,
    sketch: &mut FrequentItemsSketch<String>,
    part: WeighedPart,
    bytes: &[u8],
    count: &mut u64,
    not_utf8: &mut u64,
    bad: &mut u64,
) -> Result<(), Failure>
    ensures added { OnOk result (AddsLines (Weighing.Field part) sketch.old bytes.now sketch.new) }
    ensures failed { IfErr result (FailsLines (Weighing.Field part) sketch.old count.old bytes.now) }
    ensures counted { OnOk result (GrowsBy not_utf8.old (not_utf8_in (Weighing.Field part) (lines bytes.now)) not_utf8.new) }
    ensures skipped { OnOk result (GrowsBy bad.old (skipped_in (Weighing.Field part) (lines bytes.now)) bad.new) }
    ensures numbered { OnOk result (GrowsBy count.old (lines_counted (Weighing.Field part) (lines bytes.now)) count.new) }
{
    let mut rest = bytes;
    'each: loop {
        let Some((line, after)) = next_raw_line(rest) else {
            return Ok(());
        };
        *count = count.saturating_add(1);
        add_raw_line(alloc, sketch, part, line, *count, not_utf8, bad)?;
        rest = after;
    }
}

/// Adds the item of a line of bytes with the weight of the line. Increments `not_utf8` if its item is not UTF-8.
#[inline(always)]
fn add_raw_line(
    alloc: Global,
    sketch: &mut FrequentItemsSketch<String>,
    part: WeighedPart,
    line: &[u8],
    number: u64,
    not_utf8: &mut u64,
    bad: &mut u64,
) -> Result<(), Failure>
    ensures added { OnOk result (AddsLine (Weighing.Field part) sketch.old line.now sketch.new) }
    ensures failed { IfErr result (FailsLine (Weighing.Field part) sketch.old number line.now) }
    ensures counted { GrowsBy not_utf8.old (not_utf8_in (Weighing.Field part) (line.now ∷ [])) not_utf8.new }
    ensures skipped { OnOk result (GrowsBy bad.old (skips_line part line.now) bad.new) }
{
    match str_of(Selection::Part(part.item), line, not_utf8) {
        Some(text) => add_line(alloc, sketch, part, line, text, number, bad),
        None => {
            let text = String::from_utf8_lossy(alloc, line)?;
            add_line(alloc, sketch, part, line, text.as_str(), number, bad)
        }
    }
}

/// Adds the item of a line with the weight of the line. The line is given as its bytes and as a string.
#[inline(always)]
fn add_line(
    alloc: Global,
    sketch: &mut FrequentItemsSketch<String>,
    part: WeighedPart,
    line: &[u8],
    text: &str,
    number: u64,
    bad: &mut u64,
) -> Result<(), Failure>
    requires { text.now ≡ utf8_lossy line.now }
    ensures added { OnOk result (AddsLine (Weighing.Field part) sketch.old line.now sketch.new) }
    ensures failed { IfErr result (FailsLine (Weighing.Field part) sketch.old number line.now) }
    ensures skipped { OnOk result (GrowsBy bad.old (skips_line part line.now) bad.new) }
{
    let Some(item) = part_of(part.item, text) else {
        return Ok(());
    };
    let Some(weight) = line_weight(part, line, bad) else {
        return Err(bad_weight(alloc, part.weight, line, number));
    };
    sketch.update_item_with_count(item, weight)?;
    Ok(())
}

/// Returns the weight that counts of a line that has an item, or `None` if it has none. Increments `bad` if it has none and this is no error.
#[inline(always)]
fn line_weight(part: WeighedPart, line: &[u8], bad: &mut u64) -> Option<u64>
    ensures weight { result ≡ line_weight part line.now }
    ensures skipped { GrowsBy bad.old (skips part.unweighed (weight_in part.weight line.now)) bad.new }
{
    match weight_of(part.weight, line) {
        Some(weight) => Some(weight),
        None => taken_weight(part.unweighed, bad),
    }
}

/// Returns the error of a line that has no weight in a part.
pub fn bad_weight(alloc: Global, part: Part, line: &[u8], number: u64) -> Failure
    ensures { IsBadWeight number result }
{
    bad_field(
        alloc,
        raw_part_of(part, line).unwrap_or(b"".as_slice()),
        number,
    )
}

/// Returns the error of a line whose weight should be this field.
pub fn bad_field(alloc: Global, field: &[u8], number: u64) -> Failure
    ensures { IsBadWeight number result }
{
    match shown(alloc, field) {
        Ok(text) => Failure::BadWeight(BadWeight { line: number, text }),
        Err(_) => Failure::Memory,
    }
}

/// Returns the first characters of a field, with U+FFFD for a control character and for bytes that are not UTF-8.
fn shown(alloc: Global, field: &[u8]) -> Result<String, AllocError> {
    let cut = field.get(..4 * SHOWN).unwrap_or(field);
    let whole = String::from_utf8_lossy(alloc, cut)?;
    let mut text = String::new(alloc);
    for c in whole.chars().take(SHOWN) {
        text.push(if c.is_control() { '\u{FFFD}' } else { c })?;
    }
    Ok(text)
}
