//! Counts the records whose items are not UTF-8.
ghost use Rattle.std.specs.Prelude.{◌≡◌, [], ◌∷◌, MatchOption};
ghost use Rattle.std.specs.Str.{IsUtf8};
ghost use Rattle.sketches.specs.Utf8Lines.{GrowsBy, not_utf8_in, not_utf8_of};

use crate::item::selection::Selection;
use crate::item::weighing::Weighing;
use sketch_base::from_utf8;
use sketch_text::records::raw_part_of;

/// Returns the string of a line. If the line is not UTF-8, returns `None`, and increments `not_utf8`, up to `u64::MAX`, if its items are
/// not UTF-8.
#[inline(always)]
pub fn str_of<'a>(selection: Selection, line: &'a [u8], not_utf8: &mut u64) -> Option<&'a str>
    ensures text { MatchOption result (¬ (IsUtf8 line.now)) (λ text. (text.now ≡ line.now) × IsUtf8 line.now) }
    ensures counted { GrowsBy not_utf8.old (not_utf8_in (Weighing.Once selection) (line.now ∷ [])) not_utf8.new }
{
    match from_utf8(line) {
        Ok(text) => Some(text),
        Err(_) => {
            count_line(selection, line, not_utf8);
            None
        }
    }
}

/// Increments `not_utf8`, up to `u64::MAX`, if the items of a line are made of bytes that are not UTF-8.
fn count_line(selection: Selection, line: &[u8], not_utf8: &mut u64)
    ensures { GrowsBy not_utf8.old (not_utf8_in (Weighing.Once selection) (line.now ∷ [])) not_utf8.new }
{
    match selection {
        Selection::Words => count_item(line, not_utf8),
        Selection::Part(part) => {
            if let Some(item) = raw_part_of(part, line) {
                count_item(item, not_utf8);
            }
        }
    }
}

/// Increments `not_utf8`, up to `u64::MAX`, if the bytes of an item are not UTF-8.
#[inline(always)]
pub fn count_item(item: &[u8], not_utf8: &mut u64)
    ensures { GrowsBy not_utf8.old (not_utf8_of item.now) not_utf8.new }
{
    match from_utf8(item) {
        Ok(_) => {}
        Err(_) => *not_utf8 = not_utf8.saturating_add(1),
    }
}
