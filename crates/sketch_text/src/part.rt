//! The parts of a line.
ghost use Rattle.std.specs.Prelude.{◌≡◌, ◌∷◌, [], MatchOption};
ghost use Rattle.sketch_text.specs.Records.{part_of};

use crate::field::Field;
use crate::fields::{nth_field, nth_field_of_bytes};
use sketch_base::{Separator, nth_word, nth_word_of_bytes};

/// A part of a line.
#[derive(Clone, Copy)]
pub enum Part {
    /// The whole line.
    Line,
    /// The word of this index, counted from 0, between ASCII white space.
    Word(u32),
    /// A field between delimiters.
    Field(Field),
}

/// Returns a part of a line, or `None` if the line has too few words or fields. Does not allocate.
#[inline(always)]
pub fn part_of(part: Part, line: &str) -> Option<&str>
    ensures { MatchOption result (part_of part line.now ≡ []) (λ item. part_of part line.now ≡ item.now ∷ []) }
{
    match part {
        Part::Line => Some(line),
        Part::Word(index) => nth_word(line, Separator::AsciiWhitespace, index),
        Part::Field(field) => nth_field(line, field.delimiter, field.index),
    }
}

/// Returns a part of a line of bytes, which need not be UTF-8, or `None` if the line has too few words or fields. Does not allocate.
#[inline(always)]
pub fn raw_part_of(part: Part, line: &[u8]) -> Option<&[u8]>
    ensures { MatchOption result (part_of part line.now ≡ []) (λ item. part_of part line.now ≡ item.now ∷ []) }
{
    match part {
        Part::Line => Some(line),
        Part::Word(index) => nth_word_of_bytes(line, Separator::AsciiWhitespace, index),
        Part::Field(field) => nth_field_of_bytes(line, field.delimiter, field.index),
    }
}
