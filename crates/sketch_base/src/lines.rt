//! The lines of a string.
ghost use Rattle.std.specs.Hash as fed;
ghost use Rattle.std.specs.Prelude.{◌≡◌, map};
ghost use Rattle.std.specs.Str.Lines as spec;
ghost use Rattle.sketch_base.specs.Hashes.{fed_bytes};

use crate::items::Items;
use crate::split::next_line;
use crate::strings::Strings;
use std::marker::Model;

/// The lines of a string.
///
/// A line ends at a line feed or at the end of the string. It has neither the line feed nor a carriage return before
/// it. An empty line is the empty string.
///
/// # Examples
///
/// ```
/// use sketch_base::{Items, Lines};
///
/// fn first_line(text: &str) -> &str {
///     Lines::new(text).next().unwrap_or("")
/// }
/// ```
#[derive(Drop)]
pub struct Lines<'a> {
    text: &'a str,
}

impl<'a> Model for Lines<'a> {
    ghost use Rattle.std.specs.Prelude.{List, ℕ};
    ghost use Rattle.std.specs.Str.Lines.{lines};

    ghost Value = { List (List ℕ) };

    ghost view = { λ s. lines s.text.now };
}

impl<'a> Lines<'a> {
    /// Creates the lines of a string. Does not allocate.
    #[inline(always)]
    pub fn new(text: &'a str) -> Self
        ensures { result ≡ spec.lines text.now }
    {
        Lines { text }
    }
}

impl<'a> Strings<'a> for Lines<'a> {
    ghost strings = { λ s. s };

    #[inline(always)]
    fn next_str(&mut self) -> Option<&'a str> {
        let (line, rest) = next_line(self.text)?;
        *self = Lines { text: rest };
        Some(line)
    }
}

impl<'a> Items for Lines<'a> {
    type Each = &'a str;

    ghost list = { map (fed_bytes fed.str) };

    #[inline(always)]
    fn next(&mut self) -> Option<&'a str> {
        self.next_str()
    }
}
