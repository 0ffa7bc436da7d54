//! Many items of one type, as an argument of calls.
ghost use Rattle.std.specs.Prelude.{◌≡◌, ◌<◌, ◌^◌, length};
ghost use Rattle.any_sketch.specs.ManyItems.{num_rows, rows_in};

use sketch_base::{ByteStrings, FedItems, Lines, OffsetStrings, Strings, Validity, Words};

/// Rows of one type: the items of a column, some of which may be null.
#[derive(Drop)]
pub enum AnyRows<'a> {
    /// Numbers.
    U64(&'a [u64]),
    /// Numbers with a sign.
    I64(&'a [i64]),
    /// Strings in one buffer, with offsets of 64 bits.
    Offsets(OffsetStrings<'a, &'a [u64]>),
    /// Strings in one buffer, with offsets of 32 bits.
    Offsets32(OffsetStrings<'a, &'a [u32]>),
    /// Strings, each with its own bytes.
    Strings(ByteStrings<'a>),
    /// The words of a string.
    Words(&'a str),
    /// The lines of a string.
    Lines(&'a str),
    /// Items given by the bytes that their hash feeds.
    Fed(FedItems<'a>),
}

impl<'a> AnyRows<'a> {
    /// Returns the number of rows. Words and lines are counted, which reads the string.
    pub fn num_rows(&self) -> usize
        ensures { result ≡ num_rows (rows_in self.now) }
    {
        match self {
            AnyRows::U64(numbers) => numbers.len(),
            AnyRows::I64(numbers) => numbers.len(),
            AnyRows::Offsets(strings) => strings.len(),
            AnyRows::Offsets32(strings) => strings.len(),
            AnyRows::Strings(strings) => strings.len(),
            AnyRows::Words(text) => count_strings(Words::new(text)),
            AnyRows::Lines(text) => count_strings(Lines::new(text)),
            AnyRows::Fed(items) => items.0.len(),
        }
    }
}

/// Many items of one type: the valid rows of a column.
#[derive(Drop)]
pub struct AnyItems<'a> {
    /// The rows, the null ones too.
    pub rows: AnyRows<'a>,
    /// A bit for each row, which is set if the row is valid. Without bits all are valid. A row without a bit is null.
    pub validity: Option<Validity<'a>>,
}

/// Returns the number of strings.
fn count_strings<'a, S: Strings<'a>>(strings: S) -> usize
    requires { length (S.strings strings) < 2 ^ 64 }
    ensures { result ≡ length (S.strings strings) }
{
    let mut strings = strings;
    let mut count = 0;
    'each: while let Some(_) = strings.next_str() {
        count += 1;
    }
    count
}

/// Does `$work` on the valid items of a sequence of rows, and gives the result of `$work`.
macro_rules! on_valid {
    ($rows:expr, $validity:expr, $sequence:ident => $work:expr) => {
        match $validity {
            None => {
                let $sequence = $rows;
                $work
            }
            Some(validity) => {
                let $sequence = $crate::rows_with_bits::RowsWithBits {
                    items: $rows,
                    validity,
                };
                $work
            }
        }
    };
}

pub(crate) use on_valid;

/// Does `$work` on the sequence of strings, and gives the result of `$work`. Gives `$other` if the items are numbers.
macro_rules! on_strings {
    ($items:expr, $strings:ident => $work:expr, $other:expr) => {{
        let $crate::many_items::AnyItems { rows, validity } = $items;
        match rows {
            $crate::many_items::AnyRows::Offsets(rows) => {
                $crate::many_items::on_valid!(rows, validity, $strings => $work)
            }
            $crate::many_items::AnyRows::Offsets32(rows) => {
                $crate::many_items::on_valid!(rows, validity, $strings => $work)
            }
            $crate::many_items::AnyRows::Strings(rows) => {
                $crate::many_items::on_valid!(rows, validity, $strings => $work)
            }
            $crate::many_items::AnyRows::Words(text) => {
                let rows = sketch_base::Words::new(text);
                $crate::many_items::on_valid!(rows, validity, $strings => $work)
            }
            $crate::many_items::AnyRows::Lines(text) => {
                let rows = sketch_base::Lines::new(text);
                $crate::many_items::on_valid!(rows, validity, $strings => $work)
            }
            _ => $other,
        }
    }};
}

pub(crate) use on_strings;

/// Does `$work` on the sequence of items, and gives the result of `$work`.
macro_rules! on_items {
    ($items:expr, $sequence:ident => $work:expr) => {{
        let $crate::many_items::AnyItems { rows, validity } = $items;
        match rows {
            $crate::many_items::AnyRows::U64(rows) => {
                $crate::many_items::on_valid!(rows, validity, $sequence => $work)
            }
            $crate::many_items::AnyRows::I64(rows) => {
                $crate::many_items::on_valid!(rows, validity, $sequence => $work)
            }
            $crate::many_items::AnyRows::Offsets(rows) => {
                $crate::many_items::on_valid!(rows, validity, $sequence => $work)
            }
            $crate::many_items::AnyRows::Offsets32(rows) => {
                $crate::many_items::on_valid!(rows, validity, $sequence => $work)
            }
            $crate::many_items::AnyRows::Strings(rows) => {
                $crate::many_items::on_valid!(rows, validity, $sequence => $work)
            }
            $crate::many_items::AnyRows::Words(text) => {
                let rows = sketch_base::Words::new(text);
                $crate::many_items::on_valid!(rows, validity, $sequence => $work)
            }
            $crate::many_items::AnyRows::Lines(text) => {
                let rows = sketch_base::Lines::new(text);
                $crate::many_items::on_valid!(rows, validity, $sequence => $work)
            }
            $crate::many_items::AnyRows::Fed(rows) => {
                $crate::many_items::on_valid!(rows, validity, $sequence => $work)
            }
        }
    }};
}

pub(crate) use on_items;
