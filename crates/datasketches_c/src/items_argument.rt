//! Many items as an argument of calls: numbers, strings in one of several forms, or the bytes that a hash feeds.
ghost use Rattle.std.specs.Prelude.{◌≡◌, ◌↔◌, IsTrue};
ghost use Rattle.any_sketch.specs.ManyItems.{num_rows};
ghost use Rattle.datasketches_c.specs.ItemsArguments.{GivesItems, GivesRows, HasBits, OnItems, bits_from, items_kind_numbered, rows_with_bits};
ghost use Rattle.datasketches_c.specs.Numbers.{ok};

use crate::status_code::{BAD_ARGUMENT, OK, refusal_number};
use any_sketch::{AnyItems, AnyRows};
use sketch_base::{ByteStrings, Fault, FedItems, OffsetStrings, Validity, from_utf8};

/// A kind of many items.
#[derive(Clone, Copy)]
pub enum ItemsKind {
    U64,
    I64,
    Offsets,
    Offsets32,
    Strings,
    Words,
    Lines,
    Fed,
}

/// Returns the kind of a number: `DS_ITEMS_U64` and so on in C. Returns `None` if it is none of them.
fn items_kind_numbered(number: i32) -> Option<ItemsKind>
    ensures { result ≡ items_kind_numbered number }
{
    match number {
        0 => Some(ItemsKind::U64),
        1 => Some(ItemsKind::I64),
        2 => Some(ItemsKind::Offsets),
        3 => Some(ItemsKind::Offsets32),
        4 => Some(ItemsKind::Strings),
        5 => Some(ItemsKind::Words),
        6 => Some(ItemsKind::Lines),
        7 => Some(ItemsKind::Fed),
        _ => None,
    }
}

/// Many items of one kind, where they are: `ds_items` of C. The other slices are empty.
#[repr(C)]
pub struct ItemsArgument<'a> {
    pub kind: i32,
    pub u64s: &'a [u64],
    pub i64s: &'a [i64],
    /// The bytes of strings with offsets, or the string of words or lines.
    pub bytes: &'a [u8],
    pub offsets: &'a [u64],
    pub offsets32: &'a [u32],
    pub strings: &'a [&'a [u8]],
    /// The bytes of items as a hash feeds them. They need not be UTF-8.
    pub fed: &'a [&'a [u8]],
    /// A bit for each row, lowest first in each byte: a row is valid if its bit is set. All are valid if the bitmap is empty.
    pub validity: &'a [u8],
    /// The bit of the first row.
    pub first_bit: usize,
}

/// Returns the number of rows that a bitmap has bits for, or `None` if the kind may have no bitmap.
fn rows_with_bits(kind: ItemsKind, items: &ItemsArgument<'_>) -> Option<usize>
    ensures { result ≡ rows_with_bits kind items.now }
{
    match kind {
        ItemsKind::U64 => Some(items.u64s.len()),
        ItemsKind::I64 => Some(items.i64s.len()),
        ItemsKind::Offsets => Some(items.offsets.len().saturating_sub(1)),
        ItemsKind::Offsets32 => Some(items.offsets32.len().saturating_sub(1)),
        ItemsKind::Strings => Some(items.strings.len()),
        ItemsKind::Fed => Some(items.fed.len()),
        _ => None,
    }
}

/// Returns the bits of the rows, or `None` if there is no bitmap.
fn bits_from<'a>(bitmap: &'a [u8], first_bit: usize) -> Option<Validity<'a>>
    ensures { result ≡ bits_from bitmap.now first_bit }
{
    if bitmap.is_empty() {
        return None;
    }
    Some(Validity::new(bitmap, first_bit))
}

/// Returns whether there are bits for `rows` rows, or no bitmap.
fn has_bits(validity: &Option<Validity<'_>>, rows: Option<usize>) -> bool
    ensures { IsTrue result ↔ HasBits rows validity.now }
{
    match validity {
        None => true,
        Some(bits) => match rows {
            None => false,
            Some(count) => bits.has_bits(count),
        },
    }
}

/// Returns the items of an argument, or the number of its first error: `BAD_ARGUMENT`, `BadOffsets` or `InvalidUtf8`.
pub(crate) fn given_items<'a>(items: &ItemsArgument<'a>) -> Result<AnyItems<'a>, i32>
    ensures { GivesItems (items_kind_numbered items.now.kind) items.now result }
{
    let Some(kind) = items_kind_numbered(items.kind) else {
        return Err(BAD_ARGUMENT);
    };
    let validity = bits_from(items.validity, items.first_bit);
    if !has_bits(&validity, rows_with_bits(kind, items)) {
        return Err(BAD_ARGUMENT);
    }
    match given_rows(kind, items) {
        Ok(rows) => Ok(AnyItems { rows, validity }),
        Err(refusal) => Err(refusal),
    }
}

/// Returns the rows of an argument, or the number of their first error: `BadOffsets` or `InvalidUtf8`.
fn given_rows<'a>(kind: ItemsKind, items: &ItemsArgument<'a>) -> Result<AnyRows<'a>, i32>
    ensures { GivesRows kind items.now result }
{
    match kind {
        ItemsKind::U64 => Ok(AnyRows::U64(items.u64s)),
        ItemsKind::I64 => Ok(AnyRows::I64(items.i64s)),
        ItemsKind::Offsets => match OffsetStrings::new(items.bytes, items.offsets) {
            Ok(strings) => Ok(AnyRows::Offsets(strings)),
            Err(error) => Err(refusal_number(error.fault())),
        },
        ItemsKind::Offsets32 => match OffsetStrings::new(items.bytes, items.offsets32) {
            Ok(strings) => Ok(AnyRows::Offsets32(strings)),
            Err(error) => Err(refusal_number(error.fault())),
        },
        ItemsKind::Strings => match ByteStrings::new(items.strings) {
            Ok(strings) => Ok(AnyRows::Strings(strings)),
            Err(error) => Err(refusal_number(error.fault())),
        },
        ItemsKind::Words => match from_utf8(items.bytes) {
            Ok(text) => Ok(AnyRows::Words(text)),
            Err(_) => Err(refusal_number(Fault::InvalidUtf8)),
        },
        ItemsKind::Lines => match from_utf8(items.bytes) {
            Ok(text) => Ok(AnyRows::Lines(text)),
            Err(_) => Err(refusal_number(Fault::InvalidUtf8)),
        },
        ItemsKind::Fed => Ok(AnyRows::Fed(FedItems(items.fed))),
    }
}

/// Does `$work` on the items of an argument, and gives the result of `$work`. Gives the argument's first error if there is one.
macro_rules! on_given {
    ($argument:expr, $items:ident => $work:expr) => {
        match $crate::items_argument::given_items($argument) {
            Ok($items) => $work,
            Err(refusal) => refusal,
        }
    };
}

pub(crate) use on_given;

/// Writes the number of items to `count`, those of null rows included. Words and lines are counted.
///
/// Returns the first of these errors, and then changes nothing:
///
/// - `BAD_ARGUMENT` if the kind of the items is not known, the bitmap has fewer bits than there are rows, or words or lines have a
///   bitmap.
/// - `BadOffsets` if there is no offset, an offset is below the one before it, or an offset exceeds the number of bytes.
/// - `InvalidUtf8` if a string is not UTF-8.
#[unsafe(no_mangle)]
pub extern "C" fn ds_num_items(items: &ItemsArgument<'_>, count: &mut usize) -> i32
    ensures { OnItems items.now result (count.new ≡ count.old) (λ given.
        (result ≡ ok) × (count.new ≡ num_rows given.rows)) }
{
    on_given!(items, given => {
        *count = given.rows.num_rows();
        OK
    })
}
