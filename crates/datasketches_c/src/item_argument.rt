//! One item as an argument of calls: a number, a string, or the bytes that its hash feeds.
ghost use Rattle.std.specs.Prelude.{◌≡◌};
ghost use Rattle.datasketches_c.specs.ItemArguments.{GivesItem, item_kind_numbered};

use crate::status_code::{BAD_ARGUMENT, refusal_number};
use any_sketch::Item;
use sketch_base::{Fault, from_utf8};

/// A kind of one item.
#[derive(Clone, Copy)]
pub enum ItemKind {
    U64,
    I64,
    String,
    Fed,
}

/// Returns the kind of a number: `DS_ITEM_U64` and so on in C. Returns `None` if it is none of them.
fn item_kind_numbered(number: i32) -> Option<ItemKind>
    ensures { result ≡ item_kind_numbered number }
{
    match number {
        0 => Some(ItemKind::U64),
        1 => Some(ItemKind::I64),
        2 => Some(ItemKind::String),
        3 => Some(ItemKind::Fed),
        _ => None,
    }
}

/// One item of a kind, where it is: `ds_item` of C. The member of another kind is 0 or empty.
#[repr(C)]
pub struct ItemArgument<'a> {
    pub kind: i32,
    /// The number. Of a number with a sign, its two's complement.
    pub number: u64,
    /// The bytes of a string, or those that the item's hash feeds.
    pub bytes: &'a [u8],
}

/// Returns the item of an argument, or the number of its error: `BAD_ARGUMENT` or `InvalidUtf8`.
#[inline(always)]
pub(crate) fn given_item<'a>(item: &ItemArgument<'a>) -> Result<Item<'a>, i32>
    ensures { GivesItem (item_kind_numbered item.now.kind) item.now result }
{
    match item_kind_numbered(item.kind) {
        Some(ItemKind::U64) => Ok(Item::U64(item.number)),
        Some(ItemKind::I64) => Ok(Item::I64(item.number.cast_signed())),
        Some(ItemKind::String) => match from_utf8(item.bytes) {
            Ok(text) => Ok(Item::Text(text)),
            Err(_) => Err(refusal_number(Fault::InvalidUtf8)),
        },
        Some(ItemKind::Fed) => Ok(Item::Fed(item.bytes)),
        None => Err(BAD_ARGUMENT),
    }
}

/// Does `$work` on the item of an argument, and gives the result of `$work`. Gives the argument's error if there is one.
macro_rules! on_given_item {
    ($argument:expr, $item:ident => $work:expr) => {
        match $crate::item_argument::given_item($argument) {
            Ok($item) => $work,
            Err(refusal) => refusal,
        }
    };
}

pub(crate) use on_given_item;
