//! Valid rows.
ghost use Rattle.sketch_base.specs.Validity.{valid};

use sketch_base::{Items, Validity};
use sketch_countmin::{CountMinItems, CountMinValue, RowItem};
use sketch_frequencies::Keys;
use std::hash::Hash;

/// Rows whose bits are set. A row without a bit is left out.
///
/// It takes rows of each kind, also words and lines, whose number is not known before they are read.
#[derive(Drop)]
pub(crate) struct RowsWithBits<'a, I: Drop> {
    pub(crate) items: I,
    pub(crate) validity: Validity<'a>,
}

impl<'a, I: Items> Items for RowsWithBits<'a, I> {
    type Each = I::Each;

    ghost list = { λ s. valid s.validity (I.list s.items) };

    #[inline(always)]
    fn next(&mut self) -> Option<I::Each> {
        'each: loop {
            let item = self.items.next()?;
            if self.validity.next_is_set() {
                return Some(item);
            }
        }
    }
}

impl<'a, T: Eq + Hash, K: Keys<T>> Keys<T> for RowsWithBits<'a, K> {
    type Key = K::Key;

    ghost names = { λ s. valid s.validity (K.names s.items) };

    #[inline(always)]
    fn next_key(&mut self) -> Option<K::Key> {
        'each: loop {
            let key = self.items.next_key()?;
            if self.validity.next_is_set() {
                return Some(key);
            }
        }
    }
}

impl<'a, T: CountMinValue, I: Items<Each: RowItem<T>>> CountMinItems<T> for RowsWithBits<'a, I> {}
