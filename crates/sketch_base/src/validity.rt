//! The valid rows of a column, by a bitmap.
ghost use Rattle.std.specs.Prelude.{◌≡◌, ◌≤◌, ◌↔◌, ◌⊎◌, true, false, [], ◌∷◌, drop, length, IfSome, IsSome, IsTrue, MatchOption};
ghost use Rattle.sketch_base.specs.Validity.{bits_of, valid};

use crate::items::Items;
use crate::rows::Rows;
use crate::strings::Strings;
use std::marker::Model;

/// The bits of a bitmap, one for each row of a column: a set bit says that the row is valid. Otherwise the row is null.
///
/// Bits go from the lowest to the highest of each byte, as in Arrow.
///
/// # Examples
///
/// ```
/// use sketch_base::Validity;
///
/// fn number_of_nulls(bitmap: &[u8]) -> u64 {
///     let mut rows = Validity::new(bitmap, 0);
///     let mut nulls: u64 = 0;
///     while let Some(is_valid) = rows.next() {
///         if !is_valid {
///             nulls = nulls.saturating_add(1);
///         }
///     }
///     nulls
/// }
/// ```
#[derive(Drop)]
pub struct Validity<'a> {
    /// The first bits, lowest first.
    byte: u8,
    /// The number of bits in `byte`.
    left: u8,
    /// The bytes of the bits after them.
    bytes: &'a [u8],
}

impl<'a> Model for Validity<'a> {
    ghost use Rattle.std.specs.Prelude.{Bool, List, ◌++◌};
    ghost use Rattle.sketch_base.specs.Validity.{bits_of, low_bits};

    ghost Value = { List Bool };

    ghost view = { λ s. low_bits s.left s.byte ++ bits_of s.bytes.now };
}

impl<'a> Validity<'a> {
    /// Creates the bits of a bitmap from bit `first_bit` on. There are none if the bitmap ends before. Does not allocate.
    pub fn new(bitmap: &'a [u8], first_bit: usize) -> Self
        ensures { result ≡ drop first_bit (bits_of bitmap.now) }
    {
        let skipped = first_bit / 8;
        if skipped >= bitmap.len() {
            return Validity {
                byte: 0,
                left: 0,
                bytes: &bitmap[..0],
            };
        }
        let mut bits = Validity {
            byte: bitmap[skipped],
            left: 8,
            bytes: &bitmap[skipped + 1..],
        };
        bits.skip(first_bit % 8);
        bits
    }

    /// Returns the same bits. Does not allocate.
    #[inline(always)]
    pub fn copied(&self) -> Self
        ensures { result ≡ self.now }
    {
        Validity {
            byte: self.byte,
            left: self.left,
            bytes: self.bytes,
        }
    }

    /// Leaves out bits of the first byte.
    fn skip(&mut self, count: usize)
        ensures { self.new ≡ drop count self.old }
    {
        'each: for _ in 0..count {
            let _ = self.next();
        }
    }

    /// Takes the first bit, and returns whether it is set. Returns `None` if there is none.
    #[inline(always)]
    pub fn next(&mut self) -> Option<bool>
        ensures { MatchOption result ((self.old ≡ []) × (self.new ≡ [])) (λ bit. self.old ≡ bit ∷ self.new) }
    {
        if self.left == 0 {
            let (byte, bytes) = self.bytes.split_first()?;
            self.byte = *byte;
            self.left = 8;
            self.bytes = bytes;
        }
        let bit = self.byte % 2 == 1;
        self.byte /= 2;
        self.left -= 1;
        Some(bit)
    }

    /// Takes the first bit, and returns whether there is one and it is set.
    #[inline(always)]
    pub fn next_is_set(&mut self) -> bool
        ensures set { result ≡ true → self.old ≡ true ∷ self.new }
        ensures unset { result ≡ false → (self.old ≡ false ∷ self.new) ⊎ ((self.old ≡ []) × (self.new ≡ [])) }
    {
        match self.next() {
            Some(bit) => bit,
            None => false,
        }
    }

    /// Returns whether there are at least `count` bits.
    pub fn has_bits(&self, count: usize) -> bool
        ensures { IsTrue result ↔ (count ≤ length self.now) }
    {
        let behind = count.saturating_sub(self.left as usize);
        let bytes = self.bytes.len();
        behind / 8 < bytes || behind / 8 == bytes && behind % 8 == 0
    }
}

/// The valid items of a sequence: those whose bits are set.
///
/// Each row has a bit: [`new`](Self::new) checks the number of bits, and nothing else outside of this crate creates one.
///
/// # Examples
///
/// ```
/// use sketch_base::{Items, ValidItems, Validity};
///
/// fn first_valid(numbers: &[u64], bitmap: &[u8]) -> Option<u64> {
///     let mut valid = ValidItems::new(numbers, Validity::new(bitmap, 0))?;
///     valid.next().copied()
/// }
/// ```
#[derive(Drop)]
#[non_exhaustive]
pub struct ValidItems<'a, I: Drop> {
    /// The rows that are left.
    pub items: I,
    /// The bits of these rows. An `impl` of another trait takes a bit with each row.
    pub validity: Validity<'a>,
}

impl<'a, I: Rows> ValidItems<'a, I> {
    /// Creates the valid items of a sequence. Returns `None` if there are fewer bits than rows. Does not allocate.
    ///
    /// Bits after those of the rows have no effect.
    pub fn new(items: I, validity: Validity<'a>) -> Option<Self>
        ensures valid { IfSome result (λ valid. (valid.items ≡ items) × (valid.validity ≡ validity.entry)) }
        ensures exact { IsSome result ↔ (I.rows items ≤ length validity.entry) }
    {
        if !validity.has_bits(items.num_rows()) {
            return None;
        }
        Some(ValidItems { items, validity })
    }
}

impl<'a, I: Items> Items for ValidItems<'a, I> {
    type Each = I::Each;

    ghost list = { λ s. valid s.validity (I.list s.items) };

    #[inline(always)]
    fn next(&mut self) -> Option<I::Each> {
        'each: loop {
            let item = self.items.next()?;
            if self.validity.next_is_set() {
                return Some(item);
            }
        }
    }
}

impl<'a, 's, S: Strings<'s>> Strings<'s> for ValidItems<'a, S> {
    ghost strings = { λ s. valid s.validity (S.strings s.items) };

    #[inline(always)]
    fn next_str(&mut self) -> Option<&'s str> {
        'each: loop {
            let string = self.items.next_str()?;
            if self.validity.next_is_set() {
                return Some(string);
            }
        }
    }
}
