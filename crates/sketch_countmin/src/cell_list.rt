//! The cells that an estimate reads.
ghost use Rattle.std.specs.Prelude.{◌≡◌, ◌+◌, ◌<◌, ◌≤◌, List, length, map, ℤ, pos, unsigned_abs};
ghost use Rattle.sketch_countmin.specs.Cells.{cell_in};
ghost use Rattle.sketch_countmin.specs.Image.{number_at};
ghost use Rattle.sketch_countmin.specs.View.{nearest, cells_of_bytes};

use crate::count_min_value::CountMinValue;
use sketch_base::image::u64_at;
use std::marker::Model;

/// Cells in memory or in the bytes of an image, row by row.
pub trait CellList<T: CountMinValue> {
    // The integers of the cells.
    ghost list: { Self → List ℤ };

    /// Returns the cell at an index.
    fn cell(&self, index: usize) -> T
        requires { index < length (list self.now) }
        ensures { T.number result ≡ cell_in (list self.now) index };
}

impl<'a, T: CountMinValue> CellList<T> for &'a [T] {
    ghost list = { λ cells. map T.number cells.now };

    #[inline(always)]
    fn cell(&self, index: usize) -> T {
        self[index]
    }
}

/// The cells in the bytes of an image with this total, which need not be aligned. A cell that the checks of an image
/// would reject is read as the nearest that they accept.
#[derive(Drop)]
pub struct ByteCells<'a, T: CountMinValue> {
    bytes: &'a [u8],
    total: T,
}

impl<'a, T: CountMinValue> Model for ByteCells<'a, T> {
    ghost use Rattle.std.specs.Prelude.{◌≡◌, List, ℤ, pos, unsigned_abs};
    ghost use Rattle.sketch_countmin.specs.View.{cells_of_bytes};

    ghost Value = { List ℤ };

    ghost view = { λ c. cells_of_bytes T.least (unsigned_abs (T.number c.total)) c.bytes.now };

    ghost invariant = { λ c. T.number c.total ≡ pos (unsigned_abs (T.number c.total)) };
}

impl<'a, T: CountMinValue> ByteCells<'a, T> {
    /// Creates the cells in these bytes.
    #[inline(always)]
    pub fn new(bytes: &'a [u8], total: T) -> Self
        requires { T.number total ≡ pos (unsigned_abs (T.number total)) }
        ensures { result ≡ cells_of_bytes T.least (unsigned_abs (T.number total)) bytes.now }
    {
        ByteCells { bytes, total }
    }
}

impl<'a, T: CountMinValue> CellList<T> for ByteCells<'a, T> {
    ghost list = { λ cells. cells };

    #[inline(always)]
    fn cell(&self, index: usize) -> T {
        nearest_value(number_of::<T>(self.bytes, 8 * index), self.total)
    }
}

/// Returns the number of the eight bytes at an offset. It is signed if the type has negative numbers.
#[tactic(auto, unfolding(crate::specs::Image::number_at, sketch_base::specs::Fields::le_at))]
#[inline(always)]
fn number_of<T: CountMinValue>(bytes: &[u8], offset: usize) -> i128
    requires { offset + 8 ≤ length bytes.now }
    ensures { result ≡ number_at T.least bytes.now offset }
{
    let word = u64_at(bytes, offset);
    if T::MIN.to_number() < 0 {
        word.cast_signed() as i128
    } else {
        word as i128
    }
}

/// Returns the value nearest to a number that a cell may have beside this total.
#[inline(always)]
fn nearest_value<T: CountMinValue>(number: i128, total: T) -> T
    requires { T.number total ≡ pos (unsigned_abs (T.number total)) }
    ensures { T.number result ≡ nearest T.least (unsigned_abs (T.number total)) number }
{
    let most = total.to_number();
    let low = T::MIN.to_number().max(-most);
    T::from_number_in_range(number.min(most).max(low))
}
