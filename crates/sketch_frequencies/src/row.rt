//! The rows of a report.
ghost use Rattle.std.specs.Prelude.{◌≡◌, IfOk, IfErr, IsTrue};
ghost use Rattle.sketch_base.specs.Errors.{no_memory};
ghost use Rattle.sketch_frequencies.specs.RowValue.{IsSameRow};

use counter_table::EqualClone;
use sketch_base::Error;
use std::alloc::AllocError;
use std::fmt;
use std::marker::Model;

/// A row of a report: an item with its estimated weight and the bounds of its true weight.
///
/// # Examples
///
/// ```
/// use sketch_frequencies::Row;
///
/// fn surely_weighs_more(one: &Row<u64>, other: &Row<u64>) -> bool {
///     one.lower_bound() > other.upper_bound()
/// }
/// ```
#[derive(Debug, PartialEq, Eq, Drop)]
pub struct Row<T> {
    item: T,
    estimate: u64,
    upper_bound: u64,
    lower_bound: u64,
}

impl<T> Model for Row<T> {
    ghost use Rattle.sketch_frequencies.specs.RowValue.{RowValue};

    ghost Value = { RowValue T };

    ghost view = { λ r. record {
      item = r.item;
      estimate = r.estimate;
      upper_bound = r.upper_bound;
      lower_bound = r.lower_bound;
    } };

    ghost inverse = { λ v. record {
      item = v.item;
      estimate = v.estimate;
      upper_bound = v.upper_bound;
      lower_bound = v.lower_bound;
    } };
}

impl<T> Row<T> {
    /// Creates a row of an item with this estimate and these bounds.
    pub(crate) fn new(item: T, estimate: u64, upper_bound: u64, lower_bound: u64) -> Self
        ensures { result ≡ record {
          item = item;
          estimate = estimate;
          upper_bound = upper_bound;
          lower_bound = lower_bound;
        } }
    {
        Row {
            item,
            estimate,
            upper_bound,
            lower_bound,
        }
    }

    /// Returns the same row with a clone of the item.
    ///
    /// Returns `NoMemory` if the clone cannot be allocated.
    pub fn try_clone(&self) -> Result<Self, Error>
    where
        T: EqualClone,
        ensures ok { IfOk result (λ row. IsSameRow T.eq self.now row) }
        ensures err { IfErr result (λ e. e ≡ no_memory) }
    {
        Ok(Row {
            item: self.item.clone()?,
            estimate: self.estimate,
            upper_bound: self.upper_bound,
            lower_bound: self.lower_bound,
        })
    }

    /// Returns the item.
    pub fn item(&self) -> &T
        ensures { result.now ≡ self.now.item }
    {
        &self.item
    }

    /// Returns the estimate of the item's weight.
    pub fn estimate(&self) -> u64
        ensures { result ≡ self.now.estimate }
    {
        self.estimate
    }

    /// Returns the upper bound: the item's true weight is at most this.
    pub fn upper_bound(&self) -> u64
        ensures { result ≡ self.now.upper_bound }
    {
        self.upper_bound
    }

    /// Returns the lower bound: the item's true weight is at least this.
    pub fn lower_bound(&self) -> u64
        ensures { result ≡ self.now.lower_bound }
    {
        self.lower_bound
    }
}

/// Writes the item, its estimate, its lower and its upper bound, separated by spaces.
impl<T: fmt::Display> fmt::Display for Row<T> {
    ghost use Rattle.sketch_frequencies.specs.RowValue.{row_text};

    ghost output = { λ row. row_text T.output row };

    fn fmt<W: fmt::Write>(&self, f: &mut fmt::Formatter<W>) -> fmt::Result {
        write!(
            f,
            "{} {} {} {}",
            self.item, self.estimate, self.lower_bound, self.upper_bound
        )
    }
}

impl<T: EqualClone> Clone for Row<T> {
    ghost is_clone = { IsSameRow T.eq };

    /// Clones the row as [`try_clone`](Row::try_clone) does.
    fn clone(&self) -> Result<Self, AllocError> {
        match self.try_clone() {
            Ok(copy) => Ok(copy),
            Err(_) => Err(AllocError),
        }
    }
}
