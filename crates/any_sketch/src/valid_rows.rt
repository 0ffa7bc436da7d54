//! Results and weights of rows, some of which may be null.
ghost use Rattle.std.specs.Prelude.{◌≡◌, ◌+◌, length, drop, IfOk};
ghost use Rattle.sketch_base.specs.Validity.{valid};
ghost use Rattle.any_sketch.specs.ValidRows.{ByRow, OnRows, of_valid};

use sketch_base::Validity;
use std::alloc::{AllocError, Global};

/// Returns the same bits, if there are any.
pub(crate) fn copy_of<'a>(validity: &Option<Validity<'a>>) -> Option<Validity<'a>>
    ensures { result ≡ validity.now }
{
    match validity {
        None => None,
        Some(bits) => Some(bits.copied()),
    }
}

/// Returns the index of the first of the last places: there are as many as valid rows.
pub(crate) fn first_place<T>(validity: &Option<Validity<'_>>, results: &[T]) -> usize
    ensures { result + length (of_valid validity.now results.now) ≡ length results.now }
{
    match validity {
        None => 0,
        Some(bits) => num_nulls(bits.copied(), results),
    }
}

/// Returns the number of rows that are not valid.
fn num_nulls<T>(bits: Validity<'_>, results: &[T]) -> usize
    ensures { result + length (valid bits.entry results.now) ≡ length results.now }
{
    let mut bits = bits;
    let mut count = 0;
    'each: for _ in 0..results.len() {
        if !bits.next_is_set() {
            count += 1;
        }
    }
    count
}

/// Does `$work`, which writes the results of the valid rows of `$items` to `$places`. Then moves each to its row. The result of
/// each other row becomes `$null`.
macro_rules! by_row {
    ($items:expr, $results:expr, $null:expr, $places:ident => $work:expr) => {{
        let validity = $crate::valid_rows::copy_of(&$items.validity);
        let from = $crate::valid_rows::first_place(&validity, $results);
        let $places = &mut $results[from..];
        $work;
        $crate::valid_rows::spread($results, from, &validity, $null)
    }};
}

pub(crate) use by_row;

/// Moves the last results, one for each valid row, to their rows. The result of each other row becomes `null`.
pub(crate) fn spread<T: Copy>(
    results: &mut [T],
    from: usize,
    validity: &Option<Validity<'_>>,
    null: T,
)
    requires { from + length (of_valid validity.now results.old) ≡ length results.old }
    ensures length { length results.new ≡ length results.old }
    ensures rows { OnRows validity.now null results.new (λ answers. answers ≡ drop from results.old) }
{
    match validity {
        None => {}
        Some(bits) => spread_by(results, from, bits.copied(), null),
    }
}

/// Moves the last results, one for each valid row, to their rows. The result of each other row becomes `null`.
fn spread_by<T: Copy>(results: &mut [T], from: usize, bits: Validity<'_>, null: T)
    requires { from + length (valid bits results.old) ≡ length results.old }
    ensures length { length results.new ≡ length results.old }
    ensures rows { ByRow bits.entry null results.new (λ answers. answers ≡ drop from results.old) }
{
    let mut bits = bits;
    let mut next = from;
    'each: for i in 0..results.len() {
        if bits.next_is_set() {
            results[i] = results[next];
            next += 1;
        } else {
            results[i] = null;
        }
    }
}

/// Returns a copy of the weights of the valid rows.
///
/// # Errors
///
/// Returns `AllocError` if the allocation fails.
pub(crate) fn valid_weights<T: Copy>(
    alloc: Global,
    bits: Validity<'_>,
    weights: &[T],
) -> Result<Vec<T>, AllocError>
    ensures { IfOk result (λ kept. kept.items ≡ valid bits.entry weights.now) }
{
    let mut bits = bits;
    let mut kept = Vec::with_capacity(alloc, weights.len())?;
    'each: for i in 0..weights.len() {
        if bits.next_is_set() {
            let Ok(()) = kept.push(weights[i]) else {
                return Err(AllocError);
            };
        }
    }
    Ok(kept)
}

/// Does `$work` with the weights of the valid rows of `$items`, and gives the result of `$work`. Gives `NoMemory` if no memory is
/// left for their copy, which is made if there are bits.
macro_rules! on_weights {
    ($alloc:expr, $items:expr, $weights:expr, $kept:ident => $work:expr) => {
        match $crate::valid_rows::copy_of(&$items.validity) {
            None => {
                let $kept = $weights;
                $work
            }
            Some(bits) => match $crate::valid_rows::valid_weights($alloc, bits, $weights) {
                Ok(weights) => {
                    let $kept = weights.as_slice();
                    $work
                }
                Err(_) => Err($crate::any_error::AnyError::Sketch(sketch_base::Error::new(
                    sketch_base::ErrorKind::OutOfMemory,
                    sketch_base::Fault::NoMemory,
                ))),
            },
        }
    };
}

pub(crate) use on_weights;
