//! Laws of two runs. The functions do nothing: their `ensures` clauses are the laws.
ghost use Rattle.datasketches_cli.specs.Laws.{DigitsMakeWhatWasShown, LoadsWhatWasShown};

/// States that `load` in one run reads the bytes that another run printed after `image`.
///
/// A `load` line with these digits loads those bytes, for every kind (`loads`). The digits of an image are the digits
/// of bytes (`digits`).
pub fn images_are_loaded()
    ensures loads { LoadsWhatWasShown }
    ensures digits { DigitsMakeWhatWasShown }
{}
