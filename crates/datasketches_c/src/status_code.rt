//! The numbers that calls return.
ghost use Rattle.std.specs.Prelude.{◌≡◌};
ghost use Rattle.datasketches_c.specs.Numbers.{refusal_number};

use sketch_base::Fault;

/// The call was done.
pub const OK: i32 = 0;

/// No, as the result of a test.
pub const NO: i32 = 0;

/// Yes, as the result of a test.
pub const YES: i32 = 1;

/// The handle has no sketch.
pub const NO_SKETCH: i32 = -1;

/// The handle's sketch is of a kind without this call.
pub const WRONG_KIND: i32 = -2;

/// A buffer of the caller does not have the length that the call needs.
pub const NO_ROOM: i32 = -3;

/// A fraction is not above 0 and at most 1.
pub const BAD_FRACTION: i32 = -4;

/// The kind of many items is not known. The header for C uses the number for null pointers, too.
pub const BAD_ARGUMENT: i32 = -5;

/// The sketch is shared, and the call changes it. -7 is `DS_NO_RANDOM` of the header for C.
pub const SHARED: i32 = -8;

/// The sketch is not shared, and the call takes shared ones alone.
pub const NOT_SHARED: i32 = -9;

/// Returns the number of a fault: -11 or less, or -6 for `BadOffsets`.
pub(crate) fn refusal_number(fault: Fault) -> i32
    ensures { result ≡ refusal_number fault }
{
    match fault {
        Fault::BadNumBits => -11,
        Fault::BadNumHashes => -12,
        Fault::BadNumBuckets => -13,
        Fault::TableTooLarge => -14,
        Fault::ZeroSeedHash => -15,
        Fault::Mismatch => -16,
        Fault::WeightOverflow => -17,
        Fault::MapSizeNotPowerOfTwo => -18,
        Fault::MapSizeTooSmall => -19,
        Fault::MapSizeTooLarge => -20,
        Fault::ItemTooLong => -21,
        Fault::InsufficientData => -22,
        Fault::BadFamily => -23,
        Fault::BadVersion => -24,
        Fault::BadPreamble => -25,
        Fault::BadNumWords => -26,
        Fault::BadBitCount => -27,
        Fault::SeedHashMismatch => -28,
        Fault::ValueOutOfRange => -29,
        Fault::NegativeTotal => -30,
        Fault::CellAboveTotal => -31,
        Fault::LgCurTooSmall => -32,
        Fault::LgMaxTooLarge => -33,
        Fault::LgCurAboveMax => -34,
        Fault::EmptyFlagMismatch => -35,
        Fault::TooManyActive => -36,
        Fault::ZeroTotal => -37,
        Fault::WeightsExceedTotal => -38,
        Fault::ErrorExceedsTotal => -39,
        Fault::InvalidUtf8 => -40,
        Fault::BadItem => -41,
        Fault::NoMemory => -42,
        Fault::BadSampleSize => -43,
        Fault::BadWindows => -44,
        Fault::BadOffsets => -6,
        Fault::BadWeight => -45,
    }
}

/// Gives `$work` on what a call of the library returned, or `OK` without `$work`. If the call returned an error, gives its number.
macro_rules! on_done {
    ($done:expr) => {
        $crate::status_code::on_done!($done, () => $crate::status_code::OK)
    };
    ($done:expr, $value:pat => $work:expr) => {
        match $done {
            Ok($value) => $work,
            Err(error) => $crate::status_code::refusal_number(error.fault()),
        }
    };
}

pub(crate) use on_done;
