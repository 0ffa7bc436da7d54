//! The eight types of numbers that a sketch can count in.
//!
//! Each `impl` is written out, although they differ only in names and numbers: CI rejects an `impl` that a macro of
//! this repository writes. The laws are proved once for signed types and once for unsigned ones.
ghost use Rattle.std.specs.Prelude.{pos, negsuc};
ghost use Rattle.std.proofs.Common.{lit<, lit≤};
ghost use Rattle.sketch_countmin.specs.ValueLaws.{not_negative, signed_laws, unsigned_laws};

use crate::count_min_value::CountMinValue;
use crate::unsigned_count_min_value::UnsignedCountMinValue;

impl CountMinValue for i8 {
    const ZERO: i8 = 0;

    const ONE: i8 = 1;

    const MAX: i8 = i8::MAX;

    const MIN: i8 = i8::MIN;

    const SIZE: usize = size_of::<i8>();

    ghost ZERO = { pos 0 };

    ghost ONE = { pos 1 };

    ghost MAX = { pos 127 };

    ghost MIN = { negsuc 127 };

    ghost SIZE = { 1 };

    ghost number = { λ x. x };

    ghost least = { negsuc 127 };

    ghost greatest = { 127 };

    #[inline(always)]
    fn to_number(self) -> i128 {
        self as i128
    }

    #[inline(always)]
    fn from_number(whole: i128) -> Option<i8> {
        i8::try_from(whole).ok()
    }

    #[inline(always)]
    fn from_number_in_range(whole: i128) -> i8 {
        whole as i8
    }

    ghost laws = { signed_laws 1 127 (lit≤ tt) (lit< tt) };
}

impl CountMinValue for i16 {
    const ZERO: i16 = 0;

    const ONE: i16 = 1;

    const MAX: i16 = i16::MAX;

    const MIN: i16 = i16::MIN;

    const SIZE: usize = size_of::<i16>();

    ghost ZERO = { pos 0 };

    ghost ONE = { pos 1 };

    ghost MAX = { pos 32767 };

    ghost MIN = { negsuc 32767 };

    ghost SIZE = { 2 };

    ghost number = { λ x. x };

    ghost least = { negsuc 32767 };

    ghost greatest = { 32767 };

    #[inline(always)]
    fn to_number(self) -> i128 {
        self as i128
    }

    #[inline(always)]
    fn from_number(whole: i128) -> Option<i16> {
        i16::try_from(whole).ok()
    }

    #[inline(always)]
    fn from_number_in_range(whole: i128) -> i16 {
        whole as i16
    }

    ghost laws = { signed_laws 2 32767 (lit≤ tt) (lit< tt) };
}

impl CountMinValue for i32 {
    const ZERO: i32 = 0;

    const ONE: i32 = 1;

    const MAX: i32 = i32::MAX;

    const MIN: i32 = i32::MIN;

    const SIZE: usize = size_of::<i32>();

    ghost ZERO = { pos 0 };

    ghost ONE = { pos 1 };

    ghost MAX = { pos 2147483647 };

    ghost MIN = { negsuc 2147483647 };

    ghost SIZE = { 4 };

    ghost number = { λ x. x };

    ghost least = { negsuc 2147483647 };

    ghost greatest = { 2147483647 };

    #[inline(always)]
    fn to_number(self) -> i128 {
        self as i128
    }

    #[inline(always)]
    fn from_number(whole: i128) -> Option<i32> {
        i32::try_from(whole).ok()
    }

    #[inline(always)]
    fn from_number_in_range(whole: i128) -> i32 {
        whole as i32
    }

    ghost laws = { signed_laws 4 2147483647 (lit≤ tt) (lit< tt) };
}

impl CountMinValue for i64 {
    const ZERO: i64 = 0;

    const ONE: i64 = 1;

    const MAX: i64 = i64::MAX;

    const MIN: i64 = i64::MIN;

    const SIZE: usize = size_of::<i64>();

    ghost ZERO = { pos 0 };

    ghost ONE = { pos 1 };

    ghost MAX = { pos 9223372036854775807 };

    ghost MIN = { negsuc 9223372036854775807 };

    ghost SIZE = { 8 };

    ghost number = { λ x. x };

    ghost least = { negsuc 9223372036854775807 };

    ghost greatest = { 9223372036854775807 };

    #[inline(always)]
    fn to_number(self) -> i128 {
        self as i128
    }

    #[inline(always)]
    fn from_number(whole: i128) -> Option<i64> {
        i64::try_from(whole).ok()
    }

    #[inline(always)]
    fn from_number_in_range(whole: i128) -> i64 {
        whole as i64
    }

    ghost laws = { signed_laws 8 9223372036854775807 (lit≤ tt) (lit< tt) };
}

impl CountMinValue for u8 {
    const ZERO: u8 = 0;

    const ONE: u8 = 1;

    const MAX: u8 = u8::MAX;

    const MIN: u8 = u8::MIN;

    const SIZE: usize = size_of::<u8>();

    ghost ZERO = { 0 };

    ghost ONE = { 1 };

    ghost MAX = { 255 };

    ghost MIN = { 0 };

    ghost SIZE = { 1 };

    ghost number = { pos };

    ghost least = { pos 0 };

    ghost greatest = { 255 };

    #[inline(always)]
    fn to_number(self) -> i128 {
        self as i128
    }

    #[inline(always)]
    fn from_number(whole: i128) -> Option<u8> {
        u8::try_from(whole).ok()
    }

    #[inline(always)]
    fn from_number_in_range(whole: i128) -> u8 {
        whole as u8
    }

    ghost laws = { unsigned_laws 1 255 (lit≤ tt) (lit< tt) };
}

impl UnsignedCountMinValue for u8 {
    ghost unsigned = { not_negative };
}

impl CountMinValue for u16 {
    const ZERO: u16 = 0;

    const ONE: u16 = 1;

    const MAX: u16 = u16::MAX;

    const MIN: u16 = u16::MIN;

    const SIZE: usize = size_of::<u16>();

    ghost ZERO = { 0 };

    ghost ONE = { 1 };

    ghost MAX = { 65535 };

    ghost MIN = { 0 };

    ghost SIZE = { 2 };

    ghost number = { pos };

    ghost least = { pos 0 };

    ghost greatest = { 65535 };

    #[inline(always)]
    fn to_number(self) -> i128 {
        self as i128
    }

    #[inline(always)]
    fn from_number(whole: i128) -> Option<u16> {
        u16::try_from(whole).ok()
    }

    #[inline(always)]
    fn from_number_in_range(whole: i128) -> u16 {
        whole as u16
    }

    ghost laws = { unsigned_laws 2 65535 (lit≤ tt) (lit< tt) };
}

impl UnsignedCountMinValue for u16 {
    ghost unsigned = { not_negative };
}

impl CountMinValue for u32 {
    const ZERO: u32 = 0;

    const ONE: u32 = 1;

    const MAX: u32 = u32::MAX;

    const MIN: u32 = u32::MIN;

    const SIZE: usize = size_of::<u32>();

    ghost ZERO = { 0 };

    ghost ONE = { 1 };

    ghost MAX = { 4294967295 };

    ghost MIN = { 0 };

    ghost SIZE = { 4 };

    ghost number = { pos };

    ghost least = { pos 0 };

    ghost greatest = { 4294967295 };

    #[inline(always)]
    fn to_number(self) -> i128 {
        self as i128
    }

    #[inline(always)]
    fn from_number(whole: i128) -> Option<u32> {
        u32::try_from(whole).ok()
    }

    #[inline(always)]
    fn from_number_in_range(whole: i128) -> u32 {
        whole as u32
    }

    ghost laws = { unsigned_laws 4 4294967295 (lit≤ tt) (lit< tt) };
}

impl UnsignedCountMinValue for u32 {
    ghost unsigned = { not_negative };
}

impl CountMinValue for u64 {
    const ZERO: u64 = 0;

    const ONE: u64 = 1;

    const MAX: u64 = u64::MAX;

    const MIN: u64 = u64::MIN;

    const SIZE: usize = size_of::<u64>();

    ghost ZERO = { 0 };

    ghost ONE = { 1 };

    ghost MAX = { 18446744073709551615 };

    ghost MIN = { 0 };

    ghost SIZE = { 8 };

    ghost number = { pos };

    ghost least = { pos 0 };

    ghost greatest = { 18446744073709551615 };

    #[inline(always)]
    fn to_number(self) -> i128 {
        self as i128
    }

    #[inline(always)]
    fn from_number(whole: i128) -> Option<u64> {
        u64::try_from(whole).ok()
    }

    #[inline(always)]
    fn from_number_in_range(whole: i128) -> u64 {
        whole as u64
    }

    ghost laws = { unsigned_laws 8 18446744073709551615 (lit≤ tt) (lit< tt) };
}

impl UnsignedCountMinValue for u64 {
    ghost unsigned = { not_negative };
}
