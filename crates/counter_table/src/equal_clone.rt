//! Types whose clones equal their originals.
ghost use Rattle.std.specs.Prelude.{◌≡◌, false, true, IsTrue};
ghost use Rattle.std.specs.Cmp.Lexicographic.{bytes_decides};
ghost use Rattle.std.specs.String.{string_bytes};
ghost use Rattle.std.proofs.Common.{rules, sym, ap, subst};
ghost use Rattle.counter_table.specs.Clones.{both};

use std::clone::Clone;
use std::cmp::Eq;

/// A type whose clones equal their originals, as tables of its values require.
///
/// It is implemented for integers, `bool`, `char`, `String`, references, and for tuples and options of such types. For a type of
/// your own, implement it with a proof of the law, often `Prim.search rules`.
///
/// # Examples
///
/// ```
/// use counter_table::EqualClone;
/// use std::alloc::AllocError;
///
/// fn twice<T: EqualClone>(item: T) -> Result<(T, T), AllocError> {
///     let clone = item.clone()?;
///     Ok((item, clone))
/// }
/// ```
pub trait EqualClone: Clone + Eq {
    // Holds of a type no clone of which fails, such as a number. It may be left out.
    ghost clones_never_fail: { Type 0 } = { ⊥ };

    /// Returns whether a clone may fail, as for a type that owns memory.
    ///
    /// A merge into a table of its maximum size works in place if no clone fails. `true` is right for each type for which
    /// `clones_never_fail` is left out.
    fn may_fail() -> bool
        ensures infallible { result ≡ false → (x : Self) → Self.is_infallible x }
        ensures known { clones_never_fail → result ≡ false };

    // Each clone equals its original.
    ghost clones_equal: { (x y : Self) → Self.is_clone x y → IsTrue (Self.eq x y) };
}

impl EqualClone for u8 {
    ghost clones_equal = { Prim.search rules };

    ghost clones_never_fail = { Unit {0} };

    fn may_fail() -> bool {
        false
    }
}

impl EqualClone for u16 {
    ghost clones_equal = { Prim.search rules };

    ghost clones_never_fail = { Unit {0} };

    fn may_fail() -> bool {
        false
    }
}

impl EqualClone for u32 {
    ghost clones_equal = { Prim.search rules };

    ghost clones_never_fail = { Unit {0} };

    fn may_fail() -> bool {
        false
    }
}

impl EqualClone for u64 {
    ghost clones_equal = { Prim.search rules };

    ghost clones_never_fail = { Unit {0} };

    fn may_fail() -> bool {
        false
    }
}

impl EqualClone for u128 {
    ghost clones_equal = { Prim.search rules };

    ghost clones_never_fail = { Unit {0} };

    fn may_fail() -> bool {
        false
    }
}

impl EqualClone for usize {
    ghost clones_equal = { Prim.search rules };

    ghost clones_never_fail = { Unit {0} };

    fn may_fail() -> bool {
        false
    }
}

impl EqualClone for i8 {
    ghost clones_equal = { Prim.search rules };

    ghost clones_never_fail = { Unit {0} };

    fn may_fail() -> bool {
        false
    }
}

impl EqualClone for i16 {
    ghost clones_equal = { Prim.search rules };

    ghost clones_never_fail = { Unit {0} };

    fn may_fail() -> bool {
        false
    }
}

impl EqualClone for i32 {
    ghost clones_equal = { Prim.search rules };

    ghost clones_never_fail = { Unit {0} };

    fn may_fail() -> bool {
        false
    }
}

impl EqualClone for i64 {
    ghost clones_equal = { Prim.search rules };

    ghost clones_never_fail = { Unit {0} };

    fn may_fail() -> bool {
        false
    }
}

impl EqualClone for i128 {
    ghost clones_equal = { Prim.search rules };

    ghost clones_never_fail = { Unit {0} };

    fn may_fail() -> bool {
        false
    }
}

impl EqualClone for isize {
    ghost clones_equal = { Prim.search rules };

    ghost clones_never_fail = { Unit {0} };

    fn may_fail() -> bool {
        false
    }
}

impl EqualClone for bool {
    ghost clones_equal = { Prim.search rules };

    ghost clones_never_fail = { Unit {0} };

    fn may_fail() -> bool {
        false
    }
}

impl EqualClone for char {
    ghost clones_equal = { Prim.search rules };

    ghost clones_never_fail = { Unit {0} };

    fn may_fail() -> bool {
        false
    }
}

impl<T: Eq> EqualClone for &T {
    ghost clones_equal = { λ x y is. subst (λ s. IsTrue (T.eq x.now s.now)) (sym is) (T.Eq.laws.refl x.now) };

    fn may_fail() -> bool {
        true
    }
}

impl<A: EqualClone, B: EqualClone> EqualClone for (A, B) {
    ghost clones_equal = { λ x y is. both _ _ (A.clones_equal x.0 y.0 is.0) (B.clones_equal x.1 y.1 is.1) };

    fn may_fail() -> bool {
        true
    }
}

impl<A: EqualClone, B: EqualClone, C: EqualClone> EqualClone for (A, B, C) {
    ghost clones_equal = { λ x y is. both _ _ (both _ _ (A.clones_equal x.0 y.0 is.0) (B.clones_equal x.1 y.1 is.1))
        (C.clones_equal x.2 y.2 is.2) };

    fn may_fail() -> bool {
        true
    }
}

impl<T: EqualClone> EqualClone for Option<T> {
    ghost clones_equal = { Prim.search rules };

    fn may_fail() -> bool {
        true
    }
}

impl<'a> EqualClone for &'a str {
    ghost clones_equal = { λ x y is. (bytes_decides x.now y.now).1 (sym (ap (λ s. s.now) is)) };

    fn may_fail() -> bool
        ensures infallible { result ≡ true }
        ensures known { ⊥ → result ≡ false }
    {
        true
    }
}

impl EqualClone for String {
    ghost clones_equal = { λ x y is. (bytes_decides (string_bytes x) (string_bytes y)).1 (sym is) };

    fn may_fail() -> bool {
        true
    }
}
