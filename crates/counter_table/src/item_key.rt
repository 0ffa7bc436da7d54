//! Keys by which items are looked up and created.
ghost use Rattle.std.specs.Prelude.{◌≡◌, Bool, IfOk, IsOk, IsTrue};
ghost use Rattle.std.specs.Cmp.Lexicographic.{bytes_decides, nat_list_eq_equiv};
ghost use Rattle.std.specs.Hash as fed;
ghost use Rattle.std.specs.List.{concat};
ghost use Rattle.counter_table.specs.StringKeys.{names_string};
ghost use Rattle.std.specs.String.{string_bytes};
ghost use Rattle.std.proofs.Common.{ap};
ghost use Rattle.sketch_base.specs.Hashes.{fed_bytes};

use crate::equal_clone::EqualClone;
use sketch_base::Item;
use std::alloc::{AllocError, Global};
use std::hash::Hash;

/// A key by which an item of type `T` is looked up.
///
/// It is implemented by `&T`, and by `&str` for items of type `String`. A key hashes as the items that it names. It
/// names all items that are equal to one that it names, and no others.
pub trait ItemKey<T: Eq + Hash>: Copy + Item {
    // The result of `names`.
    ghost names: { Self → T → Bool };

    /// Returns whether the key names the item.
    fn names(&self, item: &T) -> bool
        ensures { result ≡ names self.now item.now };

    // A key hashes as the items that it names.
    ghost respects_hash: { (k : Self) (x : T) → IsTrue (names k x) → Self.bytes k ≡ fed_bytes T.hash_input x };

    // A key names the items equal to one that it names, and no others.
    ghost respects_eq: { (k : Self) (x y : T) → IsTrue (names k x) → names k y ≡ T.eq x y };
}

impl<T: Eq + Hash> ItemKey<T> for &T {
    ghost names = { λ k. T.eq k.now };

    ghost respects_hash = { λ k x h. ap concat (T.respects_eq k.now x h) };

    ghost respects_eq = { λ k. T.Eq.laws.congr k.now };

    #[inline(always)]
    fn names(&self, item: &T) -> bool {
        **self == *item
    }
}

impl ItemKey<String> for &str {
    ghost names = { λ k. names_string k.now };

    ghost respects_hash = { λ k x h. ap (fed_bytes fed.str) ((bytes_decides k.now (string_bytes x)).0 h) };

    ghost respects_eq = { λ k x y. nat_list_eq_equiv.congr k.now (string_bytes x) (string_bytes y) };

    #[inline(always)]
    fn names(&self, item: &String) -> bool {
        *self == item.as_str()
    }
}

/// A key from which an owned item can be created.
///
/// It is implemented by `&T`, of which it creates a clone, and by `&str`, of which it creates a `String`.
pub trait OwnedKey<T: Eq + Hash>: ItemKey<T> {
    // Holds of a key whose item is created without an allocation.
    ghost needs_no_memory: { Self → Type 0 };

    /// Creates an item that the key names.
    ///
    /// # Errors
    ///
    /// Returns `AllocError` if the item cannot be allocated.
    fn to_item(self, alloc: Global) -> Result<T, AllocError>
        ensures named { IfOk result (λ item. IsTrue (Self.names self item)) }
        ensures infallible { needs_no_memory self → IsOk result };
}

impl<T: EqualClone + Hash> OwnedKey<T> for &T {
    ghost needs_no_memory = { λ k. T.is_infallible k.now };

    #[inline(always)]
    fn to_item(self, _alloc: Global) -> Result<T, AllocError> {
        self.clone()
    }
}

impl OwnedKey<String> for &str {
    ghost needs_no_memory = { λ _. ⊥ };

    fn to_item(self, alloc: Global) -> Result<String, AllocError> {
        String::from_str(alloc, self)
    }
}
