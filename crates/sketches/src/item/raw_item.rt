//! Items of bytes.
ghost use Rattle.std.specs.Hash as fed;
ghost use Rattle.std.specs.Prelude.{◌≡◌};

use std::hash::{Hash, Hasher};

/// An item that may not be UTF-8. It is hashed as a string is.
#[derive(Clone, Copy, PartialEq, Eq)]
pub struct RawItem<'a> {
    pub bytes: &'a [u8],
}

impl<'a> Hash for RawItem<'a> {
    ghost use Rattle.std.proofs.Common.{rules};

    ghost hash_input = { λ item. fed.str item.bytes.now };

    ghost respects_eq = { Prim.search rules };

    fn hash<H: Hasher>(&self, state: &mut H) {
        state.write(self.bytes);
        state.write_u8(255);
    }
}
