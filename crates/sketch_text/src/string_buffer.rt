//! Strings in one buffer, which are added one by one.
ghost use Rattle.std.specs.Prelude.{◌≡◌, ◌↔◌, ◌∷◌, ◌++◌, [], IfOk, IsTrue, OnErr, OnOk, length};

use sketch_base::OffsetStrings;
use std::alloc::{AllocError, Global};
use std::marker::Model;

/// Strings in one buffer with offsets. It allocates for the buffers of all strings, and not for each string.
#[derive(Drop)]
pub struct StringBuffer {
    bytes: Vec<u8>,
    offsets: Vec<u64>,
}

impl Model for StringBuffer {
    ghost use Rattle.std.specs.Prelude.{List, ℕ};
    ghost use Rattle.sketch_base.specs.Strings.{AreBuffered, strings_of};

    ghost Value = { List (List ℕ) };

    ghost view = { λ s. strings_of s.bytes.items s.offsets.items };

    ghost invariant = { λ s. AreBuffered s.bytes.items s.offsets.items };
}

impl StringBuffer {
    /// Creates a buffer without strings.
    ///
    /// # Errors
    ///
    /// `AllocError` if an allocation fails.
    pub fn new(alloc: Global) -> Result<Self, AllocError>
        ensures { IfOk result (λ strings. strings ≡ []) }
    {
        let bytes = Vec::new(alloc);
        let mut offsets = Vec::new(alloc);
        offsets.push(0)?;
        Ok(StringBuffer { bytes, offsets })
    }

    /// Adds a string after the others.
    ///
    /// # Errors
    ///
    /// `AllocError` if an allocation fails. The strings are then unchanged.
    #[inline(always)]
    pub fn push(&mut self, string: &str) -> Result<(), AllocError>
        ensures added { OnOk result (self.new ≡ self.old ++ string.now ∷ []) }
        ensures err { OnErr result (self.new ≡ self.old) }
    {
        let end = self.bytes.len() + string.len();
        self.offsets.push(end as u64)?;
        if let Err(error) = self.bytes.extend_from_slice(string.as_bytes()) {
            let _ = self.offsets.pop();
            return Err(error);
        }
        Ok(())
    }

    /// Returns the strings as a sequence.
    #[inline(always)]
    pub fn strings(&self) -> OffsetStrings<'_, &[u64]>
        ensures { result ≡ self.now }
    {
        OffsetStrings::of_buffer(&self.bytes, &self.offsets)
    }

    /// Returns the number of strings.
    #[inline(always)]
    pub fn len(&self) -> usize
        ensures { result ≡ length self.now }
    {
        self.strings().len()
    }

    /// Returns whether there are no strings.
    #[inline(always)]
    pub fn is_empty(&self) -> bool
        ensures { IsTrue result ↔ (self.now ≡ []) }
    {
        self.strings().is_empty()
    }
}
