//! A buffer that is written at its end.
ghost use Rattle.std.specs.Prelude.{◌≡◌, ◌+◌, ◌-◌, ◌*◌, ◌^◌, ◌<◌, ◌≤◌, [], ◌∷◌, ◌++◌, length, take, max, IfOk, OnOk, IfErr, OnErr, IsOk};
ghost use Rattle.std.specs.Int.{w16, w32, w64, to_le_bytes, cast_unsigned};
ghost use Rattle.sketch_base.specs.Errors.{no_memory};

use crate::error::Error;
use std::alloc::Global;
use std::marker::Model;

/// A buffer to which numbers and bytes are appended.
///
/// Contracts see the bytes written and the capacity. A write within the capacity succeeds: this is proved. A write past
/// it allocates.
///
/// # Errors
///
/// Each write, and [`reserve`](Self::reserve), returns [`NoMemory`](crate::Fault::NoMemory) of the kind
/// [`OutOfMemory`](crate::ErrorKind::OutOfMemory) if the allocation fails. The bytes are then unchanged.
///
/// # Examples
///
/// ```
/// use sketch_base::{Error, SketchBytes, SketchSlice};
/// use std::alloc::Global;
///
/// fn there_and_back(alloc: Global, n: u32) -> Result<u32, Error> {
///     let mut out = SketchBytes::with_capacity(alloc, 4)?;
///     out.write_u32_le(n)?;
///     let image = out.into_bytes();
///     SketchSlice::new(&image).read_u32_le()
/// }
/// ```
#[derive(Debug, Drop)]
pub struct SketchBytes {
    bytes: Vec<u8>,
}

impl Model for SketchBytes {
    ghost use Rattle.std.specs.Prelude.{vec_capacity};
    ghost use Rattle.sketch_base.specs.Buffer.{Buffer};

    ghost Value = { Buffer };

    ghost view = { λ s. record { bytes = s.bytes.items; capacity = vec_capacity s.bytes } };
}

impl SketchBytes {
    /// Creates an empty buffer with room for at least `capacity` bytes.
    ///
    /// # Errors
    ///
    /// `NoMemory` if the buffer cannot be allocated.
    pub fn with_capacity(alloc: Global, capacity: usize) -> Result<Self, Error>
        ensures empty { IfOk result (λ out. out.bytes ≡ []) }
        ensures room { IfOk result (λ out. capacity ≤ out.capacity) }
        ensures err { IfErr result (λ e. e ≡ no_memory) }
    {
        Ok(SketchBytes {
            bytes: Vec::with_capacity(alloc, capacity)?,
        })
    }

    /// Makes room for `additional` more bytes, and for no more than these if it allocates.
    ///
    /// # Errors
    ///
    /// `NoMemory` if the allocation fails. Bytes and capacity are then unchanged.
    pub fn reserve(&mut self, additional: usize) -> Result<(), Error>
        ensures ok { OnOk result (self.new.capacity ≡ max self.old.capacity (length self.old.bytes + additional)) }
        ensures within { length self.old.bytes + additional ≤ self.old.capacity → IsOk result }
        ensures bytes { self.new.bytes ≡ self.old.bytes }
        ensures no_memory { IfErr result (λ e. e ≡ no_memory) }
        ensures err { OnErr result (self.new.capacity ≡ self.old.capacity) }
    {
        self.bytes.reserve_exact(additional)?;
        Ok(())
    }

    /// Appends `part`.
    #[inline(always)]
    pub fn write(&mut self, part: &[u8]) -> Result<(), Error>
        ensures ok { OnOk result (self.new.bytes ≡ self.old.bytes ++ part.now) }
        ensures within { length self.old.bytes + length part.now ≤ self.old.capacity → IsOk result }
        ensures capacity { self.old.capacity ≤ self.new.capacity }
        ensures no_memory { IfErr result (λ e. e ≡ no_memory) }
        ensures err { OnErr result (self.new.bytes ≡ self.old.bytes) }
    {
        let n = part.len();
        if n > 8 && n <= 16 {
            self.write_ends::<8>(part)
        } else if n > 4 && n < 8 {
            self.write_ends::<4>(part)
        } else {
            self.write_whole(part)
        }
    }

    /// Appends `part` as one piece.
    #[inline]
    fn write_whole(&mut self, part: &[u8]) -> Result<(), Error>
        ensures ok { OnOk result (self.new.bytes ≡ self.old.bytes ++ part.now) }
        ensures within { length self.old.bytes + length part.now ≤ self.old.capacity → IsOk result }
        ensures capacity { self.old.capacity ≤ self.new.capacity }
        ensures no_memory { IfErr result (λ e. e ≡ no_memory) }
        ensures err { OnErr result (self.new.bytes ≡ self.old.bytes) }
    {
        self.bytes.extend_from_slice(part)?;
        Ok(())
    }

    /// Appends few bytes as their first `WIDTH` and their last `WIDTH`, which meet or overlap, without a function call.
    #[inline(always)]
    fn write_ends<const WIDTH: usize>(&mut self, part: &[u8]) -> Result<(), Error>
        requires at_least { WIDTH ≤ length part.now }
        requires at_most { length part.now ≤ 2 * WIDTH }
        ensures ok { OnOk result (self.new.bytes ≡ self.old.bytes ++ part.now) }
        ensures within { length self.old.bytes + length part.now ≤ self.old.capacity → IsOk result }
        ensures capacity { self.old.capacity ≤ self.new.capacity }
        ensures no_memory { IfErr result (λ e. e ≡ no_memory) }
        ensures err { OnErr result (self.new.bytes ≡ self.old.bytes) }
    {
        let mut first = [0; WIDTH];
        let mut last = [0; WIDTH];
        first.copy_from_slice(&part[..WIDTH]);
        last.copy_from_slice(&part[part.len() - WIDTH..]);
        self.write_overlapping(&first, &last, part.len())
    }

    /// Appends `size` bytes, given by their first and their last ones, which meet or overlap.
    #[inline(always)]
    fn write_overlapping(&mut self, first: &[u8], last: &[u8], size: usize) -> Result<(), Error>
        requires first_within { length first.now ≤ size }
        requires last_within { length last.now ≤ size }
        requires meet { size ≤ length first.now + length last.now }
        ensures ok { OnOk result (self.new.bytes ≡ self.old.bytes ++ (take (size - length last.now) first.now ++ last.now)) }
        ensures within { length self.old.bytes + size ≤ self.old.capacity → IsOk result }
        ensures capacity { self.old.capacity ≤ self.new.capacity }
        ensures no_memory { IfErr result (λ e. e ≡ no_memory) }
        ensures err { OnErr result (self.new.bytes ≡ self.old.bytes) }
    {
        self.bytes.reserve(size)?;
        let until = self.bytes.len() + (size - last.len());
        self.bytes.extend_from_slice(first)?;
        self.bytes.truncate(until);
        self.bytes.extend_from_slice(last)?;
        Ok(())
    }

    /// Appends the length of `part` as a little-endian `u32`, then `part`, which is shorter than 2^32 bytes.
    #[inline(always)]
    pub fn write_length_prefixed(&mut self, part: &[u8]) -> Result<(), Error>
        requires short { length part.now < 2 ^ 32 }
        ensures ok { OnOk result (self.new.bytes ≡ self.old.bytes ++ (to_le_bytes w32 (length part.now) ++ part.now)) }
        ensures within { length self.old.bytes + (4 + length part.now) ≤ self.old.capacity → IsOk result }
        ensures capacity { self.old.capacity ≤ self.new.capacity }
        ensures no_memory { IfErr result (λ e. e ≡ no_memory) }
        ensures err { OnErr result (self.new.bytes ≡ self.old.bytes) }
    {
        let n = part.len();
        let prefix = u32::to_le_bytes(n as u32);
        if n >= 8 && n <= 16 {
            self.write_prefixed_ends::<8>(&prefix, part)
        } else if n >= 4 && n < 8 {
            self.write_prefixed_ends::<4>(&prefix, part)
        } else {
            self.bytes.reserve(4 + n)?;
            self.write(&prefix)?;
            self.write(part)
        }
    }

    /// Appends a prefix, then few bytes as their first `WIDTH` and their last `WIDTH`, which meet or overlap: as one
    /// piece, without a function call.
    #[inline(always)]
    fn write_prefixed_ends<const WIDTH: usize>(
        &mut self,
        prefix: &[u8; 4],
        part: &[u8],
    ) -> Result<(), Error>
        requires width { WIDTH ≤ 8 }
        requires at_least { WIDTH ≤ length part.now }
        requires at_most { length part.now ≤ 2 * WIDTH }
        ensures ok { OnOk result (self.new.bytes ≡ self.old.bytes ++ (prefix.now ++ part.now)) }
        ensures within { length self.old.bytes + (4 + length part.now) ≤ self.old.capacity → IsOk result }
        ensures capacity { self.old.capacity ≤ self.new.capacity }
        ensures no_memory { IfErr result (λ e. e ≡ no_memory) }
        ensures err { OnErr result (self.new.bytes ≡ self.old.bytes) }
    {
        let mut first = [0; 12];
        let mut last = [0; WIDTH];
        first[..4].copy_from_slice(prefix);
        first[4..4 + WIDTH].copy_from_slice(&part[..WIDTH]);
        last.copy_from_slice(&part[part.len() - WIDTH..]);
        self.write_overlapping(&first[..4 + WIDTH], &last, 4 + part.len())
    }

    /// Appends a byte.
    #[inline]
    pub fn write_u8(&mut self, n: u8) -> Result<(), Error>
        ensures ok { OnOk result (self.new.bytes ≡ self.old.bytes ++ n ∷ []) }
        ensures within { length self.old.bytes + 1 ≤ self.old.capacity → IsOk result }
        ensures capacity { self.old.capacity ≤ self.new.capacity }
        ensures no_memory { IfErr result (λ e. e ≡ no_memory) }
        ensures err { OnErr result (self.new.bytes ≡ self.old.bytes) }
    {
        self.write(&[n])
    }

    /// Appends a `u16`, little-endian.
    #[inline]
    pub fn write_u16_le(&mut self, n: u16) -> Result<(), Error>
        ensures ok { OnOk result (self.new.bytes ≡ self.old.bytes ++ to_le_bytes w16 n) }
        ensures within { length self.old.bytes + 2 ≤ self.old.capacity → IsOk result }
        ensures capacity { self.old.capacity ≤ self.new.capacity }
        ensures no_memory { IfErr result (λ e. e ≡ no_memory) }
        ensures err { OnErr result (self.new.bytes ≡ self.old.bytes) }
    {
        self.write(&u16::to_le_bytes(n))
    }

    /// Appends a `u32`, little-endian.
    #[inline]
    pub fn write_u32_le(&mut self, n: u32) -> Result<(), Error>
        ensures ok { OnOk result (self.new.bytes ≡ self.old.bytes ++ to_le_bytes w32 n) }
        ensures within { length self.old.bytes + 4 ≤ self.old.capacity → IsOk result }
        ensures capacity { self.old.capacity ≤ self.new.capacity }
        ensures no_memory { IfErr result (λ e. e ≡ no_memory) }
        ensures err { OnErr result (self.new.bytes ≡ self.old.bytes) }
    {
        self.write(&u32::to_le_bytes(n))
    }

    /// Appends an `i32`, little-endian.
    #[inline]
    pub fn write_i32_le(&mut self, n: i32) -> Result<(), Error>
        ensures ok { OnOk result (self.new.bytes ≡ self.old.bytes ++ to_le_bytes w32 (cast_unsigned w32 n)) }
        ensures within { length self.old.bytes + 4 ≤ self.old.capacity → IsOk result }
        ensures capacity { self.old.capacity ≤ self.new.capacity }
        ensures no_memory { IfErr result (λ e. e ≡ no_memory) }
        ensures err { OnErr result (self.new.bytes ≡ self.old.bytes) }
    {
        self.write(&i32::to_le_bytes(n))
    }

    /// Appends a `u64`, little-endian.
    #[inline]
    pub fn write_u64_le(&mut self, n: u64) -> Result<(), Error>
        ensures ok { OnOk result (self.new.bytes ≡ self.old.bytes ++ to_le_bytes w64 n) }
        ensures within { length self.old.bytes + 8 ≤ self.old.capacity → IsOk result }
        ensures capacity { self.old.capacity ≤ self.new.capacity }
        ensures no_memory { IfErr result (λ e. e ≡ no_memory) }
        ensures err { OnErr result (self.new.bytes ≡ self.old.bytes) }
    {
        self.write(&u64::to_le_bytes(n))
    }

    /// Appends an `i64`, little-endian.
    #[inline]
    pub fn write_i64_le(&mut self, n: i64) -> Result<(), Error>
        ensures ok { OnOk result (self.new.bytes ≡ self.old.bytes ++ to_le_bytes w64 (cast_unsigned w64 n)) }
        ensures within { length self.old.bytes + 8 ≤ self.old.capacity → IsOk result }
        ensures capacity { self.old.capacity ≤ self.new.capacity }
        ensures no_memory { IfErr result (λ e. e ≡ no_memory) }
        ensures err { OnErr result (self.new.bytes ≡ self.old.bytes) }
    {
        self.write(&i64::to_le_bytes(n))
    }

    /// Returns the bytes written.
    pub fn into_bytes(self) -> Vec<u8>
        ensures { result.items ≡ self.bytes }
    {
        self.bytes
    }
}
