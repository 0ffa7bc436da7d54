//! A cursor that reads bytes in order.
ghost use Rattle.std.specs.Prelude.{◌≡◌, ◌<◌, ◌≤◌, length, take, drop, IfOk, OnOk, IfErr, OnErr};
ghost use Rattle.std.specs.Int.{w16, w32, w64};
ghost use Rattle.sketch_base.specs.Errors.{invalid_data};
ghost use Rattle.sketch_base.specs.Fields.{byte_at, le_at, signed_le_at};

use crate::error::Error;
use crate::fault::Fault;
use std::marker::Model;

/// A cursor that reads numbers and bytes in order. Contracts see the list of unread bytes.
///
/// No call allocates.
///
/// # Errors
///
/// A read of more bytes than are left returns [`InsufficientData`](Fault::InsufficientData) of the kind
/// [`InvalidData`](crate::ErrorKind::InvalidData). The cursor is then unchanged.
///
/// # Examples
///
/// ```
/// use sketch_base::{Error, SketchSlice};
///
/// fn version_and_seed(image: &[u8]) -> Result<(u8, u64), Error> {
///     let mut unread = SketchSlice::new(image);
///     let version = unread.read_u8()?;
///     let seed = unread.read_u64_le()?;
///     Ok((version, seed))
/// }
/// ```
#[derive(Clone, Debug, Drop)]
pub struct SketchSlice<'a> {
    unread: &'a [u8],
}

impl<'a> Model for SketchSlice<'a> {
    ghost use Rattle.std.specs.Prelude.{List, ℕ};

    ghost Value = { List ℕ };

    ghost view = { λ s. s.unread.now };
}

impl<'a> SketchSlice<'a> {
    /// Creates a cursor before the first of `bytes`.
    #[inline]
    pub fn new(bytes: &'a [u8]) -> Self
        ensures { result ≡ bytes.now }
    {
        SketchSlice { unread: bytes }
    }

    /// Returns the unread bytes.
    #[inline]
    pub fn remaining(&self) -> &[u8]
        ensures { result.now ≡ self.now }
    {
        self.unread
    }

    /// Skips `n` bytes. `n` is at most the number of unread bytes.
    #[inline]
    pub fn advance(&mut self, n: u64)
        requires { n ≤ length self.old }
        ensures { self.new ≡ drop n self.old }
    {
        self.unread = &self.unread[n as usize..];
    }

    /// Reads `out.len()` bytes into `out`. If fewer are left, `out` is unchanged too.
    #[inline]
    pub fn read_exact(&mut self, out: &mut [u8]) -> Result<(), Error>
        ensures enough { OnOk result (length out.old ≤ length self.old) }
        ensures value { OnOk result (out.new ≡ take (length out.old) self.old) }
        ensures cursor { OnOk result (self.new ≡ drop (length out.old) self.old) }
        ensures short { IfErr result
            (λ e. (e ≡ invalid_data Fault.InsufficientData) × (length self.old < length out.old)) }
        ensures err { OnErr result ((self.new ≡ self.old) × (out.new ≡ out.old)) }
    {
        if self.unread.len() < out.len() {
            return Err(Error::invalid_data(Fault::InsufficientData));
        }
        let (front, rest) = self.unread.split_at(out.len());
        out.copy_from_slice(front);
        self.unread = rest;
        Ok(())
    }

    /// Reads `N` bytes.
    #[inline]
    fn read_array<const N: usize>(&mut self) -> Result<[u8; N], Error>
        ensures enough { OnOk result (N ≤ length self.old) }
        ensures value { IfOk result (λ bytes. bytes ≡ take N self.old) }
        ensures cursor { OnOk result (self.new ≡ drop N self.old) }
        ensures short { IfErr result (λ e. (e ≡ invalid_data Fault.InsufficientData) × (length self.old < N)) }
        ensures err { OnErr result (self.new ≡ self.old) }
    {
        let mut bytes = [0; N];
        self.read_exact(&mut bytes)?;
        Ok(bytes)
    }

    /// Reads a byte.
    #[inline]
    pub fn read_u8(&mut self) -> Result<u8, Error>
        ensures enough { OnOk result (1 ≤ length self.old) }
        ensures value { IfOk result (λ n. n ≡ byte_at self.old 0) }
        ensures cursor { OnOk result (self.new ≡ drop 1 self.old) }
        ensures short { IfErr result (λ e. (e ≡ invalid_data Fault.InsufficientData) × (length self.old < 1)) }
        ensures err { OnErr result (self.new ≡ self.old) }
    {
        let mut bytes = [0; 1];
        self.read_exact(&mut bytes)?;
        Ok(bytes[0])
    }

    /// Reads a `u16`, little-endian.
    #[tactic(auto, unfolding(crate::specs::Fields::le_at))]
    #[inline]
    pub fn read_u16_le(&mut self) -> Result<u16, Error>
        ensures enough { OnOk result (2 ≤ length self.old) }
        ensures value { IfOk result (λ n. n ≡ le_at w16 self.old 0) }
        ensures cursor { OnOk result (self.new ≡ drop 2 self.old) }
        ensures short { IfErr result (λ e. (e ≡ invalid_data Fault.InsufficientData) × (length self.old < 2)) }
        ensures err { OnErr result (self.new ≡ self.old) }
    {
        Ok(u16::from_le_bytes(self.read_array()?))
    }

    /// Reads a `u32`, little-endian.
    #[tactic(auto, unfolding(crate::specs::Fields::le_at))]
    #[inline]
    pub fn read_u32_le(&mut self) -> Result<u32, Error>
        ensures enough { OnOk result (4 ≤ length self.old) }
        ensures value { IfOk result (λ n. n ≡ le_at w32 self.old 0) }
        ensures cursor { OnOk result (self.new ≡ drop 4 self.old) }
        ensures short { IfErr result (λ e. (e ≡ invalid_data Fault.InsufficientData) × (length self.old < 4)) }
        ensures err { OnErr result (self.new ≡ self.old) }
    {
        Ok(u32::from_le_bytes(self.read_array()?))
    }

    /// Reads an `i32`, little-endian.
    #[tactic(auto, unfolding(crate::specs::Fields::le_at))]
    #[inline]
    pub fn read_i32_le(&mut self) -> Result<i32, Error>
        ensures enough { OnOk result (4 ≤ length self.old) }
        ensures value { IfOk result (λ n. n ≡ signed_le_at w32 self.old 0) }
        ensures cursor { OnOk result (self.new ≡ drop 4 self.old) }
        ensures short { IfErr result (λ e. (e ≡ invalid_data Fault.InsufficientData) × (length self.old < 4)) }
        ensures err { OnErr result (self.new ≡ self.old) }
    {
        Ok(i32::from_le_bytes(self.read_array()?))
    }

    /// Reads a `u64`, little-endian.
    #[tactic(auto, unfolding(crate::specs::Fields::le_at))]
    #[inline]
    pub fn read_u64_le(&mut self) -> Result<u64, Error>
        ensures enough { OnOk result (8 ≤ length self.old) }
        ensures value { IfOk result (λ n. n ≡ le_at w64 self.old 0) }
        ensures cursor { OnOk result (self.new ≡ drop 8 self.old) }
        ensures short { IfErr result (λ e. (e ≡ invalid_data Fault.InsufficientData) × (length self.old < 8)) }
        ensures err { OnErr result (self.new ≡ self.old) }
    {
        Ok(u64::from_le_bytes(self.read_array()?))
    }

    /// Reads an `i64`, little-endian.
    #[tactic(auto, unfolding(crate::specs::Fields::le_at))]
    #[inline]
    pub fn read_i64_le(&mut self) -> Result<i64, Error>
        ensures enough { OnOk result (8 ≤ length self.old) }
        ensures value { IfOk result (λ n. n ≡ signed_le_at w64 self.old 0) }
        ensures cursor { OnOk result (self.new ≡ drop 8 self.old) }
        ensures short { IfErr result (λ e. (e ≡ invalid_data Fault.InsufficientData) × (length self.old < 8)) }
        ensures err { OnErr result (self.new ≡ self.old) }
    {
        Ok(i64::from_le_bytes(self.read_array()?))
    }
}
