//! Items that a sketch of frequent items can write to its image, and read from one.
ghost use Rattle.std.specs.Prelude.{◌≡◌, ◌+◌, ◌^◌, ◌≤◌, length, IfOk, IfErr, IsOk, IsErrOf, OnOk, OnErr, Err, Ok};
ghost use Rattle.std.specs.Result.{IsOkAnd};
ghost use Rattle.std.specs.String.{string_bytes};
ghost use Rattle.sketch_base.specs.Errors.{no_memory, invalid_argument, invalid_data};
ghost use Rattle.sketch_frequencies.specs.Image.{used_by};
ghost use Rattle.sketch_frequencies.specs.Items.{Codec, IsLawful, Writes, Reads, IsWritingRefusal, IsReadingRefusal, AddsBytes, TakesBytes, text_codec, text_encoding, text_reading, text_taken, IsTextRefusal};

use sketch_base::image::{check_length, u32_at};
use sketch_base::{Error, Fault, SketchBytes, SketchSlice, copy_short, from_utf8};
use std::alloc::Global;
use std::hash::Hash;

/// An item that can be written to an image and read from one.
///
/// An implementation reads what it wrote as an equal item, whatever bytes follow, and leaves those bytes unread. This is
/// proved once, for the implementation: `codec` defines how contents are written and read, and `lawful` is the proof.
/// `lawful` also bounds the bytes that an item owns. A limit for reading uses this bound.
///
/// # Examples
///
/// ```
/// use sketch_base::SketchBytes;
/// use sketch_frequencies::{Error, FrequentItemValue};
/// use std::alloc::Global;
///
/// fn bytes_of<T: FrequentItemValue>(alloc: Global, item: &T) -> Result<Vec<u8>, Error> {
///     let mut out = SketchBytes::with_capacity(alloc, T::serialize_size(item))?;
///     item.serialize_value(&mut out)?;
///     Ok(out.into_bytes())
/// }
/// ```
pub trait FrequentItemValue: Sized + Eq + Hash {
    // The contents of an item, independent of where it lies in memory.
    ghost Content: { Type 0 };

    ghost content: { Self → Content };

    // How items are compared, written and read by their contents.
    ghost codec: { Codec Content };

    /// Returns the number of bytes that [`serialize_value`](Self::serialize_value) writes.
    /// The result is arbitrary if that call rejects the item.
    fn serialize_size(item: &Self) -> usize
        ensures { IfOk (codec.encoding (content item.now)) (λ bytes. result ≡ length bytes) };

    /// Returns the number of bytes that [`serialize_value`](Self::serialize_value) writes.
    ///
    /// # Errors
    ///
    /// Returns the fault with which that call rejects the item, of the kind `InvalidArgument`.
    fn checked_serialize_size(item: &Self) -> Result<usize, Error>
        ensures ok { IfOk result (λ n. IsOkAnd (codec.encoding (content item.now)) (λ bytes. n ≡ length bytes)) }
        ensures err { IfErr result (λ e. (e ≡ invalid_argument e.fault) × (codec.encoding (content item.now) ≡ Err e.fault)) };

    /// Writes the bytes that [`serialize_value`](Self::serialize_value) writes to `out`, which has just as many.
    ///
    /// No call is possible for an item that is rejected. Does not allocate.
    fn serialize_into(&self, out: &mut [u8])
        requires { IsOkAnd (codec.encoding (content self.now)) (λ bytes. length out.old ≡ length bytes) }
        ensures { codec.encoding (content self.now) ≡ Ok out.new };

    /// Writes the item at the end of `out`.
    ///
    /// # Errors
    ///
    /// Returns a fault of the item's own, of the kind `InvalidArgument`, if the item cannot be written. Returns `NoMemory`
    /// only if its bytes do not fit into the capacity. After an error, a part of the item may be at the end of `out`.
    fn serialize_value(&self, out: &mut SketchBytes) -> Result<(), Error>
        ensures ok { OnOk result (Writes codec out.old.bytes (content self.now) out.new.bytes) }
        ensures err { IfErr result (IsWritingRefusal codec (content self.now)) }
        ensures begun { OnErr result (AddsBytes out.old.bytes out.new.bytes) }
        ensures within { IfOk (codec.encoding (content self.now))
            (λ bytes. length out.old.bytes + length bytes ≤ out.old.capacity → IsOk result) }
        ensures capacity { out.old.capacity ≤ out.new.capacity };

    /// Reads the item at the front of `slice`, and leaves the bytes after it unread.
    ///
    /// # Errors
    ///
    /// Returns a fault of the item's own, of the kind `InvalidData`, if there is no item at the front. Returns `NoMemory` if
    /// the item cannot be allocated. After an error, some bytes may have been read.
    fn deserialize_value(alloc: Global, slice: &mut SketchSlice) -> Result<Self, Error>
        ensures ok { IfOk result (λ item. Reads codec slice.old (content item) slice.new) }
        ensures err { IfErr result (IsReadingRefusal codec slice.old) }
        ensures within { OnErr result (TakesBytes slice.old slice.new) };

    /// Returns the number of bytes that [`deserialize_value`](Self::deserialize_value) reads at the front of `bytes`, or 0 if
    /// there is no item. Does not allocate.
    fn deserialize_size(bytes: &[u8]) -> usize
        ensures { result ≡ used_by (codec.reading bytes.now) };

    /// Returns whether items own memory outside of themselves, as strings do.
    ///
    /// A limit for reading an image counts the bytes of such items: see
    /// [`deserialize_with_options`](crate::FrequentItemsSketch::deserialize_with_options).
    fn owns_memory() -> bool
        ensures { result ≡ codec.owns };

    /// Returns the number of bytes that the item owns outside of itself: a string's length in bytes, and 0 for a number.
    ///
    /// By `lawful`, an item that was read owns at most the number of bytes that it takes in the image.
    fn owned_bytes(item: &Self) -> usize
        ensures { result ≡ codec.owned (content item.now) };

    // Two items are equal exactly if `codec.same` holds for their contents.
    ghost alike: { (x y : Self) → Self.eq x y ≡ codec.same (content x) (content y) };

    ghost lawful: { IsLawful codec };
}

/// Eight bytes, little-endian.
impl FrequentItemValue for u64 {
    ghost use Rattle.std.proofs.Common.{rules};
    ghost use Rattle.std.specs.Prelude.{ℕ};
    ghost use Rattle.sketch_frequencies.specs.Items.{u64_codec};
    ghost use Rattle.sketch_frequencies.specs.ItemLaws.{u64_lawful};

    ghost Content = { ℕ };

    ghost content = { λ n. n };

    ghost codec = { u64_codec };

    ghost alike = { Prim.search rules };

    ghost lawful = { u64_lawful };

    #[inline]
    fn serialize_size(_item: &u64) -> usize {
        8
    }

    #[inline]
    fn checked_serialize_size(item: &u64) -> Result<usize, Error> {
        // For the prover: this read brings in the range of the number.
        let _number = *item;
        Ok(8)
    }

    #[inline]
    fn serialize_into(&self, out: &mut [u8]) {
        out.copy_from_slice(&self.to_le_bytes());
    }

    #[inline]
    fn serialize_value(&self, out: &mut SketchBytes) -> Result<(), Error> {
        out.write_u64_le(*self)
    }

    #[inline]
    fn deserialize_value(_alloc: Global, slice: &mut SketchSlice) -> Result<u64, Error> {
        slice.read_u64_le()
    }

    #[inline]
    fn deserialize_size(bytes: &[u8]) -> usize {
        if bytes.len() < 8 { 0 } else { 8 }
    }

    #[inline]
    fn owns_memory() -> bool {
        false
    }

    #[inline]
    fn owned_bytes(_item: &u64) -> usize {
        0
    }
}

/// Eight bytes of two's complement, little-endian.
impl FrequentItemValue for i64 {
    ghost use Rattle.std.proofs.Common.{rules};
    ghost use Rattle.std.specs.Prelude.{ℤ};
    ghost use Rattle.sketch_frequencies.specs.Items.{i64_codec};
    ghost use Rattle.sketch_frequencies.specs.ItemLaws.{i64_lawful};

    ghost Content = { ℤ };

    ghost content = { λ n. n };

    ghost codec = { i64_codec };

    ghost alike = { Prim.search rules };

    ghost lawful = { i64_lawful };

    #[inline]
    fn serialize_size(_item: &i64) -> usize {
        8
    }

    #[inline]
    fn checked_serialize_size(item: &i64) -> Result<usize, Error> {
        // For the prover: this read brings in the range of the number.
        let _number = *item;
        Ok(8)
    }

    #[inline]
    fn serialize_into(&self, out: &mut [u8]) {
        out.copy_from_slice(&self.to_le_bytes());
    }

    #[inline]
    fn serialize_value(&self, out: &mut SketchBytes) -> Result<(), Error> {
        out.write_i64_le(*self)
    }

    #[inline]
    fn deserialize_value(_alloc: Global, slice: &mut SketchSlice) -> Result<i64, Error> {
        slice.read_i64_le()
    }

    #[inline]
    fn deserialize_size(bytes: &[u8]) -> usize {
        if bytes.len() < 8 { 0 } else { 8 }
    }

    #[inline]
    fn owns_memory() -> bool {
        false
    }

    #[inline]
    fn owned_bytes(_item: &i64) -> usize {
        0
    }
}

/// The length in bytes as a 32-bit number, little-endian, and then the UTF-8 bytes.
///
/// Writing returns [`ItemTooLong`](Fault::ItemTooLong) if the string has more than 2^32 - 1 bytes. Reading returns
/// [`InsufficientData`](Fault::InsufficientData) if the length or the bytes are incomplete, and
/// [`InvalidUtf8`](Fault::InvalidUtf8) if the bytes are not UTF-8. It allocates after these checks.
impl FrequentItemValue for String {
    ghost use Rattle.std.proofs.Common.{rules};
    ghost use Rattle.std.specs.Prelude.{ℕ, List};
    ghost use Rattle.sketch_frequencies.specs.ItemLaws.{text_lawful};

    ghost Content = { List ℕ };

    ghost content = { λ text. string_bytes text };

    ghost codec = { text_codec };

    ghost alike = { Prim.search rules };

    ghost lawful = { text_lawful };

    #[inline]
    fn serialize_size(item: &String) -> usize {
        4 + item.len()
    }

    #[inline]
    fn checked_serialize_size(item: &String) -> Result<usize, Error> {
        if item.len() > u32::MAX as usize {
            return Err(Error::invalid_argument(Fault::ItemTooLong));
        }
        Ok(4 + item.len())
    }

    #[inline]
    fn serialize_into(&self, out: &mut [u8]) {
        let text = self.as_bytes();
        out[..4].copy_from_slice(&(text.len() as u32).to_le_bytes());
        if text.len() <= 32 {
            copy_short(&mut out[4..], text);
        } else {
            out[4..].copy_from_slice(text);
        }
    }

    #[inline(always)]
    fn serialize_value(&self, out: &mut SketchBytes) -> Result<(), Error>
        ensures ok { OnOk result (Writes text_codec out.old.bytes (string_bytes self.now) out.new.bytes) }
        ensures err { IfErr result (IsWritingRefusal text_codec (string_bytes self.now)) }
        ensures begun { OnErr result (AddsBytes out.old.bytes out.new.bytes) }
        ensures within { IfOk (text_encoding (string_bytes self.now))
            (λ bytes. length out.old.bytes + length bytes ≤ out.old.capacity → IsOk result) }
        ensures capacity { out.old.capacity ≤ out.new.capacity }

        // A string that is too long is rejected for its length, even if an allocation would fail.
        ensures too_long { 2 ^ 32 ≤ length (string_bytes self.now)
            → IsErrOf result (invalid_argument Fault.ItemTooLong) }
    {
        let text = self.as_bytes();
        if text.len() > u32::MAX as usize {
            return Err(Error::invalid_argument(Fault::ItemTooLong));
        }
        out.write_length_prefixed(text)
    }

    #[inline]
    fn deserialize_value(alloc: Global, slice: &mut SketchSlice) -> Result<String, Error>
        ensures ok { IfOk result (λ text. Reads text_codec slice.old (string_bytes text) slice.new) }
        ensures err { IfErr result (IsReadingRefusal text_codec slice.old) }
        ensures within { OnErr result (TakesBytes slice.old slice.new) }

        // `NoMemory` comes only if the whole string is there, whatever length the bytes state.
        ensures memory { IfErr result (λ e. e ≡ no_memory → IsOk (text_reading slice.old)) }
    {
        let len = slice.read_u32_le()?;
        let text = text_of(alloc, slice.remaining(), len as usize)?;
        slice.advance(len as u64);
        Ok(text)
    }

    fn deserialize_size(bytes: &[u8]) -> usize {
        if bytes.len() < 4 {
            return 0;
        }
        let len = u32_at(bytes, 0) as usize;
        match str_of(&bytes[4..], len) {
            Ok(_) => 4 + len,
            Err(_) => 0,
        }
    }

    #[inline]
    fn owns_memory() -> bool {
        true
    }

    #[inline]
    fn owned_bytes(item: &String) -> usize {
        item.len()
    }
}

/// Returns the string of the first `len` bytes.
fn text_of(alloc: Global, unread: &[u8], len: usize) -> Result<String, Error>
    ensures ok { IfOk result (λ text. text_taken len unread.now ≡ Ok (string_bytes text)) }
    ensures err { IfErr result (IsTextRefusal len unread.now) }
{
    let text = str_of(unread, len)?;
    Ok(String::from_str(alloc, text)?)
}

/// Returns the string of the first `len` bytes, in place.
fn str_of(unread: &[u8], len: usize) -> Result<&str, Error>
    ensures ok { IfOk result (λ text. text_taken len unread.now ≡ Ok text.now) }
    ensures err { IfErr result (λ e. (e ≡ invalid_data e.fault) × (text_taken len unread.now ≡ Err e.fault)) }
{
    check_length(unread, len)?;
    let Ok(text) = from_utf8(&unread[..len]) else {
        return Err(Error::invalid_data(Fault::InvalidUtf8));
    };
    Ok(text)
}
