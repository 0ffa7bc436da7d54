//! The fields of images at fixed offsets, and the checks that all images share.
//!
//! Numbers are little-endian. No call here allocates.
ghost use Rattle.std.specs.Prelude.{◌≡◌, ◌+◌, ◌<◌, ◌≤◌, Some, length, MatchOption, OnOk, IfErr};
ghost use Rattle.std.specs.Int.{Width, w16, w32, w64, byte_len, from_le_bytes};
ghost use Rattle.sketch_base.specs.Checks.{Opens, first_failing, opening_checks};
ghost use Rattle.sketch_base.specs.Errors.{invalid_data};
ghost use Rattle.sketch_base.specs.Fields.{le_at};

use crate::error::Error;
use crate::family::Family;
use crate::fault::Fault;

/// The version of the formats, a byte of each image.
pub const SERIAL_VERSION: u8 = 1;

/// Checks that an image has at least `least` bytes.
///
/// # Errors
///
/// [`InsufficientData`](Fault::InsufficientData) of the kind [`InvalidData`](crate::ErrorKind::InvalidData) if it has
/// fewer.
#[inline]
pub fn check_length(image: &[u8], least: usize) -> Result<(), Error>
    ensures enough { OnOk result (least ≤ length image.now) }
    ensures short { IfErr result
        (λ e. (e ≡ invalid_data Fault.InsufficientData) × (length image.now < least)) }
{
    if image.len() < least {
        return Err(Error::invalid_data(Fault::InsufficientData));
    }
    Ok(())
}

/// Returns the fault of the first failing check among those that every image starts with, or `None` if all pass.
///
/// The checks are, in this order:
///
/// - [`InsufficientData`](Fault::InsufficientData) if the image has fewer than `least` bytes, where `least` is at least
///   3;
/// - [`BadFamily`](Fault::BadFamily) if byte 2 is not the id of the family;
/// - [`BadVersion`](Fault::BadVersion) if byte 1 is not [`SERIAL_VERSION`].
#[inline]
pub fn opening_fault(image: &[u8], least: usize, family: Family) -> Option<Fault>
    requires { 3 ≤ least }
    ensures { MatchOption result (Opens least family.id image.now)
        (λ fault. first_failing (opening_checks least family.id image.now) ≡ Some fault) }
{
    if image.len() < least {
        return Some(Fault::InsufficientData);
    }
    if image[2] != family.id {
        return Some(Fault::BadFamily);
    }
    if image[1] != SERIAL_VERSION {
        return Some(Fault::BadVersion);
    }
    None
}

/// Returns the `N` bytes at the offset `place`, which encode the number there.
#[inline(always)]
fn array_at<const N: usize>(image: &[u8], place: usize) -> [u8; N]
    requires { place + N ≤ length image.now }
    ensures { (w : Width) → byte_len w ≡ N → from_le_bytes w result ≡ le_at w image.now place }
{
    let mut bytes = [0; N];
    bytes.copy_from_slice(&image[place..place + N]);
    bytes
}

/// Returns the `u16` at the offset `place`. Its two bytes are within the image.
#[inline]
pub fn u16_at(image: &[u8], place: usize) -> u16
    requires { place + 2 ≤ length image.now }
    ensures { result ≡ le_at w16 image.now place }
{
    u16::from_le_bytes(array_at(image, place))
}

/// Returns the `u32` at the offset `place`. Its four bytes are within the image.
#[inline]
pub fn u32_at(image: &[u8], place: usize) -> u32
    requires { place + 4 ≤ length image.now }
    ensures { result ≡ le_at w32 image.now place }
{
    u32::from_le_bytes(array_at(image, place))
}

/// Returns the `u64` at the offset `place`. Its eight bytes are within the image.
#[inline]
pub fn u64_at(image: &[u8], place: usize) -> u64
    requires { place + 8 ≤ length image.now }
    ensures { result ≡ le_at w64 image.now place }
{
    u64::from_le_bytes(array_at(image, place))
}
