//! Images of sketches of strings that are read whole.
ghost use Rattle.std.specs.Prelude.{◌≡◌, ◌⊎◌, ◌≤◌, ℕ, None, List, Option, length, IfErr, IfOk, IfSome, MatchResult};
ghost use Rattle.sketch_base.specs.declared.fault.Fault.TheVariants.{NoMemory};
ghost use Rattle.sketches.specs.ImageFailures.{IsBadImage, IsRejected, IsUnread};
ghost use Rattle.sketches.specs.declared.image.images.ImageFailure.TheVariants.{Memory, Rejected};
ghost use Rattle.sketches.specs.Images.{IsOpened, Loads, OpensImage};

use sketch_base::{Error, Fault};
use sketch_frequencies::{FrequentItemsImageOptions, FrequentItemsSketch};
use std::alloc::Global;
use std::io;
use std::io::Read;

/// Images that are opened one after another.
pub trait Images {
    type Reader: Read + Drop;

    // The bytes of each image that is left, where they are known.
    ghost images: { Self → Option (List (List ℕ)) } = { λ _. None };

    /// Opens the next image. Returns `None` if none is left.
    fn next(&mut self) -> Option<io::Result<Self::Reader>>
        ensures { OpensImage Self.Reader.remaining (images self.old) (images self.new) result };
}

/// The error that ends a run over images.
#[derive(Debug, Drop)]
pub enum ImageFailure {
    /// An allocation failed.
    Memory,
    /// There is no image.
    NoImage,
    /// An image could not be opened or read.
    Read(io::Error),
    /// An image has more bytes than the limit.
    TooLong,
    /// The bytes are not an image of a sketch of strings.
    Rejected(Fault),
    /// Bytes follow the image.
    TrailingBytes,
    /// The total of all images exceeds `u64::MAX`.
    TooManyItems,
    /// The output could not be written.
    Write(io::Error),
}

/// Reads an image whole, and returns its sketch, whose table hashes under the key of the options.
///
/// # Errors
///
/// Returns `Read` if the image could not be opened or a read fails, and `TooLong` if there are more than `options.max_bytes`
/// bytes. Returns `Rejected` with the fault of the first failing check of the sketch's reader. That is `TableTooLarge` if the table
/// and the strings take more than `options.max_bytes`. Returns `TrailingBytes` if bytes follow the image, and `Memory` if an
/// allocation fails.
pub fn read_image<R: Read + Drop>(
    alloc: Global,
    options: &FrequentItemsImageOptions,
    opened: io::Result<R>,
) -> Result<FrequentItemsSketch<String>, ImageFailure>
    ensures read { (image : List ℕ) → IsOpened R.remaining image opened
        → MatchResult result (Loads options.now.max_bytes image) (IsRejected options.now.max_bytes image) }
    ensures key { IfOk result (λ sketch. sketch.key ≡ options.now.key) }
{
    let image = match read_opened(alloc, options.max_bytes, opened) {
        Ok(image) => image,
        Err(failure) => return Err(failure),
    };
    match load(alloc, *options, &image) {
        Ok(sketch) => Ok(sketch),
        Err(failure) => Err(failure),
    }
}

/// Returns the bytes of an image.
///
/// # Errors
///
/// Returns `Read` if the image could not be opened or a read fails, `TooLong` if there are more than `limit` bytes, and `Memory` if
/// an allocation fails.
pub fn read_opened<R: Read + Drop>(
    alloc: Global,
    limit: usize,
    opened: io::Result<R>,
) -> Result<Vec<u8>, ImageFailure>
    ensures bytes { (image : List ℕ) → IsOpened R.remaining image opened
        → MatchResult result (λ bytes. bytes.items ≡ image) (IsUnread limit image) }
    ensures fits { IfOk result (λ bytes. length bytes.items ≤ limit) }
{
    match opened {
        Ok(reader) => read_bytes(alloc, reader, limit),
        Err(error) => Err(ImageFailure::Read(error)),
    }
}

/// Returns the bytes that a reader has left.
fn read_bytes<R: Read + Drop>(
    alloc: Global,
    reader: R,
    limit: usize,
) -> Result<Vec<u8>, ImageFailure>
    ensures bytes { IfOk result (λ bytes. IfSome (R.remaining reader) (λ image. bytes.items ≡ image)) }
    ensures fits { IfOk result (λ bytes. length bytes.items ≤ limit) }
    ensures err { IfErr result (λ failure. IfSome (R.remaining reader) (λ image. IsUnread limit image failure)) }
{
    let cut = limit.saturating_add(1);
    let mut bytes = Vec::new(alloc);
    let mut front = reader.take(cut as u64);
    match front.read_to_end(&mut bytes) {
        Ok(count) if count >= cut => Err(ImageFailure::TooLong),
        Ok(_) => Ok(bytes),
        Err(error) => Err(ImageFailure::Read(error)),
    }
}

/// Returns the sketch of an image. Its table hashes under the key of the options.
pub fn load(
    alloc: Global,
    options: FrequentItemsImageOptions,
    image: &[u8],
) -> Result<FrequentItemsSketch<String>, ImageFailure>
    requires { length image.now ≤ options.max_bytes }
    ensures loaded { MatchResult result (Loads options.max_bytes image.now) (IsBadImage options.max_bytes image.now) }
    ensures key { IfOk result (λ sketch. sketch.key ≡ options.key) }
{
    let read = FrequentItemsSketch::<String>::deserialize_prefix(alloc, image, options);
    match read {
        Ok((sketch, used)) => {
            if used < image.len() {
                return Err(ImageFailure::TrailingBytes);
            }
            Ok(sketch)
        }
        Err(error) => Err(failure_of(error)),
    }
}

/// Returns the failure for an error of a reader of images.
pub fn failure_of(error: Error) -> ImageFailure
    ensures memory { error.fault ≡ NoMemory → result ≡ Memory }
    ensures other { (result ≡ Memory) ⊎ (result ≡ Rejected error.fault) }
{
    match error.fault() {
        Fault::NoMemory => ImageFailure::Memory,
        fault => ImageFailure::Rejected(fault),
    }
}
