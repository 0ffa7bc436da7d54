//! Sketches and filters that are saved as images.
ghost use Rattle.std.specs.Prelude.{◌≡◌, ◌⊎◌, Option, None, IfErr, IfSome, OnOk};
ghost use Rattle.sketch_base.specs.declared.fault.Fault.TheVariants.{NoMemory};
ghost use Rattle.sketches.specs.Added.{Sketch};
ghost use Rattle.sketches.specs.Images.{WritesImage};
ghost use Rattle.sketches.specs.FilterImages.{WritesFilter};
ghost use Rattle.sketches.specs.SaveFailures.{IsNotSaved, IsWriteFailure};
ghost use Rattle.sketches.specs.declared.image.save.SaveFailure.TheVariants.{Memory, ItemTooLong};

use sketch_base::{Error, Fault};
use sketch_bloom::BloomFilter;
use sketch_frequencies::FrequentItemsSketch;
use std::alloc::AllocError;
use std::io;
use std::io::Write;

/// What keeps the sketch of a run.
pub trait Keeper {
    // The sketch that was kept last, where it is known.
    ghost kept: { Self → Option Sketch } = { λ _. None };

    /// Keeps the sketch. This comes before the report on it is written.
    fn keep(&mut self, sketch: &FrequentItemsSketch<String>)
        ensures { IfSome (kept self.new) (λ kept. kept ≡ sketch.now) };
}

/// The reason why a sketch was not saved.
#[derive(Debug, Drop)]
pub enum SaveFailure {
    /// An allocation failed.
    Memory,
    /// A string has 2^32 bytes or more.
    ItemTooLong,
    /// The image could not be written.
    Write(io::Error),
}

impl From<io::Error> for SaveFailure {
    fn from(error: io::Error) -> Self {
        SaveFailure::Write(error)
    }
}

impl From<AllocError> for SaveFailure {
    fn from(_error: AllocError) -> Self {
        SaveFailure::Memory
    }
}

/// Writes an image of the sketch.
///
/// # Errors
///
/// Returns `ItemTooLong` if a string has 2^32 bytes or more, and `Memory` if the image cannot be allocated. The writer is not
/// called then. Returns `Write` if it fails.
pub fn write_image<W: Write>(
    sketch: &FrequentItemsSketch<String>,
    writer: &mut W,
) -> Result<(), SaveFailure>
    ensures image { OnOk result (WritesImage sketch.now (W.contents writer.old) (W.contents writer.new)) }
    ensures err { IfErr result (IsNotSaved sketch.now) }
    ensures unwritten { IfErr result (λ failure. IsWriteFailure failure ⊎ (writer.new ≡ writer.old)) }
{
    let image = match sketch.serialize() {
        Ok(image) => image,
        Err(error) => return Err(failure_of(error)),
    };
    match writer.write_all(&image) {
        Ok(()) => Ok(()),
        Err(error) => Err(SaveFailure::Write(error)),
    }
}

/// Writes an image of the filter.
///
/// # Errors
///
/// Returns `Memory` if the image cannot be allocated. The writer is not called then. Returns `Write` if it fails.
pub fn write_filter<W: Write>(filter: &BloomFilter, writer: &mut W) -> Result<(), SaveFailure>
    ensures image { OnOk result (WritesFilter filter.now (W.contents writer.old) (W.contents writer.new)) }
    ensures err { IfErr result (λ failure. IsWriteFailure failure ⊎ ((failure ≡ Memory) × (writer.new ≡ writer.old))) }
{
    let bytes = match filter.serialize() {
        Ok(bytes) => bytes,
        Err(_) => return Err(SaveFailure::Memory),
    };
    match writer.write_all(&bytes) {
        Ok(()) => Ok(()),
        Err(error) => Err(SaveFailure::Write(error)),
    }
}

/// Returns the failure for an error of `serialize`.
fn failure_of(error: Error) -> SaveFailure
    ensures memory { error.fault ≡ NoMemory → result ≡ Memory }
    ensures other { (result ≡ Memory) ⊎ (result ≡ ItemTooLong) }
{
    match error.fault() {
        Fault::NoMemory => SaveFailure::Memory,
        _ => SaveFailure::ItemTooLong,
    }
}
