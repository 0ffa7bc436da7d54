//! The file that keeps the image of a run's sketch.
ghost use Rattle.std.specs.Prelude.{◌≡◌, ◌⊎◌, ℕ, List, Option, IfErr, IfSome, OnOk};
ghost use Rattle.sketches.specs.SaveFailures.{IsWriteFailure};

use crate::arguments::words::shown;
use crate::image::image_place::{replace, target_of};
use crate::image::save::{Keeper, SaveFailure, write_filter, write_image};
use sketch_bloom::BloomFilter;
use sketch_frequencies::FrequentItemsSketch;
use std::fs::File;
use std::io::Write;
use std::rt::Files;

/// A value that is saved as an image.
pub trait Saved {
    // A writer received an image of the value: what it held before, and after.
    ghost writes: { Self → Option (List ℕ) → Option (List ℕ) → Type 0 };

    /// Writes an image of the value.
    ///
    /// # Errors
    ///
    /// Returns `Write` if the writer fails. Otherwise the writer is not called.
    fn write<W: Write>(&self, writer: &mut W) -> Result<(), SaveFailure>
        ensures image { OnOk result (writes self.now (W.contents writer.old) (W.contents writer.new)) }
        ensures unwritten { IfErr result (λ failure. IsWriteFailure failure ⊎ (writer.new ≡ writer.old)) };
}

impl Saved for FrequentItemsSketch<String> {
    ghost use Rattle.sketches.specs.Images.{WritesImage};

    ghost writes = { λ s held holds. WritesImage s held holds };

    fn write<W: Write>(&self, writer: &mut W) -> Result<(), SaveFailure> {
        write_image(self, writer)
    }
}

impl Saved for BloomFilter {
    ghost use Rattle.sketches.specs.FilterImages.{WritesFilter};

    ghost writes = { λ filter held holds. WritesFilter filter held holds };

    fn write<W: Write>(&self, writer: &mut W) -> Result<(), SaveFailure> {
        write_filter(self, writer)
    }
}

/// The file that keeps the image of a sketch, if it has a name. If it cannot be written, this is reported on standard error.
#[derive(Drop)]
pub struct ImageFile<'r, 'n> {
    rt: &'r HostRuntime,
    name: Option<&'n str>,
    failed: bool,
}

impl<'r, 'n> ImageFile<'r, 'n> {
    /// Creates the file of this name, or one that keeps nothing. It is not opened yet.
    pub fn new(rt: &'r HostRuntime, name: Option<&'n str>) -> Self {
        ImageFile {
            rt,
            name,
            failed: false,
        }
    }

    /// Returns whether the image could not be written.
    pub fn has_failed(&self) -> bool {
        self.failed
    }
}

impl<'r, 'n> Keeper for ImageFile<'r, 'n> {
    fn keep(&mut self, sketch: &FrequentItemsSketch<String>) {
        let Some(name) = self.name else {
            return;
        };
        if let Err(failure) = save(self.rt, sketch, name) {
            self.failed = true;
            report(self.rt, name, failure);
        }
    }
}

/// Writes an image of the value to the file of a name.
///
/// A regular file is written beside, under the name with random digits and `.tmp` after it, and renamed. So after an error the file is as
/// it was. A symbolic link stays, and the file that it leads to is replaced or created.
pub fn save<S: Saved>(rt: &HostRuntime, value: &S, name: &str) -> Result<(), SaveFailure> {
    if is_special(rt, name) {
        let mut file = File::options().append(true).open(rt, name)?;
        return value.write(&mut file);
    }
    let target = target_of(rt, name)?;
    replace(rt, value, target.as_str())
}

/// Returns whether a name is that of an open file, such as standard output, or of a device or a pipe. They are written in place.
pub fn is_special(rt: &HostRuntime, name: &str) -> bool {
    if is_open(name) {
        return true;
    }
    match rt.metadata(name) {
        Ok(metadata) => !metadata.is_file(),
        Err(_) => false,
    }
}

/// Returns whether a name is one by which the system names an open file.
fn is_open(name: &str) -> bool {
    name == "/dev/stdout"
        || name == "/dev/stderr"
        || name.starts_with("/dev/fd/")
        || name.starts_with("/proc/")
}

/// Reports that the image could not be written.
pub fn report(rt: &HostRuntime, name: &str, failure: SaveFailure) {
    let _ = match failure {
        SaveFailure::Memory => eprintln!(rt; "sketches: {}: no memory", shown(name)),
        SaveFailure::ItemTooLong => eprintln!(rt;
            "sketches: {}: an item has 2^32 bytes or more",
            shown(name)
        ),
        SaveFailure::Write(error) => eprintln!(rt; "sketches: {}: {error}", shown(name)),
    };
}
