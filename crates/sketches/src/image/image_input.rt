//! Files that should be images.
use crate::read::files::{Input, open};
use sketch_base::Family;
use std::io;
use std::io::Read;

/// The number of bytes at the front of an image after which its family is looked at. Shorter inputs are read whole.
const FRONT: usize = 64;

/// The index of the byte of the family.
const FAMILY: usize = 2;

/// An input that should be an image. It ends after its first bytes if they are those of no image, so that a large file of another kind
/// is not read whole.
#[derive(Drop)]
pub struct ImageInput {
    input: Input,
    /// The number of bytes that were read, at most `FRONT`.
    read: usize,
    /// The byte of the family, if it was read.
    family: Option<u8>,
}

impl ImageInput {
    /// Opens a file, or standard input for `-`.
    pub fn open(rt: &HostRuntime, name: &str) -> io::Result<Self> {
        let input = open(rt, name)?;
        Ok(ImageInput {
            input,
            read: 0,
            family: None,
        })
    }

    /// Returns whether the first bytes were read, and are not those of an image.
    fn is_no_image(&self) -> bool {
        self.read >= FRONT && !self.family.is_some_and(|family| is_family(family))
    }
}

/// Returns whether a byte is that of a family of which images are read.
fn is_family(byte: u8) -> bool {
    byte == Family::FREQUENCY.id || byte == Family::BLOOMFILTER.id || byte == Family::COUNTMIN.id
}

impl Read for ImageInput {
    fn read(&mut self, buf: &mut [u8]) -> io::Result<usize> {
        if self.is_no_image() {
            return Ok(0);
        }
        let count = self.input.read(buf)?;
        if self.read <= FAMILY && self.read.saturating_add(count) > FAMILY {
            self.family = buf.get(FAMILY - self.read).copied();
        }
        self.read = self.read.saturating_add(count).min(FRONT);
        Ok(count)
    }
}
