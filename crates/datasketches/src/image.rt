//! Images of sketches.
ghost use Rattle.std.specs.Prelude.{◌≡◌, IfOk, IfErr};
ghost use Rattle.sketch_base.specs.Errors.{no_memory};

use crate::image_kind::ImageKind;
use sketch_base::Error;
use std::alloc::Global;
use std::marker::Model;

/// The image of a sketch. For a Count-Min sketch the kind has the seed for reading, which the bytes do not contain.
#[derive(Drop)]
pub struct Image {
    kind: ImageKind,
    bytes: Vec<u8>,
}

impl Model for Image {
    ghost use Rattle.datasketches.specs.Images.{Image};

    ghost Value = { Image };

    ghost view = { λ image. record { kind = image.kind; bytes = image.bytes.items } };
}

impl Image {
    /// Creates an image of the kind with these bytes.
    pub fn new(kind: ImageKind, bytes: Vec<u8>) -> Self
        ensures { result ≡ record { kind = kind; bytes = bytes.items } }
    {
        Image { kind, bytes }
    }

    /// Returns the kind.
    pub fn kind(&self) -> ImageKind
        ensures { result ≡ self.now.kind }
    {
        self.kind
    }

    /// Returns the bytes.
    pub fn bytes(&self) -> &[u8]
        ensures { result.now ≡ self.now.bytes }
    {
        &self.bytes
    }

    /// Returns a copy of the bytes.
    ///
    /// # Errors
    ///
    /// Returns `NoMemory` if the copy cannot be allocated.
    pub fn copy_bytes(&self, alloc: Global) -> Result<Vec<u8>, Error>
        ensures copy { IfOk result (λ bytes. bytes.items ≡ self.now.bytes) }
        ensures err { IfErr result (λ e. e ≡ no_memory) }
    {
        Ok(Vec::from_slice(alloc, &self.bytes)?)
    }
}
