//! Files that hold images.
ghost use Rattle.sketches.specs.Images.{OpensImage};

use crate::image::image_input::ImageInput;
use crate::image::images::Images;
use std::io;

/// Images in files that are opened one after another.
#[derive(Drop)]
pub struct ImageFiles<'a> {
    rt: &'a HostRuntime,
    names: &'a [&'a str],
    next: usize,
}

impl<'a> ImageFiles<'a> {
    /// Creates the images in files of these names, in order. None is opened yet. The name `-` stands for standard input.
    pub fn new(rt: &'a HostRuntime, names: &'a [&'a str]) -> Self {
        ImageFiles { rt, names, next: 0 }
    }

    /// Returns the name of the file that was opened last.
    pub fn current(&self) -> &'a str {
        match self.names.get(self.next.saturating_sub(1)) {
            Some(name) => *name,
            None => "-",
        }
    }
}

impl<'a> Images for ImageFiles<'a> {
    type Reader = ImageInput;

    fn next(&mut self) -> Option<io::Result<ImageInput>> {
        let name = self.names.get(self.next)?;
        self.next += 1;
        Some(ImageInput::open(self.rt, name))
    }
}
