//! Fields between delimiters.
ghost use Rattle.std.specs.Prelude.{◌<◌};

/// The field of an index, counted from 0, between delimiters of one byte.
#[derive(Clone, Copy)]
pub struct Field {
    pub delimiter: u8,
    pub index: u32,
    ghost ascii: { delimiter < 128 },
}
