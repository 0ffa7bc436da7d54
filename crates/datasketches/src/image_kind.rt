//! Kinds of images.

/// The kind of sketch that an image is read as. For a Count-Min sketch it has the seed, which the image does not
/// contain.
///
/// # Examples
///
/// ```
/// use datasketches::{ImageKind, Session};
///
/// fn takes_filter(session: &mut Session<u64>, name: &str, image: &[u8]) -> bool {
///     session.load(name, ImageKind::Bloom, image, 1 << 20).is_ok()
/// }
/// ```
#[derive(Clone, Copy, Debug, PartialEq, Eq)]
pub enum ImageKind {
    /// A frequent items sketch.
    Frequent,
    /// A Count-Min sketch of signed weights.
    CountI64 { seed: u64 },
    /// A Count-Min sketch of nonnegative weights.
    CountU64 { seed: u64 },
    /// A Bloom filter.
    Bloom,
}
