//! Examples of `crates/datasketches/src/image_kind.rt`. Written by `tests/docs/examples.py`.
use datasketches::{ImageKind, Session};

pub fn takes_filter(session: &mut Session<u64>, name: &str, image: &[u8]) -> bool {
    session.load(name, ImageKind::Bloom, image, 1 << 20).is_ok()
}
