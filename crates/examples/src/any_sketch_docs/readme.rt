//! Examples of `crates/any_sketch/README.md`. Written by `tests/docs/examples.py`.
use any_sketch::{AnyError, AnySketch, Item};

pub fn count_words(sketch: &mut AnySketch, line: &str) -> Result<(), AnyError> {
    for word in line.split(' ') {
        sketch.update(Item::Text(word), 1)?;
    }
    Ok(())
}
