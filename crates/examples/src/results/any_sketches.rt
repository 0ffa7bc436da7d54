//! Results of the examples of sketches of any kind.
use crate::any_sketch_docs::readme;
use crate::lines::ResultLines;
use any_sketch::{AnySketch, Item};
use sketch_frequencies::FrequentItemsSketch;
use std::alloc::Global;

pub fn write(lines: &mut ResultLines) {
    lines.show("count_words", &number_of_tea(lines.alloc));
}

/// Returns the weight of a word that stands twice in a line.
fn number_of_tea(alloc: Global) -> Option<u64> {
    let Ok(words) = FrequentItemsSketch::new(alloc, 64) else {
        return None;
    };
    let mut sketch = AnySketch::FrequentStrings(words);
    if readme::count_words(&mut sketch, "tea milk tea").is_err() {
        return None;
    }
    match sketch.bounds(Item::Text("tea")) {
        Ok(bounds) => Some(bounds.lower_bound),
        Err(_) => None,
    }
}
