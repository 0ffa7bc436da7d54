//! Calls on sketches of frequent items that allocate nothing, and that neither a session nor the library for C makes.
use crate::output::{fault_of, write_values};
use crate::texts::{UpdateBy, sketch_of, update, write_sketch};
use crate::trial::{Trial, counted};
use datasketches::frequencies::FrequentItemsSketch;

/// A sketch of strings.
type Texts = FrequentItemsSketch<String>;

/// Updates of an item that is tracked, and an update of weight 0 by reference.
pub const BY_REFERENCE: [(&str, UpdateBy); 4] = [
    ("a", UpdateBy::Reference),
    ("a", UpdateBy::ReferenceWithCount(2)),
    ("h", UpdateBy::ReferenceWithCount(0)),
    ("a", UpdateBy::Value),
];

/// Updates that would exceed the maximum total.
pub const TOO_HEAVY: [(&str, UpdateBy); 3] = [
    ("b", UpdateBy::Reference),
    ("a", UpdateBy::ReferenceWithCount(1)),
    ("b", UpdateBy::Value),
];

/// Makes updates, marks their allocations to be counted, and writes a line of their errors.
fn write_updates(trial: &mut Trial, sketch: &mut Texts, updates: &[(&str, UpdateBy)]) {
    trial.write("updates");
    for (item, by) in updates {
        let item = trial.string(item);
        let updated = counted!(trial, update(sketch, *by, item));
        trial.write_value(" ", &fault_of(updated));
    }
    trial.write("\n");
}

/// Updates a sketch of one item `a` of this weight, and writes the sketch and the item.
pub fn play_updates(trial: &mut Trial, weight: u64, updates: &[(&str, UpdateBy)]) {
    let Ok(mut sketch) = sketch_of(trial, 8, &[("a", weight)]) else {
        return trial.fail();
    };
    write_updates(trial, &mut sketch, updates);
    write_sketch(trial, &sketch, &["a"]);
}

/// Returns a sketch's sizes, whether it is empty, and the estimates of two items in one call.
fn numbers(sketch: &FrequentItemsSketch<i64>) -> [u64; 6] {
    let mut estimates = [0; 2];
    sketch.estimate_all([-1, 3].as_slice(), &mut estimates);
    [
        u64::from(sketch.lg_max_map_size()),
        u64::from(sketch.lg_cur_map_size()),
        sketch.estimated_size() as u64,
        sketch.is_empty() as u64,
        estimates[0],
        estimates[1],
    ]
}

/// Writes the numbers of a sketch of one item.
pub fn questions(trial: &mut Trial) {
    let Ok(mut sketch) = FrequentItemsSketch::new(trial.alloc, 64) else {
        return trial.fail();
    };
    trial.check(sketch.update_with_count(3, 7));
    let numbers = counted!(trial, numbers(&sketch));
    write_values(trial, "numbers", &numbers);
}
