//! Items that are hard to hash, to clone, to write or to compare, through all calls that take items.
use crate::allocation_free;
use crate::items::{Item, MARKED, NUM_LETTERS};
use crate::output::{
    begin_frequent, begin_values, write_bounds, write_error, write_outcome, write_values,
};
use crate::table::{Map, free_table, grow, purge, put, put_ref};
use crate::trial::{Trial, counted};
use datasketches::error::Error;
use datasketches::frequencies::{ErrorType, FrequentItemsSketch, Row};
use std::alloc::Global;

/// A sketch of items of a kind.
type Sketch<const KIND: u8> = FrequentItemsSketch<Item<KIND>>;

/// Plays the trial with this name, with items of a kind.
pub fn play<const KIND: u8>(trial: &mut Trial, calls: &str) {
    match calls {
        "sketch" => sketch::<KIND>(trial),
        "clones" => clones::<KIND>(trial),
        "rows" => rows::<KIND>(trial),
        "questions" => allocation_free::table::questions::<KIND>(trial),
        "walk" => allocation_free::table::walk::<KIND>(trial),
        "marked" => marked::<KIND>(trial),
        "table" => table::<KIND>(trial),
        _ => trial.fail(),
    }
}

/// The numbers that are looked up. 33 equals 1 if the kind does not distinguish all numbers.
const ASKED: [u64; 4] = [1, 2, MARKED, 1 + NUM_LETTERS];

/// Writes a sketch's numbers, and the estimates and bounds of the items that are looked up.
fn write_asked<const KIND: u8>(trial: &mut Trial, sketch: &Sketch<KIND>) {
    begin_frequent(trial, sketch);
    for number in ASKED {
        write_bounds(trial, sketch, &Item::of(number));
    }
    trial.write("\n");
}

/// Creates a sketch of one item.
fn of_one<const KIND: u8>(alloc: Global, number: u64, count: u64) -> Result<Sketch<KIND>, Error> {
    let mut sketch = FrequentItemsSketch::new(alloc, 8)?;
    sketch.update_with_count(Item::of(number), count)?;
    Ok(sketch)
}

/// Updates a sketch by value and by reference.
fn update_all<const KIND: u8>(trial: &mut Trial, sketch: &mut Sketch<KIND>) {
    trial.check(sketch.update_with_count(Item::of(2), 5));
    trial.check(sketch.update_ref(&Item::of(1 + NUM_LETTERS)));
    trial.check(sketch.update_with_count_ref(&Item::of(3), 9));
}

/// Merges a sketch of one item.
fn merge_one<const KIND: u8>(
    alloc: Global,
    sketch: &mut Sketch<KIND>,
    number: u64,
    count: u64,
) -> Result<(), Error> {
    let other = of_one(alloc, number, count)?;
    sketch.merge(&other)
}

/// Returns the sketch that is read from the image of a clone.
fn restored<const KIND: u8>(alloc: Global, sketch: &Sketch<KIND>) -> Result<Sketch<KIND>, Error> {
    let image = sketch.try_clone()?.serialize()?;
    FrequentItemsSketch::deserialize(alloc, &image)
}

/// Resets a sketch and adds seven items of weight 2. The seventh needs one counter too many.
fn update_to_purge<const KIND: u8>(trial: &mut Trial, sketch: &mut Sketch<KIND>) {
    sketch.reset();
    for number in 1..=7 {
        trial.check(sketch.update_with_count(Item::of(number), 2));
    }
}

/// Writes the items whose lower bound exceeds 1.
fn write_rows<const KIND: u8>(trial: &mut Trial, sketch: &Sketch<KIND>) -> Result<(), Error> {
    let rows = sketch.frequent_items_with_threshold(ErrorType::NoFalsePositives, 1)?;
    trial.write("rows");
    for row in &rows {
        trial.write_value(" ", &row.item().number());
        trial.write_value("=", &row.estimate());
    }
    trial.write("\n");
    Ok(())
}

/// Writes the sketch that is read from a sketch's image, and its rows.
fn write_restored<const KIND: u8>(trial: &mut Trial, sketch: &Sketch<KIND>) -> Result<(), Error> {
    let copy = restored(trial.alloc, sketch)?;
    write_asked(trial, &copy);
    write_rows(trial, &copy)
}

/// Updates by value and by reference, merges, clones, lists rows and writes an image. No item is marked.
fn sketch<const KIND: u8>(trial: &mut Trial) {
    let Ok(mut sketch) = of_one::<KIND>(trial.alloc, 1, 1) else {
        return trial.fail();
    };
    update_all(trial, &mut sketch);
    write_asked(trial, &sketch);
    let merged = merge_one(trial.alloc, &mut sketch, 2 + NUM_LETTERS, 20);
    trial.check(merged);
    write_asked(trial, &sketch);
    let restored = write_restored(trial, &sketch);
    trial.check(restored);
    update_to_purge(trial, &mut sketch);
    write_asked(trial, &sketch);
}

/// Updates and merges, which clone a marked item.
fn clones<const KIND: u8>(trial: &mut Trial) {
    let Ok(mut sketch) = of_one::<KIND>(trial.alloc, 2, 1) else {
        return trial.fail();
    };
    let updated = sketch.update_with_count_ref(&Item::of(MARKED), 4);
    write_outcome(trial, updated);
    write_asked(trial, &sketch);
    let merged = merge_one(trial.alloc, &mut sketch, MARKED, 2);
    write_outcome(trial, merged);
    write_asked(trial, &sketch);
}

/// Makes the calls that clone or write, on a sketch of a marked item. An update of a tracked item does not clone it.
fn marked<const KIND: u8>(trial: &mut Trial) {
    let Ok(mut sketch) = of_one::<KIND>(trial.alloc, MARKED, 1) else {
        return trial.fail();
    };
    let updated = sketch.update_ref(&Item::of(MARKED));
    write_outcome(trial, updated);
    write_outcome(trial, sketch.try_clone());
    write_outcome(trial, sketch.frequent_items(ErrorType::NoFalseNegatives));
    write_outcome(trial, sketch.serialize());
    write_asked(trial, &sketch);
}

/// Writes a table, a purge of its clone, and the table in more slots.
fn table<const KIND: u8>(trial: &mut Trial) {
    let Ok(mut map) = free_table(trial.alloc, 8) else {
        return trial.fail();
    };
    fill::<KIND>(trial, &mut map);
    write_table(trial, &map);
    write_purged(trial, &map);
    trial.check(grow(&mut map, 32));
    write_table(trial, &map);
}

/// Adds five items to a table by value, then two of them and a sixth item by reference.
fn fill<const KIND: u8>(trial: &mut Trial, map: &mut Map<KIND>) {
    for number in [1, 2, 1 + NUM_LETTERS, 4, MARKED] {
        put(map, Item::of(number), 2);
    }
    for number in [2, 5, MARKED] {
        trial.check(put_ref(map, &Item::of(number), 1));
    }
}

/// Writes a purge of a clone.
fn write_purged<const KIND: u8>(trial: &mut Trial, map: &Map<KIND>) {
    match map.try_clone() {
        Ok(mut clone) => {
            write_values(trial, "purged", &[purge(&mut clone)]);
            write_table(trial, &clone);
        }
        Err(e) => write_error(trial, e),
    }
}

/// Returns the sum of all counts, by a walk.
fn sum_of_counts<const KIND: u8>(map: &Map<KIND>) -> u64 {
    let mut sum = 0u64;
    for (_, count) in map {
        sum = sum.wrapping_add(count);
    }
    sum
}

/// Returns the length of the list of entries.
fn num_entries<const KIND: u8>(trial: &mut Trial, map: &Map<KIND>) -> u64 {
    match map.active_entries() {
        Ok(entries) => entries.len() as u64,
        Err(_) => {
            trial.fail();
            0
        }
    }
}

/// Writes the numbers of entries and slots, the sum of a walk, the length of the list of entries, and some counts.
fn write_table<const KIND: u8>(trial: &mut Trial, map: &Map<KIND>) {
    let numbers = [
        map.num_active() as u64,
        map.len() as u64,
        sum_of_counts(map),
        num_entries(trial, map),
    ];
    begin_values(trial, "table", &numbers);
    for number in ASKED {
        trial.write_value(" ", &map.get_counted(&Item::of(number)).0);
    }
    trial.write("\n");
}

/// Returns the rows of a sketch of seven items, numbered from `first` on. The last two items are heavy. The seventh
/// causes a purge, which subtracts 1 from each.
fn heavy_rows<const KIND: u8>(alloc: Global, first: u64) -> Result<Vec<Row<Item<KIND>>>, Error> {
    let mut sketch = FrequentItemsSketch::new(alloc, 8)?;
    for (place, weight) in [1, 1, 1, 1, 1, 50, 100].iter().enumerate() {
        sketch.update_with_count(Item::of(first.wrapping_add(place as u64)), *weight)?;
    }
    sketch.frequent_items(ErrorType::NoFalsePositives)
}

/// Writes a line of a row's item, its bounds and its estimate, and marks the allocations to be counted.
fn write_row<const KIND: u8>(trial: &mut Trial, row: &Row<Item<KIND>>) {
    let numbers = counted!(
        trial,
        [
            row.item().number(),
            row.lower_bound(),
            row.estimate(),
            row.upper_bound(),
        ]
    );
    write_values(trial, "row", &numbers);
}

/// Writes the first row, a clone of the second row, and whether the clone equals each row and another one. Marks the
/// allocations to be counted.
fn write_clone<const KIND: u8>(
    trial: &mut Trial,
    rows: &[Row<Item<KIND>>],
    others: &[Row<Item<KIND>>],
) {
    let ([first, second], [_, other]) = (rows, others) else {
        return trial.fail();
    };
    let Ok(copy) = second.try_clone() else {
        return trial.fail();
    };
    write_row(trial, first);
    write_row(trial, &copy);
    let equal = counted!(trial, [copy == *first, copy == *second, copy == *other]);
    write_values(trial, "equal", &equal);
}

/// Writes two rows, and compares a clone of the second row with both rows, and with a row whose item may equal its own.
fn rows<const KIND: u8>(trial: &mut Trial) {
    let Ok(rows) = heavy_rows::<KIND>(trial.alloc, 1) else {
        return trial.fail();
    };
    let Ok(others) = heavy_rows::<KIND>(trial.alloc, 1 + NUM_LETTERS) else {
        return trial.fail();
    };
    write_clone(trial, &rows, &others)
}
