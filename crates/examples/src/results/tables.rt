//! Results of the examples of tables of counters.
use crate::counter_table_docs::{
    equal_clone, keys, readme, reverse_purge_item_hash_map as slots,
    reverse_purge_item_iter as walk, slot,
};
use crate::lines::ResultLines;
use counter_table::ReversePurgeItemHashMap;
use sketch_base::{Error, Fault};
use std::alloc::Global;

pub fn write(lines: &mut ResultLines) {
    lines.show("twice", &equal_clone::twice(7_u64));
    let ended = write_words(lines);
    lines.show("words", &ended);
    let ended = write_visits(lines);
    lines.show("visits", &ended);
}

fn write_words(lines: &mut ResultLines) -> Result<(), Error> {
    let word = String::from_str(lines.alloc, "be")?;
    lines.show("has_word", &keys::has_word("to be", &word));
    lines.show("has_word", &keys::has_word("to bee", &word));
    Ok(())
}

/// Creates a table of `size` slots, if that is a power of two up to 8.
fn table(alloc: Global, size: usize) -> Result<ReversePurgeItemHashMap<u64>, Error> {
    if !size.is_power_of_two() || size > 8 {
        return Err(Error::invalid_argument(Fault::MapSizeNotPowerOfTwo));
    }
    ReversePurgeItemHashMap::new(alloc, size)
}

fn write_visits(lines: &mut ResultLines) -> Result<(), Error> {
    let mut visits = table(lines.alloc, 8)?;
    lines.show("counts_visit", &readme::counts_visit(&mut visits, 7));
    lines.show(
        "visits_of_four",
        &slots::visits_of_four(&visits, &[7, 8, 7, 9]),
    );
    lines.show("most_visited", &walk::most_visited(&visits));
    lines.show("longest_look_up", &slot::longest_look_up(&visits));
    Ok(())
}
