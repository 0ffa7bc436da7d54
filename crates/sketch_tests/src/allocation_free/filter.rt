//! Calls on filters that allocate nothing, and that neither a session nor the library for C makes.
use crate::output::write_values;
use crate::trial::{Trial, counted};
use datasketches::bloom::BloomFilterBuilder;

/// Writes what an empty filter of 256 bits and three hashes returns about itself, and whether it contained an item
/// before its insertion.
pub fn filter(trial: &mut Trial) {
    let builder = counted!(trial, BloomFilterBuilder::with_size(256, 3).seed(7));
    let Ok(mut filter) = builder.build(trial.alloc) else {
        return trial.fail();
    };
    let answers = counted!(
        trial,
        [
            filter.is_empty(),
            filter.is_compatible(&filter),
            filter == filter,
            filter.contains_and_insert(&1u64),
        ]
    );
    let size = counted!(trial, filter.estimated_size());
    write_values(trial, "answers", &answers);
    write_values(trial, "size", &[size]);
}
