//! Calls on Count-Min sketches that allocate nothing, and that neither a session nor the library for C makes.
use crate::output::write_values;
use crate::trial::{Trial, counted};
use datasketches::countmin::CountMinSketch;

/// Writes what an empty sketch returns about itself, and whether an update fails.
pub fn counts(trial: &mut Trial) {
    let Ok(mut sketch) = CountMinSketch::<u8>::new(trial.alloc, 3, 64) else {
        return trial.fail();
    };
    let answers = counted!(
        trial,
        [
            sketch.is_empty(),
            sketch == sketch,
            sketch.update(1u64).is_err(),
        ]
    );
    let size = counted!(trial, sketch.estimated_size());
    write_values(trial, "answers", &answers);
    write_values(trial, "size", &[size]);
}
