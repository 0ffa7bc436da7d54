//! Examples of `crates/sketch_countmin/src/count_min_sketch/batches.rt`. Written by `tests/docs/examples.py`.
use sketch_base::{Error, Strs, Words};
use sketch_countmin::CountMinSketch;

pub fn count_batch(visits: &mut CountMinSketch<u32>, users: &[u64]) -> Result<(), Error> {
    visits.update_all(users)
}

pub fn count_text(counts: &mut CountMinSketch<u64>, text: &str) -> Result<(), Error> {
    counts.update_all(Words::new(text))
}

pub fn count_even(counts: &mut CountMinSketch<u64>, numbers: &[u64]) -> Result<(), Error> {
    counts.extend(numbers.iter().filter(|n| **n % 2 == 0))
}

pub fn count_bytes(
    traffic: &mut CountMinSketch<u64>,
    hosts: &[&str; 2],
    bytes: [u64; 2],
) -> Result<(), Error> {
    traffic.update_all_with_weights(Strs(hosts), &bytes)
}

pub fn visits_of(visits: &CountMinSketch<u32>, users: &[u64; 2]) -> [u32; 2] {
    let mut estimates = [0; 2];
    visits.estimate_all(users.as_slice(), &mut estimates);
    estimates
}

pub fn add_weekend(
    week: &mut CountMinSketch<u64>,
    saturday: &CountMinSketch<u64>,
    sunday: &CountMinSketch<u64>,
) -> Result<(), Error> {
    week.merge_all(&[saturday, sunday])
}
