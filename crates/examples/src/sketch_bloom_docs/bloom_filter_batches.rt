//! Examples of `crates/sketch_bloom/src/bloom_filter/batches.rt`. Written by `tests/docs/examples.py`.
use sketch_base::{Error, Lines, OffsetStrings, Strs, Words};
use sketch_bloom::BloomFilter;

pub fn insert_numbers(filter: &mut BloomFilter, numbers: &[u64]) {
    filter.insert_all(numbers);
}

pub fn vocabulary_has(vocabulary: &mut BloomFilter, text: &str, word: &str) -> bool {
    vocabulary.insert_all(Words::new(text));
    vocabulary.contains_item(word)
}

pub fn block_list_has(blocked: &mut BloomFilter, list: &str, name: &str) -> bool {
    blocked.insert_all(Lines::new(list));
    blocked.contains_item(name)
}

pub fn block_names(blocked: &mut BloomFilter, names: &[u8], ends: &[u64]) -> Result<(), Error> {
    blocked.insert_all(OffsetStrings::new(names, ends)?);
    Ok(())
}

pub fn known_of_four(seen: &BloomFilter, visitors: &[u64; 4]) -> [bool; 4] {
    let mut known = [false; 4];
    seen.contains_all(visitors.as_slice(), &mut known);
    known
}

pub fn are_blocked(blocked: &BloomFilter, names: &[&str; 4]) -> [bool; 4] {
    let mut answers = [false; 4];
    blocked.contains_all(Strs(names), &mut answers);
    answers
}

pub fn repeated_of_four(seen: &mut BloomFilter, visitors: &[u64; 4]) -> [bool; 4] {
    let mut repeated = [false; 4];
    seen.contains_and_insert_all(visitors.as_slice(), &mut repeated);
    repeated
}

pub fn repeated_names(seen: &mut BloomFilter, names: &[&str; 4]) -> [bool; 4] {
    let mut repeated = [false; 4];
    seen.contains_and_insert_all(Strs(names), &mut repeated);
    repeated
}

pub fn add_visitors_of_weekend(
    week: &mut BloomFilter,
    saturday: &BloomFilter,
    sunday: &BloomFilter,
) -> Result<(), Error> {
    week.union_all(&[saturday, sunday])
}

pub fn insert_even(filter: &mut BloomFilter, numbers: &[u64]) -> Result<(), Error> {
    filter.extend(numbers.iter().filter(|n| **n % 2 == 0))?;
    Ok(())
}
