//! Results of the examples of `sketch_base`, but for hashes and strings.
use crate::lines::ResultLines;
use crate::sketch_base_docs::{
    divisor, error, family, fault, fed_items, map_state, readme, rows, sketch_slice, validity,
};
use sketch_base::{Error, Fault, FedItems};
use std::alloc::{AllocError, Global};
use std::hash::RandomState;

pub fn write(lines: &mut ResultLines, state: RandomState) {
    write_fields(lines);
    write_errors(lines);
    write_bitmaps(lines);
    write_rows(lines);
    lines.show("bucket", &divisor::bucket(300));
    lines.show("has_items", &fed_items::has_items(FedItems(&[b"ann"])));
    lines.show("ages", &age_of(lines.alloc, state));
}

fn write_fields(lines: &mut ResultLines) {
    let image = [1, 2, 0, 0, 0, 0, 0, 0, 0];
    lines.show("there_and_back", &readme::there_and_back(lines.alloc, 77));
    lines.show("version_and_seed", &sketch_slice::version_and_seed(&image));
    lines.show("version_and_seed", &sketch_slice::version_and_seed(&[1]));
}

fn write_errors(lines: &mut ResultLines) {
    let lacking = Error::invalid_data(Fault::InsufficientData);
    let wrong = Error::invalid_data(Fault::BadFamily);
    lines.show("is_cut_short", &error::is_cut_short(&lacking));
    lines.show("is_cut_short", &error::is_cut_short(&wrong));
    lines.show("is_of_a_filter", &family::is_of_a_filter(21));
    lines.show("is_of_a_filter", &family::is_of_a_filter(10));
    lines.show("reason", &fault::reason(&wrong));
}

/// Returns the age of a person, who is in the map.
fn age_of(alloc: Global, state: RandomState) -> Result<Option<u8>, AllocError> {
    let mut map = map_state::ages(alloc, state);
    map.insert(String::from_str(alloc, "ann")?, 37)?;
    Ok(map.get("ann").copied())
}

fn write_bitmaps(lines: &mut ResultLines) {
    lines.show("number_of_nulls", &validity::number_of_nulls(&[0b101, 0]));
    lines.show("first_valid", &validity::first_valid(&[7, 8, 9], &[0b110]));
    lines.show("first_valid", &validity::first_valid(&[7], &[0]));
    lines.show("first_valid", &validity::first_valid(&[7, 8, 9], &[]));
}

fn write_rows(lines: &mut ResultLines) {
    let eight = [7_u64; 8];
    let nine = [7_u64; 9];
    lines.show(
        "has_bit_for_each",
        &rows::has_bit_for_each(&eight.as_slice(), &[0]),
    );
    lines.show(
        "has_bit_for_each",
        &rows::has_bit_for_each(&nine.as_slice(), &[0]),
    );
}
