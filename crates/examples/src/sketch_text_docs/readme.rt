//! Examples of `crates/sketch_text/README.md`. Written by `tests/docs/examples.py`.
use sketch_base::Error;
use sketch_text::records::{CsvField, RecordItems, RecordPart, WeighedRecord};
use std::alloc::Global;

pub fn number_of_sales(alloc: Global, table: &[u8]) -> Result<usize, Error> {
    let item = RecordPart::Csv(CsvField {
        delimiter: b',',
        index: 0,
    });
    let weight = RecordPart::Csv(CsvField {
        delimiter: b',',
        index: 2,
    });
    let chosen = WeighedRecord {
        item,
        weight: Some(weight),
    };
    match RecordItems::<u64>::read(alloc, table, chosen) {
        Ok(sales) => Ok(sales.weights().len()),
        Err(bad) => Err(bad.error),
    }
}
