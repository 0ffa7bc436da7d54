//! Results of the examples of heavy hitters of each tenant.
use super::RANDOM;
use crate::heavy_windows_docs::{heavy_windows_type as windows, readme};
use crate::lines::ResultLines;
use heavy_windows::{Error, ErrorType, HeavyWindows};
use std::alloc::Global;
use std::hash::RandomState;

pub fn write(lines: &mut ResultLines, state: RandomState) {
    let alloc = lines.alloc;
    lines.show("load_of_a_customer", &row_of_a_customer(alloc));
    lines.show("weight_of_the_first", &readme::weight_of_the_first(alloc));
    lines.show("keyed_load", &total_of_keyed(alloc));
    lines.show("load_of_strangers", &total_of_strangers(alloc, state));
}

/// Returns the estimate and the lower bound of the first row.
fn row_of_a_customer(alloc: Global) -> Result<Option<(u64, u64)>, Error> {
    let report = windows::load_of_a_customer(alloc)?;
    let row = report.rows.first();
    Ok(row.map(|row| (row.estimate(), row.lower_bound())))
}

/// Returns the total weight of a tenant's windows after one item.
fn total_of_tenant(alloc: Global, load: &mut HeavyWindows<String>) -> Result<u64, Error> {
    load.add(7, String::from_str(alloc, "/search")?, 5)?;
    let report = load.report(7, ErrorType::NoFalseNegatives, 0)?;
    Ok(report.total_weight)
}

fn total_of_keyed(alloc: Global) -> Result<u64, Error> {
    total_of_tenant(alloc, &mut windows::keyed_load(alloc, &RANDOM)?)
}

fn total_of_strangers(alloc: Global, state: RandomState) -> Result<u64, Error> {
    total_of_tenant(
        alloc,
        &mut windows::load_of_strangers(alloc, &RANDOM, state)?,
    )
}
