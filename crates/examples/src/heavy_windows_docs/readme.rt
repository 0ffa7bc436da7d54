//! Examples of `crates/heavy_windows/README.md`. Written by `tests/docs/examples.py`.
use heavy_windows::{Error, ErrorType, HeavyWindows};
use std::alloc::Global;

pub fn weight_of_the_first(alloc: Global) -> Result<u64, Error> {
    let mut windows = HeavyWindows::new(alloc, 2, 64)?;
    windows.add(1, "/search", 5)?;
    windows.add(2, "/search", 900)?;
    let report = windows.report(1, ErrorType::NoFalseNegatives, 0)?;
    Ok(report.total_weight)
}
