//! The parts of records that options choose.
use crate::arguments::csv_options::{csv_options, weighed_line};
use crate::arguments::shared_options::max_line_of;
use crate::item::weighing::WeighedRecord;
use crate::print::endings::{ERROR, fail};
use crate::read::files::Files;
use clap::ArgMatches;

/// Returns the part of a record of files that is its item and the part with its weight, as the options choose. With names of CSV,
/// reads the header of the first file. Returns the status after a message if the options are wrong or do not fit the file.
pub fn weighed_record<'n>(
    rt: &HostRuntime,
    matches: &ArgMatches<'n>,
    files: &mut Files<'_, '_, 'n>,
) -> Result<WeighedRecord, u8> {
    match csv_options(matches, "field", Some("weight")) {
        Ok(Some(csv)) => match files.columns(csv, max_line_of(matches) as usize) {
            Some(chosen) => Ok(chosen),
            None => Err(ERROR),
        },
        Ok(None) => match weighed_line(matches) {
            Ok(chosen) => Ok(chosen),
            Err(message) => Err(fail(rt, message)),
        },
        Err(message) => Err(fail(rt, message)),
    }
}
