//! Runs the commands over images.
use crate::arguments::keys::key_of;
use crate::arguments::shared_options::{
    BAD_THRESHOLD, layout_of, rows_of, threshold_of, usual_number,
};
use crate::arguments::words::shown;
use crate::image::image_file::ImageFile;
use crate::image::image_files::ImageFiles;
use crate::image::image_input::ImageInput;
use crate::image::images::ImageFailure;
use crate::image::merge::{MergeOptions, merge};
use crate::image::show::show;
use crate::print::endings::{ERROR, end_of_output, fail, fail_at, fail_inexact, message_of};
use crate::print::output::Watched;
use crate::print::terminal::StandardOutput;
use any_sketch::ImageOptions;
use clap::ArgMatches;
use sketch_frequencies::{FrequentItemsImageOptions, TableKey};

/// Runs `sketches merge`. Returns the status.
pub fn run_merge(rt: &HostRuntime, matches: &ArgMatches<'_>) -> u8 {
    let Some(threshold) = threshold_of(matches) else {
        return fail(rt, BAD_THRESHOLD);
    };
    let key = match key_of(rt, matches.get_str("key")) {
        Ok(key) => key,
        Err(fault) => return fail(rt, message_of(fault)),
    };
    let options = MergeOptions {
        images: FrequentItemsImageOptions {
            max_bytes: usual_number(matches, "max-bytes"),
            key,
        },
        threshold,
        rows: rows_of(matches),
        layout: layout_of(matches, false),
    };
    let names = matches.get_strs("images").unwrap_or(&[]);
    let Some(mut image) = image_file(rt, matches) else {
        return fail(rt, "--save must name a file");
    };
    let mut images = ImageFiles::new(rt, names);
    let status = match merge(
        rt.alloc(),
        options,
        &mut images,
        &mut image,
        &mut Watched::new(StandardOutput::new(rt)),
    ) {
        Ok(None) => 0,
        Ok(Some(error)) => fail_inexact(rt, error),
        Err(failure) => end(rt, failure, images.current()),
    };
    if image.has_failed() { ERROR } else { status }
}

/// Runs `sketches show`. Returns the status.
pub fn run_show(rt: &HostRuntime, matches: &ArgMatches<'_>) -> u8 {
    let options = ImageOptions {
        max_bytes: usual_number(matches, "max-bytes"),
        seed: matches.get_one::<u64>("seed").unwrap_or(0),
        key: TableKey::Plain,
    };
    let name = matches.get_str("image").unwrap_or("-");
    let image = ImageInput::open(rt, name);
    match show(
        rt.alloc(),
        &options,
        image,
        &mut Watched::new(StandardOutput::new(rt)),
    ) {
        Ok(()) => 0,
        Err(failure) => end(rt, failure, name),
    }
}

/// Returns the file of the option `--save`, or `None` if it is standard output.
pub fn image_file<'r, 'n>(
    rt: &'r HostRuntime,
    matches: &ArgMatches<'n>,
) -> Option<ImageFile<'r, 'n>> {
    match matches.get_str("save") {
        Some("-") => None,
        name => Some(ImageFile::new(rt, name)),
    }
}

/// Prints why a run ended. Returns the status.
pub fn end(rt: &HostRuntime, failure: ImageFailure, file: &str) -> u8 {
    match failure {
        ImageFailure::Memory => fail(rt, "no memory"),
        ImageFailure::NoImage => fail(rt, "no image"),
        ImageFailure::Read(error) => {
            let _ = eprintln!(rt; "sketches: {}: {error}", shown(file));
            ERROR
        }
        ImageFailure::TooLong => fail_at(rt, file, "the image is longer than --max-bytes"),
        ImageFailure::Rejected(fault) => {
            let _ = eprintln!(rt;
                "sketches: {}: {}: {}",
                shown(file),
                fault.name(),
                fault.text()
            );
            ERROR
        }
        ImageFailure::TrailingBytes => fail_at(rt, file, "bytes follow the image"),
        ImageFailure::TooManyItems => fail_at(rt, file, "more than 2^64 - 1 items with this image"),
        ImageFailure::Write(error) => end_of_output(rt, error),
    }
}
