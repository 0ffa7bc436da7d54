//! The command line of the commands over images.
use crate::arguments::shared_options::{above, escape, exact, json, key, no_header, rows, save};
use clap::{Arg, Command, value_parser};
use std::alloc::{AllocError, Global};

/// Returns the description of `sketches merge`.
pub fn merge_command<'a>(alloc: Global) -> Result<Command<'a>, AllocError> {
    Ok(
        Command::new(alloc, "merge")
            .about("Prints the most frequent items of saved images, with bounds of their numbers")
            .arg(rows(alloc))?
            .arg(above(alloc))?
            .arg(save(alloc))?
            .arg(max_bytes(alloc))?
            .arg(key(alloc))?
            .arg(no_header(alloc))?
            .arg(exact(alloc))?
            .arg(escape(alloc)?)?
            .arg(json(alloc))?
            .arg(
                Arg::new(alloc, "images")
                    .value_name("IMAGE")
                    .required(true)
                    .num_args(1..)
                    .help("Reads these images; - is standard input"),
            )?,
    )
}

/// Returns the description of `sketches show`.
pub fn show_command<'a>(alloc: Global) -> Result<Command<'a>, AllocError> {
    Ok(
        Command::new(alloc, "show")
            .about("Prints what an image states: its kind, sizes, total and error")
            .arg(
                Arg::new(alloc, "seed")
                    .long("seed")
                    .value_name("N")
                    .value_parser(value_parser!(u64))
                    .default_value("9001")
                    .help(
                        "Takes N for the seed of a Count-Min sketch, of which its image has a hash",
                    ),
            )?
            .arg(max_bytes(alloc))?
            .arg(
                Arg::new(alloc, "image")
                    .value_name("IMAGE")
                    .required(true)
                    .help("Reads this image; - is standard input"),
            )?,
    )
}

/// Returns the option of the limit of an image.
fn max_bytes<'a>(alloc: Global) -> Arg<'a> {
    Arg::new(alloc, "max-bytes")
        .long("max-bytes")
        .value_name("BYTES")
        .value_parser(value_parser!(u32))
        .default_value("1073741824")
        .help("Ends with an error at an image of more BYTES, or if its table and strings take more")
}
