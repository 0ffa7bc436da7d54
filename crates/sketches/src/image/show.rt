//! What an image states.
ghost use Rattle.std.specs.List.{flat_map};
ghost use Rattle.std.specs.Prelude.{◌≡◌, ◌≢◌, ◌⊎◌, ◌++◌, ℕ, List, IfErr, IfOk, MatchResult, OnOk, string_bytes};
ghost use Rattle.any_sketch.specs.Numbers.{number_of};
ghost use Rattle.any_sketch.specs.declared.any_error.AnyError.TheVariants.{Sketch, WrongKind};
ghost use Rattle.any_sketch.specs.declared.kind.Kind.TheVariants.{CountI64};
ghost use Rattle.sketch_base.specs.Errors.{ErrorValue};
ghost use Rattle.sketch_base.specs.Fields.{byte_at};
ghost use Rattle.sketch_base.specs.declared.fault.Fault.TheVariants.{NoMemory};
ghost use Rattle.sketches.specs.ImageFailures.{IsWriteFailure};
ghost use Rattle.sketches.specs.Images.{IsOpened};
ghost use Rattle.sketches.specs.Shown.{IsBadFor, IsImageFor, IsNotShown, IsNotWhole, IsWhole, ShowsImage, StopsShow, kind_in, kind_name, names_of, number_line, sketch_text};
ghost use Rattle.sketches.specs.declared.image.images.ImageFailure.TheVariants.{Memory, Rejected};

use crate::image::images::{ImageFailure, failure_of, read_opened};
use crate::print::output::Output;
use any_sketch::{AnyError, AnySketch, ImageOptions, Kind, Number};
use sketch_base::{Family, Fault};
use std::alloc::{AllocError, Global};
use std::fmt::Write as _;
use std::io;
use std::io::Read;

/// Writes what an image of a sketch of strings, of a Bloom filter or of a Count-Min sketch states. Each value is a line: its name, a
/// tab and the value.
///
/// An image of a Count-Min sketch has only a hash of its seed, so the seed is given. Its numbers have 64 bits: they are read as signed
/// ones, and as unsigned ones if the total would be negative.
///
/// # Errors
///
/// Returns those of [`read_opened`] if the bytes are not read whole. Returns `Rejected` with the fault of the first failing check of the
/// kind's reader. That is `TableTooLarge` if the sketch takes more than `options.max_bytes`. Returns `TrailingBytes` if bytes follow the
/// image, and `Memory` if an allocation fails. The output is not written then. Returns `Write` if a write fails: then the output has the
/// front of the lines.
pub fn show<R: Read + Drop, W: Output>(
    alloc: Global,
    options: &ImageOptions,
    opened: io::Result<R>,
    writer: &mut W,
) -> Result<(), ImageFailure>
    ensures shown { (image : List ℕ) → IsOpened R.remaining image opened
        → OnOk result (ShowsImage options.now image (W.contents writer.old) (W.contents writer.new)) }
    ensures err { (image : List ℕ) → IsOpened R.remaining image opened → IfErr result (IsNotShown options.now image
        (StopsShow options.now image (W.failure writer.new) (W.contents writer.old) (W.contents writer.new))) }
    ensures unwritten { IfErr result (λ failure. IsWriteFailure failure ⊎ (writer.new ≡ writer.old)) }
{
    let image = match read_opened(alloc, options.max_bytes, opened) {
        Ok(image) => image,
        Err(failure) => return Err(failure),
    };
    let sketch = match read_sketch(alloc, options, &image) {
        Ok(sketch) => sketch,
        Err(failure) => return Err(failure),
    };
    let Ok(text) = text_of(alloc, &sketch) else {
        return Err(ImageFailure::Memory);
    };
    match writer.write_all(text.as_bytes()) {
        Ok(()) => Ok(()),
        Err(error) => Err(ImageFailure::Write(error)),
    }
}

/// Returns the sketch of an image.
fn read_sketch(
    alloc: Global,
    options: &ImageOptions,
    image: &[u8],
) -> Result<AnySketch, ImageFailure>
    ensures { MatchResult result (IsImageFor (kind_in image.now) options.now image.now) (IsBadFor (kind_in image.now) options.now image.now) }
{
    let family = family_of(image);
    if family == Family::BLOOMFILTER.id {
        read_whole(alloc, Kind::Filter, options, image)
    } else if family == Family::COUNTMIN.id {
        read_counts(alloc, options, image)
    } else {
        read_whole(alloc, Kind::FrequentStrings, options, image)
    }
}

/// Returns the byte of the family of an image, or 0 if it is too short.
fn family_of(image: &[u8]) -> u8
    ensures { result ≡ byte_at image.now 2 }
{
    if image.len() > 2 { image[2] } else { 0 }
}

/// Returns the Count-Min sketch of an image.
fn read_counts(
    alloc: Global,
    options: &ImageOptions,
    image: &[u8],
) -> Result<AnySketch, ImageFailure>
    ensures { MatchResult result (IsImageFor CountI64 options.now image.now) (IsBadFor CountI64 options.now image.now) }
{
    match read_whole(alloc, Kind::CountI64, options, image) {
        Ok(sketch) => Ok(sketch),
        Err(ImageFailure::Rejected(Fault::NegativeTotal)) => {
            read_whole(alloc, Kind::CountU64, options, image)
        }
        Err(failure) => Err(failure),
    }
}

/// Returns the sketch of this kind of an image that ends with the bytes.
fn read_whole(
    alloc: Global,
    kind: Kind,
    options: &ImageOptions,
    image: &[u8],
) -> Result<AnySketch, ImageFailure>
    ensures { MatchResult result (IsWhole kind options.now image.now) (IsNotWhole kind options.now image.now) }
{
    match AnySketch::deserialize_prefix(alloc, kind, image, *options) {
        Ok((sketch, used)) => {
            if used < image.len() {
                return Err(ImageFailure::TrailingBytes);
            }
            Ok(sketch)
        }
        Err(error) => Err(failure_for(error)),
    }
}

/// Returns the failure for an error of a reader of images, each of which reads images of its kind.
fn failure_for(error: AnyError) -> ImageFailure
    requires { error ≢ WrongKind }
    ensures memory { (e : ErrorValue) → error ≡ Sketch e → e.fault ≡ NoMemory → result ≡ Memory }
    ensures other { (e : ErrorValue) → error ≡ Sketch e → (result ≡ Memory) ⊎ (result ≡ Rejected e.fault) }
{
    match error {
        AnyError::Sketch(error) => failure_of(error),
        AnyError::WrongKind => unreachable!(),
    }
}

/// Returns the lines of a sketch: its kind, and its numbers.
fn text_of(alloc: Global, sketch: &AnySketch) -> Result<String, AllocError>
    ensures { IfOk result (λ text. string_bytes text ≡ sketch_text sketch.now) }
{
    let mut text = String::new(alloc);
    let kind = sketch.kind();
    writeln!(text, "kind\t{}", name_of(kind))?;
    write_numbers_of(&mut text, sketch, kind)?;
    Ok(text)
}

/// Returns the name of a kind.
fn name_of(kind: Kind) -> &'static str
    ensures { result.now ≡ kind_name kind }
{
    match kind {
        Kind::Filter => "Bloom filter",
        Kind::CountU64 | Kind::CountI64 => "Count-Min sketch",
        Kind::FrequentU64 | Kind::FrequentI64 => "frequent items of numbers",
        Kind::FrequentStrings => "frequent items of strings",
    }
}

/// Writes the lines of the numbers that are shown of a kind.
fn write_numbers_of(out: &mut String, sketch: &AnySketch, kind: Kind) -> Result<(), AllocError>
    ensures { OnOk result (string_bytes out.new
        ≡ string_bytes out.old ++ flat_map (λ named. number_line named.0 (number_of sketch.now named.1)) (names_of kind)) }
{
    match kind {
        Kind::Filter => write_numbers(
            out,
            sketch,
            &[
                ("bits", Number::NumBits),
                ("hashes", Number::NumHashes),
                ("seed", Number::Seed),
                ("set_bits", Number::BitsUsed),
            ],
        ),
        Kind::CountU64 | Kind::CountI64 => write_numbers(
            out,
            sketch,
            &[
                ("hashes", Number::NumHashes),
                ("buckets", Number::NumBuckets),
                ("total", Number::TotalWeight),
            ],
        ),
        Kind::FrequentU64 | Kind::FrequentI64 | Kind::FrequentStrings => write_numbers(
            out,
            sketch,
            &[
                ("max_size", Number::MaxMapSize),
                ("counters", Number::NumActiveItems),
                ("total", Number::TotalWeight),
                ("error", Number::MaximumError),
            ],
        ),
    }
}

/// Writes the line of each number that the sketch has.
fn write_numbers(
    out: &mut String,
    sketch: &AnySketch,
    names: &[(&str, Number)],
) -> Result<(), AllocError>
    ensures { OnOk result (string_bytes out.new
        ≡ string_bytes out.old ++ flat_map (λ named. number_line named.0.now (number_of sketch.now named.1)) names.now) }
{
    for (name, which) in names {
        write_number(out, name, sketch.number(*which))?;
    }
    Ok(())
}

/// Writes the line of a number, if there is one.
fn write_number(out: &mut String, name: &str, number: Option<u64>) -> Result<(), AllocError>
    ensures { OnOk result (string_bytes out.new ≡ string_bytes out.old ++ number_line name.now number) }
{
    if let Some(value) = number {
        writeln!(out, "{name}\t{value}")?;
    }
    Ok(())
}
