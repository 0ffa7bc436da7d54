//! Images of sketches of any kind: measure, write and read.
ghost use Rattle.std.specs.Prelude.{◌≡◌, ◌≢◌, Some};
ghost use Rattle.counter_table.specs.declared.table_key.TableKey.TheVariants.{Keyed};
ghost use Rattle.any_sketch.specs.KindNumbers.{kind_numbered};
ghost use Rattle.any_sketch.specs.Writing.{TellsSize};
ghost use Rattle.datasketches_c.specs.AnyImages.{HoldsRead, IsRefusedRead, WritesImageOf};
ghost use Rattle.datasketches_c.specs.Calls.{IsWritten, ReadsOwn, ReadsSketch};
ghost use Rattle.datasketches_c.specs.Numbers.{OnDone, OnRefused, no_room, ok};
ghost use Rattle.datasketches_c.specs.Sharing.{unshared};

use crate::codes::{code_of_error, write};
use crate::handle::SketchHandle;
use crate::held_sketch::HeldSketch;
use crate::status_code::{NO_ROOM, NO_SKETCH, OK, WRONG_KIND};
use any_sketch::{AnySketch, ImageOptions, Kind as SketchKind};
use sketch_frequencies::{HashKey, TableKey};
use std::alloc::Global;

/// Writes a sketch's image to the front of the caller's buffer, or its length if there is no room. Returns the result's number.
fn write_image(sketch: &AnySketch, out: &mut [u8], written: &mut usize) -> i32
    ensures image { WritesImageOf sketch.now out.old out.new written.old written.new result }
    ensures untouched { OnRefused result (out.new ≡ out.old) }
    ensures uncounted { result ≢ ok → result ≢ no_room → written.new ≡ written.old }
{
    match sketch.serialize_into(out) {
        Ok(Some(length)) => {
            *written = length;
            OK
        }
        Ok(None) => match sketch.serialized_size() {
            Ok(length) => {
                *written = length;
                NO_ROOM
            }
            Err(error) => code_of_error(error),
        },
        Err(error) => code_of_error(error),
    }
}

/// Writes the image of the sketch that a handle holds.
fn write_image_in(held: &HeldSketch, out: &mut [u8], written: &mut usize) -> i32
    ensures image { ReadsOwn (unshared held.now) result (λ s.
        WritesImageOf s out.old out.new written.old written.new result) }
    ensures untouched { OnRefused result (out.new ≡ out.old) }
    ensures uncounted { result ≢ ok → result ≢ no_room → written.new ≡ written.old }
{
    match held.get() {
        Some(sketch) => write_image(sketch, out, written),
        None => WRONG_KIND,
    }
}

/// Writes the image of the handle's sketch, of any kind, to the front of `out`, and the image's length in bytes to `written`. The
/// rest of `out` stays as it was. Does not allocate.
///
/// Returns the first of these errors, and then changes nothing:
///
/// - `NO_SKETCH` if the handle has no sketch.
/// - `ItemTooLong` if a string of a sketch of frequent strings has 2^32 bytes or more.
///
/// Returns `NO_ROOM` if the image is longer than `out`. Then `written` is the image's length, and `out` is unchanged.
#[unsafe(no_mangle)]
pub extern "C" fn ds_serialize(
    alloc: Global,
    handle: &mut SketchHandle,
    out: &mut [u8],
    written: &mut usize,
) -> i32
    ensures kept { handle.new.value ≡ handle.old.value }
    ensures image { ReadsSketch handle.old.value result (λ s.
        WritesImageOf s out.old out.new written.old written.new result) }
    ensures untouched { OnRefused result (out.new ≡ out.old) }
    ensures uncounted { result ≢ ok → result ≢ no_room → written.new ≡ written.old }
{
    let Some(held) = handle.take(alloc) else {
        return NO_SKETCH;
    };
    let answer = write_image_in(&held, out, written);
    handle.give(held);
    answer
}

/// Writes the length of the image of the sketch that a handle holds.
fn measure_image(held: &HeldSketch, bytes: &mut usize) -> i32
    ensures length { ReadsOwn (unshared held.now) result (λ s. IsWritten bytes.old bytes.new result (TellsSize s)) }
    ensures untouched { OnRefused result (bytes.new ≡ bytes.old) }
{
    match held.get() {
        Some(sketch) => write(sketch.serialized_size(), bytes),
        None => WRONG_KIND,
    }
}

/// Writes the length in bytes of the image of the handle's sketch, of any kind: in one pass over the table of a sketch of frequent
/// items, and in constant time otherwise. Does not allocate.
///
/// Returns the first of these errors, and then changes nothing:
///
/// - `NO_SKETCH` if the handle has no sketch.
/// - `ItemTooLong` if a string of a sketch of frequent strings has 2^32 bytes or more.
#[unsafe(no_mangle)]
pub extern "C" fn ds_serialized_bytes(
    alloc: Global,
    handle: &mut SketchHandle,
    bytes: &mut usize,
) -> i32
    ensures kept { handle.new.value ≡ handle.old.value }
    ensures length { ReadsSketch handle.old.value result (λ s. IsWritten bytes.old bytes.new result (TellsSize s)) }
    ensures untouched { OnRefused result (bytes.new ≡ bytes.old) }
{
    let Some(held) = handle.take(alloc) else {
        return NO_SKETCH;
    };
    let answer = measure_image(&held, bytes);
    handle.give(held);
    answer
}

/// Reads a sketch from the image at the front of `image`, and puts it into the handle.
fn read_kind(
    alloc: Global,
    handle: &mut SketchHandle,
    kind: SketchKind,
    image: &[u8],
    options: ImageOptions,
    used: &mut usize,
) -> i32
    ensures done { OnDone result ((result ≡ ok) × HoldsRead (Some kind) image.now options used.new handle.new.value) }
    ensures refused { OnRefused result ((handle.new.value ≡ handle.old.value)
        × IsRefusedRead (Some kind) image.now options result) }
    ensures untouched { OnRefused result (used.new ≡ used.old) }
{
    match AnySketch::deserialize_prefix(alloc, kind, image, options) {
        Ok((sketch, length)) => {
            let result = handle.put(alloc, HeldSketch::Own(sketch));
            if result == OK {
                *used = length;
            }
            result
        }
        Err(error) => code_of_error(error),
    }
}

/// Reads a sketch of the kind of this number from the image at the front of `image`, puts it into the handle, and frees what the
/// handle had. Writes the number of bytes that the image takes to `used`. What follows is not read: the bytes that a sketch wrote are
/// read as its image, to their end.
///
/// A Count-Min sketch is read under `seed`, with which its image was written. The table of a sketch of frequent items hashes under
/// the key of two words, and the sketch takes the maximum sample size, since an image has neither. `ds_deserialize` and
/// `ds_deserialize_prefix` of C are this call, for a key that the caller chose or that was drawn.
///
/// Returns the first of these errors, and then changes nothing:
///
/// - `WRONG_KIND` if there is no kind of this number.
/// - The error of the first failed check of the image's length and fields.
/// - `TableTooLarge` if the sketch takes more than `max_bytes` by the formula of `ds_memory_bytes`. For frequent strings the bytes
///   of all strings count.
/// - `NoMemory` if an allocation fails.
/// - The error of the first failed check of a filter's number of set bits, of the total and the cells, or of the weights and the
///   items.
#[unsafe(no_mangle)]
pub extern "C" fn ds_read_image(
    alloc: Global,
    handle: &mut SketchHandle,
    kind: i32,
    image: &[u8],
    max_bytes: usize,
    seed: u64,
    k0: u64,
    k1: u64,
    used: &mut usize,
) -> i32
    ensures done { OnDone result ((result ≡ ok) × HoldsRead (kind_numbered kind) image.now
        (record { max_bytes = max_bytes; seed = seed; key = Keyed (k0, k1) }) used.new handle.new.value) }
    ensures refused { OnRefused result ((handle.new.value ≡ handle.old.value) × IsRefusedRead (kind_numbered kind) image.now
        (record { max_bytes = max_bytes; seed = seed; key = Keyed (k0, k1) }) result) }
    ensures untouched { OnRefused result (used.new ≡ used.old) }
{
    let Some(kind) = SketchKind::of_number(kind) else {
        return WRONG_KIND;
    };
    let options = ImageOptions {
        max_bytes,
        seed,
        key: TableKey::Keyed(HashKey::new(k0, k1)),
    };
    read_kind(alloc, handle, kind, image, options, used)
}
