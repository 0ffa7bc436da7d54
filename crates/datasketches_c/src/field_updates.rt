//! Calls that add or insert the items in fields of records.
ghost use Rattle.std.specs.Prelude.{◌≡◌, length, pos};
ghost use Rattle.any_sketch.specs.Batches.{InsertsAll, UpdatesAllSigned, UpdatesAllWeighted};
ghost use Rattle.any_sketch.specs.Kinds.{kind_of};
ghost use Rattle.sketch_text.specs.Decimals.{number_in, signed_in};
ghost use Rattle.datasketches_c.specs.Calls.{IsDone};
ghost use Rattle.datasketches_c.specs.FieldUpdates.{OnFields, OnRead, UpdatesFields, UpdatesFieldsOf, UpdatesHeldFields, all_strings};
ghost use Rattle.datasketches_c.specs.Numbers.{refusal_number};

use crate::codes::code_of;
use crate::fields_argument::{FieldsArgument, FieldsRead, chosen_record};
use crate::handle::SketchHandle;
use crate::held_sketch::HeldSketch;
use crate::status_code::{BAD_ARGUMENT, NO_SKETCH, WRONG_KIND, refusal_number};
use any_sketch::{AnyItems, AnyRows, AnySketch, Kind};
use sketch_base::ErrorKind;
use sketch_text::records::{BadRecord, RecordItems, RecordWeight, WeighedRecord};
use std::alloc::Global;

/// Writes where a record with an error begins, and returns the error's number. Writes nothing if memory was exhausted.
fn refused(bad: BadRecord, read: &mut FieldsRead) -> i32
    ensures number { result ≡ refusal_number bad.error.fault }
    ensures offset { bad.error.kind ≡ ErrorKind.InvalidArgument → read.new.offset ≡ bad.offset }
    ensures kept { (read.new.num_records ≡ read.old.num_records) × (read.new.num_items ≡ read.old.num_items) }
    ensures untouched { bad.error.kind ≡ ErrorKind.OutOfMemory → read.new ≡ read.old }
{
    if let ErrorKind::InvalidArgument = bad.error.kind() {
        read.offset = bad.offset;
    }
    refusal_number(bad.error.fault())
}

/// Writes the numbers of records and of items.
fn note<W: RecordWeight>(found: &RecordItems<W>, read: &mut FieldsRead)
    ensures num_records { read.new.num_records ≡ found.now.num_records }
    ensures num_items { read.new.num_items ≡ length found.now.items }
    ensures kept { read.new.offset ≡ read.old.offset }
{
    read.num_records = found.num_records();
    read.num_items = found.weights().len();
}

/// Adds the items of records with their weights, which may have signs, to a sketch.
fn update_signed(
    alloc: Global,
    sketch: &mut AnySketch,
    chosen: WeighedRecord,
    bytes: &[u8],
    read: &mut FieldsRead,
) -> i32
    ensures { OnRead signed_in (pos 1) chosen bytes.now result read.old read.new (sketch.new ≡ sketch.old) (λ found.
        IsDone result (UpdatesAllSigned sketch.old (all_strings found.items) found.weights sketch.new)) }
{
    match RecordItems::<i64>::read(alloc, bytes, chosen) {
        Ok(found) => {
            note(&found, read);
            let items = AnyItems {
                rows: AnyRows::Offsets(found.items()),
                validity: None,
            };
            code_of(sketch.update_all_signed(alloc, items, found.weights()))
        }
        Err(bad) => refused(bad, read),
    }
}

/// Adds the items of records with their weights, which have no signs, to a sketch.
fn update_unsigned(
    alloc: Global,
    sketch: &mut AnySketch,
    chosen: WeighedRecord,
    bytes: &[u8],
    read: &mut FieldsRead,
) -> i32
    ensures { OnRead number_in 1 chosen bytes.now result read.old read.new (sketch.new ≡ sketch.old) (λ found.
        IsDone result (UpdatesAllWeighted sketch.old (all_strings found.items) found.weights sketch.new)) }
{
    match RecordItems::<u64>::read(alloc, bytes, chosen) {
        Ok(found) => {
            note(&found, read);
            let items = AnyItems {
                rows: AnyRows::Offsets(found.items()),
                validity: None,
            };
            code_of(sketch.update_all_weighted(alloc, items, found.weights()))
        }
        Err(bad) => refused(bad, read),
    }
}

/// Inserts the items in a field of records into a filter.
fn insert_read(
    alloc: Global,
    sketch: &mut AnySketch,
    chosen: WeighedRecord,
    bytes: &[u8],
    read: &mut FieldsRead,
) -> i32
    ensures { OnRead number_in 1 chosen bytes.now result read.old read.new (sketch.new ≡ sketch.old) (λ found.
        IsDone result (InsertsAll sketch.old (all_strings found.items) sketch.new)) }
{
    match RecordItems::<u64>::read(alloc, bytes, chosen) {
        Ok(found) => {
            note(&found, read);
            let items = AnyItems {
                rows: AnyRows::Offsets(found.items()),
                validity: None,
            };
            code_of(sketch.insert_all(items))
        }
        Err(bad) => refused(bad, read),
    }
}

/// Adds the items of records with their weights to a sketch that takes strings, or inserts them into a filter. Weights have signs if
/// those of the sketch do.
fn update_own(
    alloc: Global,
    sketch: &mut AnySketch,
    chosen: WeighedRecord,
    bytes: &[u8],
    read: &mut FieldsRead,
) -> i32
    ensures { UpdatesFieldsOf (kind_of sketch.old) chosen bytes.now sketch.old sketch.new read.old read.new result }
{
    match sketch.kind() {
        Kind::CountI64 => update_signed(alloc, sketch, chosen, bytes, read),
        Kind::CountU64 => update_unsigned(alloc, sketch, chosen, bytes, read),
        Kind::FrequentStrings => update_unsigned(alloc, sketch, chosen, bytes, read),
        Kind::Filter => insert_read(alloc, sketch, chosen, bytes, read),
        _ => WRONG_KIND,
    }
}

/// Adds the items of records with their weights to what a handle holds.
fn update_in(
    alloc: Global,
    held: &mut HeldSketch,
    chosen: WeighedRecord,
    bytes: &[u8],
    read: &mut FieldsRead,
) -> i32
    ensures { UpdatesHeldFields chosen bytes.now held.old held.new read.old read.new result }
{
    match held {
        HeldSketch::Own(sketch) => update_own(alloc, sketch, chosen, bytes, read),
        _ => held.refusal_of_change(),
    }
}

/// Adds the items of records with their weights to the sketch of a handle.
fn update_chosen(
    alloc: Global,
    handle: &mut SketchHandle,
    chosen: WeighedRecord,
    bytes: &[u8],
    read: &mut FieldsRead,
) -> i32
    ensures { UpdatesFields chosen bytes.now handle.old.value handle.new.value read.old read.new result }
{
    let Some(mut held) = handle.take(alloc) else {
        return NO_SKETCH;
    };
    let answer = update_in(alloc, &mut *held, chosen, bytes, read);
    handle.give(held);
    answer
}

/// Adds the items in a field of records, in order, each with the weight in another field, to a Count-Min sketch or one of frequent
/// strings. Inserts them into a filter, for which weights are only read. A record without the field is left out. Each item has the
/// weight 1 if `weight` names no field.
///
/// Returns the first of these errors, and then changes no sketch, and of `read` only what the third one says:
///
/// - `BAD_ARGUMENT` if the format is not known, the whole record of CSV is asked for, or the delimiter is not one of the format.
/// - `NO_SKETCH` if the handle has no sketch, `SHARED` if its sketch is shared, and `WRONG_KIND` if it is of another kind.
/// - The error of the first record with one, and writes at which byte it begins: `InvalidUtf8` if its item is not UTF-8, and
///   `BadWeight` if it has no weight, which is a whole number in decimal digits. It is below 2^64, or from -2^63 to 2^63 - 1 for
///   weights in `i64`. `NoMemory` if the items and weights of the records cannot be allocated.
/// - `WeightOverflow` if the total would exceed 2^64 - 1 with all weights, or 2^63 - 1 for weights in `i64`.
///
/// Returns `NoMemory` for the first item for which an allocation fails. Then the items before it are added, and no others.
#[unsafe(no_mangle)]
pub extern "C" fn ds_update_fields(
    alloc: Global,
    handle: &mut SketchHandle,
    bytes: &[u8],
    fields: &FieldsArgument,
    read: &mut FieldsRead,
) -> i32
    ensures { OnFields fields.now result ((handle.new.value ≡ handle.old.value) × (read.new ≡ read.old)) (λ chosen.
        UpdatesFields chosen bytes.now handle.old.value handle.new.value read.old read.new result) }
{
    let Some(chosen) = chosen_record(fields) else {
        return BAD_ARGUMENT;
    };
    update_chosen(alloc, handle, chosen, bytes, read)
}
