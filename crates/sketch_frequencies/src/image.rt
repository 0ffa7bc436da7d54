//! The images of sketches: how they are read and written.
ghost use Rattle.std.specs.Prelude.{◌≡◌, ℕ, ◌+◌, ◌-◌, ◌*◌, ◌<◌, ◌≤◌, ◌^◌, ◌++◌, [], None, Some, length, take, drop, slice_index, sum, IfOk, IfErr, IfNone, OnOk, IsTrue};
ghost use Rattle.std.specs.Int.{is_power_of_two};
ghost use Rattle.sketch_base.specs.Checks.{first_failing};
ghost use Rattle.sketch_base.specs.Errors.{invalid_data, no_memory};
ghost use Rattle.sketch_base.specs.Fields.{byte_at};
ghost use Rattle.counter_table.specs.Bytes.{table_bytes};
ghost use Rattle.sketch_frequencies.specs.Image.{items_bytes, header_checks, count_checks, weight_checks, active_at, weights_at, header, preamble, encoded_weights, contents_of, AreEncoded, IsItemFault};
ghost use Rattle.sketch_frequencies.specs.Items.{max_owned};
ghost use Rattle.sketch_frequencies.specs.Memory.{owned_by, memory_bytes};
ghost use Rattle.sketch_frequencies.specs.Reading.{IsHeader, AreNumbers, AreCounters, IsItemsRefusal};
ghost use Rattle.counter_table.specs.Slots.{entries_of};
ghost use Rattle.sketch_frequencies.specs.State.{capacity};
ghost use Rattle.sketch_frequencies.specs.Writing.{TakeBytes, TakeCapped, TakeEach, IsItemsSizeRefusal, IsWhole};

use crate::frequent_item_value::FrequentItemValue;
use counter_table::{ReversePurgeItemHashMap, Slot, TableKey, bytes_of_table, capacity_of};
use sketch_base::image::{SERIAL_VERSION, opening_fault, u32_at, u64_at};
use sketch_base::{Error, Family, Fault, SketchSlice};
use std::alloc::{AllocError, Global};

/// The number of 8-byte words in the preamble of an empty sketch.
pub const PREAMBLE_LONGS_EMPTY: u8 = 1;

/// The number of 8-byte words in the preamble of any other sketch.
pub const PREAMBLE_LONGS_NONEMPTY: u8 = 4;

/// The flags of an empty sketch.
pub const EMPTY_FLAG_MASK: u8 = 5;

/// The minimum table size that an image may state, as a power of two.
const MIN_LG_SIZE: u8 = 3;

/// The maximum table size that an image may state, as a power of two.
const MAX_LG_SIZE: u8 = 30;

/// The fields in the first eight bytes of an image.
#[derive(Clone, Copy)]
pub(crate) struct Header {
    pub(crate) is_empty: bool,
    pub(crate) lg_max: u8,
    pub(crate) lg_cur: u8,
}

/// The fields in the 24 bytes after the header.
#[derive(Clone, Copy)]
pub(crate) struct Numbers {
    pub(crate) active: u32,
    pub(crate) total: u64,
    pub(crate) error: u64,
}

/// Reads and checks the first eight bytes.
pub(crate) fn read_header(image: &[u8]) -> Result<Header, Error>
    ensures checks { OnOk result (first_failing (header_checks image.now) ≡ None) }
    ensures fields { IfOk result (IsHeader image.now) }
    ensures long { OnOk result (8 ≤ length image.now) }
    ensures least { IfOk result (λ h. 3 ≤ h.lg_cur) }
    ensures within { IfOk result (λ h. h.lg_cur ≤ h.lg_max) }
    ensures greatest { IfOk result (λ h. h.lg_max ≤ 30) }
    ensures err { IfErr result
        (λ e. (e ≡ invalid_data e.fault) × (first_failing (header_checks image.now) ≡ Some e.fault)) }
{
    if let Some(fault) = header_fault(image) {
        return Err(Error::invalid_data(fault));
    }
    Ok(Header {
        is_empty: image[0] % 64 == PREAMBLE_LONGS_EMPTY,
        lg_max: image[3],
        lg_cur: image[4],
    })
}

/// Returns the fault of the first failing check of the first eight bytes.
fn header_fault(image: &[u8]) -> Option<Fault>
    ensures { result ≡ first_failing (header_checks image.now) }
{
    if let Some(fault) = opening_fault(image, 8, Family::FREQUENCY) {
        return Some(fault);
    }
    if image[4] < MIN_LG_SIZE {
        return Some(Fault::LgCurTooSmall);
    }
    if image[3] > MAX_LG_SIZE {
        return Some(Fault::LgMaxTooLarge);
    }
    if image[4] > image[3] {
        return Some(Fault::LgCurAboveMax);
    }
    let preamble_longs = image[0] % 64;
    if preamble_longs != PREAMBLE_LONGS_EMPTY && preamble_longs != PREAMBLE_LONGS_NONEMPTY {
        return Some(Fault::BadPreamble);
    }
    let is_empty = preamble_longs == PREAMBLE_LONGS_EMPTY;
    let has_empty_flag = image[5] & EMPTY_FLAG_MASK != 0;
    if is_empty != has_empty_flag {
        return Some(Fault::EmptyFlagMismatch);
    }
    None
}

/// Reads and checks the numbers after the header, and checks that the weights are complete.
pub(crate) fn read_numbers(image: &[u8], lg_cur: u8) -> Result<Numbers, Error>
    requires size { lg_cur ≡ byte_at image.now 4 }
    requires small { lg_cur ≤ 30 }
    ensures checks { OnOk result (first_failing (count_checks image.now) ≡ None) }
    ensures fields { IfOk result (AreNumbers image.now) }
    ensures weights { IfOk result (λ n. 32 + 8 * n.active ≤ length image.now) }
    ensures few { IfOk result (λ n. n.active ≤ capacity (2 ^ lg_cur)) }
    ensures some { IfOk result (λ n. 0 < n.total) }
    ensures err { IfErr result
        (λ e. (e ≡ invalid_data e.fault) × (first_failing (count_checks image.now) ≡ Some e.fault)) }
{
    if let Some(fault) = numbers_fault(image, lg_cur) {
        return Err(Error::invalid_data(fault));
    }
    Ok(Numbers {
        active: u32_at(image, 8),
        total: u64_at(image, 16),
        error: u64_at(image, 24),
    })
}

/// Returns the fault of the first failing check of these numbers.
fn numbers_fault(image: &[u8], lg_cur: u8) -> Option<Fault>
    requires size { lg_cur ≡ byte_at image.now 4 }
    requires small { lg_cur ≤ 30 }
    ensures { result ≡ first_failing (count_checks image.now) }
{
    if image.len() < 12 {
        return Some(Fault::InsufficientData);
    }
    let active = u32_at(image, 8) as usize;
    if active > capacity_of(table_size(lg_cur)) {
        return Some(Fault::TooManyActive);
    }
    if image.len() < 24 {
        return Some(Fault::InsufficientData);
    }
    if u64_at(image, 16) == 0 {
        return Some(Fault::ZeroTotal);
    }
    if image.len() < 32 {
        return Some(Fault::InsufficientData);
    }
    if image.len() < 32 + 8 * active {
        return Some(Fault::InsufficientData);
    }
    None
}

/// Checks that a table of `size` slots and what the items at the front of `items` can own take at most `max_bytes`.
///
/// The table's bytes are those of `estimated_size`. `active` items can own the bytes that they take in the image, or nothing.
pub(crate) fn check_limit<T: FrequentItemValue + Drop>(
    size: usize,
    items: &[u8],
    active: u32,
    max_bytes: usize,
) -> Result<(), Error>
    ensures within { OnOk result (memory_bytes (table_bytes T.row size)
        (max_owned T.codec (items_bytes T.codec active items.now)) ≤ max_bytes) }
    ensures err { IfErr result (λ e. (e ≡ invalid_data Fault.TableTooLarge)
        × (max_bytes < memory_bytes (table_bytes T.row size) (max_owned T.codec (items_bytes T.codec active items.now)))) }
{
    let table = bytes_of_table::<T>(size);
    // The items take no more than all bytes after the weights. They are measured only if these do not fit.
    let most = if T::owns_memory() { items.len() } else { 0 };
    if table.saturating_add(most) <= max_bytes {
        return Ok(());
    }
    let owned = if T::owns_memory() {
        bytes_of_items::<T>(items, active)
    } else {
        0
    };
    if table.saturating_add(owned) > max_bytes {
        return Err(Error::invalid_data(Fault::TableTooLarge));
    }
    Ok(())
}

/// Returns the number of bytes that `active` items at the front of `items` take, or those before the first that cannot be read.
fn bytes_of_items<T: FrequentItemValue>(items: &[u8], active: u32) -> usize
    ensures { result ≡ items_bytes T.codec active items.now }
{
    let mut rest = items;
    for i in 0..active as usize {
        let size = T::deserialize_size(rest);
        if size == 0 {
            return items.len() - rest.len();
        }
        rest = &rest[size..];
    }
    items.len() - rest.len()
}

/// Checks that the sum of the weights, and that sum plus the error, are at most the total.
pub(crate) fn check_weights(image: &[u8], numbers: &Numbers) -> Result<(), Error>
    requires fields { AreNumbers image.now numbers.now }
    requires weights { 32 + 8 * numbers.now.active ≤ length image.now }
    ensures checks { OnOk result (first_failing (weight_checks image.now) ≡ None) }
    ensures sum { OnOk result (sum (weights_at image.now) + numbers.now.error ≤ numbers.now.total) }
    ensures err { IfErr result
        (λ e. (e ≡ invalid_data e.fault) × (first_failing (weight_checks image.now) ≡ Some e.fault)) }

    // What the type says, for the caller's proof.
    ensures total_fits { numbers.now.total < 2 ^ 64 }
{
    let total = numbers.total;
    let mut sum = 0u64;
    for i in 0..numbers.active as usize {
        let weight = weight_at(image, i);
        if weight > total - sum {
            return Err(Error::invalid_data(Fault::WeightsExceedTotal));
        }
        sum += weight;
    }
    if numbers.error > total - sum {
        return Err(Error::invalid_data(Fault::ErrorExceedsTotal));
    }
    Ok(())
}

/// Returns the weight of counter `i`.
#[inline]
fn weight_at(image: &[u8], i: usize) -> u64
    requires within { i < active_at image.now }
    requires weights { 32 + 8 * active_at image.now ≤ length image.now }
    ensures { result ≡ slice_index (weights_at image.now) i }
{
    u64_at(image, 32 + 8 * i)
}

/// Reads the items, each with its weight, into a new table of `size` slots with a key. Returns the table and the number of bytes
/// up to the end of the items.
pub(crate) fn read_counters<T: FrequentItemValue + Drop>(
    alloc: Global,
    image: &[u8],
    active: u32,
    size: usize,
    key: TableKey,
) -> Result<(ReversePurgeItemHashMap<T>, usize), Error>
    requires active { active ≡ active_at image.now }
    requires weights { 32 + 8 * active ≤ length image.now }
    requires fits { sum (weights_at image.now) < 2 ^ 64 }
    requires few { active ≤ capacity size }
    requires least { 8 ≤ size }
    requires power { IsTrue (is_power_of_two size) }
    requires limit { size ≤ 2 ^ 30 }
    ensures counters { IfOk result (λ r. AreCounters T.codec T.content T.eq image.now r.0.entries) }
    ensures size { IfOk result (λ r. r.0.size ≡ size) }
    ensures key { IfOk result (λ r. r.0.key ≡ key) }
    ensures purges { IfOk result (λ r. r.0.purges ≡ 0) }
    ensures owned { IfOk result (λ r. owned_by T.codec T.content r.0.entries
        ≤ max_owned T.codec (items_bytes T.codec active (drop (32 + 8 * active) image.now))) }
    ensures used { IfOk result (λ r. r.1 ≡ 32 + 8 * active + items_bytes T.codec active (drop (32 + 8 * active) image.now)) }
    ensures within { IfOk result (λ r. r.1 ≤ length image.now) }
    ensures err { IfErr result (IsItemsRefusal T.codec image.now) }
{
    let mut slice = SketchSlice::new(image);
    slice.advance(32 + 8 * active as u64);
    let mut map = ReversePurgeItemHashMap::with_key(alloc, size, key)?;
    for i in 0..active as usize {
        let item = T::deserialize_value(alloc, &mut slice)?;
        let weight = weight_at(image, i);
        if weight != 0 {
            map.adjust_or_put_value(item, weight);
        }
    }
    let used = image.len() - slice.remaining().len();
    Ok((map, used))
}

/// Returns the bytes of a table plus those that the items in its slots own, or `usize::MAX` if the sum exceeds it.
///
/// If items own nothing, as numbers do, the compiler removes the loop, and no slot is read.
pub(crate) fn bytes_with_items<T: FrequentItemValue>(table_bytes: usize, slots: &[Slot<T>]) -> usize
    ensures { result ≡ memory_bytes table_bytes (owned_by T.codec T.content (entries_of slots.now)) }
{
    let mut bytes = table_bytes;
    for slot in slots {
        if let Slot::Taken { item, .. } = slot {
            bytes = bytes.saturating_add(T::owned_bytes(item));
        }
    }
    bytes
}

/// Returns 2 to the power of `lg`, a table size.
pub(crate) fn table_size(lg: u8) -> usize
    requires { lg ≤ 30 }
    ensures value { result ≡ 2 ^ lg }
    ensures power { IsTrue (is_power_of_two result) }
    ensures limit { result ≤ 2 ^ 30 }
{
    1usize << lg
}

/// Returns the number of bytes that the items of the `active` counters in the slots take in an image.
///
/// Returns the error of the first item that cannot be written, or `NoMemory` if there is none and the sum is `usize::MAX` or more.
pub(crate) fn items_size<T: FrequentItemValue>(
    slots: &[Slot<T>],
    active: usize,
) -> Result<usize, Error>
    requires { active ≡ length (entries_of slots.now) }
    ensures ok { IfOk result (TakeBytes T.codec (contents_of T.content (entries_of slots.now))) }
    ensures err { IfErr result (IsItemsSizeRefusal T.codec T.content (entries_of slots.now)) }
{
    let each = first_size(slots);
    let size = if take_each(slots, each) {
        each.saturating_mul(active)
    } else {
        sum_of_sizes(slots)?
    };
    if size == usize::MAX {
        return Err(Error::from(AllocError));
    }
    Ok(size)
}

/// Returns the size of the item in the first taken slot, or 0. Any number is right, and this one is the likely one.
fn first_size<T: FrequentItemValue>(slots: &[Slot<T>]) -> usize {
    for slot in slots {
        if let Slot::Taken { item, .. } = slot {
            return T::serialize_size(item);
        }
    }
    0
}

/// Returns whether each item in the slots can be written and takes `size` bytes.
///
/// If all items of a type take the same number of bytes, as numbers do, the compiler removes the loop, and no slot is read.
fn take_each<T: FrequentItemValue>(slots: &[Slot<T>], size: usize) -> bool
    ensures { IsTrue result → TakeEach T.codec (contents_of T.content (entries_of slots.now)) size }
{
    for slot in slots {
        if let Slot::Taken { item, .. } = slot {
            let Ok(one) = T::checked_serialize_size(item) else {
                return false;
            };
            if one != size {
                return false;
            }
        }
    }
    true
}

/// Returns the sum of the sizes of the items in the slots, or `usize::MAX` if it exceeds that.
fn sum_of_sizes<T: FrequentItemValue>(slots: &[Slot<T>]) -> Result<usize, Error>
    ensures ok { IfOk result (TakeCapped T.codec (contents_of T.content (entries_of slots.now))) }
    ensures err { IfErr result (IsItemFault T.codec T.content (entries_of slots.now)) }
{
    let mut size = 0usize;
    for slot in slots {
        if let Slot::Taken { item, .. } = slot {
            size = size.saturating_add(T::checked_serialize_size(item)?);
        }
    }
    Ok(size)
}

/// Writes the image of an empty sketch to `out`, which has 8 bytes.
pub(crate) fn write_empty(out: &mut [u8], lg_max: u8)
    requires { length out.old ≡ 8 }
    ensures { out.new ≡ header PREAMBLE_LONGS_EMPTY lg_max MIN_LG_SIZE EMPTY_FLAG_MASK }
{
    out.copy_from_slice(&[
        PREAMBLE_LONGS_EMPTY,
        SERIAL_VERSION,
        Family::FREQUENCY.id,
        lg_max,
        MIN_LG_SIZE,
        EMPTY_FLAG_MASK,
        0,
        0,
    ]);
}

/// Writes the preamble of an image, and the counters in the slots, to `out`, which has the image's length.
pub(crate) fn write_full<T: FrequentItemValue>(
    out: &mut [u8],
    lg_max: u8,
    lg_cur: u8,
    numbers: &Numbers,
    slots: &[Slot<T>],
)
    requires active { numbers.now.active ≡ length (entries_of slots.now) }
    requires size { (size : ℕ) × TakeBytes T.codec (contents_of T.content (entries_of slots.now)) size
        × (length out.old ≡ 32 + 8 * numbers.now.active + size) }
    ensures whole { IsWhole T.codec T.content lg_max lg_cur numbers.now.total numbers.now.error (entries_of slots.now) out.new }

    // What the type says, for the caller's proof.
    ensures total_fits { numbers.now.total < 2 ^ 64 }
{
    let (front, rest) = out.split_at_mut(32);
    let (weights, items) = rest.split_at_mut(8 * numbers.active as usize);
    front.copy_from_slice(&preamble_bytes(lg_max, lg_cur, numbers));
    write_counters(slots, weights, items);
}

/// Returns the bytes of the preamble of an image.
fn preamble_bytes(lg_max: u8, lg_cur: u8, numbers: &Numbers) -> [u8; 32]
    ensures value { result ≡ preamble lg_max lg_cur numbers.now.active numbers.now.total numbers.now.error }

    // What the type says, for the caller's proof.
    ensures total_fits { numbers.now.total < 2 ^ 64 }
{
    let longs = PREAMBLE_LONGS_NONEMPTY;
    let version = SERIAL_VERSION;
    let family = Family::FREQUENCY.id;
    let active = numbers.active.to_le_bytes();
    let total = numbers.total.to_le_bytes();
    let error = numbers.error.to_le_bytes();
    [
        longs, version, family, lg_max, lg_cur, 0, 0, 0, active[0], active[1], active[2],
        active[3], 0, 0, 0, 0, total[0], total[1], total[2], total[3], total[4], total[5],
        total[6], total[7], error[0], error[1], error[2], error[3], error[4], error[5], error[6],
        error[7],
    ]
}

/// Writes the weights of the counters in the slots to `weights`, and their items to `items`, in the same order.
fn write_counters<T: FrequentItemValue>(slots: &[Slot<T>], weights: &mut [u8], items: &mut [u8])
    requires weights { length weights.old ≡ 8 * length (entries_of slots.now) }
    requires items { TakeBytes T.codec (contents_of T.content (entries_of slots.now)) (length items.old) }
    ensures weights { weights.new ≡ encoded_weights (entries_of slots.now) }
    ensures items { AreEncoded T.codec (contents_of T.content (entries_of slots.now)) items.new }
{
    let mut i = 0;
    let mut at = 0;
    for slot in slots {
        if let Slot::Taken { count, item, .. } = slot {
            weights[i..i + 8].copy_from_slice(&count.to_le_bytes());
            i += 8;
            let size = T::serialize_size(item);
            item.serialize_into(&mut items[at..at + size]);
            at += size;
        }
    }
}
