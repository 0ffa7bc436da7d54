//! Reading and writing the fields of images.
ghost use Rattle.std.specs.Prelude.{◌≡◌, ◌≢◌, ◌+◌, ◌*◌, ◌<◌, ◌≤◌, ◌++◌, None, Some, false, length, drop, map, pos, unsigned_abs, All, IfOk, IfErr, OnOk, MatchResult};
ghost use Rattle.std.specs.List.{flat_map};
ghost use Rattle.sketch_base.specs.Checks.{IsImageRefusal, first_failing};
ghost use Rattle.sketch_base.specs.Errors.{invalid_data};
ghost use Rattle.sketch_base.specs.Hashes.{seed_hash};
ghost use Rattle.sketch_countmin.specs.Image.{early_fault, number_at, numbers_in, total_at, total_checks, cell_checks, cells_checks, preamble};
ghost use Rattle.sketch_countmin.specs.Preamble.{IsPreamble};
ghost use Rattle.sketch_countmin.specs.Values.{InRange, bytes_of};

use crate::count_min_value::CountMinValue;
use crate::limits::{MAX_TABLE_ENTRIES, MIN_NUM_BUCKETS};
use sketch_base::image::{SERIAL_VERSION, opening_fault, u16_at, u32_at};
use sketch_base::{Error, ErrorKind, Family, Fault, compute_seed_hash};
use std::alloc::{AllocError, Global};

/// The preamble longs.
pub const PREAMBLE_LONGS: u8 = 2;

/// The flag of a sketch whose total is 0.
pub const EMPTY_FLAG_MASK: u8 = 1;

/// The fields in the first bytes of an image.
#[derive(Clone, Copy)]
pub struct Preamble {
    pub is_empty: bool,
    pub num_hashes: u8,
    pub num_buckets: u32,
}

/// Reads the fields before the total, and checks that the total and the cells are there.
pub fn read_preamble(image: &[u8], seed: u64) -> Result<Preamble, Error>
    ensures checks { OnOk result (early_fault seed image.now ≡ None) }
    ensures fields { IfOk result (IsPreamble image.now) }
    ensures long { OnOk result (16 ≤ length image.now) }
    ensures cells { IfOk result (λ p. p.is_empty ≡ false
        → 24 + 8 * (p.num_hashes * p.num_buckets) ≤ length image.now) }
    ensures some_hashes { IfOk result (λ p. 1 ≤ p.num_hashes) }
    ensures some_buckets { IfOk result (λ p. MIN_NUM_BUCKETS ≤ p.num_buckets) }
    ensures few_cells { IfOk result (λ p. p.num_hashes * p.num_buckets < MAX_TABLE_ENTRIES) }
    ensures seeded { OnOk result (seed_hash seed ≢ 0) }
    ensures err { IfErr result (λ e. (e ≡ invalid_data e.fault) × (early_fault seed image.now ≡ Some e.fault)) }
{
    if let Some(fault) = fault_of(image, seed) {
        return Err(Error::invalid_data(fault));
    }
    Ok(Preamble {
        is_empty: image[3] & EMPTY_FLAG_MASK != 0,
        num_hashes: image[12],
        num_buckets: u32_at(image, 8),
    })
}

/// Returns the fault of the first failing check among those before the allocation.
fn fault_of(image: &[u8], seed: u64) -> Option<Fault>
    ensures { result ≡ early_fault seed image.now }
{
    if let Some(fault) = opening_fault(image, 8, Family::COUNTMIN) {
        return Some(fault);
    }
    if image[0] != PREAMBLE_LONGS {
        return Some(Fault::BadPreamble);
    }
    if image.len() < 16 {
        return Some(Fault::InsufficientData);
    }
    let Ok(hash) = compute_seed_hash(seed, ErrorKind::InvalidData) else {
        return Some(Fault::ZeroSeedHash);
    };
    if hash != u16_at(image, 13) {
        return Some(Fault::SeedHashMismatch);
    }
    let num_hashes = image[12];
    if num_hashes == 0 {
        return Some(Fault::BadNumHashes);
    }
    let num_buckets = u32_at(image, 8);
    if num_buckets < MIN_NUM_BUCKETS {
        return Some(Fault::BadNumBuckets);
    }
    let num_cells = num_hashes as usize * num_buckets as usize;
    if num_cells >= MAX_TABLE_ENTRIES {
        return Some(Fault::TableTooLarge);
    }
    let is_empty = image[3] & EMPTY_FLAG_MASK != 0;
    if !is_empty && image.len() < 24 + 8 * num_cells {
        return Some(Fault::InsufficientData);
    }
    None
}

/// Reads the value of eight bytes from `offset` on, and checks its range.
#[tactic(auto, unfolding(crate::specs::Image::number_at))]
#[inline(always)]
fn read_value<T: CountMinValue>(image: &[u8], offset: usize) -> Result<T, Error>
    requires { offset + 8 ≤ length image.now }
    ensures { MatchResult result
        (λ v. (T.number v ≡ number_at T.least image.now offset)
        × InRange T.least T.greatest (number_at T.least image.now offset))
        (λ e. (e ≡ invalid_data Fault.ValueOutOfRange)
        × ¬ InRange T.least T.greatest (number_at T.least image.now offset)) }
{
    let mut bytes = [0; 8];
    bytes.copy_from_slice(&image[offset..offset + 8]);
    T::try_from_bytes(bytes)
}

/// Reads the total, and checks that it is in range and not negative.
pub fn read_total<T: CountMinValue>(image: &[u8]) -> Result<T, Error>
    requires { 24 ≤ length image.now }
    ensures value { IfOk result (λ total. T.number total ≡ total_at T.least image.now) }
    ensures checks { OnOk result (first_failing (total_checks T.least T.greatest (total_at T.least image.now)) ≡ None) }
    ensures not_negative { IfOk result (λ total. T.number total ≡ pos (unsigned_abs (T.number total))) }
    ensures fits { IfOk result (λ total. unsigned_abs (T.number total) ≤ T.greatest) }
    ensures err { IfErr result (λ e. (e ≡ invalid_data e.fault)
        × (first_failing (total_checks T.least T.greatest (total_at T.least image.now)) ≡ Some e.fault)) }
{
    let total = read_value::<T>(image, 16)?;
    if total.to_number() < 0 {
        return Err(Error::invalid_data(Fault::NegativeTotal));
    }
    Ok(total)
}

/// Reads a cell, and checks that it is in range and no further from zero than the total.
#[inline(always)]
fn read_cell<T: CountMinValue>(image: &[u8], offset: usize, total: u64) -> Result<T, Error>
    requires { offset + 8 ≤ length image.now }
    ensures value { IfOk result (λ v. T.number v ≡ number_at T.least image.now offset) }
    ensures checks { OnOk result
        (first_failing (cell_checks T.least T.greatest total (number_at T.least image.now offset)) ≡ None) }
    ensures err { IfErr result (λ e. (e ≡ invalid_data e.fault)
        × (first_failing (cell_checks T.least T.greatest total (number_at T.least image.now offset)) ≡ Some e.fault)) }
{
    let value = read_value::<T>(image, offset)?;
    if value.to_number().unsigned_abs() as u64 > total {
        return Err(Error::invalid_data(Fault::CellAboveTotal));
    }
    Ok(value)
}

/// Reads `num_cells` cells.
pub fn read_cells<T: CountMinValue>(
    alloc: Global,
    image: &[u8],
    num_cells: usize,
    total: u64,
) -> Result<Vec<T>, Error>
    requires { 24 + 8 * num_cells ≤ length image.now }
    ensures value { IfOk result (λ counts.
        map T.number counts.items ≡ numbers_in T.least num_cells (drop 24 image.now)) }
    ensures checks { OnOk result
        (first_failing (cells_checks T.least T.greatest total (numbers_in T.least num_cells (drop 24 image.now)))
        ≡ None) }
    ensures err { IfErr result (IsImageRefusal None
        (first_failing (cells_checks T.least T.greatest total (numbers_in T.least num_cells (drop 24 image.now))))) }
{
    let mut counts = Vec::with_capacity(alloc, num_cells)?;
    for i in 0..num_cells {
        counts.push_reserved(read_cell::<T>(image, 24 + 8 * i, total)?);
    }
    Ok(counts)
}

/// Writes the image of a sketch whose total is 0 to `out`, which has its length.
pub fn write_empty(out: &mut [u8], num_buckets: u32, num_hashes: u8, hash: u16)
    requires { length out.old ≡ 16 }
    ensures { out.new ≡ preamble 1 num_buckets num_hashes hash }
{
    out.copy_from_slice(&preamble_bytes(EMPTY_FLAG_MASK, num_buckets, num_hashes, hash));
}

/// Writes the image of a sketch whose total is not 0 to `out`, which has its length.
pub fn write_full<T: CountMinValue>(
    out: &mut [u8],
    num_buckets: u32,
    num_hashes: u8,
    hash: u16,
    total: T,
    counts: &[T],
)
    requires { length out.old ≡ 24 + 8 * length counts.now }
    ensures { out.new ≡ preamble 0 num_buckets num_hashes hash ++ bytes_of (T.number total)
        ++ flat_map bytes_of (map T.number counts.now) }
{
    out[..16].copy_from_slice(&preamble_bytes(0, num_buckets, num_hashes, hash));
    out[16..24].copy_from_slice(&total.to_bytes());
    write_cells(&mut out[24..], counts);
}

/// Returns the image of a sketch whose total is 0. Allocates it.
pub fn empty_image(
    alloc: Global,
    num_buckets: u32,
    num_hashes: u8,
    hash: u16,
) -> Result<Vec<u8>, AllocError>
    ensures { IfOk result (λ image. image.items ≡ preamble 1 num_buckets num_hashes hash) }
{
    let mut image = Vec::with_capacity(alloc, 16)?;
    image.extend_from_slice(&preamble_bytes(EMPTY_FLAG_MASK, num_buckets, num_hashes, hash))?;
    Ok(image)
}

/// Returns the image of a sketch whose total is not 0. Allocates it once, and writes each of its bytes once.
///
/// [`write_full`] needs a buffer with the image's length, so all of it would be zeroed first.
pub fn full_image<T: CountMinValue>(
    alloc: Global,
    num_buckets: u32,
    num_hashes: u8,
    hash: u16,
    total: T,
    counts: &[T],
) -> Result<Vec<u8>, AllocError>
    requires { length counts.now < MAX_TABLE_ENTRIES }
    ensures { IfOk result (λ image. image.items ≡ preamble 0 num_buckets num_hashes hash ++ bytes_of (T.number total)
        ++ flat_map bytes_of (map T.number counts.now)) }
{
    let mut image = Vec::with_capacity(alloc, 24 + 8 * counts.len())?;
    image.extend_from_slice(&preamble_bytes(0, num_buckets, num_hashes, hash))?;
    image.extend_from_slice(&total.to_bytes())?;
    append_cells(&mut image, counts)?;
    Ok(image)
}

/// Returns the bytes of an image's preamble.
fn preamble_bytes(flags: u8, num_buckets: u32, num_hashes: u8, hash: u16) -> [u8; 16]
    ensures { result ≡ preamble flags num_buckets num_hashes hash }
{
    let longs = PREAMBLE_LONGS;
    let version = SERIAL_VERSION;
    let family = Family::COUNTMIN.id;
    let buckets = num_buckets.to_le_bytes();
    let hash = hash.to_le_bytes();
    [
        longs, version, family, flags, 0, 0, 0, 0, buckets[0], buckets[1], buckets[2], buckets[3],
        num_hashes, hash[0], hash[1], 0,
    ]
}

/// The number of cells whose bytes are appended at once.
const BLOCK: usize = 64;

/// Appends the bytes of the cells to `image`, 8 for each.
fn append_cells<T: CountMinValue>(image: &mut Vec<u8>, counts: &[T]) -> Result<(), AllocError>
    ensures { OnOk result (image.new.items ≡ image.old.items ++ flat_map bytes_of (map T.number counts.now)) }
{
    let mut block = [0; 512];
    let mut start = 0;
    'appends: while start < counts.len() {
        let count = BLOCK.min(counts.len() - start);
        let bytes = &mut block[..8 * count];
        write_cells(bytes, &counts[start..start + count]);
        image.extend_from_slice(bytes)?;
        start += count;
    }
    Ok(())
}

/// Writes the cells to `out`, which has 8 bytes for each.
fn write_cells<T: CountMinValue>(out: &mut [u8], counts: &[T])
    requires { length out.old ≡ 8 * length counts.now }
    ensures { out.new ≡ flat_map bytes_of (map T.number counts.now) }
{
    for i in 0..counts.len() {
        out[8 * i..8 * i + 8].copy_from_slice(&counts[i].to_bytes());
    }
}
