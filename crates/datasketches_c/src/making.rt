//! The call that creates sketches, of any kind.
ghost use Rattle.std.specs.Prelude.{◌≡◌};
ghost use Rattle.any_sketch.specs.KindNumbers.{kind_numbered};
ghost use Rattle.any_sketch.specs.Making.{Makes};
ghost use Rattle.datasketches_c.specs.Making.{IsMade, IsMadeOf, IsPut, sizes_in};

use crate::codes::code_of_error;
use crate::handle::SketchHandle;
use crate::held_sketch::HeldSketch;
use crate::status_code::WRONG_KIND;
use any_sketch::{AnyError, AnySketch, Kind, SketchSizes};
use sketch_frequencies::{HashKey, TableKey};
use std::alloc::Global;

/// The sizes of a new sketch: `ds_sizes` of C. Each kind reads its own.
#[repr(C)]
pub struct SizesArgument {
    /// The number of bits of a filter.
    pub num_bits: u64,
    /// The seed of a filter or of a Count-Min sketch.
    pub seed: u64,
    /// The maximum number of slots of the table of a sketch of frequent items.
    pub max_map_size: usize,
    /// How many counters a purge of a sketch of frequent items samples.
    pub sample_size: usize,
    /// The key of the table of a sketch of frequent items, as two words.
    pub k0: u64,
    pub k1: u64,
    /// The number of cells in a row of a Count-Min sketch.
    pub num_buckets: u32,
    /// The number of positions of an item in a filter, or of rows of a Count-Min sketch.
    pub num_hashes: u16,
}

/// Returns the sizes of an argument.
fn sizes_in(sizes: &SizesArgument) -> SketchSizes
    ensures { result ≡ sizes_in sizes.now }
{
    SketchSizes {
        num_bits: sizes.num_bits,
        num_hashes: sizes.num_hashes,
        num_buckets: sizes.num_buckets,
        seed: sizes.seed,
        max_map_size: sizes.max_map_size,
        sample_size: sizes.sample_size,
        key: TableKey::Keyed(HashKey::new(sizes.k0, sizes.k1)),
    }
}

/// Puts a sketch that was created into the handle, frees what the handle had, and returns `OK`.
///
/// Returns the error's number if the sketch was not created, and `NoMemory` if an allocation fails. Then the handle is
/// unchanged.
pub(crate) fn put_made(
    alloc: Global,
    handle: &mut SketchHandle,
    made: Result<AnySketch, AnyError>,
) -> i32
    ensures { IsPut handle.old.value handle.new.value result made }
{
    match made {
        Ok(sketch) => handle.put(alloc, HeldSketch::Own(sketch)),
        Err(error) => code_of_error(error),
    }
}

/// Puts a new sketch of a kind into the handle.
fn put_new(alloc: Global, handle: &mut SketchHandle, kind: Kind, sizes: SketchSizes) -> i32
    ensures { IsMade (Makes kind sizes) handle.old.value handle.new.value result }
{
    put_made(alloc, handle, AnySketch::new(alloc, kind, sizes))
}

/// Puts an empty sketch of the kind of this number into the handle, and frees what the handle had. The kind reads its own sizes.
/// `ds_bloom_new`, `ds_count_min_new` and `ds_frequent_items_new` of C are this call, the last one for a key that the caller chose or that
/// was drawn.
///
/// Returns the first of these errors, and then changes nothing:
///
/// - `WRONG_KIND` if there is no kind of this number.
/// - Of a filter `BadNumBits` unless `num_bits` is from 1 to 137438953152, and `BadNumHashes` unless `num_hashes` is from 1 to 32767.
/// - Of a Count-Min sketch `BadNumHashes` unless `num_hashes` is from 1 to 255, `BadNumBuckets` if `num_buckets` is below 3,
///   `TableTooLarge` if there are 2^30 cells or more, and `ZeroSeedHash` if the seed's hash is 0.
/// - Of frequent items `MapSizeNotPowerOfTwo`, `MapSizeTooSmall` or `MapSizeTooLarge` unless `max_map_size` is a power of two from 8 to
///   2^30, and `BadSampleSize` unless `sample_size` is even, and from 2 to three quarters of `max_map_size`, at most 1024.
/// - `NoMemory` if an allocation fails.
#[unsafe(no_mangle)]
pub extern "C" fn ds_new(
    alloc: Global,
    handle: &mut SketchHandle,
    kind: i32,
    sizes: &SizesArgument,
) -> i32
    ensures { IsMadeOf (kind_numbered kind) (sizes_in sizes.now) handle.old.value handle.new.value result }
{
    match Kind::of_number(kind) {
        Some(kind) => put_new(alloc, handle, kind, sizes_in(sizes)),
        None => WRONG_KIND,
    }
}
