//! Sketches of four kinds, and what each kind does for a command.
ghost use Rattle.std.specs.Prelude.{◌≡◌, false, None, IfOk, IfErr, IsOk, OnOk, OnErr, IsTrue, pos};
ghost use Rattle.counter_table.specs.Bytes.{option_bytes};
ghost use Rattle.datasketches.specs.Actions.{Change};
ghost use Rattle.datasketches.specs.Answering.{Tells, Lists, status_of};
ghost use Rattle.datasketches.specs.Hashing.{IsUnder};
ghost use Rattle.datasketches.specs.Histories.{changed};
ghost use Rattle.datasketches.specs.Images.{IsWrittenBy, IsReadFrom, IsWriteRefusal, IsReadRefusal, IsLoadRefusal, TakesWithin, GivesBack, load_fault};
ghost use Rattle.datasketches.specs.Keyed.{AddsNamed};
ghost use Rattle.datasketches.specs.Replies.{done_or, told_as, is_refused};
ghost use Rattle.datasketches.specs.Stands.{Carries};
ghost use Rattle.datasketches.specs.Steps.{Alters};

use crate::image::Image;
use crate::image_kind::ImageKind;
use crate::reply::{Refusal, Reply, Status};
use sketch_base::Error;
use sketch_bloom::{BloomFilter, laws as bloom};
use sketch_countmin::{CountMinImageOptions, CountMinSketch, RowItem, laws as countmin};
use sketch_frequencies::{
    EqualClone, ErrorType, FrequentItemValue, FrequentItemsImageOptions, FrequentItemsSketch,
    ItemKey, OwnedKey, Row, TableKey, laws as frequencies,
};
use std::alloc::Global;
use std::hash::Hash;

/// A sketch of one of four kinds.
#[derive(Drop)]
pub enum Sketch<T: Eq + Hash + Drop> {
    Frequent(FrequentItemsSketch<T>),
    CountI64(CountMinSketch<i64>),
    CountU64(CountMinSketch<u64>),
    Bloom(BloomFilter),
}

// wraps a sketch in its kind, or passes on the error
macro_rules! of_kind {
    ($kind:ident, $made:expr) => {
        match $made {
            Ok(sketch) => Ok(Sketch::$kind(sketch)),
            Err(error) => Err(error),
        }
    };
}

pub(crate) use of_kind;

impl<T: Eq + Hash + Drop> Sketch<T> {
    /// Adds an item with a weight to a sketch of frequent items, or to a Count-Min sketch of nonnegative weights.
    ///
    /// # Errors
    ///
    /// This and the other changes return `WrongKind` if the kind does not support the change, and the error of the sketch's
    /// own call if that fails. The sketch is then unchanged.
    pub fn add(&mut self, item: T, weight: u64) -> Result<(), Refusal>
        ensures { Alters T.eq T.hash_input (Change.Add item weight) self.old (done_or result) self.new }
    {
        match self {
            Sketch::Frequent(sketch) => Ok(sketch.update_with_count(item, weight)?),
            Sketch::CountU64(sketch) => Ok(sketch.update_item_with_weight(&item, weight)?),
            _ => Err(Refusal::WrongKind),
        }
    }

    /// Adds the item that the key names, as [`add`](Self::add) does. Creates an item only if none is tracked.
    #[inline(always)]
    pub fn add_by_key<K: OwnedKey<T> + RowItem<u64>>(
        &mut self,
        item: K,
        weight: u64,
    ) -> Result<(), Refusal>
        ensures added { (x : T) → IsTrue (K.names item x)
            → AddsNamed T.eq T.hash_input (K.names item) weight self.old result self.new }
        ensures carries { (x : T) → IsTrue (K.names item x)
            → OnOk result (Carries T.eq (changed T.hash_input (Change.Add x weight)) self.old self.new) }
        ensures refused { OnErr result (self.new ≡ self.old) }
    {
        match self {
            Sketch::Frequent(sketch) => Ok(sketch.update_item_with_count(item, weight)?),
            Sketch::CountU64(sketch) => Ok(sketch.update_item_with_weight(item, weight)?),
            _ => Err(Refusal::WrongKind),
        }
    }

    /// Adds an item with a weight to a Count-Min sketch of signed weights.
    pub fn add_signed<K: ItemKey<T> + RowItem<i64>>(
        &mut self,
        item: K,
        weight: i64,
    ) -> Result<(), Refusal>
        ensures { (x : T) → IsTrue (K.names item x)
            → Alters T.eq T.hash_input (Change.AddSigned x weight) self.old (done_or result) self.new }
    {
        match self {
            Sketch::CountI64(sketch) => Ok(sketch.update_item_with_weight(item, weight)?),
            _ => Err(Refusal::WrongKind),
        }
    }

    /// Inserts an item into a filter.
    #[inline(always)]
    pub fn insert<K: ItemKey<T>>(&mut self, item: K) -> Result<(), Refusal>
        ensures { (x : T) → IsTrue (K.names item x)
            → Alters T.eq T.hash_input (Change.Insert x) self.old (done_or result) self.new }
    {
        match self {
            Sketch::Bloom(filter) => {
                filter.insert_item(item);
                Ok(())
            }
            _ => Err(Refusal::WrongKind),
        }
    }

    /// Empties a sketch of frequent items or a filter.
    pub fn reset(&mut self) -> Result<(), Refusal>
        ensures { Alters T.eq T.hash_input Change.Reset self.old (done_or result) self.new }
    {
        match self {
            Sketch::Frequent(sketch) => {
                sketch.reset();
                Ok(())
            }
            Sketch::Bloom(filter) => {
                filter.reset();
                Ok(())
            }
            _ => Err(Refusal::WrongKind),
        }
    }

    /// Halves all weights of a Count-Min sketch of nonnegative weights.
    pub fn halve(&mut self) -> Result<(), Refusal>
        ensures { Alters T.eq T.hash_input Change.Halve self.old (done_or result) self.new }
    {
        match self {
            Sketch::CountU64(sketch) => {
                sketch.halve();
                Ok(())
            }
            _ => Err(Refusal::WrongKind),
        }
    }

    /// Multiplies all weights of a Count-Min sketch of nonnegative weights by a fraction.
    ///
    /// Returns `BadFraction` if the fraction is not above 0 and at most 1.
    pub fn decay(&mut self, numerator: u64, denominator: u64) -> Result<(), Refusal>
        ensures { Alters T.eq T.hash_input (Change.Decay numerator denominator) self.old (done_or result) self.new }
    {
        match self {
            Sketch::CountU64(sketch) => {
                if numerator == 0 || numerator > denominator {
                    return Err(Refusal::BadFraction);
                }
                sketch.decay(numerator, denominator);
                Ok(())
            }
            _ => Err(Refusal::WrongKind),
        }
    }

    /// Returns an item's estimate and bounds, or whether a filter contains it.
    #[inline(always)]
    pub fn ask<K: ItemKey<T> + RowItem<i64> + RowItem<u64>>(&self, item: K) -> Reply<T>
        ensures tells { (x : T) → IsTrue (K.names item x) → Tells T.eq T.hash_input x self.now result }
        ensures accepted { is_refused result ≡ false }
    {
        match self {
            Sketch::Frequent(sketch) => {
                let found = sketch.bounds_item(item);
                bounds(found.estimate, found.lower_bound, found.upper_bound)
            }
            Sketch::CountI64(sketch) => {
                let counted = sketch.bounds_item(item);
                signed_bounds(counted.estimate, counted.estimate, counted.upper_bound)
            }
            Sketch::CountU64(sketch) => {
                let counted = sketch.bounds_item(item);
                bounds(counted.estimate, counted.estimate, counted.upper_bound)
            }
            Sketch::Bloom(filter) => Reply::Contains(filter.contains_item(item)),
        }
    }

    /// Returns the sketch's numbers.
    pub fn status(&self) -> Status
        ensures { result ≡ status_of self.now }
    {
        match self {
            Sketch::Frequent(sketch) => Status::Frequent {
                active: sketch.num_active_items(),
                error: sketch.maximum_error(),
                total: sketch.total_weight(),
                size: 1 << sketch.lg_cur_map_size(),
                max: sketch.max_map_size(),
                capacity: sketch.current_map_capacity(),
            },
            Sketch::CountI64(sketch) => Status::CountI64 {
                total: sketch.total_weight(),
                hashes: sketch.num_hashes(),
                buckets: sketch.num_buckets(),
                seed: sketch.seed(),
            },
            Sketch::CountU64(sketch) => Status::CountU64 {
                total: sketch.total_weight(),
                hashes: sketch.num_hashes(),
                buckets: sketch.num_buckets(),
                seed: sketch.seed(),
            },
            Sketch::Bloom(filter) => Status::Bloom {
                bits: filter.bits_used(),
                capacity: filter.capacity(),
                hashes: filter.num_hashes(),
                seed: filter.seed(),
            },
        }
    }
}

impl<T: FrequentItemValue + Drop> Sketch<T> {
    /// Returns the sketch's image.
    ///
    /// # Errors
    ///
    /// Returns a tracked item's own fault if the item cannot be written, and `NoMemory` if the image cannot be
    /// allocated.
    pub fn save(&self) -> Result<Image, Error>
        ensures written { IfOk result (λ image. IsWrittenBy T.codec T.content self.now image.kind image.bytes) }
        ensures refused { IfErr result (IsWriteRefusal T.codec T.content self.now) }
    {
        match self {
            Sketch::Frequent(sketch) => { Ok(Image::new(ImageKind::Frequent, sketch.serialize()?)) }
            Sketch::CountI64(sketch) => {
                let seed = sketch.seed();
                Ok(Image::new(ImageKind::CountI64 { seed }, sketch.serialize()?))
            }
            Sketch::CountU64(sketch) => {
                let seed = sketch.seed();
                Ok(Image::new(ImageKind::CountU64 { seed }, sketch.serialize()?))
            }
            Sketch::Bloom(filter) => Ok(Image::new(ImageKind::Bloom, filter.serialize()?)),
        }
    }

    /// Returns the sketch of an image of the kind. The table of frequent items hashes under `key`.
    ///
    /// # Errors
    ///
    /// Returns the image's first fault if it has one, and `NoMemory` if the sketch cannot be allocated.
    pub fn restore(
        alloc: Global,
        kind: ImageKind,
        bytes: &[u8],
        key: TableKey,
    ) -> Result<Self, Error>
        ensures read { IfOk result (IsReadFrom T.codec T.content kind bytes.now) }
        ensures stands { IfOk result (GivesBack T.eq T.codec T.content kind bytes.now) }
        ensures keyed { IfOk result (IsUnder key) }
        ensures refused { IfErr result (IsReadRefusal T.codec kind bytes.now) }
    {
        match kind {
            ImageKind::Frequent => {
                frequencies::image_laws::<T>();
                of_kind!(
                    Frequent,
                    FrequentItemsSketch::deserialize_with_options(
                        alloc,
                        bytes,
                        FrequentItemsImageOptions {
                            max_bytes: usize::MAX,
                            key,
                        }
                    )
                )
            }
            ImageKind::CountI64 { seed } => {
                countmin::image_laws::<i64>();
                of_kind!(
                    CountI64,
                    CountMinSketch::deserialize_with_seed(alloc, bytes, seed)
                )
            }
            ImageKind::CountU64 { seed } => {
                countmin::image_laws::<u64>();
                of_kind!(
                    CountU64,
                    CountMinSketch::deserialize_with_seed(alloc, bytes, seed)
                )
            }
            ImageKind::Bloom => {
                bloom::image_laws();
                of_kind!(Bloom, BloomFilter::deserialize(alloc, bytes))
            }
        }
    }

    /// Returns the sketch of an untrusted image, if it takes at most `max_bytes`. The table of frequent items hashes under
    /// `key`.
    ///
    /// For frequent items the limit counts what
    /// [`deserialize_with_options`](sketch_frequencies::FrequentItemsSketch::deserialize_with_options) counts: the table,
    /// and for items that own memory also the bytes that they take in the image.
    ///
    /// # Errors
    ///
    /// Returns the image's first fault if it has one, `TableTooLarge` if the limit is exceeded, and `NoMemory` if the
    /// sketch cannot be allocated.
    pub fn load(
        alloc: Global,
        kind: ImageKind,
        bytes: &[u8],
        max_bytes: usize,
        key: TableKey,
    ) -> Result<Self, Error>
        ensures read { IfOk result (IsReadFrom T.codec T.content kind bytes.now) }
        ensures stands { IfOk result (GivesBack T.eq T.codec T.content kind bytes.now) }
        ensures keyed { IfOk result (IsUnder key) }
        ensures within { IfOk result (TakesWithin (option_bytes T.row) T.codec T.content max_bytes) }
        ensures accepted { IsOk result → load_fault (option_bytes T.row) T.codec max_bytes kind bytes.now ≡ None }
        ensures refused { IfErr result (IsLoadRefusal (option_bytes T.row) T.codec max_bytes kind bytes.now) }
    {
        match kind {
            ImageKind::Frequent => {
                frequencies::image_laws::<T>();
                of_kind!(
                    Frequent,
                    FrequentItemsSketch::deserialize_with_options(
                        alloc,
                        bytes,
                        FrequentItemsImageOptions { max_bytes, key }
                    )
                )
            }
            ImageKind::CountI64 { seed } => {
                countmin::image_laws::<i64>();
                of_kind!(
                    CountI64,
                    CountMinSketch::deserialize_with_options(
                        alloc,
                        bytes,
                        CountMinImageOptions { seed, max_bytes }
                    )
                )
            }
            ImageKind::CountU64 { seed } => {
                countmin::image_laws::<u64>();
                of_kind!(
                    CountU64,
                    CountMinSketch::deserialize_with_options(
                        alloc,
                        bytes,
                        CountMinImageOptions { seed, max_bytes }
                    )
                )
            }
            ImageKind::Bloom => {
                bloom::image_laws();
                of_kind!(
                    Bloom,
                    BloomFilter::deserialize_with_limit(alloc, bytes, max_bytes)
                )
            }
        }
    }
}

impl<T: EqualClone + Hash + Drop> Sketch<T> {
    /// Returns the items above a threshold, if the sketch is of frequent items.
    ///
    /// # Errors
    ///
    /// Returns `WrongKind` if the sketch is of another kind, and `NoMemory` if the rows or a clone cannot be allocated.
    pub fn rows(&self, error_type: ErrorType, threshold: u64) -> Result<Vec<Row<T>>, Refusal>
        ensures { Lists T.eq error_type threshold self.now (told_as Reply.Rows result) }
    {
        match self {
            Sketch::Frequent(sketch) => {
                Ok(sketch.frequent_items_with_threshold(error_type, threshold)?)
            }
            _ => Err(Refusal::WrongKind),
        }
    }
}

/// Returns the reply with an estimate and two bounds.
fn bounds<T>(estimate: u64, lower: u64, upper: u64) -> Reply<T>
    ensures { result ≡ Reply.Bounds (pos estimate) (pos lower) (pos upper) }
{
    Reply::Bounds {
        estimate: i128::from(estimate),
        lower: i128::from(lower),
        upper: i128::from(upper),
    }
}

/// Returns the reply with a signed estimate and two signed bounds.
fn signed_bounds<T>(estimate: i64, lower: i64, upper: i64) -> Reply<T>
    ensures { result ≡ Reply.Bounds estimate lower upper }
{
    Reply::Bounds {
        estimate: i128::from(estimate),
        lower: i128::from(lower),
        upper: i128::from(upper),
    }
}
