//! Images of sketches.
ghost use Rattle.std.specs.Prelude.{◌≡◌, ◌-◌, ◌<◌, ◌≤◌, ◌^◌, ℕ, List, None, length, take, drop, IfOk, IfErr, IfSome, IsOk, OnErr};
ghost use Rattle.sketch_base.specs.Checks.{IsImageRefusal};
ghost use Rattle.sketch_base.specs.Errors.{no_memory};
ghost use Rattle.counter_table.specs.Bytes.{table_bytes};
ghost use Rattle.counter_table.specs.declared.table_key.TableKey.TheVariants.{Plain};
ghost use Rattle.sketch_frequencies.specs.Image.{IsImageOf, IsSpelledFor, IsImageWritingRefusal, IsItemFault, HasImagesAbove, ReadsFront, Restores, RestoresBudget, early_fault, first_fault, limit_fault, early_fault_within, first_fault_within, prefix_bytes};
ghost use Rattle.sketch_frequencies.specs.Items.{IsWithin};
ghost use Rattle.sketch_frequencies.specs.Memory.{owned_by, memory_bytes};
ghost use Rattle.sketch_frequencies.specs.State.{IsState, max_sample_size};
ghost use Rattle.sketch_frequencies.specs.Writing.{IsImageSize};

use crate::frequent_item_value::FrequentItemValue;
use crate::frequent_items_image_options::FrequentItemsImageOptions;
use crate::frequent_items_sketch::FrequentItemsSketch;
use crate::image::{
    Numbers, bytes_with_items, check_limit, check_weights, items_size, read_counters, read_header,
    read_numbers, table_size, write_empty, write_full,
};
use crate::sizes::{MIN_MAP_SIZE, max_sample_of};
use counter_table::ReversePurgeItemHashMap;
use sketch_base::Error;
use std::alloc::{AllocError, Global};

impl<T: FrequentItemValue + Drop> FrequentItemsSketch<T> {
    /// Returns the number of bytes of the sketch's image, in one pass over the table. Nothing is allocated.
    ///
    /// It is 8 if the sketch is empty. Otherwise it is 32, 8 for each counter, and the bytes of the items.
    ///
    /// # Errors
    ///
    /// Returns a fault of the kind `InvalidArgument` if an item cannot be written, such as `ItemTooLong` for a string of more than
    /// 2^32 - 1 bytes. Returns `NoMemory` if the image would take 2^64 bytes or more. It never does if an item takes at most 2^33,
    /// as numbers and strings do.
    pub fn serialized_size(&self) -> Result<usize, Error>
        // There is an image, and each has this length.
        ensures some { IfOk result (λ n.
            (image : List ℕ) × IsSpelledFor T.codec T.content image self.now × (length image ≡ n)) }
        ensures each { IfOk result (λ n.
            (image : List ℕ) → IsSpelledFor T.codec T.content image self.now → length image ≡ n) }
        ensures err { IfErr result (IsImageWritingRefusal T.codec T.content self.now.counters) }

        // `NoMemory` comes only if the images are longer than `usize::MAX`, so never if each item takes few bytes.
        ensures memory { IfErr result (λ e. e ≡ no_memory → HasImagesAbove T.codec T.content self.now (2 ^ 64 - 1)) }
        ensures short { IsWithin T.codec (2 ^ 33) → IfErr result (IsItemFault T.codec T.content self.now.counters) }
    {
        self.image_size()
    }

    /// Returns an image of the sketch.
    ///
    /// It has [`serialized_size`](Self::serialized_size) bytes, and is allocated once. The order of the items is unspecified. The
    /// image does not contain the sample size.
    ///
    /// # Errors
    ///
    /// Returns `NoMemory` if the image cannot be allocated. Returns a fault of the kind `InvalidArgument` if an item cannot be
    /// written, such as `ItemTooLong` for a string of more than 2^32 - 1 bytes.
    pub fn serialize(&self) -> Result<Vec<u8>, Error>
        ensures image { IfOk result (λ image. IsSpelledFor T.codec T.content image.items self.now) }
        ensures err { IfErr result (IsImageWritingRefusal T.codec T.content self.now.counters) }
    {
        let alloc = self.map.allocator();
        let mut image = vec![in alloc; 0; self.image_size()?]?;
        self.write_image(&mut image);
        Ok(image)
    }

    /// Writes an image of the sketch, as [`serialize`](Self::serialize) does, to the front of `out`, and returns its length. The
    /// rest of `out` is unchanged. Does not allocate.
    ///
    /// Returns `None` if the image, of [`serialized_size`](Self::serialized_size) bytes, is longer than `out`, which is then unchanged.
    ///
    /// # Errors
    ///
    /// Returns those of `serialized_size`. `out` is then unchanged.
    pub fn serialize_into(&self, out: &mut [u8]) -> Result<Option<usize>, Error>
        ensures image { IfOk result (λ r. IfSome r (λ n. IsSpelledFor T.codec T.content (take n out.new) self.now)) }
        ensures length { IfOk result (λ r. IfSome r (λ n. n ≤ length out.old)) }
        ensures rest { IfOk result (λ r. IfSome r (λ n. drop n out.new ≡ drop n out.old)) }

        // There is none only if there is an image, and `out` is too short for each.
        ensures exists { IfOk result (λ r. r ≡ None → (image : List ℕ) × IsSpelledFor T.codec T.content image self.now) }
        ensures room { IfOk result (λ r. r ≡ None →
            (image : List ℕ) → IsSpelledFor T.codec T.content image self.now → length out.old < length image) }
        ensures none { IfOk result (λ r. r ≡ None → out.new ≡ out.old) }
        ensures err { IfErr result (IsImageWritingRefusal T.codec T.content self.now.counters) }

        // `NoMemory` comes only if the images are longer than `usize::MAX`, so never if each item takes few bytes.
        ensures memory { IfErr result (λ e. e ≡ no_memory → HasImagesAbove T.codec T.content self.now (2 ^ 64 - 1)) }
        ensures short { IsWithin T.codec (2 ^ 33) → IfErr result (IsItemFault T.codec T.content self.now.counters) }
        ensures unchanged { OnErr result (out.new ≡ out.old) }
    {
        let length = self.image_size()?;
        if length > out.len() {
            return Ok(None);
        }
        self.write_image(&mut out[..length]);
        Ok(Some(length))
    }

    /// Returns the number of bytes of the sketch's image.
    fn image_size(&self) -> Result<usize, Error>
        ensures size { IfOk result (IsImageSize T.codec T.content self.now) }
        ensures some { IfOk result (λ n.
            (image : List ℕ) × IsSpelledFor T.codec T.content image self.now × (length image ≡ n)) }
        ensures each { IfOk result (λ n.
            (image : List ℕ) → IsSpelledFor T.codec T.content image self.now → length image ≡ n) }
        ensures err { IfErr result (IsImageWritingRefusal T.codec T.content self.now.counters) }

        // `NoMemory` comes only if the images are longer than `usize::MAX`, so never if each item takes few bytes.
        ensures memory { IfErr result (λ e. e ≡ no_memory → HasImagesAbove T.codec T.content self.now (2 ^ 64 - 1)) }
        ensures short { IsWithin T.codec (2 ^ 33) → IfErr result (IsItemFault T.codec T.content self.now.counters) }
    {
        if self.total == 0 {
            return Ok(8);
        }
        let active = self.map.num_active();
        let items = items_size(self.map.slots(), active)?;
        let front = 32 + 8 * active;
        if items > usize::MAX - front {
            return Err(Error::from(AllocError));
        }
        Ok(front + items)
    }

    /// Writes an image of the sketch to `out`, which has the image's length.
    fn write_image(&self, out: &mut [u8])
        requires { IsImageSize T.codec T.content self.now (length out.old) }
        ensures { IsSpelledFor T.codec T.content out.new self.now }
    {
        let lg_max = self.lg_max_map_size();
        if self.total == 0 {
            write_empty(out, lg_max);
        } else {
            let numbers = Numbers {
                active: self.map.num_active() as u32,
                total: self.total,
                error: self.error,
            };
            write_full(
                out,
                lg_max,
                self.map.lg_length(),
                &numbers,
                self.map.slots(),
            );
        }
    }

    /// Returns the sketch of an image.
    ///
    /// Ignores the bytes after the image and the unused bytes within it. Adds up the weights of equal items, and leaves out items
    /// of weight 0. Allocates a table of the size that the image states, at most 2^30 slots, even if few of them are taken.
    /// [`deserialize_with_options`](Self::deserialize_with_options) limits this, and is for untrusted images. The image of an
    /// empty sketch gives a table of 8 slots, whatever size it states. The sample size is not in the image: it is the one that
    /// `new` chooses.
    ///
    /// # Errors
    ///
    /// Returns the fault of the first failing check, of the kind `InvalidData`. The order is `InsufficientData`, `BadFamily`,
    /// `BadVersion`, `LgCurTooSmall`, `LgMaxTooLarge`, `LgCurAboveMax`, `BadPreamble` and `EmptyFlagMismatch`. For a sketch that
    /// is not empty there follow `InsufficientData`, `TooManyActive`, `InsufficientData`, `ZeroTotal`, `InsufficientData` twice,
    /// `WeightsExceedTotal`, `ErrorExceedsTotal`, and the fault of the first item that cannot be read.
    ///
    /// Returns `NoMemory` if the table or an item cannot be allocated. It comes only if all checks but the last three pass.
    pub fn deserialize(alloc: Global, image: &[u8]) -> Result<Self, Error>
        ensures image { IfOk result (λ sketch. IsImageOf T.codec T.content image.now sketch) }
        ensures state { IfOk result (λ sketch. IsState T.eq sketch) }
        ensures sample { IfOk result (λ sketch. sketch.sample_size ≡ max_sample_size sketch.max_size) }
        ensures key { IfOk result (λ sketch. sketch.key ≡ Plain) }
        ensures purges { IfOk result (λ sketch. sketch.purges ≡ 0) }
        ensures stands { IfOk result (λ sketch. Restores T.codec T.content T.eq image.now sketch) }
        ensures budget { IfOk result (λ sketch. RestoresBudget T.codec T.content T.eq image.now sketch) }
        ensures err { IfErr result (IsImageRefusal (early_fault image.now) (first_fault T.codec image.now)) }
    {
        Self::deserialize_with_options(alloc, image, FrequentItemsImageOptions::default())
    }

    /// Returns the sketch of an image as [`deserialize`](Self::deserialize) does, under a limit and a key.
    ///
    /// The table and the items take at most `options.max_bytes`, and the table hashes under `options.key`, as that of
    /// [`with_key`](Self::with_key). With a secret key, no way is known to write an image that takes long to read. This holds for
    /// callers who see no images, rows, walks or times of calls of sketches under the key ([`TableKey`]).
    ///
    /// The limit is compared with the table's [`estimated_size`](Self::estimated_size). If items own memory, as strings do, the
    /// number of bytes that they take in the image is added to it. So [`memory_bytes`](Self::memory_bytes) of the sketch is within
    /// the limit. If an item cannot be read, those before it are counted.
    ///
    /// The formula is not the layout. For an item of 1 to 8 bytes a slot takes 24 bytes and a byte of fingerprint, while the
    /// formula counts 13 to 28. The allocated bytes are at most twice the limit, which is tested and not proved.
    ///
    /// # Errors
    ///
    /// Returns those of `deserialize`, and `TableTooLarge` of the kind `InvalidData` if the limit is exceeded. This check
    /// comes after those that precede any allocation. Nothing is allocated if it fails.
    ///
    /// # Examples
    ///
    /// ```
    /// use sketch_frequencies::{Error, FrequentItemsImageOptions, FrequentItemsSketch, TableKey};
    /// use std::alloc::Global;
    ///
    /// fn received(
    ///     alloc: Global,
    ///     image: &[u8],
    ///     key: TableKey,
    /// ) -> Result<FrequentItemsSketch<u64>, Error> {
    ///     let options = FrequentItemsImageOptions {
    ///         max_bytes: 1 << 20,
    ///         key,
    ///     };
    ///     FrequentItemsSketch::deserialize_with_options(alloc, image, options)
    /// }
    /// ```
    pub fn deserialize_with_options(
        alloc: Global,
        image: &[u8],
        options: FrequentItemsImageOptions,
    ) -> Result<Self, Error>
        ensures image { IfOk result (λ sketch. IsImageOf T.codec T.content image.now sketch) }
        ensures state { IfOk result (λ sketch. IsState T.eq sketch) }
        ensures sample { IfOk result (λ sketch. sketch.sample_size ≡ max_sample_size sketch.max_size) }
        ensures key { IfOk result (λ sketch. sketch.key ≡ options.key) }
        ensures purges { IfOk result (λ sketch. sketch.purges ≡ 0) }
        ensures stands { IfOk result (λ sketch. Restores T.codec T.content T.eq image.now sketch) }
        ensures budget { IfOk result (λ sketch. RestoresBudget T.codec T.content T.eq image.now sketch) }
        ensures within { IfOk result (λ sketch.
            memory_bytes (table_bytes T.row sketch.size) (owned_by T.codec T.content sketch.counters) ≤ options.max_bytes) }
        ensures accepted { IsOk result → limit_fault T.row options.max_bytes T.codec image.now ≡ None }
        ensures err { IfErr result (IsImageRefusal (early_fault_within T.row options.max_bytes T.codec image.now)
            (first_fault_within T.row options.max_bytes T.codec image.now)) }
    {
        let (sketch, _) = Self::deserialize_prefix(alloc, image, options)?;
        Ok(sketch)
    }

    /// Returns the sketch of the image at the front of `image`, as
    /// [`deserialize_with_options`](Self::deserialize_with_options) does, and the number of bytes that the image takes.
    ///
    /// So images can be read that stand one after another: the bytes that a sketch wrote are read as its image, whatever follows
    /// them. The limit does not count what follows.
    ///
    /// # Errors
    ///
    /// Returns those of `deserialize_with_options`.
    pub fn deserialize_prefix(
        alloc: Global,
        image: &[u8],
        options: FrequentItemsImageOptions,
    ) -> Result<(Self, usize), Error>
        ensures image { IfOk result (λ r. IsImageOf T.codec T.content image.now r.0) }
        ensures state { IfOk result (λ r. IsState T.eq r.0) }
        ensures sample { IfOk result (λ r. r.0.sample_size ≡ max_sample_size r.0.max_size) }
        ensures key { IfOk result (λ r. r.0.key ≡ options.key) }
        ensures purges { IfOk result (λ r. r.0.purges ≡ 0) }
        ensures stands { IfOk result (λ r. Restores T.codec T.content T.eq image.now r.0) }
        ensures budget { IfOk result (λ r. RestoresBudget T.codec T.content T.eq image.now r.0) }
        ensures used { IfOk result (λ r. r.1 ≡ prefix_bytes T.codec image.now) }
        ensures front { IfOk result (λ r. ReadsFront T.codec T.content image.now r.0 r.1) }
        ensures there { IfOk result (λ r. r.1 ≤ length image.now) }
        ensures within { IfOk result (λ r.
            memory_bytes (table_bytes T.row r.0.size) (owned_by T.codec T.content r.0.counters) ≤ options.max_bytes) }
        ensures accepted { IsOk result → limit_fault T.row options.max_bytes T.codec image.now ≡ None }
        ensures err { IfErr result (IsImageRefusal (early_fault_within T.row options.max_bytes T.codec image.now)
            (first_fault_within T.row options.max_bytes T.codec image.now)) }
    {
        let header = read_header(image)?;
        let max_size = table_size(header.lg_max);
        let sample_size = max_sample_of(max_size);
        if header.is_empty {
            check_limit::<T>(MIN_MAP_SIZE, &[], 0, options.max_bytes)?;
            let map = ReversePurgeItemHashMap::with_key(alloc, MIN_MAP_SIZE, options.key)?;
            let sketch = FrequentItemsSketch {
                map,
                error: 0,
                total: 0,
                max_size,
                sample_size,
            };
            return Ok((sketch, 8));
        }
        let size = table_size(header.lg_cur);
        let numbers = read_numbers(image, header.lg_cur)?;
        let items = &image[32 + 8 * numbers.active as usize..];
        check_limit::<T>(size, items, numbers.active, options.max_bytes)?;
        check_weights(image, &numbers)?;
        let (map, used) = read_counters(alloc, image, numbers.active, size, options.key)?;
        let sketch = FrequentItemsSketch {
            map,
            error: numbers.error,
            total: numbers.total,
            max_size,
            sample_size,
        };
        Ok((sketch, used))
    }

    /// Returns the number of bytes that the sketch takes: its [`estimated_size`](Self::estimated_size) and the bytes that its
    /// items own, or `usize::MAX` if the sum exceeds it. A string counts with its length, without spare capacity.
    ///
    /// If items own memory, every slot of the table is read. Nothing is allocated.
    ///
    /// # Examples
    ///
    /// ```
    /// use sketch_frequencies::FrequentItemsSketch;
    ///
    /// fn takes_too_much(pages: &FrequentItemsSketch<String>, budget: usize) -> bool {
    ///     pages.memory_bytes() > budget
    /// }
    /// ```
    pub fn memory_bytes(&self) -> usize
        ensures { result ≡ memory_bytes (table_bytes T.row self.now.size) (owned_by T.codec T.content self.now.counters) }
    {
        bytes_with_items(self.map.estimated_size(), self.map.slots())
    }
}
