//! Reading and writing the images of sketches.
ghost use Rattle.std.specs.Prelude.{◌≡◌, ◌≢◌, ℕ, List, ◌+◌, ◌*◌, ◌<◌, ◌≤◌, ◌↔◌, None, false, length, take, drop, OnOk, IfOk, IfErr, IfSome, IfNone, IsSome};
ghost use Rattle.sketch_base.specs.Checks.{IsImageRefusal};
ghost use Rattle.sketch_base.specs.Errors.{no_memory};
ghost use Rattle.sketch_base.specs.Hashes.{seed_hash};
ghost use Rattle.sketch_countmin.specs.Image.{early_fault, late_fault, first_fault, early_fault_within, first_fault_within, value_at, image_bytes, IsImage, IsSpelled, ReadsFront, Restores, prefix_bytes};
ghost use Rattle.sketch_countmin.specs.Preamble.{IsPreamble};
ghost use Rattle.sketch_countmin.specs.State.{IsCountState};

use crate::count_min_image_options::CountMinImageOptions;
use crate::count_min_sketch::CountMinSketch;
use crate::count_min_value::CountMinValue;
use crate::grid::Grid;
use crate::image::{
    Preamble, empty_image, full_image, read_cells, read_preamble, read_total, write_empty,
    write_full,
};
use crate::limits::{MAX_TABLE_ENTRIES, MIN_NUM_BUCKETS};
use sketch_base::{DEFAULT_UPDATE_SEED, Error, ErrorKind, Fault, compute_seed_hash};
use std::alloc::Global;

impl<T: CountMinValue> CountMinSketch<T> {
    /// Returns the length in bytes of the sketch's image, in constant time.
    ///
    /// It is 16 if the total is 0, and otherwise 24 and 8 for each cell.
    pub fn serialized_size(&self) -> usize
        ensures size { result ≡ image_bytes self.now }

        // There is an image, and each has this length.
        ensures some { (image : List ℕ) × IsSpelled T.least T.greatest image self.now }
        ensures each { (image : List ℕ) → IsSpelled T.least T.greatest image self.now → length image ≡ result }
    {
        let counts = self.grid.counts();
        if self.total.to_number() == 0 {
            16
        } else {
            24 + 8 * counts.len()
        }
    }

    /// Writes the sketch as an image. `docs/FORMATS.md` describes its fields.
    ///
    /// The image has [`serialized_size`](Self::serialized_size) bytes. It contains the 16-bit hash of the seed, but not
    /// the seed: a reader has to know it.
    ///
    /// # Errors
    ///
    /// `NoMemory` if the image cannot be allocated. It is allocated once.
    pub fn serialize(&self) -> Result<Vec<u8>, Error>
        ensures image { IfOk result (λ image. IsSpelled T.least T.greatest image.items self.now) }
        ensures err { IfErr result (λ e. e ≡ no_memory) }
    {
        let alloc = self.grid.allocator();
        let Ok(hash) = compute_seed_hash(self.seed, ErrorKind::InvalidArgument) else {
            unreachable!();
        };
        let num_buckets = self.grid.buckets().divisor() as u32;
        let num_hashes = self.grid.num_rows() as u8;
        if self.total.to_number() == 0 {
            let empty = empty_image(alloc, num_buckets, num_hashes, hash)?;
            return Ok(empty);
        }
        let counts = self.grid.counts();
        let full = full_image(alloc, num_buckets, num_hashes, hash, self.total, counts)?;
        Ok(full)
    }

    /// Writes the sketch as an image, as [`serialize`](Self::serialize) does, to the front of `out`. Returns the
    /// image's length, which is [`serialized_size`](Self::serialized_size). The rest of `out` is unchanged. Does not
    /// allocate.
    ///
    /// Returns `None` if the image is longer than `out`, which is then unchanged.
    pub fn serialize_into(&self, out: &mut [u8]) -> Option<usize>
        ensures image { IfSome result (λ n. IsSpelled T.least T.greatest (take n out.new) self.now) }
        ensures length { IfSome result (λ n. n ≡ image_bytes self.now) }
        ensures rest { IfSome result (λ n. drop n out.new ≡ drop n out.old) }

        // There is no image exactly if `out` is too short.
        ensures room { IsSome result ↔ (image_bytes self.now ≤ length out.old) }
        ensures none { IfNone result (out.new ≡ out.old) }
    {
        let length = self.serialized_size();
        if length > out.len() {
            return None;
        }
        self.write_image(&mut out[..length]);
        Some(length)
    }

    /// Writes the sketch as an image to `out`, which has the image's length.
    fn write_image(&self, out: &mut [u8])
        requires { length out.old ≡ image_bytes self.now }
        ensures { IsSpelled T.least T.greatest out.new self.now }
    {
        let Ok(hash) = compute_seed_hash(self.seed, ErrorKind::InvalidArgument) else {
            unreachable!();
        };
        let num_buckets = self.grid.buckets().divisor() as u32;
        let num_hashes = self.grid.num_rows() as u8;
        if self.total.to_number() == 0 {
            write_empty(out, num_buckets, num_hashes, hash);
        } else {
            write_full(
                out,
                num_buckets,
                num_hashes,
                hash,
                self.total,
                self.grid.counts(),
            );
        }
    }

    /// Reads a sketch with the default seed 9001 from an image, as
    /// [`deserialize_with_seed`](Self::deserialize_with_seed) does.
    pub fn deserialize(alloc: Global, image: &[u8]) -> Result<Self, Error>
        ensures image { IfOk result (λ sketch. IsImage T.least T.greatest DEFAULT_UPDATE_SEED image.now sketch) }
        ensures state { IfOk result (λ sketch. IsCountState T.greatest sketch) }
        ensures stands { IfOk result (λ sketch. Restores T.least T.greatest DEFAULT_UPDATE_SEED image.now sketch) }
        ensures err { IfErr result (IsImageRefusal (early_fault DEFAULT_UPDATE_SEED image.now)
            (first_fault T.least T.greatest DEFAULT_UPDATE_SEED image.now)) }
    {
        Self::deserialize_with_seed(alloc, image, DEFAULT_UPDATE_SEED)
    }

    /// Reads a sketch with this seed from an image.
    ///
    /// The image does not name the type of its values: it is read as one of `T`, and only the range of its numbers is
    /// checked. It contains only the 16-bit hash of the seed. So another seed with the same hash is accepted, and the
    /// sketch then hashes items under that other seed.
    ///
    /// Bytes after the image, and unused bytes within it, are ignored. It allocates as many cells as the image states.
    /// An image that is marked empty contains no cells, but may state up to 2^30 - 1, which are 8 GiB if `T` has 64
    /// bits: for untrusted images see [`deserialize_with_options`](Self::deserialize_with_options).
    ///
    /// # Errors
    ///
    /// The fault of the first failing check, of the kind `InvalidData`. The checks are, in this order:
    ///
    /// - `InsufficientData` if there are fewer than 8 bytes;
    /// - `BadFamily` and `BadVersion`;
    /// - `BadPreamble` if there are not 2 preamble longs;
    /// - `InsufficientData` if there are fewer than 16 bytes;
    /// - `ZeroSeedHash` if the hash of `seed` is 0;
    /// - `SeedHashMismatch` if the image has another hash;
    /// - `BadNumHashes` for 0 hashes;
    /// - `BadNumBuckets` for fewer than 3 buckets;
    /// - `TableTooLarge` for 2^30 cells or more;
    /// - `InsufficientData` if the total or cells are missing, unless the image is marked empty.
    ///
    /// Unless the image is marked empty, these follow:
    ///
    /// - `ValueOutOfRange` if the total is not in the range of `T`, and `NegativeTotal` if it is negative;
    /// - for the first invalid cell `ValueOutOfRange` if it is not in the range of `T`, or `CellAboveTotal` if it is
    ///   further from zero than the total.
    ///
    /// `NoMemory` if the cells or the seeds of the rows cannot be allocated. The cells are allocated before they are
    /// checked.
    pub fn deserialize_with_seed(alloc: Global, image: &[u8], seed: u64) -> Result<Self, Error>
        ensures image { IfOk result (λ sketch. IsImage T.least T.greatest seed image.now sketch) }
        ensures state { IfOk result (λ sketch. IsCountState T.greatest sketch) }
        ensures stands { IfOk result (λ sketch. Restores T.least T.greatest seed image.now sketch) }
        ensures err { IfErr result
            (IsImageRefusal (early_fault seed image.now) (first_fault T.least T.greatest seed image.now)) }
    {
        let max_bytes = usize::MAX;
        Self::deserialize_with_options(alloc, image, CountMinImageOptions { seed, max_bytes })
    }

    /// Reads a sketch from an image if its [`estimated_size`](Self::estimated_size) is at most `options.max_bytes`.
    ///
    /// It does the same as [`deserialize_with_seed`](Self::deserialize_with_seed) otherwise, with `options.seed`.
    ///
    /// # Errors
    ///
    /// The errors of `deserialize_with_seed`, and `TableTooLarge` of the kind `InvalidData` if the sketch would take
    /// more. This check comes just before those of the total. If it fails, nothing is allocated.
    ///
    /// # Examples
    ///
    /// ```
    /// use sketch_base::Error;
    /// use sketch_countmin::{CountMinImageOptions, CountMinSketch};
    /// use std::alloc::Global;
    ///
    /// fn sent_counts(
    ///     alloc: Global,
    ///     counts: &CountMinSketch<u64>,
    /// ) -> Result<CountMinSketch<u64>, Error> {
    ///     let image = counts.serialize()?;
    ///     let options = CountMinImageOptions {
    ///         seed: counts.seed(),
    ///         max_bytes: 1 << 20,
    ///     };
    ///     CountMinSketch::deserialize_with_options(alloc, &image, options)
    /// }
    /// ```
    pub fn deserialize_with_options(
        alloc: Global,
        image: &[u8],
        options: CountMinImageOptions,
    ) -> Result<Self, Error>
        ensures image { IfOk result (λ sketch. IsImage T.least T.greatest options.seed image.now sketch) }
        ensures state { IfOk result (λ sketch. IsCountState T.greatest sketch) }
        ensures stands { IfOk result (λ sketch. Restores T.least T.greatest options.seed image.now sketch) }
        ensures within { IfOk result
            (λ sketch. sketch.hashes * sketch.buckets * T.SIZE + 8 * sketch.hashes ≤ options.max_bytes) }
        ensures err { IfErr result
            (IsImageRefusal (early_fault_within T.SIZE options.max_bytes options.seed image.now)
            (first_fault_within T.least T.greatest T.SIZE options.max_bytes options.seed image.now)) }
    {
        let preamble = read_preamble(image, options.seed)?;
        let num_hashes = preamble.num_hashes as usize;
        let num_cells = num_hashes * preamble.num_buckets as usize;
        if num_cells * T::SIZE + 8 * num_hashes > options.max_bytes {
            return Err(Error::invalid_data(Fault::TableTooLarge));
        }
        if preamble.is_empty {
            Self::empty(
                alloc,
                preamble.num_hashes,
                preamble.num_buckets,
                options.seed,
            )
        } else {
            Self::with_cells_of(alloc, image, preamble, options.seed)
        }
    }

    /// Reads a sketch from the image at the front of `image`, as
    /// [`deserialize_with_options`](Self::deserialize_with_options) does, and returns the number of bytes that the image
    /// takes with it.
    ///
    /// So images can be read that stand one after another.
    ///
    /// # Errors
    ///
    /// The errors of `deserialize_with_options`.
    ///
    /// # Examples
    ///
    /// ```
    /// use sketch_base::Error;
    /// use sketch_countmin::{CountMinImageOptions, CountMinSketch};
    /// use std::alloc::Global;
    ///
    /// fn sum_of_two_images(
    ///     alloc: Global,
    ///     images: &[u8],
    ///     options: CountMinImageOptions,
    /// ) -> Result<CountMinSketch<u64>, Error> {
    ///     let (mut first, used) = CountMinSketch::deserialize_prefix(alloc, images, options)?;
    ///     let rest = &images[used..];
    ///     let (second, _) = CountMinSketch::deserialize_prefix(alloc, rest, options)?;
    ///     first.merge(&second)?;
    ///     Ok(first)
    /// }
    /// ```
    pub fn deserialize_prefix(
        alloc: Global,
        image: &[u8],
        options: CountMinImageOptions,
    ) -> Result<(Self, usize), Error>
        ensures image { IfOk result (λ r. IsImage T.least T.greatest options.seed image.now r.0) }
        ensures state { IfOk result (λ r. IsCountState T.greatest r.0) }
        ensures stands { IfOk result (λ r. Restores T.least T.greatest options.seed image.now r.0) }
        ensures within { IfOk result
            (λ r. r.0.hashes * r.0.buckets * T.SIZE + 8 * r.0.hashes ≤ options.max_bytes) }
        ensures used { IfOk result (λ r. r.1 ≡ prefix_bytes image.now) }
        ensures front { IfOk result (λ r. ReadsFront T.least T.greatest options.seed image.now r.0 r.1) }
        ensures there { IfOk result (λ r. r.1 ≤ length image.now) }
        ensures err { IfErr result
            (IsImageRefusal (early_fault_within T.SIZE options.max_bytes options.seed image.now)
            (first_fault_within T.least T.greatest T.SIZE options.max_bytes options.seed image.now)) }
    {
        let preamble = read_preamble(image, options.seed)?;
        let sketch = Self::deserialize_with_options(alloc, image, options)?;
        let used = if preamble.is_empty {
            16
        } else {
            24 + 8 * (preamble.num_hashes as usize * preamble.num_buckets as usize)
        };
        Ok((sketch, used))
    }

    /// Reads the total and the cells of an image that is not marked empty.
    fn with_cells_of(
        alloc: Global,
        image: &[u8],
        preamble: Preamble,
        seed: u64,
    ) -> Result<Self, Error>
        requires fields { IsPreamble image.now preamble }
        requires full { preamble.is_empty ≡ false }
        requires cells { 24 + 8 * (preamble.num_hashes * preamble.num_buckets) ≤ length image.now }
        requires some_hashes { 1 ≤ preamble.num_hashes }
        requires some_buckets { MIN_NUM_BUCKETS ≤ preamble.num_buckets }
        requires few_cells { preamble.num_hashes * preamble.num_buckets < MAX_TABLE_ENTRIES }
        requires seeded { seed_hash seed ≢ 0 }
        ensures value { IfOk result (λ sketch. sketch ≡ value_at T.least seed image.now) }
        ensures state { IfOk result (λ sketch. IsCountState T.greatest sketch) }
        ensures checks { OnOk result (late_fault T.least T.greatest image.now ≡ None) }
        ensures err { IfErr result (IsImageRefusal None (late_fault T.least T.greatest image.now)) }
    {
        let num_hashes = preamble.num_hashes;
        let num_cells = num_hashes as usize * preamble.num_buckets as usize;
        let total = read_total::<T>(image)?;
        let most = total.to_number().unsigned_abs() as u64;
        let counts = read_cells::<T>(alloc, image, num_cells, most)?;
        let grid = Grid::new(alloc, num_hashes, preamble.num_buckets, seed, counts)?;
        Ok(CountMinSketch { grid, total, seed })
    }
}
