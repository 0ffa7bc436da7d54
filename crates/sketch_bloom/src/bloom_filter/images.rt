//! Reading and writing the images of filters.
ghost use Rattle.std.specs.Prelude.{◌≡◌, ℕ, List, ◌*◌, ◌≤◌, ◌↔◌, length, take, drop, IfOk, IfErr, IfSome, IfNone, IsSome};
ghost use Rattle.sketch_base.specs.Checks.{IsImageRefusal};
ghost use Rattle.sketch_base.specs.Errors.{no_memory};
ghost use Rattle.sketch_bloom.specs.Image.{IsImage, IsSpelled, ReadsFront, Restores, image_bytes, early_fault, first_fault, early_fault_within, first_fault_within, prefix_bytes};
ghost use Rattle.sketch_bloom.specs.State.{IsFilterState};

use crate::bits::Bits;
use crate::bloom_filter::BloomFilter;
use crate::image::{
    UNCOUNTED, empty_image, full_image, image_length, read_preamble, read_words, write_empty,
    write_full,
};
use sketch_base::image::u64_at;
use sketch_base::{Error, Fault};
use std::alloc::Global;

impl BloomFilter {
    /// Returns the length in bytes of the filter's image, in constant time.
    ///
    /// It is 24 if the set is empty, and otherwise 32 and 8 for each word.
    pub fn serialized_size(&self) -> usize
        ensures size { result ≡ image_bytes self.now }

        // There is an image, and each has this length.
        ensures some { (image : List ℕ) × IsSpelled image self.now }
        ensures each { (image : List ℕ) → IsSpelled image self.now → length image ≡ result }
    {
        // For the prover: this brings in the range of the seed.
        let _seed = self.bits.seed();
        image_length(self.bits.words(), self.bits_used)
    }

    /// Writes the filter as an image. `docs/FORMATS.md` describes its fields.
    ///
    /// The image has [`serialized_size`](Self::serialized_size) bytes.
    ///
    /// # Errors
    ///
    /// `NoMemory` if the image cannot be allocated. It is allocated once.
    pub fn serialize(&self) -> Result<Vec<u8>, Error>
        ensures image { IfOk result (λ image. IsSpelled image.items self.now) }
        ensures err { IfErr result (λ e. e ≡ no_memory) }
    {
        let alloc = self.bits.allocator();
        let num_hashes = self.bits.num_hashes();
        let seed = self.bits.seed();
        if self.bits_used == 0 {
            let empty = empty_image(alloc, num_hashes, seed, self.bits.num_words())?;
            return Ok(empty);
        }
        let full = full_image(alloc, num_hashes, seed, self.bits_used, self.bits.words())?;
        Ok(full)
    }

    /// Writes the filter as an image to the front of `out`, and returns the image's length, which is
    /// [`serialized_size`](Self::serialized_size). The rest of `out` is unchanged. Does not allocate.
    ///
    /// Returns `None` if the image is longer than `out`, which is then unchanged.
    pub fn serialize_into(&self, out: &mut [u8]) -> Option<usize>
        ensures image { IfSome result (λ n. IsSpelled (take n out.new) self.now) }
        ensures length { IfSome result (λ n. n ≡ image_bytes self.now) }
        ensures rest { IfSome result (λ n. drop n out.new ≡ drop n out.old) }

        // There is no image exactly if `out` is too short.
        ensures room { IsSome result ↔ (image_bytes self.now ≤ length out.old) }
        ensures none { IfNone result (out.new ≡ out.old) }
    {
        let length = self.serialized_size();
        if length > out.len() {
            return None;
        }
        self.write_image(&mut out[..length]);
        Some(length)
    }

    /// Writes the filter as an image to `out`, which has the image's length.
    fn write_image(&self, out: &mut [u8])
        requires { length out.old ≡ image_bytes self.now }
        ensures { IsSpelled out.new self.now }
    {
        let num_hashes = self.bits.num_hashes();
        let seed = self.bits.seed();
        if self.bits_used == 0 {
            write_empty(out, num_hashes, seed, self.bits.num_words());
        } else {
            write_full(out, num_hashes, seed, self.bits_used, self.bits.words());
        }
    }

    /// Reads a filter from an image.
    ///
    /// Bytes after the image, and unused bytes within it, are ignored. It allocates 8 bytes for each word that the
    /// image states. An image that is marked empty contains no words, but may state up to 2^31 - 1, which are 16 GiB:
    /// for untrusted images see [`deserialize_with_limit`](Self::deserialize_with_limit).
    ///
    /// # Errors
    ///
    /// The fault of the first failing check, of the kind `InvalidData`. The checks are, in this order:
    ///
    /// - `InsufficientData` if there are fewer than 4 bytes;
    /// - `BadFamily` and `BadVersion`;
    /// - `BadPreamble` if there are neither 3 nor 4 preamble longs;
    /// - `InsufficientData` if there are fewer than 6 bytes;
    /// - `BadNumHashes` if the number of hashes is not from 1 to 32767;
    /// - `InsufficientData` if there are fewer than 24 bytes;
    /// - `BadNumWords` if the number of words is not from 1 to 2^31 - 1;
    /// - `InsufficientData` if words are missing, unless the image is marked empty;
    /// - `BadBitCount` if the stored number of set bits is wrong, unless the image is marked empty or the number is
    ///   2^64 - 1, which means uncounted.
    ///
    /// `NoMemory` if the words cannot be allocated. They are allocated after all checks but the last.
    pub fn deserialize(alloc: Global, image: &[u8]) -> Result<Self, Error>
        ensures image { IfOk result (λ filter. IsImage image.now filter) }
        ensures state { IfOk result (λ filter. IsFilterState filter) }
        ensures stands { IfOk result (λ filter. Restores image.now filter) }
        ensures err { IfErr result (IsImageRefusal (early_fault image.now) (first_fault image.now)) }
    {
        Self::deserialize_with_limit(alloc, image, usize::MAX)
    }

    /// Reads a filter from an image if its words take at most `max_bytes` bytes.
    ///
    /// It does the same as [`deserialize`](Self::deserialize) otherwise.
    ///
    /// # Errors
    ///
    /// The errors of `deserialize`, and `TableTooLarge` of the kind `InvalidData` if the words would take more. This
    /// check follows all others but `BadBitCount`. If it fails, nothing is allocated.
    ///
    /// # Examples
    ///
    /// ```
    /// use sketch_base::Error;
    /// use sketch_bloom::BloomFilter;
    /// use std::alloc::Global;
    ///
    /// fn sent(alloc: Global, filter: &BloomFilter) -> Result<BloomFilter, Error> {
    ///     let image = filter.serialize()?;
    ///     BloomFilter::deserialize_with_limit(alloc, &image, 1 << 20)
    /// }
    /// ```
    pub fn deserialize_with_limit(
        alloc: Global,
        image: &[u8],
        max_bytes: usize,
    ) -> Result<Self, Error>
        ensures image { IfOk result (λ filter. IsImage image.now filter) }
        ensures state { IfOk result (λ filter. IsFilterState filter) }
        ensures stands { IfOk result (λ filter. Restores image.now filter) }
        ensures within { IfOk result (λ filter. 8 * filter.num_words ≤ max_bytes) }
        ensures err { IfErr result
            (IsImageRefusal (early_fault_within max_bytes image.now) (first_fault_within max_bytes image.now)) }
    {
        let preamble = read_preamble(image)?;
        if 8 * preamble.num_words > max_bytes {
            return Err(Error::invalid_data(Fault::TableTooLarge));
        }
        let num_words = preamble.num_words;
        let num_hashes = preamble.num_hashes;
        if preamble.is_empty {
            return Self::with_words(alloc, num_words, num_hashes, preamble.seed);
        }
        let (words, bits_used) = read_words(alloc, image, num_words)?;
        let stored = u64_at(image, 24);
        if stored != UNCOUNTED && stored != bits_used {
            return Err(Error::invalid_data(Fault::BadBitCount));
        }
        Ok(BloomFilter {
            bits: Bits::new(words, num_words, num_hashes, preamble.seed),
            bits_used,
        })
    }

    /// Reads a filter from the image at the front of `image`, as [`deserialize_with_limit`](Self::deserialize_with_limit)
    /// does, and returns the number of bytes that the image takes with it.
    ///
    /// So images can be read that stand one after another.
    ///
    /// # Errors
    ///
    /// The errors of `deserialize_with_limit`.
    ///
    /// # Examples
    ///
    /// ```
    /// use sketch_base::Error;
    /// use sketch_bloom::BloomFilter;
    /// use std::alloc::Global;
    ///
    /// fn union_of_two_images(alloc: Global, images: &[u8]) -> Result<BloomFilter, Error> {
    ///     let (mut first, used) = BloomFilter::deserialize_prefix(alloc, images, 1 << 20)?;
    ///     let (second, _) = BloomFilter::deserialize_prefix(alloc, &images[used..], 1 << 20)?;
    ///     first.union(&second)?;
    ///     Ok(first)
    /// }
    /// ```
    pub fn deserialize_prefix(
        alloc: Global,
        image: &[u8],
        max_bytes: usize,
    ) -> Result<(Self, usize), Error>
        ensures image { IfOk result (λ r. IsImage image.now r.0) }
        ensures state { IfOk result (λ r. IsFilterState r.0) }
        ensures stands { IfOk result (λ r. Restores image.now r.0) }
        ensures within { IfOk result (λ r. 8 * r.0.num_words ≤ max_bytes) }
        ensures used { IfOk result (λ r. r.1 ≡ prefix_bytes image.now) }
        ensures front { IfOk result (λ r. ReadsFront image.now r.0 r.1) }
        ensures there { IfOk result (λ r. r.1 ≤ length image.now) }
        ensures err { IfErr result
            (IsImageRefusal (early_fault_within max_bytes image.now) (first_fault_within max_bytes image.now)) }
    {
        let preamble = read_preamble(image)?;
        let filter = Self::deserialize_with_limit(alloc, image, max_bytes)?;
        let used = if preamble.is_empty {
            24
        } else {
            32 + 8 * preamble.num_words
        };
        Ok((filter, used))
    }
}
