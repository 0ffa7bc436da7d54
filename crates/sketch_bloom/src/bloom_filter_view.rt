//! A Bloom filter in the bytes of its image.
ghost use Rattle.std.specs.Prelude.{◌≡◌, ◌+◌, ◌*◌, ◌≤◌, None, Some, false, if◌then◌else◌, length, map, take, drop, replicate, IfOk, IfErr, OnOk};
ghost use Rattle.sketch_base.specs.Errors.{invalid_data};
ghost use Rattle.sketch_base.specs.Hashes.{fed_bytes};
ghost use Rattle.sketch_bloom.specs.Image.{IsImage, Restores, early_fault, value_at};
ghost use Rattle.sketch_bloom.specs.State.{FilterState, IsFilterState, capacity_of, contains_item};

use crate::bits::Bits;
use crate::image::read_preamble;
use crate::limits::MAX_NUM_WORDS;
use sketch_base::{Error, Item, Items};
use std::alloc::AllocError;
use std::fmt;
use std::hash::Hash;
use std::marker::Model;

/// A Bloom filter in the bytes of its image, as of a mapped file or of a database's column.
///
/// Nothing is copied. Its calls return the same as those of the [`BloomFilter`](crate::BloomFilter) that
/// [`deserialize`](crate::BloomFilter::deserialize) reads from the image. The bytes need not be aligned.
///
/// # Examples
///
/// ```
/// use sketch_base::Error;
/// use sketch_bloom::BloomFilterView;
///
/// fn may_have_key(image: &[u8], key: u64) -> Result<bool, Error> {
///     let keys = BloomFilterView::new(image)?;
///     Ok(keys.contains(&key))
/// }
/// ```
#[derive(Drop)]
pub struct BloomFilterView<'a> {
    // An image that is marked empty contains no words. The bits are then one word of zeros.
    bits: Bits<&'a [u8]>,
    num_words: usize,
}

impl<'a> Model for BloomFilterView<'a> {
    ghost use Rattle.sketch_bloom.specs.State.{FilterState, state_code};

    ghost Value = { FilterState };

    ghost coded = { state_code };

    ghost use Rattle.sketch_bloom.specs.Fields.{IsView, view_of};

    ghost view = { λ v. view_of v.bits v.num_words };

    ghost invariant = { λ v. IsView v.bits v.num_words };
}

/// Returns the bytes of the words, or of one word of zeros if the image is marked empty.
fn bytes_of_set(image: &[u8], is_empty: bool, num_words: usize) -> &[u8]
    requires there { is_empty ≡ false → 32 + 8 * num_words ≤ length image.now }
    requires few { num_words ≤ MAX_NUM_WORDS }
    ensures { result.now ≡ if is_empty then replicate 8 0 else take (8 * num_words) (drop 32 image.now) }
{
    if is_empty {
        &[0; 8]
    } else {
        &image[32..32 + 8 * num_words]
    }
}

impl<'a> BloomFilterView<'a> {
    /// Creates a view of the image of a filter in constant time. Does not allocate.
    ///
    /// It checks what [`BloomFilter::deserialize`](crate::BloomFilter::deserialize) checks, but does not count the set
    /// bits. If `deserialize` accepts the image, the view is the filter that it returns. If only the stored number of
    /// set bits is wrong, the view is the filter of the words.
    ///
    /// # Errors
    ///
    /// The errors of `deserialize`, in its order, but neither `BadBitCount` nor `NoMemory`.
    pub fn new(image: &'a [u8]) -> Result<Self, Error>
        ensures value { IfOk result (λ view. view ≡ value_at image.now) }
        ensures reads { IfOk result (λ view. (filter : FilterState) → IsImage image.now filter → view ≡ filter) }
        ensures state { IfOk result (λ view. IsFilterState view) }
        ensures stands { IfOk result (λ view. Restores image.now view) }

        // The error comes exactly if a check of `deserialize` before the count of bits fails.
        ensures checks { OnOk result (early_fault image.now ≡ None) }
        ensures err { IfErr result (λ e. (e ≡ invalid_data e.fault) × (early_fault image.now ≡ Some e.fault)) }
    {
        let preamble = read_preamble(image)?;
        let num_words = preamble.num_words;
        let bytes = bytes_of_set(image, preamble.is_empty, num_words);
        Ok(BloomFilterView {
            bits: Bits::new(bytes, bytes.len() / 8, preamble.num_hashes, preamble.seed),
            num_words,
        })
    }

    /// Returns whether all positions of the item are in the set. Stops at the first that is not. Does not allocate.
    #[inline]
    pub fn contains<T: Hash>(&self, item: &T) -> bool
        ensures { result ≡ contains_item self.now (fed_bytes T.hash_input item.now) }
    {
        self.contains_item(item)
    }

    /// Returns whether all positions of the item are in the set, as [`contains`](Self::contains) does. Does not
    /// allocate.
    ///
    /// It takes any [`Item`]. A string passed as `&str` is hashed straight from its bytes, which is faster than
    /// `contains`.
    ///
    /// # Examples
    ///
    /// ```
    /// use sketch_bloom::BloomFilterView;
    ///
    /// fn is_blocked(blocked: &BloomFilterView, name: &str) -> bool {
    ///     blocked.contains_item(name)
    /// }
    /// ```
    #[inline]
    pub fn contains_item<X: Item + Drop>(&self, item: X) -> bool
        ensures { result ≡ contains_item self.now (X.bytes item) }
    {
        self.bits.contains_item(&item)
    }

    /// Writes for each item to `answers` whether all its positions are in the set, as
    /// [`contains_item`](Self::contains_item) returns it. There is one answer for each item. Does not allocate.
    ///
    /// It takes any [`Items`]. It is faster than a call for each item: the hashes of several items are computed before
    /// their words are needed.
    ///
    /// # Examples
    ///
    /// ```
    /// use sketch_bloom::BloomFilterView;
    ///
    /// fn known_of_four(seen: &BloomFilterView, visitors: &[u64; 4]) -> [bool; 4] {
    ///     let mut known = [false; 4];
    ///     seen.contains_all(visitors.as_slice(), &mut known);
    ///     known
    /// }
    /// ```
    pub fn contains_all<I: Items>(&self, items: I, answers: &mut [bool])
        requires { length answers.old ≡ length (I.list items) }
        ensures { answers.new ≡ map (contains_item self.now) (I.list items) }
    {
        self.bits.copied().contains_all(items, answers);
    }

    /// Returns the capacity, which is the number of positions: 64 for each word.
    pub fn capacity(&self) -> usize
        ensures value { result ≡ capacity_of self.now }

        // What holds of every view.
        ensures state { IsFilterState self.now }
    {
        64 * self.num_words
    }

    /// Returns the number of positions of each item. They need not be distinct.
    pub fn num_hashes(&self) -> u16
        ensures { result ≡ self.now.num_hashes }
    {
        self.bits.num_hashes()
    }

    /// Returns the seed of the hashes.
    pub fn seed(&self) -> u64
        ensures { result ≡ self.now.seed }
    {
        self.bits.seed()
    }
}

/// Clones the view, but not the image. Does not allocate.
impl<'a> Clone for BloomFilterView<'a> {
    ghost is_clone = { λ view copy. copy ≡ view };

    fn clone(&self) -> Result<Self, AllocError> {
        Ok(BloomFilterView {
            bits: self.bits.copied(),
            num_words: self.num_words,
        })
    }
}

impl<'a> fmt::Debug for BloomFilterView<'a> {
    fn fmt<W: fmt::Write>(&self, f: &mut fmt::Formatter<W>) -> fmt::Result {
        f.debug_struct("BloomFilterView")
            .field("capacity", &self.capacity())
            .field("num_hashes", &self.num_hashes())
            .field("seed", &self.seed())
            .finish_non_exhaustive()
    }
}
