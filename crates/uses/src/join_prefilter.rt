//! A Bloom filter of one side's keys that prunes the other side of a join.
//!
//! The smaller side lies in parts on several machines. Each part creates a filter of its keys and sends the filter's
//! image. The reader of the larger side unites the images. It removes rows whose key is in no part before they move
//! further. A few such rows are kept (false positives). A row that joins is never removed.
ghost use Rattle.std.specs.Prelude.{◌≡◌, ℕ, None, List, filter, map, IfOk, IfErr, IsOk, OnOk, OnErr};
ghost use Rattle.sketch_base.specs.Errors.{refusal_of};
ghost use Rattle.sketch_base.specs.Hashes.{fed_bytes};
ghost use Rattle.sketch_bloom.specs.Building.{request_fault};
ghost use Rattle.sketch_bloom.specs.Image.{IsSpelled, value_at};
ghost use Rattle.sketch_bloom.specs.State.{contains_item, all_inserted, united};
ghost use Rattle.uses.specs.Prefilters.{empty_of, CarriesKeys, PassesEach, PassesAll, IsPart, UnitesAll, IsPartRefusal, IsPrefilterRefusal, all_united, joined, PrunesNoneThatJoins};

use sketch_base::Error;
use sketch_bloom::{BloomFilter, BloomFilterBuilder, laws};
use std::alloc::Global;
use std::hash::Hash;
use std::marker::Model;

/// Returns the image of a filter of one part's keys.
///
/// # Errors
///
/// Returns the errors of [`build`](BloomFilterBuilder::build), and `NoMemory` if the filter or the image cannot be
/// allocated.
pub fn image_of_keys<K: Hash>(
    alloc: Global,
    builder: BloomFilterBuilder,
    keys: &[K],
) -> Result<Vec<u8>, Error>
    ensures image { IfOk result (λ image.
        IsSpelled image.items (all_inserted (empty_of builder) (map (fed_bytes K.hash_input) keys.now))) }
    ensures carries { IfOk result (λ image. CarriesKeys image.items (map (fed_bytes K.hash_input) keys.now)) }
    ensures accepted { IsOk result → request_fault builder ≡ None }
    ensures refused { IfErr result (λ e. e ≡ refusal_of (request_fault builder)) }
{
    laws::membership();
    let mut filter = builder.build(alloc)?;
    filter.insert_all(keys);
    filter.serialize()
}

/// The keys of all parts of one side of a join, as one filter.
#[derive(Drop)]
pub struct JoinPrefilter {
    alloc: Global,
    filter: BloomFilter,
}

impl Model for JoinPrefilter {
    ghost use Rattle.sketch_bloom.specs.State.{FilterState, state_code};

    ghost Value = { FilterState };

    ghost coded = { state_code };

    ghost view = { λ p. p.filter };
}

impl JoinPrefilter {
    /// Creates a prefilter of no parts, which lets no key pass.
    ///
    /// # Errors
    ///
    /// Returns the errors of [`build`](BloomFilterBuilder::build).
    pub fn new(alloc: Global, builder: BloomFilterBuilder) -> Result<Self, Error>
        ensures ok { IfOk result (λ prefilter. prefilter ≡ empty_of builder) }
        ensures accepted { IsOk result → request_fault builder ≡ None }
        ensures refused { IfErr result (λ e. e ≡ refusal_of (request_fault builder)) }
    {
        let filter = builder.build(alloc)?;
        Ok(JoinPrefilter { alloc, filter })
    }

    /// Unites the filter of an image into the prefilter.
    ///
    /// # Errors
    ///
    /// Returns the first fault of the image by [`deserialize_with_limit`](BloomFilter::deserialize_with_limit), with
    /// the bytes of the prefilter's words as the limit. Returns `NoMemory` if the image's filter cannot be allocated,
    /// and `Mismatch` if it has another shape or seed. The prefilter is then unchanged.
    pub fn unite(&mut self, image: &[u8]) -> Result<(), Error>
        ensures ok { OnOk result (self.new ≡ united self.old (value_at image.now)) }
        ensures part { OnOk result (IsPart self.old image.now) }
        ensures refused { IfErr result (IsPartRefusal self.old image.now) }
        ensures err { OnErr result (self.new ≡ self.old) }
    {
        let max_bytes = self.filter.estimated_size();
        let part = BloomFilter::deserialize_with_limit(self.alloc, image, max_bytes)?;
        self.filter.union(&part)
    }

    /// Creates the prefilter of all parts: the union of the filters of their images.
    ///
    /// # Errors
    ///
    /// Returns the errors of `new`, and the error of `unite` for the first image that it rejects.
    pub fn of_images(
        alloc: Global,
        builder: BloomFilterBuilder,
        images: &[Vec<u8>],
    ) -> Result<Self, Error>
        ensures ok { IfOk result (UnitesAll (empty_of builder) (map (λ image. image.items) images.now)) }
        ensures passes { IfOk result (PassesAll (map (λ image. image.items) images.now)) }
        ensures accepted { IsOk result → request_fault builder ≡ None }
        ensures refused { IfErr result (λ e. IsPrefilterRefusal builder (map (λ image. image.items) images.now) e) }
    {
        laws::image_laws();
        let mut prefilter = JoinPrefilter::new(alloc, builder)?;
        for image in images {
            prefilter.unite(image)?;
        }
        Ok(prefilter)
    }

    /// Returns whether a row of this key may join. Does not allocate.
    pub fn may_join<K: Hash>(&self, key: &K) -> bool
        ensures { result ≡ contains_item self.now (fed_bytes K.hash_input key.now) }
    {
        self.filter.contains(key)
    }

    /// Removes the rows whose key does not pass. A row is a key and its value. Does not allocate.
    pub fn prune<K: Hash + Drop, V: Drop>(&self, rows: &mut Vec<(K, V)>)
        ensures kept { rows.new.items
            ≡ filter (λ row. contains_item self.now (fed_bytes K.hash_input row.0)) rows.old.items }
        ensures join { (parts : List (List (List ℕ))) → PassesEach parts self.now
            → joined (λ row. fed_bytes K.hash_input row.0) parts rows.new.items
            ≡ joined (λ row. fed_bytes K.hash_input row.0) parts rows.old.items }
    {
        rows.retain(|row| self.may_join(&row.0));
    }
}

/// Removes the rows whose key does not pass the prefilter of all parts, given the images of the parts' filters. Removes
/// no row that joins.
///
/// # Errors
///
/// Returns the errors of [`of_images`](JoinPrefilter::of_images). The rows are then unchanged.
pub fn prune_by_images<K: Hash + Drop, V: Drop>(
    alloc: Global,
    builder: BloomFilterBuilder,
    images: &[Vec<u8>],
    rows: &mut Vec<(K, V)>,
) -> Result<(), Error>
    ensures none_that_joins { OnOk result (PrunesNoneThatJoins (λ row. fed_bytes K.hash_input row.0)
        (map (λ image. image.items) images.now) rows.old.items rows.new.items) }
    ensures kept { OnOk result (rows.new.items
        ≡ filter (λ row. contains_item (all_united (empty_of builder) (map (λ image. image.items) images.now))
        (fed_bytes K.hash_input row.0)) rows.old.items) }
    ensures refused { IfErr result (λ e. IsPrefilterRefusal builder (map (λ image. image.items) images.now) e) }
    ensures err { OnErr result (rows.new.items ≡ rows.old.items) }
{
    let prefilter = JoinPrefilter::of_images(alloc, builder, images)?;
    prefilter.prune(rows);
    Ok(())
}
