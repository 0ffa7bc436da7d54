//! Approximate GROUP BY: the heaviest groups over many shards, in memory that does not grow.
//!
//! Each shard sums its rows in a [`GroupSums`]. The sums of the shards are merged, in any order and any tree. The last
//! one returns the heavy groups.
ghost use Rattle.std.specs.Prelude.{◌≡◌, ℕ, ◌+◌, ◌<◌, ◌≤◌, ◌/◌, ◌^◌, min, None, List, [], ◌∷◌, ◌++◌, false, sum_by, IfOk, IfErr, IsOk, IsTrue, OnOk, IsPermutation};
ghost use Rattle.sketch_base.specs.Checks.{IsImageRefusal};
ghost use Rattle.sketch_base.specs.Errors.{no_memory, refusal_of};
ghost use Rattle.counter_table.specs.Bytes.{table_bytes};
ghost use Rattle.counter_table.specs.declared.table_key.TableKey.TheVariants.{Plain};
ghost use Rattle.sketch_frequencies.specs.Image.{IsImageOf, IsSpelledFor, IsImageWritingRefusal, limit_fault, early_fault_within, first_fault_within};
ghost use Rattle.sketch_frequencies.specs.Memory.{owned_by, memory_bytes};
ghost use Rattle.sketch_frequencies.specs.Rows.{ShowsExactly, Descends};
ghost use Rattle.sketch_frequencies.specs.Sizes.{size_fault};
ghost use Rattle.sketch_frequencies.specs.State.{FrequentState, TotalHasRoom, empty_state, max_sample_size, must_double};
ghost use Rattle.sketch_frequencies.specs.Steps.{Steps, JoinsEqual};
ghost use Rattle.uses.specs.Groups.{BringsIn, SumsUp, ReportsHeavy, CarriesSums};

use sketch_base::Error;
use sketch_frequencies::{
    EqualClone, ErrorType, FrequentItemValue, FrequentItemsImageOptions, FrequentItemsSketch, Row,
    TableKey, laws,
};
use std::alloc::Global;
use std::hash::Hash;
use std::marker::Model;

/// The sums of weights by group, of the rows of one shard or of merged shards.
#[derive(Drop)]
pub struct GroupSums<G: Eq + Hash + Drop> {
    sketch: FrequentItemsSketch<G>,
}

impl<G: Eq + Hash + Drop> Model for GroupSums<G> {
    ghost use Rattle.sketch_frequencies.specs.State.{FrequentState};

    ghost Value = { FrequentState G };

    ghost view = { λ s. s.sketch };
}

impl<G: Eq + Hash + Drop> GroupSums<G> {
    /// Creates the sums of no rows. `max_map_size` is a power of two from 8 to 2^30. At most 3/4 of that number of
    /// groups are tracked.
    ///
    /// # Errors
    ///
    /// Returns the errors of [`FrequentItemsSketch::new`].
    pub fn new(alloc: Global, max_map_size: usize) -> Result<Self, Error>
        ensures ok { IfOk result (λ sums. sums ≡ empty_state max_map_size (max_sample_size max_map_size) Plain) }
        ensures sums { IfOk result (λ sums. SumsUp G.eq (max_sample_size max_map_size / 2) sums []) }
        ensures accepted { IsOk result → size_fault max_map_size ≡ None }
        ensures refused { IfErr result (λ e. e ≡ refusal_of (size_fault max_map_size)) }
    {
        let sketch = FrequentItemsSketch::new(alloc, max_map_size)?;
        Ok(GroupSums { sketch })
    }

    /// Adds the weight of a row to its group. A row of weight 0 changes nothing and succeeds.
    ///
    /// # Errors
    ///
    /// Returns the errors of [`update_with_count`](FrequentItemsSketch::update_with_count). The sums are then
    /// unchanged.
    pub fn add(&mut self, group: G, weight: u64) -> Result<(), Error>
        ensures weight { BringsIn weight self.old result self.new }
        ensures step { OnOk result (0 < weight → Steps G.eq self.old group weight self.new) }
        ensures sums { OnOk result ((n : ℕ) (rows : List (G × ℕ)) → SumsUp G.eq n self.old rows
            → SumsUp G.eq n self.new (rows ++ (group, weight) ∷ [])) }

        // `NoMemory` is returned only if the table must double.
        ensures succeeds { TotalHasRoom self.old weight → must_double G.eq self.old group ≡ false → IsOk result }
    {
        self.sketch.update_with_count(group, weight)
    }

    /// Merges the sums of another shard into these, which are then the sums of the rows of both.
    ///
    /// # Errors
    ///
    /// Returns the errors of [`merge`](FrequentItemsSketch::merge). The sums are then unchanged.
    pub fn merge(&mut self, other: &Self) -> Result<(), Error>
    where
        G: EqualClone,
        ensures weight { BringsIn other.now.total self.old result self.new }
        ensures join { OnOk result (JoinsEqual G.eq self.old other.now self.new) }

        // If one keeps room for m groups that are set aside and the other for n, the result keeps it for min(m, n)
        // groups.
        ensures sums { OnOk result ((m n : ℕ) (rows more : List (G × ℕ)) → SumsUp G.eq m self.old rows
            → SumsUp G.eq n other.now more → SumsUp G.eq (min m n) self.new (rows ++ more)) }
    {
        self.sketch.merge(&other.sketch)
    }

    /// Returns the groups that may weigh more than the threshold and the error, heaviest first, each with its bounds.
    ///
    /// # Errors
    ///
    /// Returns `NoMemory` if the rows or a clone cannot be allocated.
    pub fn heavy_groups(&self, threshold: u64) -> Result<Vec<Row<G>>, Error>
    where
        G: EqualClone,
        ensures heavy { IfOk result (λ heavy. (n : ℕ) (rows : List (G × ℕ)) → SumsUp G.eq n self.now rows
            → ReportsHeavy G.eq n threshold self.now.error rows heavy.items) }
        ensures exact { IfOk result (λ heavy.
            ShowsExactly G.eq ErrorType.NoFalseNegatives threshold self.now heavy.items) }
        ensures descending { IfOk result (λ heavy. Descends heavy.items) }
        ensures err { IfErr result (λ e. e ≡ no_memory) }
    {
        self.sketch
            .frequent_items_with_threshold(ErrorType::NoFalseNegatives, threshold)
    }

    /// Returns the error: the difference of each group's upper and lower bounds.
    pub fn maximum_error(&self) -> u64
        ensures { result ≡ self.now.error }
    {
        self.sketch.maximum_error()
    }

    /// Returns the total weight of all rows.
    pub fn total_weight(&self) -> u64
        ensures total { result ≡ self.now.total }
        ensures sums { (n : ℕ) (rows : List (G × ℕ)) → SumsUp G.eq n self.now rows → result ≡ sum_by (λ row. row.1) rows }
    {
        self.sketch.total_weight()
    }
}

impl<G: FrequentItemValue + Drop> GroupSums<G> {
    /// Returns the image of the sums, to merge them elsewhere.
    ///
    /// # Errors
    ///
    /// Returns the errors of [`serialize`](FrequentItemsSketch::serialize).
    pub fn image(&self) -> Result<Vec<u8>, Error>
        ensures image { IfOk result (λ image. IsSpelledFor G.codec G.content image.items self.now) }
        ensures carries { IfOk result (λ image. (n : ℕ) (rows : List (G × ℕ)) → SumsUp G.eq n self.now rows
            → CarriesSums G.eq G.codec G.content n image.items rows) }
        ensures err { IfErr result (IsImageWritingRefusal G.codec G.content self.now.counters) }
    {
        self.sketch.serialize()
    }

    /// Returns the sums of an image, if their table and what their groups own take at most `max_bytes`.
    ///
    /// # Errors
    ///
    /// Returns the errors of [`deserialize_with_options`](FrequentItemsSketch::deserialize_with_options).
    pub fn from_image(alloc: Global, image: &[u8], max_bytes: usize) -> Result<Self, Error>
        ensures image { IfOk result (λ sums. IsImageOf G.codec G.content image.now sums) }
        ensures sample { IfOk result (λ sums. sums.sample_size ≡ max_sample_size sums.max_size) }
        ensures key { IfOk result (λ sums. sums.key ≡ Plain) }
        ensures sums { IfOk result (λ sums. (n : ℕ) (rows : List (G × ℕ))
            → CarriesSums G.eq G.codec G.content n image.now rows → SumsUp G.eq n sums rows) }
        ensures within { IfOk result (λ sums.
            memory_bytes (table_bytes G.row sums.size) (owned_by G.codec G.content sums.counters) ≤ max_bytes) }
        ensures accepted { IsOk result → limit_fault G.row max_bytes G.codec image.now ≡ None }
        ensures err { IfErr result (IsImageRefusal (early_fault_within G.row max_bytes G.codec image.now)
            (first_fault_within G.row max_bytes G.codec image.now)) }
    {
        laws::image_laws::<G>();
        let options = FrequentItemsImageOptions {
            max_bytes,
            key: TableKey::Plain,
        };
        let sketch = FrequentItemsSketch::deserialize_with_options(alloc, image, options)?;
        Ok(GroupSums { sketch })
    }
}

/// States that the order of rows does not matter: sums of rows are sums of the same rows in any other order. So shards
/// may be merged in any order and any tree.
pub fn sums_in_any_order<G: Eq>()
    ensures { (n : ℕ) (s : FrequentState G) (rows other : List (G × ℕ)) → IsPermutation rows other
        → SumsUp G.eq n s rows → SumsUp G.eq n s other }
{}
