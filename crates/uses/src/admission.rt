//! Cache admission: a new item enters only if it was used more than the item that it would replace.
//!
//! Recent uses are counted in a table of a fixed size. After each window of uses all counts are halved, so old uses
//! fade. An item that is used once, as in a scan of a whole table, never replaces an item in use.
ghost use Rattle.std.specs.Prelude.{◌≡◌, ℕ, ◌+◌, ◌*◌, ◌<◌, ◌≤◌, ◌↔◌, None, List, [], ◌∷◌, ◌++◌, pos, IfOk, IfErr, IsOk, IsTrue};
ghost use Rattle.sketch_base.specs.Errors.{refusal_of};
ghost use Rattle.sketch_base.specs.Hashes.{fed_bytes};
ghost use Rattle.sketch_countmin.specs.Shapes.{shape_fault};
ghost use Rattle.sketch_countmin.specs.State.{SameShape, IsMinCell, empty_state};
ghost use Rattle.uses.specs.Admissions.{IsAdmission, HasSeen, Touches, aged_share};

use sketch_base::{DEFAULT_UPDATE_SEED, Error};
use sketch_countmin::CountMinSketch;
use std::alloc::Global;
use std::hash::Hash;
use std::marker::Model;

/// The recent uses of items in a cache and of candidates for it.
#[derive(Drop)]
pub struct Admission {
    recent: CountMinSketch<u32>,
    window: u32,
}

impl Model for Admission {
    ghost use Rattle.uses.specs.Admissions.{AdmissionState, IsAdmission};

    ghost Value = { AdmissionState };

    ghost view = { λ a. record { recent = a.recent; window = a.window } };

    ghost invariant = { λ a. IsAdmission (record { recent = a.recent; window = a.window }) };
}

impl Admission {
    /// Creates a count of no uses, with `num_hashes` rows of `num_buckets` cells. Counts are halved after each `window`
    /// uses.
    ///
    /// `window` must be above 0.
    ///
    /// # Errors
    ///
    /// Returns the errors of [`CountMinSketch::new`].
    pub fn new(alloc: Global, num_hashes: u8, num_buckets: u32, window: u32) -> Result<Self, Error>
        requires { 0 < window }
        ensures ok { IfOk result (λ admission. admission
            ≡ record { recent = empty_state num_hashes num_buckets DEFAULT_UPDATE_SEED; window = window }) }
        ensures seen { IfOk result (λ admission. HasSeen admission []) }
        ensures accepted { IsOk result → shape_fault num_hashes num_buckets DEFAULT_UPDATE_SEED ≡ None }
        ensures refused { IfErr result (λ e. e ≡ refusal_of (shape_fault num_hashes num_buckets DEFAULT_UPDATE_SEED)) }
    {
        let recent = CountMinSketch::new(alloc, num_hashes, num_buckets)?;
        Ok(Admission { recent, window })
    }

    /// Counts a use of an item, whether it is in the cache or not. Does not allocate, and always succeeds.
    pub fn touch<K: Hash + Drop>(&mut self, item: K)
        ensures step { Touches self.old (fed_bytes K.hash_input item) self.new }
        ensures seen { (uses : List (List ℕ)) → HasSeen self.old uses
            → HasSeen self.new (uses ++ fed_bytes K.hash_input item ∷ []) }

        // The state does not grow: its table keeps its shape, and its total is below the window.
        ensures shape { SameShape self.new.recent self.old.recent }
        ensures bounded { IsAdmission self.new }
    {
        let window = self.window;
        let Ok(()) = self.recent.update(item) else {
            unreachable!()
        };
        if self.recent.total_weight() == window {
            self.recent.halve();
        }
    }

    /// Returns an estimate of the item's recent uses: at least its own aged share, and less than the window.
    pub fn estimate<K: Hash + Drop>(&self, item: K) -> u32
        ensures least { IsMinCell self.now.recent (fed_bytes K.hash_input item) (pos result) }
        ensures own { (uses : List (List ℕ)) → HasSeen self.now uses
            → aged_share self.now.window uses (fed_bytes K.hash_input item) ≤ result }
        ensures bounded { result < self.now.window }
    {
        // for the prover: the invariant of every sketch
        let _ = self.recent.num_hashes();
        self.recent.estimate(item)
    }

    /// Returns whether a newcomer may replace a victim: exactly if its estimate is above the victim's.
    pub fn admits<K: Hash + Drop, V: Hash + Drop>(&self, newcomer: K, victim: V) -> bool
        ensures { (n v : ℕ) → IsMinCell self.now.recent (fed_bytes K.hash_input newcomer) (pos n)
            → IsMinCell self.now.recent (fed_bytes V.hash_input victim) (pos v) → (IsTrue result ↔ (v < n)) }
    {
        self.estimate(newcomer) > self.estimate(victim)
    }

    /// Returns an estimate of the table's bytes: 4 for each cell and 8 for each row.
    pub fn estimated_size(&self) -> usize
        ensures { result ≡ self.now.recent.hashes * self.now.recent.buckets * 4 + 8 * self.now.recent.hashes }
    {
        self.recent.estimated_size()
    }
}
