//! A list of blocked items, from which batches can be removed.
//!
//! A service blocks the items on its list, such as domains that send spam or files under a claim. If a claim is
//! withdrawn, its items are removed in one batch, by the difference with a filter of them. An item that shares no
//! position with the batch is blocked as before.
ghost use Rattle.std.specs.Prelude.{◌≡◌, ℕ, None, List, [], ◌∷◌, ◌++◌, map, true, false, IfOk, IfErr, IsOk, OnOk, OnErr};
ghost use Rattle.std.specs.List.{list_any};
ghost use Rattle.std.specs.Str.{bytes_eq};
ghost use Rattle.sketch_base.specs.Errors.{no_memory, refusal_of};
ghost use Rattle.sketch_base.specs.Hashes.{fed_bytes};
ghost use Rattle.sketch_bloom.specs.Building.{request_fault};
ghost use Rattle.sketch_bloom.specs.State.{contains_item, inserted};
ghost use Rattle.uses.specs.Prefilters.{empty_of};
ghost use Rattle.uses.specs.Takedowns.{Entry, Follows, SaysWhatFollows, RefusesStill, without};
ghost use Rattle.uses.specs.Takedowns.Entry.{Refused, TakenBack};

use sketch_base::Error;
use sketch_bloom::{BloomFilter, BloomFilterBuilder, laws};
use std::alloc::Global;
use std::hash::Hash;
use std::marker::Model;

/// The blocked items, as a Bloom filter.
#[derive(Drop)]
pub struct TakedownList {
    refused: BloomFilter,
}

impl Model for TakedownList {
    ghost use Rattle.sketch_bloom.specs.State.{FilterState, state_code};

    ghost Value = { FilterState };

    ghost coded = { state_code };

    ghost view = { λ l. l.refused };
}

impl TakedownList {
    /// Creates a list with no entries, which blocks nothing.
    ///
    /// # Errors
    ///
    /// Returns the errors of [`build`](BloomFilterBuilder::build).
    pub fn new(alloc: Global, builder: BloomFilterBuilder) -> Result<Self, Error>
        ensures ok { IfOk result (λ list. list ≡ empty_of builder) }
        ensures follows { IfOk result (λ list. Follows list []) }
        ensures accepted { IsOk result → request_fault builder ≡ None }
        ensures refused { IfErr result (λ e. e ≡ refusal_of (request_fault builder)) }
    {
        let refused = builder.build(alloc)?;
        Ok(TakedownList { refused })
    }

    /// Blocks an item from now on. Does not allocate.
    pub fn refuse<T: Hash + Drop>(&mut self, item: T)
        ensures insertion { self.new ≡ inserted self.old (fed_bytes T.hash_input item) }
        ensures follows { (entries : List Entry) → Follows self.old entries
            → Follows self.new (entries ++ Refused (fed_bytes T.hash_input item) ∷ []) }
    {
        self.refused.insert(item);
    }

    /// Removes a batch of items, none of which is blocked any more. An item outside the batch is blocked as before if
    /// it shares no position with an item of the batch. No item becomes blocked.
    ///
    /// # Errors
    ///
    /// Returns `NoMemory` if a filter of the batch, as large as the list, cannot be allocated. The list is then
    /// unchanged.
    pub fn take_back<T: Hash>(&mut self, items: &[T]) -> Result<(), Error>
        ensures ok { OnOk result (self.new ≡ without self.old (map (fed_bytes T.hash_input) items.now)) }
        ensures follows { OnOk result ((entries : List Entry) → Follows self.old entries
            → Follows self.new (entries ++ TakenBack (map (fed_bytes T.hash_input) items.now) ∷ [])) }
        ensures gone { OnOk result ((item : List ℕ)
            → list_any (bytes_eq item) (map (fed_bytes T.hash_input) items.now) ≡ true
            → contains_item self.new item ≡ false) }
        ensures no_more { OnOk result ((item : List ℕ) → contains_item self.new item ≡ true
            → contains_item self.old item ≡ true) }
        ensures err { OnErr result (self.new ≡ self.old) }
        ensures memory { IfErr result (λ e. e ≡ no_memory) }
    {
        laws::membership();
        laws::difference_takes_and_leaves();
        let mut batch = self.refused.try_clone()?;
        batch.reset();
        batch.insert_all(items);
        self.refused.difference(&batch)
    }

    /// Returns whether an item is blocked. Does not allocate.
    pub fn is_refused<T: Hash>(&self, item: &T) -> bool
        ensures answer { result ≡ contains_item self.now (fed_bytes T.hash_input item.now) }
        ensures denoted { SaysWhatFollows self.now (fed_bytes T.hash_input item.now) result }
        ensures still { RefusesStill self.now (fed_bytes T.hash_input item.now) result }
    {
        self.refused.contains(item)
    }
}
