//! Batches of a sketch with a secret key. Each two keys are hashed together, while the two before them are looked up.
ghost use Rattle.std.specs.Prelude.{◌≡◌, ◌<◌, ◌++◌, true, false, length, map, IfErr, IsOk, IsTrue, OnErr, OnOk, IsErrOf};
ghost use Rattle.std.specs.List.{AllZip};
ghost use Rattle.sketch_base.specs.Errors.{invalid_argument, no_memory};
ghost use Rattle.counter_table.specs.TableHashes.{hash_of};
ghost use Rattle.counter_table.specs.Tables.{is_tracked_by_key};
ghost use Rattle.counter_table.specs.declared.table_key.TableKey.TheVariants.{Keyed};
ghost use Rattle.sketch_frequencies.specs.Bounds.{bounds_by_key, BoundWeight};
ghost use Rattle.sketch_frequencies.specs.History.FrequentHistory.{Update};
ghost use Rattle.sketch_frequencies.specs.KeyedBatches.{UpdatesKeys, StopsAtKey};
ghost use Rattle.sketch_frequencies.specs.KeysAhead.{AreHashed, names_ahead};
ghost use Rattle.sketch_frequencies.specs.Stands.{Extends, ExtendsBudget, IsExactOfFew};
ghost use Rattle.sketch_frequencies.specs.State.{IsState, Overflows, TotalHasRoom, capacity, estimate_by_key, must_grow};
ghost use Rattle.sketch_frequencies.specs.Steps.{StepsByKey};

use crate::frequent_items_sketch::FrequentItemsSketch;
use crate::item_bounds::ItemBounds;
use counter_table::{HashKey, ItemKey, Keys, OwnedKey};
use sketch_base::{Error, Fault, Item};
use std::hash::Hash;

/// The next keys of a sequence, each with its hash under a secret key: two, or fewer at the end.
#[derive(Drop)]
enum KeysAhead<X> {
    End,
    One {
        key: X,
        hash: u64,
    },
    Two {
        first: X,
        first_hash: u64,
        second: X,
        second_hash: u64,
    },
}

/// Takes the next keys, and hashes them.
#[inline(always)]
fn keys_ahead<T: Eq + Hash, K: Keys<T>>(keys: &mut K, secret: HashKey) -> KeysAhead<K::Key>
    ensures parts { K.names keys.old ≡ names_ahead K.Key.names result ++ K.names keys.new }
    ensures hashed { AreHashed K.Key.bytes (Keyed secret) result (K.names keys.new) }
{
    let Some(first) = keys.next_key() else {
        return KeysAhead::End;
    };
    let Some(second) = keys.next_key() else {
        return KeysAhead::One {
            key: first,
            hash: first.keyed_hash(secret),
        };
    };
    let (first_hash, second_hash) = first.keyed_hashes(&second, secret);
    KeysAhead::Two {
        first,
        first_hash,
        second,
        second_hash,
    }
}

impl<T: Eq + Hash + Drop> FrequentItemsSketch<T> {
    /// Does what [`update_all`](Self::update_all) does, for a sketch with this secret key.
    ///
    /// It is not inlined, so that its loop has the processor's registers to itself.
    #[inline(never)]
    pub(crate) fn update_all_keyed<K: Keys<T>>(
        &mut self,
        mut keys: K,
        secret: HashKey,
    ) -> Result<(), Error>
        requires keyed { self.old.key ≡ Keyed secret }
        ensures updates { OnOk result (UpdatesKeys T.eq self.old (K.names keys) self.new) }
        ensures state { IsState T.eq self.new }
        ensures err { IfErr result (λ e. StopsAtKey T.eq self.old (K.names keys) e self.new) }
        ensures doubles { ((key : K.Key) → K.Key.needs_no_memory key)
            → OnErr result (TotalHasRoom self.new 1 → must_grow self.new ≡ true) }
    {
        // Borrows a field, which brings the invariant of the sketch into the proof.
        let _ = &self.map;
        let mut now = keys_ahead::<T, K>(&mut keys, secret);
        // The label names the loop for its proof.
        'each: loop {
            match now {
                KeysAhead::End => return Ok(()),
                KeysAhead::One { key, hash } => {
                    self.update_hashed(key, hash)?;
                    return Ok(());
                }
                KeysAhead::Two {
                    first,
                    first_hash,
                    second,
                    second_hash,
                } => {
                    now = keys_ahead::<T, K>(&mut keys, secret);
                    self.update_hashed(first, first_hash)?;
                    self.update_hashed(second, second_hash)?;
                }
            }
        }
    }

    /// Adds 1 to the weight of the item that the key names, as [`update_item`](Self::update_item) does, where `hash` is the key's.
    #[inline(always)]
    fn update_hashed<K: OwnedKey<T>>(&mut self, key: K, hash: u64) -> Result<(), Error>
        requires { hash ≡ hash_of self.old.key (K.bytes key) }
        ensures step { OnOk result (StepsByKey T.eq self.old (K.names key) 1 self.new) }
        ensures state { IsState T.eq self.new }
        ensures stands { OnOk result ((x : T) → IsTrue (K.names key x)
            → Extends T.eq self.old self.new (λ h. Update h x 1)) }
        ensures budget { OnOk result ((x : T) → IsTrue (K.names key x)
            → ExtendsBudget T.eq self.old self.new (λ h. Update h x 1)) }
        ensures err { OnErr result (self.new ≡ self.old) }
        ensures overflow { Overflows self.old 1 → IsErrOf result (invalid_argument Fault.WeightOverflow) }
        ensures memory { TotalHasRoom self.old 1 → IfErr result (λ e. e ≡ no_memory) }
        ensures succeeds { TotalHasRoom self.old 1 → is_tracked_by_key (K.names key) self.old.counters ≡ true → IsOk result }
        ensures infallible { K.needs_no_memory key → TotalHasRoom self.old 1 → must_grow self.old ≡ false → IsOk result }
    {
        if self.total == u64::MAX {
            return Err(Error::invalid_argument(Fault::WeightOverflow));
        }
        if self.map.num_active() >= self.map.capacity() {
            self.update_item(key)?;
            return Ok(());
        }
        self.put_hashed(key, hash)?;
        Ok(())
    }

    /// Adds 1 to the count of the item that the key names, or tracks a new item with it, where `hash` is the key's.
    ///
    /// Requires a free counter. Returns `NoMemory` and changes nothing if the new item cannot be allocated.
    #[inline(always)]
    fn put_hashed<K: OwnedKey<T>>(&mut self, key: K, hash: u64) -> Result<(), Error>
        requires hash { hash ≡ hash_of self.old.key (K.bytes key) }
        requires fits { TotalHasRoom self.old 1 }
        requires room { length self.old.counters < capacity self.old.size }
        ensures step { OnOk result (StepsByKey T.eq self.old (K.names key) 1 self.new) }
        ensures state { IsState T.eq self.new }
        ensures err { OnErr result (self.new ≡ self.old) }
        ensures memory { IfErr result (λ e. e ≡ no_memory) }
        ensures succeeds { is_tracked_by_key (K.names key) self.old.counters ≡ true → IsOk result }
        ensures infallible { K.needs_no_memory key → IsOk result }
    {
        self.map.adjust_or_put_hashed(key, hash, 1)?;
        self.total += 1;
        Ok(())
    }

    /// Does what [`bounds_all`](Self::bounds_all) does, for a sketch with this secret key.
    #[inline(never)]
    pub(crate) fn bounds_all_keyed<K: Keys<T>>(
        &self,
        mut keys: K,
        secret: HashKey,
        bounds: &mut [ItemBounds],
    )
        requires keyed { self.now.key ≡ Keyed secret }
        requires same { length bounds.old ≡ length (K.names keys) }
        ensures value { bounds.new ≡ map (λ names. bounds_by_key names self.now) (K.names keys) }
        ensures bound { AllZip (λ names answer. (x : T) → IsTrue (names x) → BoundWeight T.eq self.now x answer)
            (K.names keys) bounds.new }
    {
        let mut now = keys_ahead::<T, K>(&mut keys, secret);
        let mut i = 0;
        // The label names the loop for its proof.
        'each: loop {
            match now {
                KeysAhead::End => return,
                KeysAhead::One { key, hash } => {
                    bounds[i] = self.bounds_hashed(key, hash);
                    return;
                }
                KeysAhead::Two {
                    first,
                    first_hash,
                    second,
                    second_hash,
                } => {
                    now = keys_ahead::<T, K>(&mut keys, secret);
                    bounds[i] = self.bounds_hashed(first, first_hash);
                    bounds[i + 1] = self.bounds_hashed(second, second_hash);
                    i += 2;
                }
            }
        }
    }

    /// Returns the bounds of the item that the key names, as [`bounds_item`](Self::bounds_item) does, where `hash` is the key's.
    #[inline(always)]
    fn bounds_hashed<K: ItemKey<T>>(&self, key: K, hash: u64) -> ItemBounds
        requires { hash ≡ hash_of self.now.key (K.bytes key) }
        ensures { result ≡ bounds_by_key (K.names key) self.now }
    {
        // The sum is at most the total, so it fits. Reading the total brings this into the proof.
        let _total = self.total;
        match self.map.look_up_hashed(key, hash) {
            Some(count) => {
                let upper_bound = count + self.error;
                ItemBounds {
                    lower_bound: count,
                    estimate: upper_bound,
                    upper_bound,
                }
            }
            None => ItemBounds {
                lower_bound: 0,
                estimate: 0,
                upper_bound: self.error,
            },
        }
    }

    /// Does what [`estimate_all`](Self::estimate_all) does, for a sketch with this secret key.
    #[inline(never)]
    pub(crate) fn estimate_all_keyed<K: Keys<T>>(
        &self,
        mut keys: K,
        secret: HashKey,
        estimates: &mut [u64],
    )
        requires keyed { self.now.key ≡ Keyed secret }
        requires same { length estimates.old ≡ length (K.names keys) }
        ensures value { estimates.new ≡ map (λ names. estimate_by_key names self.now) (K.names keys) }
        ensures exact { AllZip (λ names answer. (x : T) → IsTrue (names x) → IsExactOfFew T.eq self.now x answer)
            (K.names keys) estimates.new }
    {
        let mut now = keys_ahead::<T, K>(&mut keys, secret);
        let mut i = 0;
        // The label names the loop for its proof.
        'each: loop {
            match now {
                KeysAhead::End => return,
                KeysAhead::One { key, hash } => {
                    estimates[i] = self.estimate_hashed(key, hash);
                    return;
                }
                KeysAhead::Two {
                    first,
                    first_hash,
                    second,
                    second_hash,
                } => {
                    now = keys_ahead::<T, K>(&mut keys, secret);
                    estimates[i] = self.estimate_hashed(first, first_hash);
                    estimates[i + 1] = self.estimate_hashed(second, second_hash);
                    i += 2;
                }
            }
        }
    }

    /// Returns the estimate of the item that the key names, as [`estimate_item`](Self::estimate_item) does, where `hash` is the
    /// key's.
    #[inline(always)]
    fn estimate_hashed<K: ItemKey<T>>(&self, key: K, hash: u64) -> u64
        requires { hash ≡ hash_of self.now.key (K.bytes key) }
        ensures { result ≡ estimate_by_key (K.names key) self.now }
    {
        // The sum is at most the total, so it fits. Reading the total brings this into the proof.
        let _total = self.total;
        match self.map.look_up_hashed(key, hash) {
            Some(count) => count + self.error,
            None => 0,
        }
    }
}
