//! The fingerprints of a table's slots: a byte for each slot, which shows whether a look-up has to read the slot.
//!
//! A slot of an item of 8 bytes takes 24 bytes, and its fingerprint one. A look-up probes the fingerprints, and reads a slot
//! only if its fingerprint is the item's. So few or no slots are read for an absent item. The fingerprint is taken from the
//! top bits of the hash, and the home from its low bits.
ghost use Rattle.std.specs.Prelude.{◌≡◌, ℕ, ◌≤◌, ◌+◌, ◌<◌, ◌%◌, ◌^◌, None, Some, length, map, nat_eq, slice_index, replicate, false, IfOk, IfErr, IsTrue};
ghost use Rattle.std.specs.Simd.Lanes.{mask_l};
ghost use Rattle.sketch_base.specs.Errors.{no_memory};
ghost use Rattle.counter_table.specs.Fingerprints.{fingerprint_of};
ghost use Rattle.counter_table.specs.Probes.{IsCountAt};
ghost use Rattle.counter_table.specs.Slots.{IsTableSize, Held, slot_at};
ghost use Rattle.counter_table.specs.TableHashes as hashes;

use crate::item_key::ItemKey;
use crate::slot::Slot;
use crate::table_key::TableKey;
use sketch_base::{DEFAULT_UPDATE_SEED, Error};
use std::alloc::Global;
use std::hash::Hash;
use std::simd::prelude::*;

/// The fingerprint of a free slot. An item's fingerprint is from 128 to 255.
pub(crate) const FREE: u8 = 0;

/// Returns the hash of the items that the key names, in a table with this key.
#[inline(always)]
pub(crate) fn hash_of<T: Eq + Hash, K: ItemKey<T>>(table_key: TableKey, key: K) -> u64
    ensures { result ≡ hashes.hash_of table_key (K.bytes key) }
{
    match table_key {
        TableKey::Plain => key.murmur3(DEFAULT_UPDATE_SEED).0,
        TableKey::Keyed(secret) => key.keyed_hash(secret),
    }
}

/// Returns the home, in a table of this size, of an item with this hash.
#[inline(always)]
pub(crate) fn home(hash: u64, size: usize) -> usize
    requires { IsTableSize size }
    ensures { result ≡ hash % size }
{
    hash as usize & (size - 1)
}

/// Returns the fingerprint of an item with this hash.
#[inline(always)]
pub(crate) fn fingerprint(hash: u64) -> u8
    ensures { result ≡ fingerprint_of hash }
{
    128 + (hash >> 57) as u8
}

/// Returns the fingerprint of a slot, and counts the probe. Look-ups read fingerprints by this call and by `passed_at`.
#[inline(always)]
pub(crate) fn probe_at(fingerprints: &[u8], index: usize, probed: &mut usize) -> u8
    requires index { index < length fingerprints.now }
    requires probed { probed.old < 2 ^ 30 }
    ensures value { result ≡ slice_index fingerprints.now index }
    ensures counted { probed.new ≡ probed.old + 1 }
{
    *probed += 1;
    fingerprints[index]
}

/// Returns a number whose bit `i` is set exactly if lane `i` equals `mark`.
#[inline(always)]
fn marks_in<const N: usize>(lanes: Simd<u8, N>, mark: u8) -> u64
    requires lanes { N ≤ 64 }
    requires long { length lanes ≡ N }
    ensures { result ≡ mask_l (map (λ x. nat_eq x mark) lanes.entry) }
{
    lanes.simd_eq(Simd::splat(mark)).to_bitmask()
}

/// Returns the number of the `N` fingerprints from an index on that come before the first which equals `mark`.
#[inline(always)]
fn before_mark<const N: usize>(fingerprints: &[u8], index: usize, mark: u8) -> usize
    requires lanes { N ≤ 64 }
    requires room { index + N ≤ length fingerprints.now }
    ensures few { result ≤ N }
    ensures other { (k : ℕ) → index ≤ k → k < index + result → slice_index fingerprints.now k ≡ mark → ⊥ }
{
    let marks = marks_in(Simd::<u8, N>::from_slice(&fingerprints[index..]), mark);
    if marks == 0 {
        N
    } else {
        marks.trailing_zeros() as usize
    }
}

/// Returns the number of slots from an index on that a look-up may pass, up to 16: those before the first that is free or has
/// the fingerprint `mark`. Returns 0 if fewer than 16 slots are left.
#[inline(always)]
pub(crate) fn passed_at(fingerprints: &[u8], index: usize, mark: u8) -> usize
    requires { index < length fingerprints.now }
    ensures few { result ≤ 16 }
    ensures within { index + result ≤ length fingerprints.now }
    ensures taken { (k : ℕ) → index ≤ k → k < index + result → slice_index fingerprints.now k ≡ 0 → ⊥ }
    ensures other { (k : ℕ) → index ≤ k → k < index + result → slice_index fingerprints.now k ≡ mark → ⊥ }
{
    if fingerprints.len() - index < 16 {
        return 0;
    }
    let before_free = before_mark::<16>(fingerprints, index, FREE);
    before_free.min(before_mark::<16>(fingerprints, index, mark))
}

/// Returns the count in a slot if the slot holds an item that the key names.
///
/// Compares the item only if `seen`, the slot's fingerprint, equals that of the key's hash, and the slot's drift is the number of
/// probes. Requires that the key names no item with another fingerprint or drift there.
#[inline(always)]
pub(crate) fn count_at<T: Eq + Hash, K: ItemKey<T>>(
    slots: &[Slot<T>],
    key: K,
    hash: u64,
    index: usize,
    seen: u8,
    probed: usize,
) -> Option<u64>
    requires index { index < length slots.now }
    requires drift { (s : Held T) → slot_at slots.now index ≡ Some s → IsTrue (K.names key s.item) → s.drift ≡ probed }
    requires other { (seen ≡ fingerprint_of hash → ⊥) → (s : Held T) → slot_at slots.now index ≡ Some s
        → K.names key s.item ≡ false }
    ensures { IsCountAt (K.names key) slots.now index result }
{
    if seen != fingerprint(hash) {
        return None;
    }
    if let Slot::Taken {
        drift,
        count,
        item: there,
    } = &slots[index]
    {
        if *drift as usize == probed && key.names(there) {
            return Some(*count);
        }
    }
    None
}

/// Returns the fingerprints of `size` free slots. Allocates once.
pub(crate) fn free_fingerprints(alloc: Global, size: usize) -> Result<Vec<u8>, Error>
    ensures ok { IfOk result (λ fingerprints. fingerprints.items ≡ replicate size 0) }
    ensures err { IfErr result (λ e. e ≡ no_memory) }
{
    let fingerprints = vec![in alloc; FREE; size]?;
    Ok(fingerprints)
}
