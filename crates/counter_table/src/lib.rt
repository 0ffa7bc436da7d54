//! A table of counters: a finite map from items to counts, whose light entries a purge drops.
//!
//! [`ReversePurgeItemHashMap`] keeps its entries in one array of slots, with linear probing. A second array has a byte for each
//! slot, its fingerprint, which shows whether a look-up has to read the slot. A purge subtracts a middle count of a sample from
//! every count, and drops the entries at or below it. A summary of Misra & Gries 1982 does so if it has no counter left.
//!
//! A purge deletes by backward shift (Knuth vol. 3, 6.4, algorithm R), all entries in one sweep. A later entry of its cluster
//! fills a freed slot, so no slot is ever marked as deleted. The cost of a look-up is a function of the entries alone.
//!
//! A table hashes its items under a [`TableKey`]: by the fixed hash of the original crate, or by SipHash-1-3 under a secret
//! key, for items that others choose.
//!
//! Contracts describe a map by the list of its entries in an unspecified order, by its size and by its key.
//! [`ReversePurgeItemHashMap::slots`] returns the slots, for a caller that writes all entries.
#![tactic(auto)]

mod equal_clone;
mod fingerprints;
mod indices;
mod item_key;
mod keys;
mod reverse_purge_item_hash_map;
mod reverse_purge_item_iter;
mod sizes;
mod slot;
mod slot_table;
mod table_key;

pub use equal_clone::EqualClone;
pub use item_key::{ItemKey, OwnedKey};
pub use keys::Keys;
pub use reverse_purge_item_hash_map::ReversePurgeItemHashMap;
pub use reverse_purge_item_iter::ReversePurgeItemIter;
pub use sizes::{MAX_SAMPLE_SIZE, bytes_of_table, capacity_of, lg_of};
pub use sketch_base::{Error, ErrorKind, Fault, HashKey};
pub use slot::Slot;
pub use table_key::TableKey;
