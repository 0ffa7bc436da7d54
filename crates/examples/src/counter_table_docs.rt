//! Examples of `counter_table`. Written by `tests/docs/examples.py`.
pub mod equal_clone;
pub mod keys;
pub mod readme;
pub mod reverse_purge_item_hash_map;
pub mod reverse_purge_item_iter;
pub mod slot;
pub mod table_key;
