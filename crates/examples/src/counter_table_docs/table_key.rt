//! Examples of `crates/counter_table/src/table_key.rt`. Written by `tests/docs/examples.py`.
use counter_table::TableKey;
use sketch_base::HashKey;

pub fn key_of(random: &[u8; 16]) -> TableKey {
    TableKey::Keyed(HashKey::from_bytes(random))
}
