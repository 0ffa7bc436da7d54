//! Examples of `crates/datasketches/src/session.rt`. Written by `tests/docs/examples.py`.
use datasketches::frequencies::{HashKey, TableKey};
use datasketches::{Bounds, Refusal, Session};
use std::alloc::Global;
use std::hash::RandomState;

pub fn visits_by_seven(alloc: Global) -> Result<Bounds, Refusal> {
    let mut session = Session::new(alloc);
    session.create_frequent_items("visits", 64)?;
    session.add("visits", 7_u64, 5)?;
    session.bounds("visits", &7)
}

pub fn keyed_session(alloc: Global, random: &[u8; 16]) -> Session<String> {
    Session::with_key(alloc, TableKey::Keyed(HashKey::from_bytes(random)))
}

pub fn session_of_strangers(
    alloc: Global,
    random: &[u8; 16],
    hash_builder: RandomState,
) -> Session<String> {
    let key = TableKey::Keyed(HashKey::from_bytes(random));
    Session::with_key_and_hasher(alloc, key, hash_builder)
}
