//! Examples of `crates/heavy_windows/src/heavy_windows.rt`. Written by `tests/docs/examples.py`.
use heavy_windows::{Error, ErrorType, HashKey, HeavyWindows, Report, TableKey};
use std::alloc::Global;
use std::hash::RandomState;

pub fn load_of_a_customer(alloc: Global) -> Result<Report<&'static str>, Error> {
    let mut load = HeavyWindows::new(alloc, 24, 1024)?;
    load.add(7, "/search", 5_300)?;
    load.turn(7)?;
    load.add(7, "/search", 1_200)?;
    load.report(7, ErrorType::NoFalsePositives, 1_000)
}

pub fn keyed_load(alloc: Global, random: &[u8; 16]) -> Result<HeavyWindows<String>, Error> {
    let key = TableKey::Keyed(HashKey::from_bytes(random));
    HeavyWindows::with_key(alloc, 24, 1024, key)
}

pub fn load_of_strangers(
    alloc: Global,
    random: &[u8; 16],
    hash_builder: RandomState,
) -> Result<HeavyWindows<String>, Error> {
    let key = TableKey::Keyed(HashKey::from_bytes(random));
    HeavyWindows::with_key_and_hasher(alloc, 24, 1024, key, hash_builder)
}
