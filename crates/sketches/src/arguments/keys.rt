//! The key of a run: how its table or its filter hashes.
ghost use Rattle.std.specs.Prelude.{◌≡◌};
ghost use Rattle.sketches.specs.Keys.{given_key, seed_of};

use hex::FromHex;
use sketch_base::{DEFAULT_UPDATE_SEED, keyed_hash};
use sketch_frequencies::{HashKey, TableKey};
use std::env::{Env, FillError};
use std::random::RandomSource;

/// The environment variable that fixes the key.
const VARIABLE: &str = "DATASKETCHES_TABLE_KEY";

/// The reason why a run has no key.
#[derive(Clone, Copy)]
pub enum KeyFault {
    /// The value of the option is not allowed.
    BadOption,
    /// The value of the variable is not allowed.
    BadVariable,
    /// The system has no random bytes.
    NoRandomBytes,
}

/// Returns the key of the option, or else that of the environment variable, or else a random key. Does not allocate.
///
/// # Errors
///
/// Returns `BadOption` or `BadVariable` if the value is neither `plain` nor 32 hexadecimal digits. Returns `NoRandomBytes` if
/// neither is set and the system has no random bytes. No clause sees the environment.
pub fn key_of(rt: &(impl Env + RandomSource), option: Option<&str>) -> Result<TableKey, KeyFault> {
    if let Some(value) = option {
        return given_key(value.as_bytes()).ok_or(KeyFault::BadOption);
    }
    let mut value = [0; 32];
    match rt.var(VARIABLE, &mut value) {
        Ok(len) => given_key(&value[..len]).ok_or(KeyFault::BadVariable),
        Err(FillError::TooLong) => Err(KeyFault::BadVariable),
        Err(FillError::NotPresent) => random_key(rt),
    }
}

/// Returns the key that a value names, or `None` if the value is not allowed.
fn given_key(value: &[u8]) -> Option<TableKey>
    ensures { result ≡ given_key value.now }
{
    if value == b"plain".as_slice() {
        return Some(TableKey::Plain);
    }
    match <[u8; 16] as FromHex>::from_hex(value) {
        Ok(bytes) => Some(TableKey::Keyed(HashKey::from_bytes(&bytes))),
        Err(_) => None,
    }
}

/// Returns the seed of a filter under a key. Under another key it is another one, but for a chance of about 1 in 2^64.
pub fn seed_of(key: TableKey) -> u64
    ensures { result ≡ seed_of key }
{
    match key {
        TableKey::Plain => DEFAULT_UPDATE_SEED,
        TableKey::Keyed(key) => keyed_hash(key, b"".as_slice()),
    }
}

/// Returns a key of random bytes.
fn random_key(source: &impl RandomSource) -> Result<TableKey, KeyFault> {
    let mut bytes = [0; 16];
    match source.fill_bytes(&mut bytes) {
        Ok(()) => Ok(TableKey::Keyed(HashKey::from_bytes(&bytes))),
        Err(_) => Err(KeyFault::NoRandomBytes),
    }
}
