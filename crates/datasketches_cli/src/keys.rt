//! The keys of a run: how its tables and maps hash.
ghost use Rattle.std.specs.Prelude.{◌≡◌, ℕ, ◌%◌, ◌<◌, length, slice_index, IfErr, IfOk, IsOk};
ghost use Rattle.datasketches.specs.State.{nothing_stored};
ghost use Rattle.datasketches_cli.specs.KeyValues.{AreGiven, HasKeys, HasTableKey, HashesUnder, IsChosen, IsKeyed, choice_of, map_key, table_key};
ghost use Rattle.datasketches_cli.specs.declared.keys.KeyFault.TheVariants.{NoRandomBytes};
ghost use Rattle.heavy_windows.specs.Calls.{IsMade};

use datasketches::Session;
use heavy_windows::{Error, HashKey, HeavyWindows, TableKey};
use hex::FromHex;
use sketch_base::keyed_hash;
use std::alloc::Global;
use std::env::{Env, FillError};
use std::hash::RandomState;
use std::io;
use std::random::RandomSource;

/// The environment variable that fixes the key of tables.
const VARIABLE: &str = "DATASKETCHES_TABLE_KEY";

/// How the tables of frequent items and the maps of names and tenants hash in a run.
#[derive(Clone, Copy)]
pub enum Keys {
    /// By hashes that anyone can compute.
    Plain,
    /// Under these keys.
    Keyed { table: HashKey, maps: RandomState },
}

/// The reason why a run has no keys.
#[derive(Clone, Copy)]
pub enum KeyFault {
    /// The value of the variable is not allowed.
    BadValue,
    /// The system has no random bytes.
    NoRandomBytes,
}

/// An allowed value of the variable.
#[derive(Clone, Copy)]
pub enum Choice {
    /// The word `plain`.
    Plain,
    /// The 16 bytes of a key.
    Bytes([u8; 16]),
}

/// Returns the keys that the environment variable chooses, or random keys if it is not set. Does not allocate.
///
/// # Errors
///
/// Returns `BadValue` if the value of the variable is neither `plain` nor 32 hexadecimal digits. Returns `NoRandomBytes` if
/// the variable is not set and the system has no random bytes. No clause sees the environment.
pub fn keys_of(rt: &(impl Env + RandomSource)) -> Result<Keys, KeyFault> {
    let mut value = [0; 32];
    match rt.var(VARIABLE, &mut value) {
        Ok(len) => given_keys(&value[..len]),
        Err(FillError::TooLong) => Err(KeyFault::BadValue),
        Err(FillError::NotPresent) => random_keys(rt),
    }
}

/// Returns the keys of a value of the variable.
fn given_keys(value: &[u8]) -> Result<Keys, KeyFault>
    ensures { AreGiven (choice_of value.now) result }
{
    match choice_of(value) {
        Some(choice) => chosen_keys(choice),
        None => Err(KeyFault::BadValue),
    }
}

/// Returns the choice that a value of the variable names, or `None` if the value is not allowed.
fn choice_of(value: &[u8]) -> Option<Choice>
    ensures { result ≡ choice_of value.now }
{
    if value == b"plain".as_slice() {
        return Some(Choice::Plain);
    }
    match <[u8; 16] as FromHex>::from_hex(value) {
        Ok(bytes) => Some(Choice::Bytes(bytes)),
        Err(_) => None,
    }
}

/// Returns the keys of a choice. The bytes are the key of tables, and that of maps is derived from them. So a run can be repeated.
fn chosen_keys(choice: Choice) -> Result<Keys, KeyFault>
    ensures { IfOk result (IsChosen choice) }
{
    match choice {
        Choice::Plain => Ok(Keys::Plain),
        Choice::Bytes(bytes) => {
            let table = HashKey::from_bytes(&bytes);
            keys_under(
                table,
                &GivenBytes {
                    bytes: map_key(table),
                },
            )
        }
    }
}

/// Returns the 16 bytes of the key of maps, by the key of tables: the hashes of two labels.
///
/// No string item has the hash of a label, since strings are hashed with the byte 255 at the end.
fn map_key(table: HashKey) -> [u8; 16]
    ensures { result ≡ map_key table }
{
    let mut bytes = [0; 16];
    bytes[..8].copy_from_slice(&keyed_hash(table, b"maps 0").to_le_bytes());
    bytes[8..].copy_from_slice(&keyed_hash(table, b"maps 1").to_le_bytes());
    bytes
}

/// Returns random keys, of bytes from a source.
fn random_keys(source: &impl RandomSource) -> Result<Keys, KeyFault>
    ensures { IfOk result IsKeyed }
{
    let mut bytes = [0; 16];
    let Ok(()) = source.fill_bytes(&mut bytes) else {
        return Err(KeyFault::NoRandomBytes);
    };
    keys_under(HashKey::from_bytes(&bytes), source)
}

/// Returns the key of tables, and a key of maps from a source.
fn keys_under(table: HashKey, source: &impl RandomSource) -> Result<Keys, KeyFault>
    ensures table { IfOk result (HasTableKey table) }
    ensures err { IfErr result (λ fault. fault ≡ NoRandomBytes) }
{
    let Ok(maps) = RandomState::new(source) else {
        return Err(KeyFault::NoRandomBytes);
    };
    Ok(Keys::Keyed { table, maps })
}

/// A source that repeats these bytes.
#[derive(Drop)]
struct GivenBytes {
    bytes: [u8; 16],
}

impl RandomSource for GivenBytes {
    /// Writes the bytes in turn. It does not fail.
    fn fill_bytes(&self, buf: &mut [u8]) -> io::Result<()>
        ensures ok { IsOk result }
        ensures bytes { (i : ℕ) → i < length buf.new → slice_index buf.new i ≡ slice_index self.now.bytes (i % 16) }
    {
        for i in 0..buf.len() {
            buf[i] = self.bytes[i % 16];
        }
        Ok(())
    }
}

impl Keys {
    /// Creates a session under the keys. Does not allocate.
    pub fn session(&self, alloc: Global) -> Session<String>
        ensures empty { result ≡ nothing_stored result.keys }
        ensures keys { HasKeys self.now result.keys }
    {
        match *self {
            Keys::Plain => Session::new(alloc),
            Keys::Keyed { table, maps } => {
                Session::with_key_and_hasher(alloc, TableKey::Keyed(table), maps)
            }
        }
    }

    /// Creates windows under the keys, as [`HeavyWindows::new`] does.
    ///
    /// # Errors
    ///
    /// Returns those of `HeavyWindows::new`.
    pub fn windows(
        &self,
        alloc: Global,
        windows: usize,
        max_map_size: usize,
    ) -> Result<HeavyWindows<String>, Error>
        ensures call { IsMade windows max_map_size (table_key self.now) result }
        ensures maps { IfOk result (λ made. HashesUnder self.now made.hasher) }
    {
        match *self {
            Keys::Plain => HeavyWindows::new(alloc, windows, max_map_size),
            Keys::Keyed { table, maps } => {
                let key = TableKey::Keyed(table);
                HeavyWindows::with_key_and_hasher(alloc, windows, max_map_size, key, maps)
            }
        }
    }
}
