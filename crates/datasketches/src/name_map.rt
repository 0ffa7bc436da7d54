//! Maps from names to values.
ghost use Rattle.std.specs.Prelude.{◌≡◌, [], None, Some, is_some, string_bytes, MatchOption, OnOk, OnErr, IfOk, IfErr};
ghost use Rattle.sketch_base.specs.Errors.{no_memory};
ghost use Rattle.std.specs.Borrow.{sem};
ghost use Rattle.std.specs.Option.{option_copied_mut};
ghost use Rattle.datasketches.specs.Lending.{LendsValue};
ghost use Rattle.datasketches.specs.Names.{at_name, index_of, Puts, AreSame, Keeps};

use crate::reply::Refusal;
use sketch_base::{Error, MapState};
use std::alloc::Global;
use std::collections::HashMap;
use std::fmt;
use std::marker::Model;

/// A map from names to values: the values in order of insertion, and the index of each name's value. Names are never
/// removed, so indices do not change.
#[derive(Drop)]
pub struct NameMap<V> {
    pub(crate) indices: HashMap<String, usize, MapState>,
    pub(crate) values: Vec<V>,
}

impl<V> Model for NameMap<V> {
    ghost use Rattle.datasketches.specs.Names.{Named};

    ghost Value = { Named V };

    ghost use Rattle.std.specs.Prelude.{length};
    ghost use Rattle.std.specs.HashMap.{hasher_of};
    ghost use Rattle.datasketches.specs.Names.{listed, AreIndices};

    ghost view = { λ s. record { entries = listed s.indices.entries s.values.items; hasher = hasher_of s.indices } };

    ghost invariant = { λ s. AreIndices s.indices.entries (length s.values.items) };
}

/// Prints the names.
impl<V> fmt::Debug for NameMap<V> {
    fn fmt<W: fmt::Write>(&self, f: &mut fmt::Formatter<W>) -> fmt::Result {
        f.debug_set().entries(self.indices.keys()).finish()
    }
}

impl<V: Drop> NameMap<V> {
    /// Creates an empty map that hashes names under `state`.
    pub fn new(alloc: Global, state: MapState) -> Self
        ensures { result ≡ record { entries = []; hasher = state } }
    {
        NameMap {
            indices: HashMap::with_hasher(alloc, state),
            values: Vec::new(alloc),
        }
    }

    /// Returns the name's value, if any.
    pub fn get(&self, name: &str) -> Option<&V>
        ensures { MatchOption result
            (at_name name.now self.now.entries ≡ None)
            (λ value. at_name name.now self.now.entries ≡ Some value.now) }
    {
        match index_of(&self.indices, name) {
            None => None,
            Some(index) => Some(&self.values[index]),
        }
    }

    /// Returns whether the name has a value.
    pub fn contains_name(&self, name: &str) -> bool
        ensures { result ≡ is_some (at_name name.now self.now.entries) }
    {
        self.get(name).is_some()
    }

    /// Returns a mutable reference to the name's value, if any.
    #[inline(always)]
    pub fn get_mut(&mut self, name: &str) -> Option<&mut V>
        ensures* writes_back { sem 𝓛 (LendsValue V.row self.entry name.now result) }
        ensures value { option_copied_mut result ≡ at_name name.now self.old.entries }
    {
        match index_of(&self.indices, name) {
            None => None,
            Some(index) => Some(&mut self.values[index]),
        }
    }

    /// Inserts a value that was made, under a name that has none.
    ///
    /// # Errors
    ///
    /// Returns the error of making it, or `NoMemory` if the entry cannot be allocated. Each name then has the same value as
    /// before.
    pub fn keep(&mut self, alloc: Global, name: &str, made: Result<V, Error>) -> Result<(), Refusal>
        requires free { at_name name.now self.old.entries ≡ None }
        ensures kept { Keeps name.now made self.old.entries result self.new.entries }
        ensures hasher { self.new.hasher ≡ self.old.hasher }
    {
        let value = made?;
        let name = copied(alloc, name)?;
        Ok(self.insert(name, value)?)
    }

    /// Inserts a value under a name that has none. Returns `NoMemory` if the entry cannot be allocated.
    fn insert(&mut self, name: String, value: V) -> Result<(), Error>
        requires free { at_name (string_bytes name) self.old.entries ≡ None }
        ensures put { OnOk result (Puts (string_bytes name) value self.old.entries self.new.entries) }
        ensures same { OnErr result (AreSame self.old.entries self.new.entries) }
        ensures hasher { self.new.hasher ≡ self.old.hasher }
        ensures err { IfErr result (λ e. e ≡ no_memory) }
    {
        let index = self.values.len();
        self.values.push(value)?;
        match self.indices.insert(name, index) {
            Ok(_) => Ok(()),
            Err(e) => {
                self.values.truncate(index);
                Err(Error::from(e))
            }
        }
    }
}

/// Returns a copy of a name. Returns `NoMemory` if it cannot be allocated.
fn copied(alloc: Global, name: &str) -> Result<String, Error>
    ensures copy { IfOk result (λ copy. string_bytes copy ≡ name.now) }
    ensures err { IfErr result (λ e. e ≡ no_memory) }
{
    Ok(String::from_str(alloc, name)?)
}

/// The greatest number of names that are compared one by one, since this takes less time than a hash of one.
const FEW_NAMES: usize = 8;

/// Returns the index of the name's value, if any.
pub(crate) fn index_of(indices: &HashMap<String, usize, MapState>, name: &str) -> Option<usize>
    ensures { result ≡ index_of name.now indices.now.entries }
{
    if indices.len() > FEW_NAMES {
        return index_by_hash(indices, name);
    }
    for (known, index) in indices {
        if name == known.as_str() {
            return Some(*index);
        }
    }
    None
}

/// Returns the index of the name's value, if any, by the name's hash.
#[inline(never)]
fn index_by_hash(indices: &HashMap<String, usize, MapState>, name: &str) -> Option<usize>
    ensures { result ≡ index_of name.now indices.now.entries }
{
    indices.get(name).copied()
}
