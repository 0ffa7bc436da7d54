//! The key of a table: how it hashes its items.
use sketch_base::HashKey;
use std::fmt;

/// How a table hashes its items: by the fixed hash that anyone can compute, or under a secret key.
///
/// A caller who chooses the items can make a plain table slow: all of its items can have the same home. With a secret key, no
/// way is known to choose items that slow a table down. This holds for callers who see no images, rows, walks or times of calls
/// of tables under the key. The order of items and the time of calls show which items are near one another in a table. Errors
/// show little of it: each purge of a table begins its sample at another slot.
///
/// A key changes the time of calls, the order of a walk and the entries that a purge samples. It changes no result that a
/// contract pins.
///
/// Its `Debug` output does not show the key.
///
/// # Examples
///
/// ```
/// use counter_table::TableKey;
/// use sketch_base::HashKey;
///
/// fn key_of(random: &[u8; 16]) -> TableKey {
///     TableKey::Keyed(HashKey::from_bytes(random))
/// }
/// ```
#[derive(Clone, Copy)]
pub enum TableKey {
    /// MurmurHash3 under the seed 9001, as the original crate hashes.
    Plain,
    /// SipHash-1-3 under this key.
    Keyed(HashKey),
}

impl fmt::Debug for TableKey {
    fn fmt<W: fmt::Write>(&self, f: &mut fmt::Formatter<W>) -> fmt::Result {
        match self {
            TableKey::Plain => f.write_str("Plain"),
            TableKey::Keyed(_) => f.write_str("Keyed(..)"),
        }
    }
}
