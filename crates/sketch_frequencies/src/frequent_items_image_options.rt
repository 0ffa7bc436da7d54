//! How an image is read.
ghost use Rattle.std.specs.Prelude.{◌≡◌, ◌-◌, ◌^◌};
ghost use Rattle.counter_table.specs.declared.table_key.TableKey.TheVariants.{Plain};

use counter_table::TableKey;

/// How the image of a sketch of frequent items is read.
///
/// By default there is no limit, and the table is plain.
///
/// # Examples
///
/// ```
/// use sketch_frequencies::{FrequentItemsImageOptions, TableKey};
///
/// fn options_for_untrusted(key: TableKey) -> FrequentItemsImageOptions {
///     FrequentItemsImageOptions {
///         max_bytes: 1 << 20,
///         key,
///     }
/// }
/// ```
#[derive(Clone, Copy, Debug)]
pub struct FrequentItemsImageOptions {
    /// The maximum number of bytes that the table and the items may take.
    pub max_bytes: usize,
    /// The key under which the table hashes.
    pub key: TableKey,
}

impl Default for FrequentItemsImageOptions {
    ghost is_default = { λ options. options ≡ record { max_bytes = 2 ^ 64 - 1; key = Plain } };

    fn default() -> Self {
        FrequentItemsImageOptions {
            max_bytes: usize::MAX,
            key: TableKey::Plain,
        }
    }
}
