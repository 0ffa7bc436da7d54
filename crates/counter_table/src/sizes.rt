//! The sizes of a table: its capacity in entries, its size in bytes, and its base-2 logarithm.
ghost use Rattle.std.specs.Prelude.{◌≡◌, ◌*◌, ◌/◌, ◌≤◌, ◌^◌, IsTrue};
ghost use Rattle.std.specs.Int.{is_power_of_two};
ghost use Rattle.counter_table.specs.Bytes.{table_bytes};

use std::mem::size_of_val;

/// The maximum number of counts that a purge samples.
pub const MAX_SAMPLE_SIZE: usize = 1024;

/// Returns the number of entries that a sketch keeps in a table of this size: three quarters of the slots.
#[inline]
pub fn capacity_of(size: usize) -> usize
    requires { size ≤ 2 ^ 30 }
    ensures { result ≡ size * 3 / 4 }
{
    size * 3 / 4
}

/// Returns the bytes of a table of `size` slots, by a fixed formula: for each slot, the bytes of an `Option<T>` and 12 more.
/// Returns `usize::MAX` if that would exceed it.
#[inline]
#[tactic(auto, unfolding(crate::specs::Bytes::table_bytes))]
pub fn bytes_of_table<T: Drop>(size: usize) -> usize
    ensures { result ≡ table_bytes T.row size }
{
    let free: Option<T> = None;
    let slot = size_of_val(&free).saturating_add(12);
    size.saturating_mul(slot)
}

/// Returns the base-2 logarithm of a table size.
#[inline]
pub fn lg_of(size: usize) -> u8
    requires { IsTrue (is_power_of_two size) }
    ensures { 2 ^ result ≡ size }
{
    size.ilog2() as u8
}
