//! Indices of a table, which wrap around at the end.
ghost use Rattle.std.specs.Prelude.{◌≡◌, ◌-◌, ◌<◌, ◌≤◌};
ghost use Rattle.counter_table.specs.Homes.{ahead};
ghost use Rattle.counter_table.specs.Slots.{IsTableSize};

/// Returns the index after this one.
#[inline(always)]
pub(crate) fn next(index: usize, size: usize) -> usize
    requires size { IsTableSize size }
    requires index { index < size }
    ensures { result ≡ ahead size index 1 }
{
    (index + 1) & (size - 1)
}

/// Returns the index that is `on` indices after this one.
#[inline(always)]
pub(crate) fn after(index: usize, on: usize, size: usize) -> usize
    requires size { IsTableSize size }
    requires index { index < size }
    requires on { on ≤ size }
    ensures { result ≡ ahead size index on }
{
    (index + on) & (size - 1)
}

/// Returns the index that is `back` indices before this one.
#[inline(always)]
pub(crate) fn before(index: usize, back: usize, size: usize) -> usize
    requires size { IsTableSize size }
    requires index { index < size }
    requires back { back ≤ size }
    ensures { result ≡ ahead size index (size - back) }
{
    (index + (size - back)) & (size - 1)
}
