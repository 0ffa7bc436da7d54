//! Copies of few bytes, without a function call.
ghost use Rattle.std.specs.Prelude.{◌≡◌, ◌*◌, ◌<◌, ◌≤◌, length};

/// Copies all bytes of `from`, at most 32, to `to`, which has the same length. Calls no function.
#[inline(always)]
pub fn copy_short(to: &mut [u8], from: &[u8])
    requires same_length { length to.old ≡ length from.now }
    requires short { length from.now ≤ 32 }
    ensures { to.new ≡ from.now }
{
    let n = from.len();
    if n >= 16 {
        copy_ends(to, from, 16);
    } else if n >= 8 {
        copy_ends(to, from, 8);
    } else if n >= 4 {
        copy_ends(to, from, 4);
    } else if n > 0 {
        to[0] = from[0];
        to[n / 2] = from[n / 2];
        to[n - 1] = from[n - 1];
    }
}

// Copies `width` bytes at each end, which meet or overlap.
#[inline(always)]
fn copy_ends(to: &mut [u8], from: &[u8], width: usize)
    requires same_length { length to.old ≡ length from.now }
    requires at_least { width ≤ length from.now }
    requires at_most { length from.now ≤ 2 * width }
    ensures { to.new ≡ from.now }
{
    let n = from.len();
    to[..width].copy_from_slice(&from[..width]);
    to[n - width..].copy_from_slice(&from[n - width..]);
}
