//! Words of 64 bits: the little-endian ones in a slice of bytes, and their rotation.
ghost use Rattle.std.specs.Prelude.{◌≡◌, ◌+◌, ◌<◌, ◌≤◌, length};
ghost use Rattle.std.specs.Int.{w64, rotate_left};
ghost use Rattle.sketch_base.specs.MachineWords as spec;

/// Returns the little-endian word of eight bytes at the offset `at`.
#[inline(always)]
pub fn word_at(bytes: &[u8], at: usize) -> u64
    requires { at + 8 ≤ length bytes.now }
    ensures { result ≡ spec.word_at bytes.now at }
{
    u64::from_le_bytes([
        bytes[at],
        bytes[at + 1],
        bytes[at + 2],
        bytes[at + 3],
        bytes[at + 4],
        bytes[at + 5],
        bytes[at + 6],
        bytes[at + 7],
    ])
}

/// Returns the little-endian word of four bytes at the offset `at`.
#[inline(always)]
pub fn half_word_at(bytes: &[u8], at: usize) -> u64
    requires { at + 4 ≤ length bytes.now }
    ensures { result ≡ spec.half_word_at bytes.now at }
{
    u32::from_le_bytes([bytes[at], bytes[at + 1], bytes[at + 2], bytes[at + 3]]) as u64
}

/// Rotates `x` left by `n` bits, as `x.rotate_left(n)` does. `n` is from 1 to 63.
///
/// It shifts two copies of `x` side by side. If `x` is a product by a constant, the compiler turns the two shifts of
/// `rotate_left` into two products. This remains one rotation.
#[inline(always)]
pub fn rotate_left(x: u64, n: u32) -> u64
    requires above { 0 < n }
    requires below { n < 64 }
    ensures { result ≡ rotate_left w64 x n }
{
    let twice = (x as u128) << 64 | x as u128;
    (twice >> (64 - n) & 0xFFFF_FFFF_FFFF_FFFF) as u64
}
