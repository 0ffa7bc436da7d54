//! The hash of a seed, which an image stores in place of the seed.
ghost use Rattle.std.specs.Prelude.{◌≡◌, ◌≢◌, OnOk, IfOk, IfErr};
ghost use Rattle.sketch_base.specs.Errors.{refusal};
ghost use Rattle.sketch_base.specs.Hashes.{seed_hash};

use crate::error::{Error, ErrorKind};
use crate::fault::Fault;
use crate::item_hash::murmur3_of_u64;

/// Returns the 16-bit hash of a seed. Does not allocate.
///
/// It is the low 16 bits of the first half of MurmurHash3 x64 128, under the seed 0, of the eight bytes of `seed`,
/// little-endian.
///
/// # Errors
///
/// [`ZeroSeedHash`](Fault::ZeroSeedHash) of the given kind if the hash is 0, which means no seed.
#[tactic(auto, unfolding(crate::specs::Hashes::seed_hash))]
pub fn compute_seed_hash(seed: u64, kind: ErrorKind) -> Result<u16, Error>
    ensures value { IfOk result (λ hash. (hash ≡ seed_hash seed) × (hash ≢ 0)) }
    ensures zero { IfErr result (λ e. (e ≡ refusal kind Fault.ZeroSeedHash) × (seed_hash seed ≡ 0)) }
{
    let hash = (murmur3_of_u64(seed, 0).0 % 0x1_0000) as u16;
    if hash == 0 {
        return Err(Error::new(kind, Fault::ZeroSeedHash));
    }
    Ok(hash)
}

/// Checks that two hashes of seeds are equal. Does not allocate.
///
/// # Errors
///
/// [`SeedHashMismatch`](Fault::SeedHashMismatch) of the given kind if they differ.
#[inline]
pub fn check_seed_hash(expected: u16, actual: u16, kind: ErrorKind) -> Result<(), Error>
    ensures same { OnOk result (actual ≡ expected) }
    ensures differ { IfErr result (λ e. (e ≡ refusal kind Fault.SeedHashMismatch) × (actual ≢ expected)) }
{
    if actual != expected {
        return Err(Error::new(kind, Fault::SeedHashMismatch));
    }
    Ok(())
}
