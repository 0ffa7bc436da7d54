//! The keyed hash of bytes.
ghost use Rattle.std.specs.Prelude.{◌≡◌};
ghost use Rattle.sketch_base.specs.SipHash.{sip_hash_1_3};

use sketch_base::{HashKey, keyed_hash};

/// Returns SipHash-1-3 of bytes under the key of two words.
#[unsafe(no_mangle)]
pub extern "C" fn ds_keyed_hash(bytes: &[u8], k0: u64, k1: u64) -> u64
    ensures { result ≡ sip_hash_1_3 (k0, k1) bytes.now }
{
    keyed_hash(HashKey::new(k0, k1), bytes)
}
