//! Examples of `crates/sketch_base/src/rehashable_bytes.rt`. Written by `tests/docs/examples.py`.
use sketch_base::{Rehashable, RehashableBytes};

pub fn hashes_of_address(address: &[u8; 4], seeds: (u64, u64)) -> (u64, u64) {
    let address = RehashableBytes::new(address);
    (address.murmur3(seeds.0).0, address.murmur3(seeds.1).0)
}
