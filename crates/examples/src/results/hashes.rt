//! Results of the examples of hashes.
use super::RANDOM;
use crate::lines::ResultLines;
use crate::sketch_base_docs::{
    fed_items, item_hash, items, murmurhash, rehashable_bytes, rehashable_item, rehashable_str,
    short_bytes, sip_hash, str_hash, xxhash,
};
use sketch_base::HashKey;

/// A string whose hash takes more than one block.
const LONG: &str = "a string of more than 16 bytes";

pub fn write(lines: &mut ResultLines) {
    lines.show("hash_of_both", &xxhash::hash_of_both(b"app", b"le"));
    lines.show("hash_of_both", &xxhash::hash_of_both(b"", b"apple"));
    lines.show("halves_of", &murmurhash::halves_of(&7_u64));
    lines.show(
        "shard_of",
        &[items::shard_of(&"abc"), str_hash::shard_of("abc")],
    );
    lines.show("shard_of_name", &rehashable_item::shard_of_name("abc"));
    lines.show("checksum_of", &str_hash::checksum_of("abc"));
    lines.show("kept_bytes", &short_bytes::kept_bytes(7));
    lines.show(
        "hashes_of_both_rows",
        &rehashable_item::hashes_of_both_rows(7, (9001, 2)),
    );
    lines.show(
        "hashes_of_name",
        &rehashable_str::hashes_of_name(LONG, (1, 2)),
    );
    lines.show(
        "hashes_of_address",
        &rehashable_bytes::hashes_of_address(&[7, 0, 0, 0], (1, 2)),
    );
    lines.show("is_same_item", &fed_items::is_same_item(7, 9001));
    write_keyed(lines);
}

/// Writes hashes under a key.
fn write_keyed(lines: &mut ResultLines) {
    let key = HashKey::from_bytes(&RANDOM);
    lines.show("hash_of_user", &sip_hash::hash_of_user(&RANDOM, "alice"));
    lines.show("are_alike", &sip_hash::are_alike(1, 2, "alice", "alice"));
    lines.show("are_alike", &sip_hash::are_alike(1, 2, "alice", "bob"));
    lines.show("keyed shard_of", &item_hash::shard_of(key, 7));
    lines.show(
        "keyed shard_of_name",
        &str_hash::shard_of_name(key, "alice"),
    );
    lines.show(
        "are_in_one_shard",
        &item_hash::are_in_one_shard(key, (7, 7)),
    );
    lines.show(
        "are_in_one_shard",
        &item_hash::are_in_one_shard(key, (7, 8)),
    );
}
