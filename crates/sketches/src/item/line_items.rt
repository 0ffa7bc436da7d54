//! The items of records in a filter.
ghost use Rattle.std.specs.Prelude.{◌≡◌, IfOk, OnOk};
ghost use Rattle.sketch_bloom.specs.State.{contains_item, inserted};
ghost use Rattle.sketch_text.specs.Records.{part_in};
ghost use Rattle.sketches.specs.Unseen.{hashed, is_seen, with_items};

use crate::item::raw_item::RawItem;
use sketch_base::from_utf8;
use sketch_bloom::BloomFilter;
use sketch_text::records::{RecordPart, record_part_of};
use std::alloc::{AllocError, Global};

/// Inserts the item of a record, if it has one, into a filter. Returns whether the filter contained it before.
#[inline(always)]
pub fn insert_record(
    alloc: Global,
    filter: &mut BloomFilter,
    part: RecordPart,
    row: &[u8],
) -> Result<bool, AllocError>
    ensures seen { IfOk result (λ seen. seen ≡ is_seen filter.old (part_in part row.now)) }
    ensures filter { OnOk result (filter.new ≡ with_items filter.old (part_in part row.now)) }
{
    let mut text = Vec::new(alloc);
    match record_part_of(part, row, &mut text)? {
        Some(item) => Ok(insert_item(filter, item)),
        None => Ok(false),
    }
}

/// Returns whether a filter contains the item of a record. Returns `false` if the record has none.
#[inline(always)]
pub fn contains_record(
    alloc: Global,
    filter: &BloomFilter,
    part: RecordPart,
    row: &[u8],
) -> Result<bool, AllocError>
    ensures { IfOk result (λ seen. seen ≡ is_seen filter.now (part_in part row.now)) }
{
    let mut text = Vec::new(alloc);
    match record_part_of(part, row, &mut text)? {
        Some(item) => Ok(contains_item(filter, item)),
        None => Ok(false),
    }
}

/// Inserts an item into a filter. Returns whether the filter contained it before.
#[inline(always)]
fn insert_item(filter: &mut BloomFilter, item: &[u8]) -> bool
    ensures seen { result ≡ contains_item filter.old (hashed item.now) }
    ensures filter { filter.new ≡ inserted filter.old (hashed item.now) }
{
    match from_utf8(item) {
        Ok(text) => filter.contains_and_insert_item(text),
        Err(_) => filter.contains_and_insert_item(&RawItem { bytes: item }),
    }
}

/// Returns whether a filter contains an item.
#[inline(always)]
fn contains_item(filter: &BloomFilter, item: &[u8]) -> bool
    ensures { result ≡ contains_item filter.now (hashed item.now) }
{
    match from_utf8(item) {
        Ok(text) => filter.contains_item(text),
        Err(_) => filter.contains_item(&RawItem { bytes: item }),
    }
}
