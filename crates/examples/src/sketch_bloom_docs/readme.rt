//! Examples of `crates/sketch_bloom/README.md`. Written by `tests/docs/examples.py`.
use sketch_base::Error;
use sketch_bloom::BloomFilterBuilder;
use std::alloc::Global;

pub fn orders_to_join(alloc: Global, customers: &[u64], orders: &[u64]) -> Result<Vec<u64>, Error> {
    let mut filter = BloomFilterBuilder::with_size(1 << 16, 7).build(alloc)?;
    filter.insert_all(customers);
    let mut may_join = vec![in alloc; false; orders.len()]?;
    filter.contains_all(orders, &mut may_join);
    let mut kept = Vec::new(alloc);
    for (i, customer) in orders.iter().enumerate() {
        if may_join[i] {
            kept.push(*customer)?;
        }
    }
    Ok(kept)
}

pub fn still_refused(alloc: Global) -> Result<(bool, bool), Error> {
    let mut refused = BloomFilterBuilder::with_size(1 << 16, 7)
        .seed(1)
        .build(alloc)?;
    let mut taken_back = BloomFilterBuilder::with_size(1 << 16, 7)
        .seed(1)
        .build(alloc)?;
    refused.insert("spam.example");
    refused.insert("shop.example");
    taken_back.insert("shop.example");
    refused.difference(&taken_back)?;
    Ok((
        refused.contains(&"spam.example"),
        refused.contains(&"shop.example"),
    ))
}
