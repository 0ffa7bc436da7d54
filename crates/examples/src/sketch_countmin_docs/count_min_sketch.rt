//! Examples of `crates/sketch_countmin/src/count_min_sketch.rt`. Written by `tests/docs/examples.py`.
use sketch_base::Error;
use sketch_countmin::CountMinSketch;
use std::alloc::Global;

pub fn bytes_of_apple(alloc: Global) -> Result<u64, Error> {
    let mut traffic: CountMinSketch<u64> = CountMinSketch::new(alloc, 4, 128)?;
    traffic.update_with_weight("apple", 90)?;
    traffic.halve();
    Ok(traffic.estimate("apple"))
}

pub fn count_page(visits: &mut CountMinSketch<u64>, page: &str) -> Result<(), Error> {
    visits.update_item(page)
}

pub fn sell(stock: &mut CountMinSketch<i64>, fruit: &str, pieces: i64) -> Result<(), Error> {
    stock.update_item_with_weight(fruit, pieces)
}

pub fn visits_of_page(visits: &CountMinSketch<u64>, page: &str) -> u64 {
    visits.estimate_item(page)
}

pub fn most_visits_of_page(visits: &CountMinSketch<u64>, page: &str) -> u64 {
    visits.upper_bound_item(page)
}

pub fn apples_of_both_days(alloc: Global) -> Result<(u64, u64), Error> {
    let mut monday: CountMinSketch<u64> = CountMinSketch::new(alloc, 4, 128)?;
    let mut tuesday: CountMinSketch<u64> = CountMinSketch::new(alloc, 4, 128)?;
    monday.update("apple")?;
    tuesday.update_with_weight("apple", 9)?;
    monday.merge(&tuesday)?;
    Ok((monday.lower_bound("apple"), monday.upper_bound("apple")))
}

pub fn begin_next_day(visits: &mut CountMinSketch<u64>) -> u64 {
    let visits_of_day = visits.total_weight();
    visits.reset();
    visits_of_day
}
