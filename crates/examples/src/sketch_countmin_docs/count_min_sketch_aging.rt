//! Examples of `crates/sketch_countmin/src/count_min_sketch/aging.rt`. Written by `tests/docs/examples.py`.
use sketch_countmin::CountMinSketch;

pub fn age(traffic: &mut CountMinSketch<u64>) {
    traffic.decay(9, 10);
}
