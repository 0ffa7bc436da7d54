//! Examples of `crates/sketch_base/src/map_state.rt`. Written by `tests/docs/examples.py`.
use sketch_base::MapState;
use std::alloc::Global;
use std::collections::HashMap;
use std::hash::RandomState;

pub fn ages(alloc: Global, state: RandomState) -> HashMap<String, u8, MapState> {
    HashMap::with_hasher(alloc, MapState::Random(state))
}
