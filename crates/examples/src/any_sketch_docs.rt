//! Examples of `any_sketch`. Written by `tests/docs/examples.py`.
pub mod readme;
