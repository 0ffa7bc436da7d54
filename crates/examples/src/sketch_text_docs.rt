//! Examples of `sketch_text`. Written by `tests/docs/examples.py`.
pub mod readme;
