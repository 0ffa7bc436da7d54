//! Examples of `pages`. Written by `tests/docs/examples.py`.
pub mod calling;
