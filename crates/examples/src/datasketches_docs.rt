//! Examples of `datasketches`. Written by `tests/docs/examples.py`.
pub mod command;
pub mod image_kind;
pub mod readme;
pub mod reply;
pub mod session;
