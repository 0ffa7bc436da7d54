//! Examples of `heavy_windows`. Written by `tests/docs/examples.py`.
pub mod heavy_windows_type;
pub mod readme;
