//! Calls that may return `NoMemory`, each alone: those that neither the program nor the library for C makes.
pub mod bytes;
pub mod frequent;
pub mod table;

/// Gives the result of a call that may return `NoMemory`, and marks its allocations to be counted.
macro_rules! refusable {
    ($trial:ident, $call:expr) => {{
        $trial.write("call\n");
        $crate::trial::counted!($trial, $call)
    }};
}

pub(crate) use refusable;
