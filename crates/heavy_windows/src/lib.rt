//! Heavy hitters of each tenant over its last windows.
//!
//! [`HeavyWindows`] has a few windows for each tenant. A window is a sketch of frequent items (Misra & Gries 1982), for
//! the items that arrived while it was the newest. A [`Report`] merges a tenant's windows: it has the most frequent
//! items in all of them, the maximum error of their weights, and the total weight. No call for one tenant changes the
//! report of another.
//!
//! A service with many customers uses the customer's number as the tenant, the path of a request as the item and its
//! bytes as the weight. It calls [`add`](HeavyWindows::add) for each request, and [`turn`](HeavyWindows::turn) for each
//! customer at the full hour. [`report`](HeavyWindows::report) then returns what the load of the last 24 hours consists
//! of. A customer that sends nothing costs an empty sketch for each window. One that floods the service costs at most
//! three quarters of `max_map_size` counters for each window, for any paths.
#![tactic(auto)]

mod heavy_windows;
pub mod laws;
mod report;
mod windows;

pub use heavy_windows::HeavyWindows;
pub use report::Report;
pub use sketch_base::{Error, ErrorKind, Fault};
pub use sketch_frequencies::{EqualClone, ErrorType, HashKey, Row, TableKey};
