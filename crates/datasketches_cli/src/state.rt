//! A session and windows of tenants.
ghost use Rattle.std.specs.Prelude.{◌≡◌};
ghost use Rattle.datasketches_cli.specs.KeyValues.{table_key, HasKeys};
ghost use Rattle.datasketches_cli.specs.Steps.{nothing_served, Opens, AddsTo, TurnsFor, ReportsOn};

use crate::keys::Keys;
use datasketches::frequencies::ErrorType;
use datasketches::{Refusal, Session};
use heavy_windows::{HeavyWindows, Report};
use std::alloc::Global;

/// The state on which the lines of one input run: a session, and at most one set of windows.
#[derive(Drop)]
pub struct State {
    pub session: Session<String>,
    pub windows: Option<HeavyWindows<String>>,
}

impl State {
    /// Creates a state with no sketch, no image and no windows. Does not allocate.
    pub fn new(alloc: Global, keys: &Keys) -> Self
        ensures empty { result ≡ nothing_served result.session.keys }
        ensures keys { HasKeys keys.now result.session.keys }
    {
        State {
            session: keys.session(alloc),
            windows: None,
        }
    }
}

/// Creates windows if there are none. Returns `NameTaken` if there are any, and the errors of [`Keys::windows`].
pub fn open(
    alloc: Global,
    keys: &Keys,
    windows: &mut Option<HeavyWindows<String>>,
    limit: u64,
    max_map_size: u64,
) -> Result<(), Refusal>
    ensures { Opens (table_key keys.now) limit max_map_size windows.old result windows.new }
{
    if windows.is_some() {
        return Err(Refusal::NameTaken);
    }
    let made = keys.windows(alloc, limit as usize, max_map_size as usize)?;
    *windows = Some(made);
    Ok(())
}

/// Adds a weight to an item in a tenant's newest window.
///
/// Returns `NoSuchName` if there are no windows, and the errors of [`HeavyWindows::add`].
pub fn add(
    windows: &mut Option<HeavyWindows<String>>,
    tenant: u64,
    weight: u64,
    item: String,
) -> Result<(), Refusal>
    ensures { AddsTo tenant weight item windows.old result windows.new }
{
    match windows {
        None => Err(Refusal::NoSuchName),
        Some(windows) => Ok(windows.add(tenant, item, weight)?),
    }
}

/// Opens an empty window for a tenant.
///
/// Returns `NoSuchName` if there are no windows, and the errors of [`HeavyWindows::turn`].
pub fn turn(windows: &mut Option<HeavyWindows<String>>, tenant: u64) -> Result<(), Refusal>
    ensures { TurnsFor tenant windows.old result windows.new }
{
    match windows {
        None => Err(Refusal::NoSuchName),
        Some(windows) => Ok(windows.turn(tenant)?),
    }
}

/// Returns the heavy hitters of a tenant's windows.
///
/// Returns `NoSuchName` if there are no windows, and the errors of [`HeavyWindows::report`].
pub fn report(
    windows: &Option<HeavyWindows<String>>,
    tenant: u64,
    error_type: ErrorType,
    threshold: u64,
) -> Result<Report<String>, Refusal>
    ensures { ReportsOn tenant error_type threshold windows.now result }
{
    match windows {
        None => Err(Refusal::NoSuchName),
        Some(windows) => Ok(windows.report(tenant, error_type, threshold)?),
    }
}
