//! The weights in a report's history, as theorems. The function here does nothing: its clauses are the laws.
ghost use Rattle.heavy_windows.specs.Laws.{ItemsWeighAsInWindows, TotalIsOfWindows, OthersWeighAsInWindows};

/// States what items weigh in the history of a [`report`](crate::HeavyWindows::report).
///
/// In this history a tenant's windows are merged into a new sketch. The weight of each item is the sum of its weights
/// in the windows. The same holds for the total weight, and for the weight of all items outside a set.
pub fn report_weights<T: Eq>()
    ensures items { ItemsWeighAsInWindows T.eq }
    ensures total { TotalIsOfWindows T.eq }
    ensures others { OthersWeighAsInWindows T.eq }
{}
