//! The laws. Each function is its clause, and does nothing when it runs.
ghost use Rattle.c_core_ownership_laws.specs.Laws.{EndOwnsNothing, GroupRuns, OrderIsSafe, PlacedIsInOrder, PlacesAreMet, RunIsUnchecked, RunsAgree, StepIsUnchecked};

/// No run of a code that is in order ends in a fault of ownership: no cell is used that is gone, no reference is handed on that the
/// frame does not own, and none is left behind. A fault of kinds may come.
pub fn order_is_safe()
    ensures { OrderIsSafe }
{}

/// A checked step does what the unchecked one does, or it ends in a fault of ownership.
pub fn step_is_unchecked()
    ensures { StepIsUnchecked }
{}

/// The checked run of a code that is in order ends as the unchecked one, where that one stops.
pub fn run_is_unchecked()
    ensures { RunIsUnchecked }
{}

/// Both runs of a well-formed code that is in order stop, and they end alike.
pub fn runs_agree()
    ensures { RunsAgree }
{}

/// A code whose places have the shares of a table is in order.
pub fn placed_is_in_order()
    ensures { PlacedIsInOrder }
{}

/// In each state of each run of such a code each frame owns what the shares of its place say.
pub fn places_are_met()
    ensures { PlacesAreMet }
{}

/// Lines of which each leads to the next one lead from the shares of the first to those of the place behind them.
pub fn group_runs()
    ensures { GroupRuns }
{}

/// At the end of a program no ledger owns a reference: each count is the number of places that hold the cell.
pub fn end_owns_nothing()
    ensures { EndOwnsNothing }
{}
