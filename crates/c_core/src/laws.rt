//! The laws of the machine. Each function is its clause, and does nothing when it runs.
ghost use Rattle.c_core.specs.Laws.{LedgersAscend, ReleaseKeepsCounts, ReleaseInAnyOrder, StepStaysSmall, RunExists, RunKeepsCounts, RunStaysSmall};

/// The numbers of a ledger stay in order.
pub fn ledgers_ascend()
    ensures { LedgersAscend }
{}

/// Giving references up keeps every count equal to the number of places that hold the cell.
pub fn release_keeps_counts()
    ensures { ReleaseKeepsCounts }
{}

/// The order in which references are given up makes no difference.
pub fn release_in_any_order()
    ensures { ReleaseInAnyOrder }
{}

/// One step adds at most one cell, and at most one to any count.
pub fn step_stays_small()
    ensures { StepStaysSmall }
{}

/// Each run of a well-formed code ends.
pub fn run_exists()
    ensures { RunExists }
{}

/// In each state of each run the counts are those of the places that hold the cells.
pub fn run_keeps_counts()
    ensures { RunKeepsCounts }
{}

/// A run has a bound of steps, and neither the number of cells ever made nor a count passes the steps that were taken.
pub fn run_stays_small()
    ensures { RunStaysSmall }
{}
