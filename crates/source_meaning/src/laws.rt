//! The laws of runs. Each function is its clause, and does nothing when it runs.
ghost use Rattle.source_meaning.specs.Laws.{AnyBoundServes, RunsOnlyAdd, LongerRunsContinue};

/// What a module's statements do does not hang on the bound of loops and calls, where it is at least the turns left.
pub fn any_bound_serves()
    ensures { AnyBoundServes }
{}

/// Turns never rise, output only grows, and the store is never shortened.
pub fn runs_only_add()
    ensures { RunsOnlyAdd }
{}

/// The output of a run for more turns begins with that of one that was cut, and its store is not shorter; one that was not cut is
/// the same for more turns.
pub fn longer_runs_continue()
    ensures { LongerRunsContinue }
{}
