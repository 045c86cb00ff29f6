//! The law. The function is its clause, and does nothing when it runs.
ghost use Rattle.refcount_insert_runs_laws.specs.Laws.{CountedRunsFollow};

/// The run of the C text of a program with its counts, without tests of ownership, ends as the program does.
pub fn counted_runs_follow()
    ensures { CountedRunsFollow }
{}
