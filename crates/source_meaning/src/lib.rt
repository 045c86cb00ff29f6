//! What a module does: the meaning of each part of its typed tree, and the laws of runs.
//!
//! All is definition, and no code that types or compiles looks at it: proofs alone do. `specs/State.antt` has the state of a
//! running module and what comes of a part, `specs/Operations.antt` what operators, builtins and coercions do with values,
//! `specs/ExpressionMeaning.antt`, `specs/WaysOut.antt` and `specs/StatementMeaning.antt` what expressions and statements do, and
//! `specs/SourceRun.antt` the run of a module. `specs/Laws.antt` says what holds of every run. For proofs above,
//! `proofs/Closed.antt` has what is asked of a relation that holds of every part of a run, and `proofs/RunAlike.antt` the
//! induction.
#![tactic(auto)]

mod laws;

pub use laws::{any_bound_serves, longer_runs_continue, runs_only_add};
