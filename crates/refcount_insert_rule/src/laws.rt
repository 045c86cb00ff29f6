//! The laws. Each function is its clause, and does nothing when it runs.
ghost use Rattle.refcount_insert_rule.specs.Laws.{CountsBalance, TargetsBalance};

/// No reference of a register is lost by an operation with its counts, but what is written over.
pub fn counts_balance()
    ensures { CountsBalance }
{}

/// What an operation gives its target is what it is to have, and what is given up.
pub fn targets_balance()
    ensures { TargetsBalance }
{}
