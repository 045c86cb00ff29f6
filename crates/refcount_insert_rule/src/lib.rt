//! Which counts a program gets, by definitions alone.
//!
//! `specs/Rule.antt` has the one rule for an operation, an edge and a return, and `specs/Counted.antt` says when one program is
//! another one with its counts. `specs/Laws.antt` has what the rule comes to; there is no code to run.
#![tactic(auto)]

mod laws;

pub use laws::{counts_balance, targets_balance};
