//! The C text of a program with its counts (`refcount_insert_rule`) is well formed.
//!
//! `specs/Laws.antt` has the law; there is no code to run.
#![tactic(auto)]

mod laws;

pub use laws::counted_is_well_formed;
