//! The C text of a program with its counts (`refcount_insert_rule`) does what the program does, without tests of ownership.
//!
//! `specs/Laws.antt` has the law; there is no code to run.
#![tactic(auto)]

mod laws;

pub use laws::counted_runs_follow;
