//! A program with its counts (`refcount_insert_rule`) means what the program means that has none yet.
//!
//! `specs/Uncounted.antt` says what a program without its counts is, and `specs/Laws.antt` has the laws; there is no code to run.
#![tactic(auto)]

mod laws;

pub use laws::{counted_fits, counted_means_same, uncounted_is_same};
