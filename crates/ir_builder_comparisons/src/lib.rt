//! Comparisons of two values of one type, and truths of values, all in registers.
//!
//! `specs/Comparing.antt` says what a comparison and a truth are. Each is made of the tests that one primitive does.
#![tactic(auto)]

mod comparisons;

pub use comparisons::{emit_comparison, emit_truth};
