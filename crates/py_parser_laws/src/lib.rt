//! Laws of the trees of the grammar that no code needs.
//!
//! `specs/Trees.antt` says when a tree passes tests of its names, its numbers and its texts, and `laws` has the function whose clause is
//! that it does where each token does.
#![tactic(auto)]

mod laws;

pub use laws::trees_pass_as_tokens_do;
