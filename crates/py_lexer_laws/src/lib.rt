//! Laws of the tokens of a text that no code needs.
//!
//! `specs/Laws.antt` says of which form names, numbers and texts are, and `laws` has the function whose clause is that they are.
#![tactic(auto)]

mod laws;

pub use laws::tokens_are_fit;
