//! What all parts of the parser read by: tokens one at a time, what may begin with one, operators and names.
//!
//! What comes in are tokens and a place in them; what goes out is what stands there and the place behind it, or the
//! first fault, exactly as `py_parser_grammar`'s reader gives it: `specs/Gives.antt` says how an answer is what is read.
//! No syntax tree is held here.
#![tactic(auto)]

pub mod augmenting;
pub mod comparison;
pub mod fault;
pub mod names;
pub mod operator;
pub mod place;
pub mod starts;
pub mod word;
