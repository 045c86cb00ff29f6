//! The parser of statements but definitions.
//!
//! What comes in are tokens and a place in them; what goes out are the statements that `py_parser_grammar`'s reader reads there,
//! or its fault.
#![tactic(auto)]

pub mod assign;
pub mod block;
pub mod import;
pub mod simple;
