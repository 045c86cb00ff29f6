//! Laws of the trees of files that no code needs.
//!
//! `specs/Written.antt` states them over the definitions of `py_parser_source`, `py_check` and `py_check_laws`, and `laws` has a function for each,
//! which does nothing. That a tree passes where its tokens do, that tokens do, and that the names of a tree do are the laws of
//! `py_parser_laws`, `py_lexer_laws` and `py_check_names_laws`.
#![tactic(auto)]

mod laws;

pub use laws::{quiet_files_are_well_typed, trees_of_files_are_written};
