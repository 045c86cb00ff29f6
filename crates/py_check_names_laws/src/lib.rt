//! Laws of the names of modules and functions that no code needs.
//!
//! `specs/Laws.antt` states them over the definitions of `py_binder` and `py_check_names` and the trees of `py_parser_laws`, and `laws` has a
//! function for each, which does nothing.
#![tactic(auto)]

mod laws;

pub use laws::{functions_pass_as_trees_do, variables_pass_as_trees_do};
