//! Laws of the typing of expressions that no code needs.
//!
//! `specs/Laws.antt` states them over the definition `typing` of `py_check_expressions`, and `laws` has a function for each, which does
//! nothing.
#![tactic(auto)]

mod laws;

pub use laws::{
    an_expression_has_an_entry_or_its_parts_have, bare_tests_tell_no_more,
    typed_tests_tell_as_much, what_is_not_typed_has_said_why, what_is_typed_is_well_typed,
};
