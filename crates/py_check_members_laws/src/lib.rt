//! Laws of the members of classes that no code needs.
//!
//! `specs/Laws.antt` states them over the definitions of `py_check_members` and `py_check_definitions`, and `laws` has a function for
//! each, which does nothing.
#![tactic(auto)]

mod laws;

pub use laws::{
    methods_are_functions, names_of_members_differ, new_functions_are_methods,
    plain_classes_have_methods_alone,
};
