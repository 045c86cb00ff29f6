//! Laws of the typing of statements and of whole modules that no code needs.
//!
//! `specs/Statements.antt`, `specs/Narrowing.antt`, `specs/Entries.antt`, `specs/Variables.antt` and `specs/Modules.antt`
//! state them over the definitions of `py_check_statements` and `py_check`, and `laws` has a function for each, which does nothing.
#![tactic(auto)]

mod laws;

pub use laws::{
    a_quiet_module_is_well_typed, a_statement_has_an_entry_or_its_parts_have,
    a_typed_test_knows_no_more, annotations_give_types, bindings_give_types, bodies_fix_no_types,
    classes_of_a_quiet_module_have_a_layout, first_assignments_give_types,
    names_of_a_quiet_module_differ, only_bindings_give_types, statements_of_a_module_fix_types,
    statements_of_a_quiet_module_are_well_typed, the_body_of_a_for_knows_no_more,
    the_body_of_a_while_knows_no_more, variables_keep_their_types,
    variables_of_a_quiet_module_have_types, what_is_not_typed_in_a_block_has_said_why,
    what_is_not_typed_in_a_module_has_said_why, what_is_typed_in_a_block_is_well_typed,
    what_is_typed_in_a_block_knows_no_more,
};
