//! The texts of what typing finds.
//!
//! Each function puts one diagnostic behind those that there are, with its place, its text and the code of its rule: exactly
//! the one that `specs/Messages.antt` says. `specs/Seen.antt` and `specs/Rows.antt` are the words in which the typing rules
//! above are written: what typing gives of a part of the tree, and what it says of it.
#![tactic(auto)]

mod calls;
mod definitions;
mod expressions;
mod say;
mod statements;

pub use calls::{
    gives_nothing, keyword_argument, no_instance, not_callable, range_outside_for, wrong_argument,
    wrong_argument_type, wrong_number,
};
pub use definitions::{
    duplicate_parameter, invalid_base, invalid_bases, missing_annotation, missing_return, no_order,
    outside_class_body, outside_profile, self_missing, too_many_names, wrong_override,
};
pub use expressions::{
    empty_display, invalid_index, invalid_tuple, no_attribute, no_common_entry, no_common_item,
    no_common_type, no_type_yet, none_has_no_attribute, not_a_value, not_defined, not_indexable,
    only_for_none, tuple_index, unsupported_operand, unsupported_operands, wrong_entry, wrong_item,
};
pub use statements::{
    already_defined, bare_except, cannot_assign, cannot_unpack, index_target, invalid_global,
    invalid_type, needs_annotation, no_exception, no_exception_class, no_return_expected,
    no_target, not_iterable, only_entries, outside_import, outside_loop, raise_outside,
    return_expected, return_outside, wrong_assignment, wrong_return,
};
