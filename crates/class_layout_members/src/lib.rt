//! The names that classes have, the functions of their methods, and members whose definitions differ.
//!
//! `specs/Names.antt` has the names of a class in the order of their places, `specs/Clashes.antt` when the definitions of a member
//! differ. `class_layout` makes its tables of them.
#![tactic(auto)]

mod clash;
mod firsts;
mod functions;
mod member;
mod names;

pub use clash::{
    clash_along, clashing_names, definitions_along, definitions_in_front, first_definitions,
    is_other,
};
pub use firsts::{add_first, add_missing};
pub use functions::{functions_along, functions_of};
pub use member::{Definition, Member, agree};
pub use names::{add_names, names_above, names_of};
