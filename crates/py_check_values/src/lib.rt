//! The rules of assignments and returns: what a value is where it is bound or returned, or what is wrong with it.
//!
//! A rule takes a value that may have no type, and what a target or a return is for it. Where the value has a type, the rule
//! gives the value as it is bound or returned, or a diagnostic, which it puts behind those that there are; else it gives nothing and
//! says nothing. `specs/Assignments.antt` and `specs/Returns.antt` have the rules.
#![tactic(auto)]

mod aims;
mod assignments;
mod returns;

pub use aims::Aim;
pub use assignments::{are_declared, assigned, binds, items_for, unpacks};
pub use returns::{Returns, returned, returned_nothing};
