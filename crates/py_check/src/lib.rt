//! The typing of a whole module: its typed tree, or all that is wrong with it.
//!
//! `specs/Module.antt` has the typing of a module as a definition over the tree. It puts together what is said of definitions and
//! the types of variables where a scope begins (`py_check_definitions`), the members of classes (`py_check_members`) and whether their
//! definitions agree (`py_check_overrides`), the typing of statements (`py_check_statements`), and the faults of names that binding
//! found (`py_binder`). `specs/Outcome.antt` says what `check` answers by it.
#![tactic(auto)]

mod bodies;
mod checking;
mod contexts;
mod found;
mod modules;
mod tables;
mod walk;

pub use checking::{CheckError, check};
