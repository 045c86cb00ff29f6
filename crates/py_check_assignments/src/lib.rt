//! The statements that assign: assignments, with an annotation or without, and operations with assignment.
//!
//! `specs/Assignments.antt` has their rules, each with what it binds. A statement comes in with what is known before it; what goes
//! out is its typed form, or its diagnostics, and what is known behind it.
#![tactic(auto)]

mod annotations;
mod assignments;
mod parts;
mod updates;

pub use annotations::annotate;
pub use assignments::assign;
pub use updates::update;
