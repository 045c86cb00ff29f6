//! The forms of the language that are not compiled yet: what they are called, and the lesser of two by their lines.
//!
//! `specs/Forms.antt` has their names and `specs/Least.antt` the least of several. Which forms are not compiled is said where they
//! would be (`ir_builder_supported`).
#![tactic(auto)]

mod form;
mod least;

pub use form::{Form, TypeKind, Unbuilt};
pub use least::lesser;
