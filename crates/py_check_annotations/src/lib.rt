//! What type an annotation is, or what is wrong with it.
//!
//! What comes in is an expression that stands as an annotation, and the scope that it stands in; what goes out is its type,
//! if it has one, and its faults, put behind those that there are. `specs/Annotations.antt` says which, and
//! `specs/Names.antt` what single names stand for.
#![tactic(auto)]

mod annotations;
mod look_up;
mod names;

pub use annotations::{annotation, return_annotation};
