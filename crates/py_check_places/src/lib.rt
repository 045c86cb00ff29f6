//! What is known at a place of a body, and how it changes; the single targets in a target, and their names as they are bound.
//!
//! `specs/Places.antt` has what is known at a place of the types of variables and of names that are not None, and what bindings,
//! tests, loops and the arms of an `if` do to it; `specs/Shapes.antt` the targets in an expression, by their form alone.
#![tactic(auto)]

mod names;
mod parts;
mod places;
mod shapes;

pub use names::bind_target;
pub use parts::{parts_of, some_parts};
pub use places::{Place, all_known, bind_name, enter, known_behind, learn, meet};
pub use shapes::{is_access, is_flat, is_item, is_row, leaves};
