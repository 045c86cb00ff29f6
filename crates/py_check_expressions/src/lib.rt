//! The typing of expressions: each has its typed tree, or what is wrong with it and its parts is said, each once.
//!
//! `specs/Typing.antt` has a clause for each kind of expression, over the rules of `py_check_operators`, `py_check_displays` and `py_check_calls`, and
//! `expression` computes it, with a function for each kind of node that has parts. `specs/Laws.antt` says what holds of every
//! typing, and `laws` proves it.
#![tactic(auto)]

mod environments;
mod laws;
mod leaves;
mod nodes;

pub use environments::Environment;
pub use laws::what_is_typed_has_said_nothing;
pub use nodes::{arguments, expression};
