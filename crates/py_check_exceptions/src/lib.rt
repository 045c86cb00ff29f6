//! The rules of `raise` and `assert`, and of the heads of except clauses.
//!
//! `specs/Raises.antt` has what is raised and what is asserted, `specs/Handlers.antt` the classes and the name of an except clause, and
//! what is known where its body begins.
#![tactic(auto)]

mod asked;
mod handlers;
mod raising;

pub use handlers::{Head, begin_handler};
pub use raising::{asserts, raises};
