//! Where control goes in statements and what they bind, by what stands in them alone: whether a list of statements is closed,
//! so that no run comes to its end; whether it breaks the loop that holds it; and the names that it binds, with their annotations.
//!
//! Nothing here says what is wrong. `specs/Closed.antt` and `specs/Bindings.antt` have these as definitions over the tree.
#![tactic(auto)]

mod bindings;
mod closed;

pub use bindings::{Binding, bindings_in, name_in, statement_bindings};
pub use closed::{breaks_out, is_closed};
