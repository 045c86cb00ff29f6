//! From typed expressions to intermediate code.
//!
//! `specs/Suiting.antt` says what is asked of an expression that is built, and `specs/Emitting.antt` what its code does.
//! `emit_expression` goes over a tree and adds that code: operations on one or two parts (`specs/Applying.antt`), choices by the
//! truth of a part (`specs/Truths.antt`, `specs/Arms.antt`), and for a chain of comparisons (`specs/Comparing.antt`) one choice behind the other
//! (`specs/Linking.antt`). `emit_two_parts`, `emit_arguments` and `emit_object` do so for parts of a statement. `proofs/WalkLemmas.antt` has for
//! each kind of expression that its code does what it means where that of its parts does.
#![tactic(auto)]

mod applying;
mod chain;
mod comparing;
mod expression;
mod global;
mod local;
mod site;
mod truths;
mod types;

pub use applying::Binary;
pub use expression::{emit_arguments, emit_expression, emit_object, emit_two_parts};
pub use site::Site;
pub use types::register_type;
