//! The headers of function definitions: the types of their annotations, the signature, and what is wrong with a definition by
//! itself.
//!
//! `specs/Headers.antt` says what annotations give and say, and which definitions have a signature; `specs/Definitions.antt`
//! has the rules of a definition in the order of their tests.
#![tactic(auto)]

mod definitions;
mod headers;

pub use definitions::{add_def_fault, is_new, own_count};
pub use headers::{Header, Owner, header_of, is_init, signature_of};
