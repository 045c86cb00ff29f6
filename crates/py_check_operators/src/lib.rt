//! The rules of expressions: what a node is, made of its typed parts, or what is wrong with it.
//!
//! A rule takes the parts of a node, each of which may have no type. Where all have one, the rule gives the typed node, or a
//! diagnostic, which it puts behind those that there are; else it gives nothing and says nothing. Each is exactly its
//! definition, on both outcomes. A form of expression has its rule in a file of its own, under the name of its definition in
//! `specs/`.
#![tactic(auto)]

mod chains;
mod choices;
mod names;
mod narrowing;
mod operators;

pub use chains::chain;
pub use choices::{choice, junction, operand};
pub use names::named;
pub use narrowing::{facts, shared, with_facts};
pub use operators::{affirmation, arithmetic, arithmetic_type, inversion, negation};
