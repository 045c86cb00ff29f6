//! The typing of statements and of blocks, and what is known behind each.
//!
//! `specs/Bodies.antt` has the rules: the typed form of each statement or what is wrong with it, and what is known behind it of the
//! types of variables and of names that are not None. `statements` has those that stand alone, `deletions` those that delete,
//! `parts` makes those with bodies of their typed parts, `tries` the parts of a `try`, and `blocks` walks over whole blocks.
#![tactic(auto)]

mod blocks;
mod bodies;
mod deletions;
mod parts;
mod statements;
mod tries;

pub use blocks::block;
pub use bodies::{Around, Inside, condition, is_definition, return_wanted};
pub use statements::{alone, placed, returns, with_statement};
