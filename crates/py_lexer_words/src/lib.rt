//! What an identifier is, and the name that a text in quotes stands for.
//!
//! Characters come in; what goes out is whether they are an identifier, or the name that they stand for. `specs/Words.antt` says
//! which characters these are.
#![tactic(auto)]

mod identifier;
mod quoted;

pub use identifier::{begins_name, characters, is_identifier, text_of};
pub use quoted::name_in_quotes;
