//! What the words of the command mean: a request, or no command. `specs/Words.antt` has the rule.
#![tactic(auto)]

mod limits;
mod words;

pub use limits::most_bytes_of;
pub use words::{Emit, Request, Stage, Words, read_words};
