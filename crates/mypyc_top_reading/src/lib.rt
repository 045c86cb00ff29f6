//! What the command reads: the bytes of a file that it names, to a limit, and the code of a C text that can be run.
#![tactic(auto)]

mod reading;
mod text;

pub use reading::{Refusal, read_file};
pub use text::{TextFault, text_code};
