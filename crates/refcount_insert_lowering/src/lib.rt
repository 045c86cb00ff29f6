//! The C text of a program of intermediate code, as data.
//!
//! What comes in is a `Program`; what goes out is its `Code` (`lower`): one line for each operation and each end, a
//! label before each block but the first, and for each register a variable. It is exactly the code that
//! `specs/Lower.antt` of `ir_core` says. Want of memory is the only other answer.
#![tactic(auto)]

mod classes;
mod functions;
mod lines;
mod names;
mod operations;

pub use classes::copy_classes;
pub use functions::lower;
