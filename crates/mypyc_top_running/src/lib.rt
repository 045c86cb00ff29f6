//! Runs a program on an input, and sends what it gives: its output, its summary, and its line on errors.
#![tactic(auto)]

mod running;
mod sending;
mod summary;

pub use running::{Program, run_and_send};
pub use sending::send_reply;
