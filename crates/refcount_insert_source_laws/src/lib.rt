//! A code that keeps its references in order follows the program that its runs do without tests of ownership.
//!
//! `specs/Laws.antt` has the law; there is no code to run.
#![tactic(auto)]

mod laws;

pub use laws::ordered_follows;
