//! Reads files of cases of whole programs, and tells where what a compiler gives differs from what they say. A case has a
//! module, and what commands over it give; the head of `test_cases/data/words.test`, of the program over this library, says
//! how it is written.
#![tactic(auto)]

mod case;
mod change;
mod check;
mod checker;
mod command;
mod difference;
mod file;
mod report;
mod section;

pub use checker::Checker;
pub use command::{Compiler, Outside};
pub use report::Report;
use std::alloc::AllocError;

/// What ends early only for want of memory.
pub type Done = Result<(), AllocError>;
