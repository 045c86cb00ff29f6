//! The heads of `for` loops: what they go over, their targets, and what is known where their bodies begin.
//!
//! `specs/Loops.antt` has what a `for` goes over and what is wrong with its head, `specs/Heads.antt` the head as it is typed.
#![tactic(auto)]

mod course;
mod head;

pub use course::{Course, course_of};
pub use head::{Begun, Head, begin_for, looped};
