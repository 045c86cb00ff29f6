//! What one line of C text does, next to what the operation or the end does that it is the line of: without tests of ownership, over
//! words and cells on the one side and values on the other.
//!
//! `specs/Matching.antt` says when the words of a machine are what the registers of a program hold, `specs/Lines.antt` what each kind
//! of line does, and `specs/Follows.antt` when the runs of a code do what a program does. There is no code to run.
#![tactic(auto)]

mod laws;

pub use laws::{
    calls_do, counts_do, ends_do, if_errors_do, ifs_do, methods_do, ops_do, returns_do,
};
