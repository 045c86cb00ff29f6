//! Statements and definitions made of finished parts, and rows of them.
//!
//! What comes in are expressions, names and rows of statements; what goes out is the statement that they make. It stands
//! on the heap from where it is made until it goes into a row, since a value that is handed through exits is let go at
//! each of them.
#![tactic(auto)]

pub mod append;
pub mod definition;
pub mod statement;
