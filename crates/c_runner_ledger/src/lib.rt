//! What a frame owns: the references to cells that it may give up, each as often as it has it.
//!
//! The machine has a list of the numbers of cells (`Ledger` of c_core). Here it is one number where there is one, the list
//! itself where there are a few, and else a map.
#![tactic(auto)]

mod few;
mod ledger;
mod numbers;
mod wide;

pub use ledger::Ledger;
