//! Which counts an operation, an edge and a return get, by the tables of their function.
//!
//! A place of a function comes in, with what is read again and what is only lent there; what goes out are the registers that get
//! references and those that are given up. `specs/Known.antt` says how many references a frame owns by the tables,
//! `specs/Counts.antt` which counts an operation and an edge get, and `specs/Ends.antt` those of the ends of blocks.
#![tactic(auto)]

mod counts;
mod edges;
mod groups;
mod known;
mod operands;

pub use counts::{Counts, lay_downs, lay_edge, lay_ups};
pub use edges::{end_counts, test_counts};
pub use groups::group_counts;
pub use known::{KnownRegisters, known_of};
