//! A program with its counts (`refcount_insert_rule`) keeps its references in order: no run of its C text ends in a fault of ownership, and in
//! front of the counts of each operation a frame owns exactly what its registers hold that are counted, read again and not only lent.
//!
//! `specs/Places.antt` says where the counts of an operation stand in the C text, and `specs/Laws.antt` has the laws; there is no
//! code to run.
#![tactic(auto)]

mod laws;

pub use laws::{
    callers_are_owned, counted_is_in_order, counted_is_placed, ledgers_are_owned, lent_are_held,
    unmet_are_never_entered,
};
