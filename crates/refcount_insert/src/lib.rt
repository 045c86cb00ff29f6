//! The pass that inserts counts: of a program whose failures go over edges it makes one in which each reference that a frame
//! owns is counted, and its C text.
//!
//! What comes in is a program with error edges; what goes out is that program with its counts by the one rule of
//! `refcount_insert_rule`, as C text. What is read again, and what is only lent, comes from `liveness`. An operation counts nothing but
//! its arguments and its target, and an end nothing but what is read again there. First each block is planned: its
//! operations with their counts, and the counts of its edges, of which most that are equal, to one block, are kept once. Then the edges of
//! tests get detours, blocks of counts alone that stand in front of the block that the edge goes to, and all blocks are laid out
//! with their new numbers. Which counts there are comes from `refcount_insert_counts`; `specs/Plan.antt` says what is planned of a
//! block, `specs/Sharing.antt` which counts of edges are kept, `specs/Pairs.antt` and `specs/Detours.antt` have the detours, and
//! `specs/Layout.antt` has the blocks.
#![tactic(auto)]

mod copies;
mod detours;
mod functions;
mod layout;
mod pairs;
mod plan;
mod sharing;

pub use functions::{insert_counts, with_counts};
