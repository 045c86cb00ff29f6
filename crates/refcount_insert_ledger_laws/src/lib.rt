//! What the groups of a program with its counts do to the ledger of a frame: an operation and its counts bring it from what the frame
//! owns in front of them to what it owns in front of the next ones.
//!
//! `refcount_insert_order_laws` says what a frame owns in front of each group; here both moments are put together. There is no code to
//! run.
#![tactic(auto)]

mod laws;

pub use laws::groups_bring_ledgers;
