//! Which register is read again, and which is only lent.
//!
//! What comes in is a function of the intermediate code; what goes out are two tables. `LiveTable` says of each place
//! and each register whether some path from there reads the register before it writes it; `BorrowTable` whether, by
//! whichever path a run came there, it wrote the register last by a primitive whose result is only lent, or the register is
//! a parameter and was never written. `specs/Paths.antt` says what a path is.
//!
//! The places of a function are counted through, and under each register stand those that read it and those that write
//! it; what holds inside a block is looked up there. Of each block a table keeps the registers for which it holds at the
//! block's start. They are found one after the other, from the blocks that touch the register, over the jumps.
#![tactic(auto)]

mod apart;
mod borrow_table;
mod flood;
mod live_table;
mod places;
mod rising;
mod step;

pub use borrow_table::{BorrowTable, borrowed, borrowed_bare};
pub use live_table::{LiveTable, live, live_bare};
pub use step::{register_written, registers_read};
