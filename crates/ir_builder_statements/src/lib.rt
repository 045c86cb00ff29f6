//! From typed statements to intermediate code.
//!
//! What comes in is a row of typed statements; what goes out are operations and blocks in an `Emitter` (`emit_block`), which do what
//! the statements mean, wherever they are left: `specs/Suiting.antt` says which statements are built, `Emitted` of
//! `ir_builder_loops_and_jumps` what their code does and `Around` there what stands around the bodies of `if` and of loops,
//! `specs/Parts.antt` what the parts of the code of a statement are, `specs/Targets.antt` what the code of targets does, and
//! `specs/Counting.antt` what a loop that counts does besides.
#![tactic(auto)]

mod alone;
mod bindings;
mod branch;
mod counting;
mod exits;
mod items;
mod lists;
mod ranges;
mod simple;
mod statement;
mod targets;
mod variables;

pub use statement::emit_block;
