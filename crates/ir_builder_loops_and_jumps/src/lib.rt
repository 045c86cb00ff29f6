//! What it means that the intermediate code of a statement does what the statement means, and why the code of loops, branches,
//! assignments, returns, jumps and `print` does, whatever its parts are.
//!
//! A statement is left at its end, by an exception, or by a way (`Way`) whose place is known only later: a block that is left so
//! is ended with a jump that is still to be written, and noted as an `Exit`. A loop writes the jumps of its `break` and
//! `continue`, and hands the others on. `specs/Runs.antt` says when code works, with its exits left open; `proofs/LoopLemmas.antt`,
//! `BranchLemmas.antt`, `SimpleLemmas.antt` and `PrintLemmas.antt` say that code works which has certain operations and ends
//! between parts that work. `emit_print` emits the code of `print`; no function of this crate
//! emits that of the others.
#![tactic(auto)]

mod printing;
mod ways;

pub use printing::emit_print;
pub use ways::{Exit, ExitPlan, LoopStart, Test, Way};
