//! The pass that leaves out what is of no use: tests of a register that is surely set where it is tested, and what stands in blocks
//! that no path reaches.
//!
//! What comes in is a program as the builder makes it, which tests a variable in front of each read; what goes out does the same,
//! step by step. `specs/Unset.antt` says where a register may be unset, by the paths of a function, `specs/Walk.antt` the same block
//! by block, and `specs/Without.antt` which tests are left out. Of each register that is tested the blocks are marked at whose start
//! it may be unset, over the edges by which it comes unset from one to the next. Then the blocks are marked to which paths come
//! (`specs/Ways.antt`), and all others are emptied (`specs/Emptied.antt`): the block that raises behind a test that went, and what is
//! written behind a return or a jump. No block is taken out, so each keeps its number.
#![tactic(auto)]

ghost use Rattle.std.specs.Prelude.{IfOk};
ghost use Rattle.ir_core.specs.Runs.{MeansSame, Calm};
ghost use Rattle.ir_core.specs.Shape.{Shape};
ghost use Rattle.unset_tests.specs.Same.{RunsSame};
ghost use Rattle.unset_tests.specs.Cleared.{IsProgramCleared};

mod emptied;
mod functions;
mod marks;
mod sure;
mod unsure;
mod walk;
mod ways;

use crate::functions::program_cleared;
use ir_core::Program;
use std::alloc::Global;
use value_core::Memory;

/// A program without the tests of registers that are surely set (mypyc's pass `uninit`, which tests a variable only where not all
/// paths define it). Such a test becomes a jump to where it would go on. Each block that no path reaches then is emptied: it has no
/// operations and ends nowhere. Nothing else changes.
pub fn without_sure_tests(alloc: Global, p: Program) -> Result<Program, Memory>
    requires shape { Shape p }
    ensures tests { IfOk result (λ q. IsProgramCleared p q) }
    ensures runs { IfOk result (λ q. RunsSame p q) }
    ensures kept { IfOk result (λ q. MeansSame p q) }
    ensures calm { IfOk result (λ q. Calm p → Calm q) }
    ensures shaped { IfOk result (λ q. Shape q) }
{
    program_cleared(alloc, p)
}
