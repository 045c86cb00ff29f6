//! The pass that shows failing: of a program whose operations fail by themselves it makes one in which a block ends behind each
//! of them, by a test of the result and an edge to where the exception goes.
//!
//! What comes in is a program as the builder makes it; what goes out comes to the same ends, for any number of turns and any
//! input. Each block becomes a chain of blocks, in the old order, so that jumps to higher blocks stay such; behind the last
//! chain stands the exit, which gives the function's error value. `specs/Layout.antt` has the blocks, `specs/Names.antt` the
//! names of the registers that are added, and `specs/Edged.antt` says when one program is another one with edges.
#![tactic(auto)]

ghost use Rattle.std.specs.Prelude.{IfOk};
ghost use Rattle.ir_core.specs.Runs.{MeansSame, Calm, Fit};
ghost use Rattle.ir_core.specs.Shape.{Shape};
ghost use Rattle.error_edges.specs.Edged.{IsEdgedProgram, EachHasEdges};

mod functions;
mod layout;
mod missing;
mod plan;
mod registers;

use crate::functions::edged_program;
use ir_core::Program;
use std::alloc::Global;
use value_core::Memory;

/// A program with error edges.
#[derive(Drop)]
pub struct Edged {
    pub program: Program,
}

/// Gives a program its error edges (mypyc's developer guide, "Error handling"). An operation that tells its failure by its
/// result is followed by a test of the result, and where that is a native integer by a test of the pending exception; one
/// that always fails is followed by a jump. They lead to the block's handler, or to a block that returns the function's
/// error value. A test that stands there already is left alone.
pub fn add_error_edges(alloc: Global, p: Program) -> Result<Edged, Memory>
    requires shape { Shape p }
    requires calm { Calm p }
    ensures layout { IfOk result (λ e. IsEdgedProgram p e.program) }
    ensures edges { IfOk result (λ e. EachHasEdges e.program) }
    ensures kept { IfOk result (λ e. MeansSame p e.program) }
    ensures fits { IfOk result (λ e. Fit e.program) }
    ensures shaped { IfOk result (λ e. Shape e.program) }
{
    let program = edged_program(alloc, p)?;
    Ok(Edged { program })
}
