//! The functions of a program, and the program.
ghost use Rattle.std.specs.Prelude.{IfOk};
ghost use Rattle.error_edges.specs.Edged.{IsEdged, IsEdgedProgram};

use crate::layout::edged_blocks;
use crate::plan::plan_of;
use crate::registers::grown;
use ir_core::{Func, Program, RType};
use std::alloc::Global;
use value_core::{Many, Memory};

/// A program with edges.
pub(crate) fn edged_program(alloc: Global, p: Program) -> Result<Program, Memory>
    ensures { IfOk result (λ q. IsEdgedProgram p q) }
{
    let Program {
        globals,
        classes,
        funcs,
    } = p;
    let mut edged = Vec::new(alloc);
    for func in funcs.into_vec() {
        let with_edges = edged_function(alloc, func)?;
        edged.push(with_edges)?;
    }
    Ok(Program {
        globals,
        classes,
        funcs: Many::from_vec(edged),
    })
}

fn edged_function(alloc: Global, f: Func) -> Result<Func, Memory>
    ensures { IfOk result (λ g. IsEdged f g) }
{
    let Func {
        name,
        params,
        regs,
        ret,
        blocks,
    } = f;
    let plan = plan_of(alloc, regs.as_slice(), blocks.as_slice())?;
    let blocks = edged_blocks(alloc, regs.as_slice(), ret, &plan, blocks)?;
    let regs = grown(alloc, regs, plan.needs_flag, RType::Bool)?;
    let regs = grown(alloc, regs, plan.needs_exit, ret)?;
    Ok(Func {
        name,
        params,
        regs,
        ret,
        blocks,
    })
}
