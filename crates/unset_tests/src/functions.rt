//! The functions of a program, and the program.
ghost use Rattle.std.specs.Prelude.{◌≡◌, IfOk};
ghost use Rattle.unset_tests.specs.Walk as spec;
ghost use Rattle.unset_tests.specs.Walk.{left_out};
ghost use Rattle.unset_tests.specs.Without.{IsWithout};
ghost use Rattle.unset_tests.specs.Cleared.{IsCleared, IsProgramCleared};

use crate::emptied::emptied;
use crate::marks::is_marked;
use crate::sure::sure_tests;
use ir_core::{Block, Func, Last, Program};
use std::alloc::Global;
use value_core::{Many, Memory};

/// A program without tests of registers that are surely set, and without what no path reaches then.
pub(crate) fn program_cleared(alloc: Global, p: Program) -> Result<Program, Memory>
    ensures { IfOk result (λ q. IsProgramCleared p q) }
{
    let Program {
        globals,
        classes,
        funcs,
    } = p;
    let mut done = Vec::new(alloc);
    for func in funcs.into_vec() {
        let cleared = function_cleared(alloc, func)?;
        done.push(cleared)?;
    }
    Ok(Program {
        globals,
        classes,
        funcs: Many::from_vec(done),
    })
}

fn function_cleared(alloc: Global, f: Func) -> Result<Func, Memory>
    ensures { IfOk result (λ g. IsCleared f g) }
{
    let tested = function_without(alloc, f)?;
    emptied(alloc, tested)
}

fn function_without(alloc: Global, f: Func) -> Result<Func, Memory>
    ensures { IfOk result (λ g. IsWithout f g) }
{
    let Func {
        name,
        params,
        regs,
        ret,
        blocks,
    } = f;
    let sure = sure_tests(alloc, regs.as_slice(), blocks.as_slice())?;
    let blocks = blocks_without(alloc, sure.as_slice(), blocks)?;
    Ok(Func {
        name,
        params,
        regs,
        ret,
        blocks,
    })
}

/// The blocks, where the tests at the ends of those that are marked are left out.
fn blocks_without(alloc: Global, sure: &[bool], blocks: Many<Block>) -> Result<Many<Block>, Memory>
    ensures { IfOk result (λ all. all ≡ spec.blocks_without sure.now 0 blocks) }
{
    let mut done = Vec::new(alloc);
    for block in blocks.into_vec() {
        let Block { ops, last, handler } = block;
        let last = left_out(is_marked(sure, done.len()), last);
        done.push(Block { ops, last, handler })?;
    }
    Ok(Many::from_vec(done))
}

/// The end of a block, where its test may be left out.
fn left_out(goes: bool, last: Last) -> Last
    ensures { result ≡ left_out goes last }
{
    match last {
        Last::IfError(_, _, n, _) if goes => Last::Goto(n),
        other => other,
    }
}
