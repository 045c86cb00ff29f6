//! What a table keeps of a function: of each operation the registers that it reads, the one that it writes, and whether it
//! only lends to that one.
ghost use Rattle.std.specs.Prelude.{◌≡◌, ◌∷◌, [], ◌++◌, map, IfOk, OnOk};
ghost use Rattle.std.specs.Option.{option_map};
ghost use Rattle.liveness.specs.Paths.{number_of, registers_in, reads_of, write_of, is_lent, lends_to};
ghost use Rattle.liveness.specs.Steps.{step_over, step_of, steps_of};

use c_core::{AttrPrim, ListPrim, Prim, TuplePrim};
use ir_core::{Block, Last, Op, PArg, Reg};
use std::alloc::Global;
use value_core::{Many, Memory};

/// An operation: the registers that it reads, the one that it writes, and whether that one is only lent to.
#[derive(Drop)]
pub struct Step {
    pub reads: Many<usize>,
    pub write: Option<usize>,
    pub lends: bool,
}

/// A block: its operations, and its end.
#[derive(Drop)]
pub struct Steps {
    pub steps: Many<Step>,
    pub last: Last,
}

pub(crate) fn one(alloc: Global, r: Reg) -> Result<Many<usize>, Memory>
    ensures { IfOk result (λ reads. reads ≡ r.0 ∷ []) }
{
    let mut reads = Many::new(alloc);
    reads.push(r.0)?;
    Ok(reads)
}

/// Adds the numbers of registers behind those that are there.
fn push_registers(reads: &mut Many<usize>, registers: &[Reg]) -> Result<(), Memory>
    ensures { OnOk result (reads.new ≡ reads.old ++ map number_of registers.now) }
{
    for register in registers {
        reads.push(register.0)?;
    }
    Ok(())
}

fn all(alloc: Global, registers: &[Reg]) -> Result<Many<usize>, Memory>
    ensures { IfOk result (λ reads. reads ≡ map number_of registers.now) }
{
    let mut reads = Many::new(alloc);
    push_registers(&mut reads, registers)?;
    Ok(reads)
}

fn object_and(alloc: Global, object: Reg, registers: &[Reg]) -> Result<Many<usize>, Memory>
    ensures { IfOk result (λ reads. reads ≡ object.0 ∷ map number_of registers.now) }
{
    let mut reads = one(alloc, object)?;
    push_registers(&mut reads, registers)?;
    Ok(reads)
}

fn among(alloc: Global, arguments: &[PArg]) -> Result<Many<usize>, Memory>
    ensures { IfOk result (λ reads. reads ≡ registers_in arguments.now) }
{
    let mut reads = Many::new(alloc);
    for argument in arguments {
        match argument {
            PArg::Var(r) => reads.push(r.0)?,
            PArg::Number(_) | PArg::Text(_) | PArg::Global(_) | PArg::Class(_) => {}
        }
    }
    Ok(reads)
}

/// The registers that an operation reads, as often as it does.
pub fn registers_read(alloc: Global, op: &Op) -> Result<Many<usize>, Memory>
    ensures { IfOk result (λ reads. reads ≡ reads_of op.now) }
{
    match op {
        Op::Move(_, r) | Op::Inc(r) | Op::Dec(r) | Op::XDec(r) => one(alloc, *r),
        Op::Lit(_, _) | Op::Turn => Ok(Many::new(alloc)),
        Op::Prim(_, _, arguments) => among(alloc, arguments.as_slice()),
        Op::Call(_, _, arguments) => all(alloc, arguments.as_slice()),
        Op::Virtual(_, object, _, arguments) => object_and(alloc, *object, arguments.as_slice()),
        Op::TraitCall(_, object, _, _, arguments) => {
            object_and(alloc, *object, arguments.as_slice())
        }
    }
}

fn number(r: Option<Reg>) -> Option<usize>
    ensures { result ≡ option_map number_of r }
{
    match r {
        Some(r) => Some(r.0),
        None => None,
    }
}

/// The register that an operation writes.
pub fn register_written(op: &Op) -> Option<usize>
    ensures { result ≡ write_of op.now }
{
    match op {
        Op::Move(r, _) | Op::Lit(r, _) | Op::Call(r, _, _) => Some(r.0),
        Op::Virtual(r, _, _, _) | Op::TraitCall(r, _, _, _, _) => Some(r.0),
        Op::Prim(to, _, _) => number(*to),
        Op::Turn | Op::Inc(_) | Op::Dec(_) | Op::XDec(_) => None,
    }
}

/// Whether the result of a primitive is only lent.
fn is_lent(p: Prim) -> bool
    ensures { result ≡ is_lent p }
{
    match p {
        Prim::List(ListPrim::GetItemBorrow)
        | Prim::Tuple(TuplePrim::GetItemBorrow)
        | Prim::Attr(AttrPrim::GetBorrow) => true,
        _ => false,
    }
}

/// Whether an operation only lends to the register that it writes.
fn lends_to(op: &Op) -> bool
    ensures { result ≡ lends_to op.now }
{
    match op {
        Op::Prim(_, p, _) => is_lent(*p),
        _ => false,
    }
}

fn step_over(alloc: Global, op: &Op) -> Result<Step, Memory>
    ensures { IfOk result (λ step. step ≡ step_over op.now) }
{
    Ok(Step {
        reads: registers_read(alloc, op)?,
        write: register_written(op),
        lends: lends_to(op),
    })
}

/// What is kept of one operation.
pub(crate) fn kept_step(alloc: Global, op: &Op) -> Result<Many<Step>, Memory>
    ensures { IfOk result (λ all. all ≡ step_over op.now ∷ []) }
{
    let mut all = Many::new(alloc);
    all.push(step_over(alloc, op)?)?;
    Ok(all)
}

pub(crate) fn kept_steps(alloc: Global, ops: &[(Op, usize)]) -> Result<Many<Step>, Memory>
    ensures { IfOk result (λ all. all ≡ map step_of ops.now) }
{
    let mut all = Vec::new(alloc);
    for (op, _) in ops {
        all.push(step_over(alloc, op)?)?;
    }
    Ok(Many::from_vec(all))
}

/// What is kept of blocks.
pub(crate) fn kept_blocks(alloc: Global, blocks: &[Block]) -> Result<Many<Steps>, Memory>
    ensures { IfOk result (λ all. all ≡ map steps_of blocks.now) }
{
    let mut all = Vec::new(alloc);
    for block in blocks {
        let steps = kept_steps(alloc, block.ops.as_slice())?;
        all.push(Steps {
            steps,
            last: block.last,
        })?;
    }
    Ok(Many::from_vec(all))
}
