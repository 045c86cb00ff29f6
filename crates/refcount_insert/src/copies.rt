//! Copies of operations and of what is declared.
ghost use Rattle.std.specs.Prelude.{◌≡◌, IfOk};

use ir_core::{Op, PArg, RType, Reg};
use std::alloc::Global;
use value_core::{Many, Memory, Name, Text};

/// A copy of registers or globals with their types.
pub(crate) fn copy_declared(
    alloc: Global,
    declared: &[(Name, RType)],
) -> Result<Many<(Name, RType)>, Memory>
    ensures { IfOk result (λ copy. copy ≡ declared.now) }
{
    let mut copy = Vec::new(alloc);
    for entry in declared {
        let name = Name::from_str(alloc, entry.0.as_str())?;
        copy.push((name, entry.1))?;
    }
    Ok(Many::from_vec(copy))
}

fn copy_argument(alloc: Global, argument: &PArg) -> Result<PArg, Memory>
    ensures { IfOk result (λ copy. copy ≡ argument.now) }
{
    match argument {
        PArg::Var(r) => Ok(PArg::Var(*r)),
        PArg::Number(n) => Ok(PArg::Number(*n)),
        PArg::Text(text) => Ok(PArg::Text(Text::from_str(alloc, text.as_str())?)),
        PArg::Global(name) => Ok(PArg::Global(Name::from_str(alloc, name.as_str())?)),
        PArg::Class(name) => Ok(PArg::Class(Name::from_str(alloc, name.as_str())?)),
    }
}

fn copy_arguments(alloc: Global, arguments: &[PArg]) -> Result<Many<PArg>, Memory>
    ensures { IfOk result (λ copy. copy ≡ arguments.now) }
{
    let mut copy = Vec::new(alloc);
    for argument in arguments {
        copy.push(copy_argument(alloc, argument)?)?;
    }
    Ok(Many::from_vec(copy))
}

fn copy_registers(alloc: Global, registers: &Many<Reg>) -> Result<Many<Reg>, Memory>
    ensures { IfOk result (λ copy. copy ≡ registers.now) }
{
    Many::from_slice(alloc, registers.as_slice())
}

/// A copy of an operation.
pub(crate) fn copy_op(alloc: Global, op: &Op) -> Result<Op, Memory>
    ensures { IfOk result (λ copy. copy ≡ op.now) }
{
    Ok(match op {
        Op::Move(r, s) => Op::Move(*r, *s),
        Op::Lit(r, literal) => Op::Lit(*r, *literal),
        Op::Prim(to, p, arguments) => {
            Op::Prim(*to, *p, copy_arguments(alloc, arguments.as_slice())?)
        }
        Op::Call(r, g, registers) => Op::Call(*r, *g, copy_registers(alloc, registers)?),
        Op::Virtual(r, object, n, registers) => {
            Op::Virtual(*r, *object, *n, copy_registers(alloc, registers)?)
        }
        Op::TraitCall(r, object, t, n, registers) => {
            Op::TraitCall(*r, *object, *t, *n, copy_registers(alloc, registers)?)
        }
        Op::Turn => Op::Turn,
        Op::Inc(r) => Op::Inc(*r),
        Op::Dec(r) => Op::Dec(*r),
        Op::XDec(r) => Op::XDec(*r),
    })
}
