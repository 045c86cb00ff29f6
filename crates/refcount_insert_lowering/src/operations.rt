//! The line of an operation.
ghost use Rattle.std.specs.Prelude.{◌≡◌, ◌++◌, map, IfOk, OnOk};
ghost use Rattle.std.specs.Option.{option_map};
ghost use Rattle.c_core.specs.Primitives.{row_of};
ghost use Rattle.ir_core.specs.Lower.{argument_in, number_of, register_in, literal_in};
ghost use Rattle.ir_core.specs.Lower as spec;

use crate::names::{name_in_call, name_of_class};
use c_core::{CArg, CLit, Line, Prim};
use ir_core::{Lit, Op, PArg, Program, Reg};
use std::alloc::Global;
use value_core::{Many, Memory, Name, Text};

fn literal_of(literal: Lit) -> CLit
    ensures { result ≡ literal_in literal }
{
    match literal {
        Lit::Number(n) => CLit::Number(n),
        Lit::Null => CLit::Null,
        Lit::PyNone => CLit::PyNone,
        Lit::PyTrue => CLit::PyTrue,
        Lit::PyFalse => CLit::PyFalse,
    }
}

fn argument_of(alloc: Global, argument: &PArg) -> Result<CArg, Memory>
    ensures { IfOk result (λ copy. copy ≡ argument_in argument.now) }
{
    match argument {
        PArg::Var(r) => Ok(CArg::Var(r.0)),
        PArg::Number(n) => Ok(CArg::Number(*n)),
        PArg::Text(text) => Ok(CArg::Text(Text::from_str(alloc, text.as_str())?)),
        PArg::Global(name) => Ok(CArg::Global(Name::from_str(alloc, name.as_str())?)),
        PArg::Class(name) => Ok(CArg::Class(Name::from_str(alloc, name.as_str())?)),
    }
}

fn arguments_of(alloc: Global, arguments: &[PArg]) -> Result<Many<CArg>, Memory>
    ensures { IfOk result (λ all. all ≡ map argument_in arguments.now) }
{
    let mut all = Vec::new(alloc);
    for argument in arguments {
        all.push(argument_of(alloc, argument)?)?;
    }
    Ok(Many::from_vec(all))
}

/// Adds registers as arguments, behind those that are there.
fn push_registers(all: &mut Vec<CArg>, registers: &[Reg]) -> Result<(), Memory>
    ensures { OnOk result (all.new.items ≡ all.old.items ++ map register_in registers.now) }
{
    for register in registers {
        all.push(CArg::Var(register.0))?;
    }
    Ok(())
}

fn target_of(target: Option<Reg>) -> Option<usize>
    ensures { result ≡ option_map number_of target }
{
    match target {
        Some(r) => Some(r.0),
        None => None,
    }
}

fn call_line(
    alloc: Global,
    p: &Program,
    r: Reg,
    g: usize,
    registers: &[Reg],
) -> Result<Line, Memory>
    ensures { IfOk result (λ line. line ≡ spec.line_of p.now (Op.Call r g registers.now)) }
{
    let name = name_in_call(alloc, p, g)?;
    let mut all = Vec::new(alloc);
    push_registers(&mut all, registers)?;
    Ok(Line::Call(Some(r.0), name, Many::from_vec(all)))
}

fn numbers_of(alloc: Global, registers: &[Reg]) -> Result<Many<usize>, Memory>
    ensures { IfOk result (λ all. all ≡ map number_of registers.now) }
{
    let mut all = Vec::new(alloc);
    for register in registers {
        all.push(register.0)?;
    }
    Ok(Many::from_vec(all))
}

fn virtual_line(
    alloc: Global,
    p: &Program,
    r: Reg,
    object: Reg,
    n: usize,
    registers: &[Reg],
) -> Result<Line, Memory>
    ensures { IfOk result (λ line. line ≡ spec.line_of p.now (Op.Virtual r object n registers.now)) }
{
    Ok(Line::Virtual(r.0, object.0, n, numbers_of(alloc, registers)?))
}

fn trait_line(
    alloc: Global,
    p: &Program,
    r: Reg,
    object: Reg,
    t: usize,
    n: usize,
    registers: &[Reg],
) -> Result<Line, Memory>
    ensures { IfOk result (λ line. line ≡ spec.line_of p.now (Op.TraitCall r object t n registers.now)) }
{
    let name = name_of_class(alloc, p, t)?;
    Ok(Line::TraitCall(r.0, object.0, name, n, numbers_of(alloc, registers)?))
}

fn primitive_line(
    alloc: Global,
    target: Option<Reg>,
    q: Prim,
    arguments: &[PArg],
) -> Result<Line, Memory>
    ensures { IfOk result (λ line. line ≡ Line.Call (option_map number_of target) (row_of q).name (map argument_in arguments.now)) }
{
    let name = Name::from_str(alloc, q.name())?;
    Ok(Line::Call(target_of(target), name, arguments_of(alloc, arguments)?))
}

/// The line of an operation of a program.
pub(crate) fn line_of(alloc: Global, p: &Program, op: &Op) -> Result<Line, Memory>
    ensures { IfOk result (λ line. line ≡ spec.line_of p.now op.now) }
{
    match op {
        Op::Move(r, s) => Ok(Line::Move(r.0, s.0)),
        Op::Lit(r, literal) => Ok(Line::Lit(r.0, literal_of(*literal))),
        Op::Prim(target, q, arguments) => {
            primitive_line(alloc, *target, *q, arguments.as_slice())
        }
        Op::Call(r, g, registers) => call_line(alloc, p, *r, *g, registers.as_slice()),
        Op::Virtual(r, object, n, registers) => {
            virtual_line(alloc, p, *r, *object, *n, registers.as_slice())
        }
        Op::TraitCall(r, object, t, n, registers) => {
            trait_line(alloc, p, *r, *object, *t, *n, registers.as_slice())
        }
        Op::Turn => Ok(Line::Turn),
        Op::Inc(r) => Ok(Line::Inc(r.0)),
        Op::Dec(r) => Ok(Line::Dec(r.0)),
        Op::XDec(r) => Ok(Line::XDec(r.0)),
    }
}
