//! What an operation touches, and what it takes.
ghost use Rattle.std.specs.Prelude.{◌≡◌, ◌≤◌, ◌+◌, ◌++◌, ◌∷◌, [], ℕ, cond, length, IfOk, OnOk};
ghost use Rattle.c_core.specs.Cells.{same, times};
ghost use Rattle.c_core.specs.Primitives.{row_of};
ghost use Rattle.liveness.specs.Paths as path;
ghost use Rattle.liveness.specs.Paths.{is_among};
ghost use Rattle.refcount_insert_rule.specs.Rule as rule;
ghost use Rattle.c_core.specs.declared.primitive.Primitive.TheVariants as prim;
ghost use Rattle.refcount_insert_rule.specs.Rule.{takes_one, taken, takes};
ghost use Rattle.refcount_insert_counts.specs.Counts as spec;
ghost use Rattle.refcount_insert_counts.specs.Counts.{AreOnce, is_touched, steals_at};

use c_core::{AttrPrim, DictPrim, ErrPrim, GlobalPrim, ListPrim, Prim, TaggedPrim, TuplePrim};
use ir_core::{Op, PArg};
use liveness::{register_written, registers_read};
use std::alloc::Global;
use value_core::Memory;

/// Whether a register is the target.
pub(crate) fn is_target(target: Option<usize>, r: usize) -> bool
    ensures { result ≡ path.is_target target r }
{
    match target {
        Some(s) => s == r,
        None => false,
    }
}

/// Once, where two registers are the same.
fn once(s: usize, r: usize) -> usize
    ensures value { result ≡ same s r }
    ensures few { result ≤ 1 }
{
    if s == r { 1 } else { 0 }
}

/// How often a register is among some.
pub(crate) fn times(registers: &[usize], r: usize) -> usize
    ensures value { result ≡ times registers.now r }
    ensures few { result ≤ length registers.now }
{
    let mut count = 0;
    for s in registers {
        count += once(*s, r);
    }
    count
}

fn stands_in(registers: &[usize], r: usize) -> bool
    ensures { result ≡ is_among registers.now r }
{
    for s in registers {
        if *s == r {
            return true;
        }
    }
    false
}

/// The registers that an operation touches, its target and its arguments, each once.
pub(crate) fn touched(alloc: Global, op: &Op) -> Result<Vec<usize>, Memory>
    ensures { IfOk result (λ all. AreOnce (is_touched op.now) all.items) }
{
    let reads = registers_read(alloc, op)?;
    once_each(alloc, register_written(op), reads.as_slice())
}

/// A target and registers, each once.
fn once_each(alloc: Global, target: Option<usize>, reads: &[usize]) -> Result<Vec<usize>, Memory>
    ensures { IfOk result (λ all. AreOnce (spec.is_either target reads.now) all.items) }
{
    let mut all = only(alloc, target)?;
    for r in reads {
        let is_there = stands_in(&all, *r);
        push_new(&mut all, *r, is_there)?;
    }
    Ok(all)
}

fn only(alloc: Global, target: Option<usize>) -> Result<Vec<usize>, Memory>
    ensures { IfOk result (λ all. AreOnce (path.is_target target) all.items) }
{
    let mut all = Vec::new(alloc);
    match target {
        Some(r) => {
            all.push(r)?;
            Ok(all)
        }
        None => Ok(all),
    }
}

/// Puts a register behind the others unless it is there.
pub(crate) fn push_new(all: &mut Vec<usize>, r: usize, is_there: bool) -> Result<(), Memory>
    ensures { OnOk result (all.new.items ≡ cond is_there all.old.items (all.old.items ++ r ∷ [])) }
{
    if !is_there {
        all.push(r)?;
    }
    Ok(())
}

/// Whether a primitive steals the argument at a place.
fn steals(p: Prim, place: usize) -> bool
    ensures { result ≡ steals_at (row_of p).parameters place }
{
    match p {
        Prim::Global(GlobalPrim::Set) => place == 1,
        Prim::Err(ErrPrim::SetObject) => place == 0,
        Prim::Tagged(TaggedPrim::Box) => place == 0,
        Prim::List(ListPrim::Append) => place == 1,
        Prim::List(ListPrim::SetItem) => place == 2,
        Prim::Dict(DictPrim::SetItem) => place == 1 || place == 2,
        Prim::Attr(AttrPrim::Set) => place == 2,
        Prim::Tuple(operation) => steals_part(operation, place),
        _ => false,
    }
}

// A tuple takes each of its parts.
fn steals_part(operation: TuplePrim, place: usize) -> bool
    ensures { result ≡ steals_at (row_of (prim.Tuple operation)).parameters place }
{
    match operation {
        TuplePrim::Pack => place < 16,
        TuplePrim::GetItem | TuplePrim::GetItemBorrow | TuplePrim::Len => false,
    }
}

/// The registers of which a primitive takes a reference, as often as it does.
fn stolen(alloc: Global, p: Prim, arguments: &[PArg]) -> Result<Vec<usize>, Memory>
    ensures { IfOk result (λ all. (r : ℕ) → times all.items r ≡ taken (row_of p).parameters arguments.now r) }
{
    let mut all = Vec::new(alloc);
    for (place, argument) in arguments.iter().enumerate() {
        let is_stolen = steals(p, place);
        push_stolen(&mut all, argument, is_stolen)?;
    }
    Ok(all)
}

/// Puts an argument that is a register and is stolen behind the others.
fn push_stolen(all: &mut Vec<usize>, argument: &PArg, is_stolen: bool) -> Result<(), Memory>
    ensures { OnOk result ((r : ℕ) → times all.new.items r ≡ times all.old.items r + takes_one is_stolen argument.now r) }
{
    match argument {
        PArg::Var(r) if is_stolen => all.push(r.0)?,
        _ => {}
    }
    Ok(())
}

/// The registers of which an operation takes a reference, as often as it does.
pub(crate) fn taken(alloc: Global, op: &Op) -> Result<Vec<usize>, Memory>
    ensures { IfOk result (λ all. (r : ℕ) → times all.items r ≡ takes op.now r) }
{
    match op {
        Op::Move(_, r) => {
            let mut all = Vec::new(alloc);
            all.push(r.0)?;
            Ok(all)
        }
        Op::Prim(_, p, arguments) => stolen(alloc, *p, arguments.as_slice()),
        _ => Ok(Vec::new(alloc)),
    }
}

/// What an operation gives its target, of which so much is wanted.
pub(crate) fn gives(op: &Op, wanted: usize) -> usize
    ensures { result ≡ rule.gives op.now wanted }
{
    match op {
        Op::Lit(_, _) => wanted,
        _ => 1,
    }
}
