//! Lists and tuples of what registers hold.
ghost use Rattle.std.specs.Prelude.{◌≤◌, ◌<◌, ◌^◌, length, IfOk, OnOk};
ghost use Rattle.value_core.specs.Value.{TupleVal, tupled, ListObj};
ghost use Rattle.py_typed.specs.Sorts.{sort, Int, Nothing};
ghost use Rattle.source_meaning.specs.State.{give, make};
ghost use Rattle.source_meaning.specs.Operations.{append_item, tuple_part};
ghost use Rattle.ir_builder_frames.specs.Building.{Extends};
ghost use Rattle.ir_builder_frames.specs.Calling.{Pushes};
ghost use Rattle.ir_builder_frames.specs.Computing.{Shows, HaveTypes, Attempts};
ghost use Rattle.ir_builder_frames.specs.Operands.{ActsOnAll};
ghost use Rattle.ir_builder_frames.specs.Placing.{HasType};
ghost use Rattle.ir_builder_frames.specs.Settings.{rtype_of};
ghost use Rattle.ir_builder_frames.specs.Lines.{OwnLines};
ghost use Rattle.ir_builder_operations.specs.Operating.{ActsOn, ActsOnTwo};
ghost use Rattle.ir_builder_operations.specs.Boxes.{boxed, objects, appends};
ghost use Rattle.ir_builder_operations.specs.Taking.{item_as};

use crate::boxes::emit_unboxed;
use crate::operation::{Operation, arguments, emit_operation};
use c_core::{ListPrim, Prim, TuplePrim};
use ir_builder_frames::Emitter;
use ir_core::{Lit, Op, PArg, RType, Reg};
use py_typed::Ty;
use std::alloc::Global;
use value_core::{Many, Memory};

// Puts an object behind the items of a list.
fn push_item(
    b: &mut Emitter,
    alloc: Global,
    list: Reg,
    item: Reg,
    line: usize,
) -> Result<(), Memory>
    requires list { HasType b.old list.0 RType.Ref }
    requires item { HasType b.old item.0 RType.Ref }
    ensures kept { Extends b.old b.new }
    ensures pushed { OnOk result (Pushes b.old b.new (appends list item) line) }
    ensures lined { OwnLines line b.old b.new }
{
    let mut args = Many::new(alloc);
    args.push(PArg::Var(list))?;
    args.push(PArg::Var(item))?;
    b.push(Op::Prim(None, Prim::List(ListPrim::Append), args), line)
}

/// A new list of objects (Python Language Reference, "List displays"). Nothing is raised.
pub fn emit_list(b: &mut Emitter, alloc: Global, items: &[Reg], line: usize) -> Result<Reg, Memory>
    requires items { HaveTypes b.old.regs (objects items.now) items.now }
    ensures kept { Extends b.old b.new }
    ensures made { IfOk result (λ r. Attempts (Shows boxed) b.old b.new r.0 RType.Ref (ActsOnAll (objects items.now) items.now (λ vs. make (ListObj vs)))) }
    ensures lined { OwnLines line b.old b.new }
{
    let list = emit_operation(b, alloc, Operation::EmptyList, &[], line)?;
    for item in items {
        push_item(b, alloc, list, *item, line)?;
    }
    Ok(list)
}

/// An object behind the items of a list (Python Library Reference, "Mutable Sequence Types", `append`), and None, which that gives.
/// Nothing is raised.
pub fn emit_append(
    b: &mut Emitter,
    alloc: Global,
    list: Reg,
    item: Reg,
    line: usize,
) -> Result<Reg, Memory>
    requires list { HasType b.old list.0 RType.Ref }
    requires item { HasType b.old item.0 RType.Ref }
    ensures kept { Extends b.old b.new }
    ensures made { IfOk result (λ r. Attempts (Shows Nothing) b.old b.new r.0 RType.Ref (ActsOnTwo boxed boxed list.0 item.0 append_item)) }
    ensures lined { OwnLines line b.old b.new }
{
    push_item(b, alloc, list, item, line)?;
    b.literal(RType::Ref, Lit::PyNone, line)
}

/// The item of a list at an index, which counts from the end where it is negative, as a value of a type, which it is one of. At run time
/// an index out of range raises IndexError.
pub fn emit_item(
    b: &mut Emitter,
    alloc: Global,
    own: &Ty,
    list: Reg,
    index: Reg,
    line: usize,
) -> Result<Reg, Memory>
    requires list { HasType b.old list.0 RType.Ref }
    requires index { HasType b.old index.0 RType.Int }
    ensures kept { Extends b.old b.new }
    ensures made { IfOk result (λ r. Attempts (Shows (sort own.now)) b.old b.new r.0 (rtype_of (sort own.now)) (ActsOnTwo boxed Int list.0 index.0 (item_as (sort own.now)))) }
    ensures lined { OwnLines line b.old b.new }
{
    let item = emit_operation(b, alloc, Operation::Item, &[list, index], line)?;
    emit_unboxed(b, alloc, own, item, line)
}

/// A tuple of 1 to 16 objects (Python Language Reference, "Expression lists"). Nothing is raised.
pub fn emit_tuple(b: &mut Emitter, alloc: Global, parts: &[Reg], line: usize) -> Result<Reg, Memory>
    requires some { 1 ≤ length parts.now }
    requires few { length parts.now ≤ 16 }
    requires parts { HaveTypes b.old.regs (objects parts.now) parts.now }
    ensures kept { Extends b.old b.new }
    ensures made { IfOk result (λ r. Attempts (Shows boxed) b.old b.new r.0 RType.Ref (ActsOnAll (objects parts.now) parts.now (λ vs. give (TupleVal (tupled vs))))) }
    ensures lined { OwnLines line b.old b.new }
{
    let args = arguments(alloc, parts)?;
    b.primitive(RType::Ref, Prim::Tuple(TuplePrim::Pack), args, line)
}

/// The part of a tuple with a number, from 0, which it has. Nothing is raised.
pub fn emit_tuple_part(
    b: &mut Emitter,
    alloc: Global,
    tuple: Reg,
    number: usize,
    line: usize,
) -> Result<Reg, Memory>
    requires tuple { HasType b.old tuple.0 RType.Ref }
    requires small { number < 2 ^ 63 }
    ensures kept { Extends b.old b.new }
    ensures made { IfOk result (λ r. Attempts (Shows boxed) b.old b.new r.0 RType.Ref (ActsOn boxed tuple.0 (tuple_part number))) }
    ensures lined { OwnLines line b.old b.new }
{
    let mut args = Many::new(alloc);
    args.push(PArg::Var(tuple))?;
    args.push(PArg::Number(number as i64))?;
    b.primitive(RType::Ref, Prim::Tuple(TuplePrim::GetItem), args, line)
}
