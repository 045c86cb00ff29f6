//! Dicts of what registers hold.
ghost use Rattle.std.specs.Prelude.{[], ◌∷◌, IfOk, OnOk};
ghost use Rattle.ir_builder_frames.specs.Building.{Extends};
ghost use Rattle.ir_builder_frames.specs.Computing.{Shows, HaveTypes, Attempts};
ghost use Rattle.ir_builder_frames.specs.Operands.{ActsOnAll};
ghost use Rattle.ir_builder_frames.specs.Placing.{HasType};
ghost use Rattle.ir_builder_frames.specs.Lines.{OwnLines};
ghost use Rattle.ir_builder_operations.specs.Boxes.{boxed, objects};
ghost use Rattle.ir_builder_operations.specs.Entries.{in_a_row, dict_of};
ghost use Rattle.ir_builder_operations.specs.Operating.{Alters};
ghost use Rattle.ir_builder_operations.specs.Rows.{entry_put, of_three};

use crate::operation::{Operation, emit_operation};
use c_core::{DictPrim, Prim};
use ir_builder_frames::Emitter;
use ir_core::{Op, PArg, RType, Reg};
use std::alloc::Global;
use value_core::{Many, Memory};

/// Puts a value under a key of a dict (Python Language Reference, "Assignment statements"). An equal key that is there stays at its
/// place, and another one comes behind all others. Nothing is raised.
pub fn emit_entry(
    b: &mut Emitter,
    alloc: Global,
    dict: Reg,
    key: Reg,
    value: Reg,
    line: usize,
) -> Result<(), Memory>
    requires dict { HasType b.old dict.0 RType.Ref }
    requires key { HasType b.old key.0 RType.Ref }
    requires value { HasType b.old value.0 RType.Ref }
    ensures kept { Extends b.old b.new }
    ensures put { OnOk result (Alters (ActsOnAll (boxed ∷ boxed ∷ boxed ∷ []) (dict ∷ key ∷ value ∷ []) (of_three entry_put)) b.old b.new) }
    ensures lined { OwnLines line b.old b.new }
{
    let mut args = Many::new(alloc);
    args.push(PArg::Var(dict))?;
    args.push(PArg::Var(key))?;
    args.push(PArg::Var(value))?;
    b.push(Op::Prim(None, Prim::Dict(DictPrim::SetItem), args), line)
}

/// A new dict of keys and their values (Python Language Reference, "Dictionary displays"): of equal keys the first one stays, with the
/// value of the last one. Nothing is raised.
pub fn emit_dict(
    b: &mut Emitter,
    alloc: Global,
    entries: &[(Reg, Reg)],
    line: usize,
) -> Result<Reg, Memory>
    requires entries { HaveTypes b.old.regs (objects (in_a_row entries.now)) (in_a_row entries.now) }
    ensures kept { Extends b.old b.new }
    ensures made { IfOk result (λ r. Attempts (Shows boxed) b.old b.new r.0 RType.Ref (ActsOnAll (objects (in_a_row entries.now)) (in_a_row entries.now) dict_of)) }
    ensures lined { OwnLines line b.old b.new }
{
    let dict = emit_operation(b, alloc, Operation::EmptyDict, &[], line)?;
    for entry in entries {
        emit_entry(b, alloc, dict, entry.0, entry.1, line)?;
    }
    Ok(dict)
}
