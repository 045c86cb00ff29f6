//! Values as objects, and objects as values of a type.
ghost use Rattle.std.specs.Prelude.{◌≡◌, IfOk};
ghost use Rattle.py_typed.specs.Sorts.{sort, Optional};
ghost use Rattle.source_meaning.specs.State.{give};
ghost use Rattle.ir_builder_frames.specs.Building.{Extends};
ghost use Rattle.ir_builder_frames.specs.Computing.{Shows, Attempts};
ghost use Rattle.ir_builder_frames.specs.Placing.{HasType};
ghost use Rattle.ir_builder_frames.specs.Settings.{rtype_of};
ghost use Rattle.ir_builder_frames.specs.Lines.{OwnLines};
ghost use Rattle.ir_builder_operations.specs.Operating.{ActsOn};
ghost use Rattle.ir_builder_operations.specs.Boxes.{boxed, taken_as};
ghost use Rattle.ir_builder_operations.specs.Converting.{unboxed_in};

use crate::operation::{Operation, Unboxed, emit_operation};
use ir_builder_frames::Emitter;
use ir_core::{RType, Reg};
use py_typed::Ty;
use std::alloc::Global;
use value_core::Memory;

// How values of a type are held that are no objects.
pub(crate) fn unboxed(t: &Ty) -> Option<Unboxed>
    ensures { result ≡ unboxed_in (sort t.now) }
{
    match t {
        Ty::Int => Some(Unboxed::Int),
        Ty::I64 => Some(Unboxed::Native),
        Ty::Bool => Some(Unboxed::Bool),
        _ => None,
    }
}

/// A value of a type as an object (what mypyc's developer documentation calls boxed). What is an object is in its register
/// already. Nothing is raised.
pub fn emit_boxed(
    b: &mut Emitter,
    alloc: Global,
    t: &Ty,
    x: Reg,
    line: usize,
) -> Result<Reg, Memory>
    requires value { HasType b.old x.0 (rtype_of (sort t.now)) }
    ensures kept { Extends b.old b.new }
    ensures made { IfOk result (λ r. Attempts (Shows (Optional (sort t.now))) b.old b.new r.0 RType.Ref (ActsOn (sort t.now) x.0 give)) }
    ensures lined { OwnLines line b.old b.new }
{
    match unboxed(t) {
        Some(unboxed) => emit_operation(b, alloc, Operation::Boxing(unboxed), &[x], line),
        None => Ok(x),
    }
}

/// An object as a value of a type, which it is one of. Nothing is raised.
pub fn emit_unboxed(
    b: &mut Emitter,
    alloc: Global,
    t: &Ty,
    x: Reg,
    line: usize,
) -> Result<Reg, Memory>
    requires value { HasType b.old x.0 RType.Ref }
    ensures kept { Extends b.old b.new }
    ensures made { IfOk result (λ r. Attempts (Shows (sort t.now)) b.old b.new r.0 (rtype_of (sort t.now)) (ActsOn boxed x.0 (taken_as (sort t.now)))) }
    ensures lined { OwnLines line b.old b.new }
{
    match unboxed(t) {
        Some(unboxed) => emit_operation(b, alloc, Operation::Unboxing(unboxed), &[x], line),
        None => Ok(x),
    }
}
