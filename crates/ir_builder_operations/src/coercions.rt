//! A number of one type as the equal one of another type.
ghost use Rattle.std.specs.Prelude.{◌≡◌, IfOk, true};
ghost use Rattle.py_typed.specs.Fits.{is_number};
ghost use Rattle.py_typed.specs.Sorts.{sort};
ghost use Rattle.source_meaning.specs.Operations.{coerced};
ghost use Rattle.ir_builder_frames.specs.Building.{Extends};
ghost use Rattle.ir_builder_frames.specs.Computing.{Shows, Attempts};
ghost use Rattle.ir_builder_frames.specs.Placing.{HasType};
ghost use Rattle.ir_builder_frames.specs.Settings.{rtype_of};
ghost use Rattle.ir_builder_frames.specs.Lines.{OwnLines};
ghost use Rattle.ir_builder_operations.specs.Operating.{ActsOn};
ghost use Rattle.ir_builder_operations.specs.Selecting.{is_whole};
ghost use Rattle.ir_builder_operations.specs.Converting.{coercion};

use crate::operation::{Operation, emit_operation};
use ir_builder_frames::Emitter;
use ir_core::Reg;
use py_typed::Ty;
use std::alloc::Global;
use value_core::Memory;

// The operation from one type to another, where the value is not the same.
fn operation_between(from: &Ty, to: &Ty) -> Option<Operation>
    ensures { result ≡ coercion (sort from.now) (sort to.now) }
{
    match (from, to) {
        (Ty::Bool, Ty::Int) => Some(Operation::BoolToInt),
        (Ty::Bool, Ty::I64) => Some(Operation::BoolToNative),
        (Ty::I64, Ty::Int) => Some(Operation::NativeToInt),
        (Ty::Int, Ty::I64) => Some(Operation::IntToNative),
        _ => None,
    }
}

/// A number or a bool as one of another type (Python Language Reference, "Arithmetic conversions"; mypyc's "Native integer types").
/// A bool is 0 or 1. At run time OverflowError is raised where an `int` has no place in 64 bits. A value of that type is in its
/// register already.
pub fn emit_coercion(
    b: &mut Emitter,
    alloc: Global,
    from: &Ty,
    to: &Ty,
    x: Reg,
    line: usize,
) -> Result<Reg, Memory>
    requires numeric { is_number (sort from.now) ≡ true }
    requires whole { is_whole (sort to.now) ≡ true }
    requires value { HasType b.old x.0 (rtype_of (sort from.now)) }
    ensures kept { Extends b.old b.new }
    ensures made { IfOk result (λ r. Attempts (Shows (sort to.now)) b.old b.new r.0 (rtype_of (sort to.now)) (ActsOn (sort from.now) x.0 (coerced (sort to.now)))) }
    ensures lined { OwnLines line b.old b.new }
{
    match operation_between(from, to) {
        Some(op) => emit_operation(b, alloc, op, &[x], line),
        None => Ok(x),
    }
}
