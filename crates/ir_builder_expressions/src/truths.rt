//! The truth of a value in a register, by its type (Python Library Reference, "Truth Value Testing").
ghost use Rattle.std.specs.Prelude.{◌≡◌, IfOk, true};
ghost use Rattle.py_typed.specs.Sorts.{sort, Bool, Optional};
ghost use Rattle.ir_builder_frames.specs.Building.{Extends};
ghost use Rattle.ir_builder_frames.specs.Computing.{Shows, Attempts};
ghost use Rattle.ir_builder_frames.specs.Placing.{HasType};
ghost use Rattle.ir_builder_frames.specs.Settings.{rtype_of};
ghost use Rattle.ir_builder_frames.specs.Lines.{OwnLines};
ghost use Rattle.ir_builder_operations.specs.Boxes.{boxed};
ghost use Rattle.ir_builder_operations.specs.Operating.{ActsOn};
ghost use Rattle.ir_builder_expressions.specs.Truths.{is_plain, is_testable, testable_of, is_full, tested_inside, TellsTruth};

use crate::types::truth;
use ir_builder_choices::{begin, meet, turn};
use ir_builder_comparisons::emit_truth;
use ir_builder_frames::Emitter;
use ir_builder_operations::{Operation, emit_operation, emit_unboxed};
use ir_core::{RType, Reg};
use py_typed::Ty;
use std::alloc::Global;
use value_core::Memory;

/// What has a truth and is never None: a number, a bool or a text, a list, or a tuple.
#[derive(Clone, Copy)]
pub(crate) enum Testable {
    Scalar,
    List,
    Tuple,
}

// What has a truth, by its type.
fn testable_by(t: &Ty) -> Testable
    ensures { result ≡ testable_of (sort t.now) }
{
    match t {
        Ty::List(_) => Testable::List,
        Ty::Tuple(_) => Testable::Tuple,
        _ => Testable::Scalar,
    }
}

// Whether a list has items.
fn emit_filled(b: &mut Emitter, alloc: Global, list: Reg, line: usize) -> Result<Reg, Memory>
    requires value { HasType b.old list.0 RType.Ref }
    ensures kept { Extends b.old b.new }
    ensures made { IfOk result (λ r. Attempts (Shows Bool) b.old b.new r.0 RType.Bool (ActsOn boxed list.0 is_full)) }
    ensures lined { OwnLines line b.old b.new }
{
    let length = emit_operation(b, alloc, Operation::ListLength, &[list], line)?;
    emit_truth(b, alloc, &Ty::Int, length, line)
}

// The truth of a value of a type that is never None. A tuple is true.
fn emit_plain_truth(
    b: &mut Emitter,
    alloc: Global,
    t: &Ty,
    x: Reg,
    line: usize,
) -> Result<Reg, Memory>
    requires plain { is_plain (sort t.now) ≡ true }
    requires value { HasType b.old x.0 (rtype_of (sort t.now)) }
    ensures kept { Extends b.old b.new }
    ensures made { IfOk result (λ r. TellsTruth b.old b.new x.0 r.0 (sort t.now)) }
    ensures lined { OwnLines line b.old b.new }
{
    match testable_by(t) {
        Testable::Scalar => emit_truth(b, alloc, t, x, line),
        Testable::List => emit_filled(b, alloc, x, line),
        Testable::Tuple => b.literal(RType::Bool, truth(true), line),
    }
}

// The truth of an object as a value of a type that is never None.
fn emit_object_truth(
    b: &mut Emitter,
    alloc: Global,
    t: &Ty,
    object: Reg,
    line: usize,
) -> Result<Reg, Memory>
    requires plain { is_plain (sort t.now) ≡ true }
    requires value { HasType b.old object.0 RType.Ref }
    ensures kept { Extends b.old b.new }
    ensures made { IfOk result (λ r. Attempts (Shows Bool) b.old b.new r.0 RType.Bool (ActsOn boxed object.0 (tested_inside (sort t.now)))) }
    ensures lined { OwnLines line b.old b.new }
{
    let value = emit_unboxed(b, alloc, t, object, line)?;
    emit_plain_truth(b, alloc, t, value, line)
}

// The truth of what is None or a value of a type: None is false.
fn emit_optional_truth(
    b: &mut Emitter,
    alloc: Global,
    inner: &Ty,
    x: Reg,
    line: usize,
) -> Result<Reg, Memory>
    requires plain { is_plain (sort inner.now) ≡ true }
    requires value { HasType b.old x.0 RType.Ref }
    ensures kept { Extends b.old b.new }
    ensures made { IfOk result (λ r. TellsTruth b.old b.new x.0 r.0 (Optional (sort inner.now))) }
    ensures lined { OwnLines line b.old b.new }
{
    let absent = emit_operation(b, alloc, Operation::Absence, &[x], line)?;
    let choice = begin(b, RType::Bool)?;
    let no = b.literal(RType::Bool, truth(false), line)?;
    let end = turn(b, choice, no, line)?;
    let second = b.here();
    let holds = emit_object_truth(b, alloc, inner, x, line)?;
    meet(b, choice, absent, end, second, holds, line)?;
    Ok(choice.target)
}

/// The truth of a value of a type: numbers other than 0, and texts and lists that are not empty, are true, and tuples always are. Of what
/// may be None, None is false, and anything else is as true as a value of the type under it. Nothing is raised.
pub(crate) fn emit_truth_of(
    b: &mut Emitter,
    alloc: Global,
    t: &Ty,
    x: Reg,
    line: usize,
) -> Result<Reg, Memory>
    requires testable { is_testable (sort t.now) ≡ true }
    requires value { HasType b.old x.0 (rtype_of (sort t.now)) }
    ensures kept { Extends b.old b.new }
    ensures made { IfOk result (λ r. TellsTruth b.old b.new x.0 r.0 (sort t.now)) }
    ensures lined { OwnLines line b.old b.new }
{
    match t {
        Ty::Optional(inner) => emit_optional_truth(b, alloc, inner, x, line),
        _ => emit_plain_truth(b, alloc, t, x, line),
    }
}
