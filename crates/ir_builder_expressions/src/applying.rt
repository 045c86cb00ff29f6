//! Operations on the values of one or two parts of an expression.
ghost use Rattle.std.specs.Prelude.{◌≡◌, ◌<◌, IfOk, true, Some, is_some, map};
ghost use Rattle.py_typed.specs.Fits.{is_number};
ghost use Rattle.py_typed.specs.Sorts.{sort, Int, Bool, Nothing};
ghost use Rattle.py_typed.specs.Expressions.{typed_expr, type_of, comparisons_of, typed_comparison};
ghost use Rattle.source_meaning.specs.Operations.{arithmetic, coerced, negated, append_item};
ghost use Rattle.ir_builder_frames.specs.Building.{Extends};
ghost use Rattle.ir_builder_frames.specs.Computing.{Shows, Attempts};
ghost use Rattle.ir_builder_frames.specs.Placing.{HasType};
ghost use Rattle.ir_builder_frames.specs.Settings.{rtype_of};
ghost use Rattle.ir_builder_frames.specs.Lines.{OwnLines};
ghost use Rattle.ir_builder_operations.specs.Operating.{ActsOn, ActsOnTwo};
ghost use Rattle.ir_builder_operations.specs.Selecting.{is_arithmetic, is_whole};
ghost use Rattle.ir_builder_expressions.specs.Parts.{fitting_in, native_in, part_sort, literal_in};
ghost use Rattle.ir_builder_expressions.specs.Applying.{unary_goes, binary_goes, is_present, UnarySuits, BinarySuits, index_of, wanted_one, wanted_two, one_sort, two_sort, counting_of, arithmetic_of, negation_of, absence_of, absence_by, absence_in, applied_in, node_in, seen};
ghost use Rattle.ir_builder_operations.specs.Boxes.{boxed};
ghost use Rattle.ir_builder_operations.specs.Rows.{is_absent};
ghost use Rattle.ir_builder_operations.specs.Taking.{popped_as, part_as};
ghost use Rattle.ir_builder_operations.specs.Converting.{Converts};

use crate::truths::emit_truth_of;
use crate::types::{is_native, register_type, truth};
use ir_builder_frames::Emitter;
use ir_builder_operations::{
    Operation, emit_append, emit_boxed, emit_coercion, emit_conversion, emit_item, emit_operation,
    emit_text_of, emit_tuple_part, emit_unboxed,
};
use ir_core::{RType, Reg};
use py_syntax::{BinOp, CmpOp};
use py_typed::{TExpr, TKind, Ty};
use std::alloc::Global;
use value_core::{Memory, int_to_i64};

/// An operation on one part: the other sign, the other truth, a truth, a length, the text of a value, a value as one of another
/// type, what is taken out of a list or a tuple, and whether a value is None.
#[derive(Clone, Copy)]
pub(crate) enum Unary {
    Negated,
    Inverted,
    Tested,
    Counted,
    Written,
    Coerced,
    /// The last item of a list, which is taken out of it.
    Popped,
    /// The part of a tuple with a number, from 0.
    Part(usize),
    /// Whether a value is None, and whether it is not.
    Absent,
    Present,
}

/// An operation on two parts: of numbers, one text behind another, a letter of a text, an item of a list, and a value that is
/// put behind the items of a list.
#[derive(Clone, Copy)]
pub enum Binary {
    Arithmetic(BinOp),
    Joined,
    Indexed,
    Item,
    Appended,
}

/// An operation with its parts.
#[derive(Clone, Copy)]
pub(crate) enum Applied<'a> {
    One(Unary, &'a TExpr),
    Two(Binary, &'a TExpr, &'a TExpr),
}

// What an index is of, by its type.
fn indexed(t: &Ty) -> Binary
    ensures { result ≡ index_of (sort t.now) }
{
    match t {
        Ty::List(_) => Binary::Item,
        _ => Binary::Indexed,
    }
}

// What an operator with None behind it asks of a part.
fn absence_of(op: CmpOp) -> Option<Unary>
    ensures { result ≡ absence_of op }
{
    match op {
        CmpOp::Is => Some(Unary::Absent),
        CmpOp::IsNot => Some(Unary::Present),
        _ => None,
    }
}

// What an operator with an operand behind it asks of a part, where the operand is None.
fn absence_by(op: CmpOp, e: &TExpr) -> Option<Unary>
    ensures { result ≡ absence_by op (typed_expr e.now) }
{
    match &e.kind {
        TKind::Nothing => absence_of(op),
        _ => None,
    }
}

/// What is asked of a part by the comparisons behind it, where they are `is None` or `is not None` alone.
pub(crate) fn absence_in(rest: &[(CmpOp, TExpr)]) -> Option<Unary>
    ensures { result ≡ absence_in (comparisons_of (map typed_comparison rest.now)) }
{
    match rest {
        [(op, e)] => absence_by(*op, e),
        _ => None,
    }
}

/// The operation that an expression is, with its parts.
pub(crate) fn operation_in(e: &TExpr) -> Applied<'_>
    requires { is_some (applied_in (node_in (typed_expr e.now))) ≡ true }
    ensures { Some (seen result) ≡ applied_in (node_in (typed_expr e.now)) }
{
    match &e.kind {
        TKind::Neg(x) => Applied::One(Unary::Negated, x),
        TKind::Not(x) => Applied::One(Unary::Inverted, x),
        TKind::Truth(x) => Applied::One(Unary::Tested, x),
        TKind::Len(x) => Applied::One(Unary::Counted, x),
        TKind::ToStr(x) => Applied::One(Unary::Written, x),
        TKind::Coerce(x) => Applied::One(Unary::Coerced, x),
        TKind::Pop(x) => Applied::One(Unary::Popped, x),
        TKind::TupleAt(x, i) => Applied::One(Unary::Part(*i), x),
        TKind::Arith(op, x, y) => Applied::Two(Binary::Arithmetic(*op), x, y),
        TKind::Concat(x, y) => Applied::Two(Binary::Joined, x, y),
        TKind::At(x, y) => Applied::Two(indexed(&x.ty), x, y),
        TKind::Append(x, y) => Applied::Two(Binary::Appended, x, y),
        TKind::Compare(x, rest) => match absence_in(rest.as_slice()) {
            Some(op) => Applied::One(op, x),
            None => unreachable!(),
        },
        _ => unreachable!(),
    }
}

// The number, where it is a native integer.
fn fitting(n: i128) -> Option<i64>
    ensures { result ≡ fitting_in (Some n) }
{
    match int_to_i64(n) {
        Ok(n) => Some(n),
        Err(_) => None,
    }
}

// The number of an `int` literal that is a native integer.
fn fitting_literal(e: &TExpr) -> Option<i64>
    ensures { result ≡ fitting_in (literal_in (typed_expr e.now)) }
{
    match &e.kind {
        TKind::Int(n) => fitting(*n),
        _ => None,
    }
}

/// The number of an `int` literal that is a native integer, where one is asked for.
pub(crate) fn native_literal(e: &TExpr, to: &Ty) -> Option<i64>
    ensures { result ≡ native_in (sort to.now) (literal_in (typed_expr e.now)) }
{
    if is_native(to) {
        fitting_literal(e)
    } else {
        None
    }
}

// A part as a number of a type.
fn emit_coerced(
    b: &mut Emitter,
    alloc: Global,
    e: &TExpr,
    to: &Ty,
    x: Reg,
    line: usize,
) -> Result<Reg, Memory>
    requires numeric { is_number (sort e.now.ty) ≡ true }
    requires whole { is_whole (sort to.now) ≡ true }
    requires value { HasType b.old x.0 (rtype_of (part_sort (sort to.now) (typed_expr e.now))) }
    ensures kept { Extends b.old b.new }
    ensures made { IfOk result (λ r. Attempts (Shows (sort to.now)) b.old b.new r.0 (rtype_of (sort to.now)) (ActsOn (part_sort (sort to.now) (typed_expr e.now)) x.0 (coerced (sort to.now)))) }
    ensures lined { OwnLines line b.old b.new }
{
    match native_literal(e, to) {
        Some(_) => Ok(x),
        None => emit_coercion(b, alloc, &e.ty, to, x, line),
    }
}

// The operation of an operator on numbers of a type.
fn arithmetic_on(t: &Ty, op: BinOp) -> Operation
    ensures { result ≡ arithmetic_of (sort t.now) op }
{
    match t {
        Ty::I64 => Operation::NativeArithmetic(op),
        _ => Operation::IntArithmetic(op),
    }
}

// The operation that gives a number of a type with the other sign.
fn negation_on(t: &Ty) -> Operation
    ensures { result ≡ negation_of (sort t.now) }
{
    match t {
        Ty::I64 => Operation::NativeNegation,
        _ => Operation::IntNegation,
    }
}

// The result of an operator on two parts in a type. Both are there before the first is coerced.
fn emit_numbers(
    b: &mut Emitter,
    alloc: Global,
    op: BinOp,
    t: &Ty,
    left: &TExpr,
    right: &TExpr,
    x: Reg,
    y: Reg,
    line: usize,
) -> Result<Reg, Memory>
    requires built { is_arithmetic op ≡ true }
    requires whole { is_whole (sort t.now) ≡ true }
    requires left_numeric { is_number (sort left.now.ty) ≡ true }
    requires right_numeric { is_number (sort right.now.ty) ≡ true }
    requires left_value { HasType b.old x.0 (rtype_of (part_sort (sort t.now) (typed_expr left.now))) }
    requires right_value { HasType b.old y.0 (rtype_of (part_sort (sort t.now) (typed_expr right.now))) }
    ensures kept { Extends b.old b.new }
    ensures made { IfOk result (λ r. Attempts (Shows (sort t.now)) b.old b.new r.0 (rtype_of (sort t.now)) (ActsOnTwo (part_sort (sort t.now) (typed_expr left.now)) (part_sort (sort t.now) (typed_expr right.now)) x.0 y.0 (arithmetic (sort t.now) op))) }
    ensures lined { OwnLines line b.old b.new }
{
    let first = emit_coerced(b, alloc, left, t, x, line)?;
    let second = emit_coerced(b, alloc, right, t, y, line)?;
    let operation = arithmetic_on(t, op);
    emit_operation(b, alloc, operation, &[first, second], line)
}

// The other sign of a part in a type.
fn emit_negated(
    b: &mut Emitter,
    alloc: Global,
    t: &Ty,
    e: &TExpr,
    x: Reg,
    line: usize,
) -> Result<Reg, Memory>
    requires whole { is_whole (sort t.now) ≡ true }
    requires numeric { is_number (sort e.now.ty) ≡ true }
    requires value { HasType b.old x.0 (rtype_of (part_sort (sort t.now) (typed_expr e.now))) }
    ensures kept { Extends b.old b.new }
    ensures made { IfOk result (λ r. Attempts (Shows (sort t.now)) b.old b.new r.0 (rtype_of (sort t.now)) (ActsOn (part_sort (sort t.now) (typed_expr e.now)) x.0 (negated (sort t.now)))) }
    ensures lined { OwnLines line b.old b.new }
{
    let number = emit_coerced(b, alloc, e, t, x, line)?;
    let operation = negation_on(t);
    emit_operation(b, alloc, operation, &[number], line)
}

/// The type of numbers that an `int` literal which is the part of an operation has at once, where it is one of native integers.
pub(crate) fn wanted_of_part<'a>(op: Unary, t: &'a Ty, e: &'a TExpr) -> &'a Ty
    ensures { sort result.now ≡ wanted_one op (sort t.now) (type_of (typed_expr e.now)) }
{
    match op {
        Unary::Popped | Unary::Part(_) => &e.ty,
        _ => t,
    }
}

/// The same of the parts of an operation on two.
pub(crate) fn wanted_of_parts<'a>(op: Binary, t: &'a Ty, left: &'a TExpr) -> &'a Ty
    ensures { sort result.now ≡ wanted_two op (sort t.now) (type_of (typed_expr left.now)) }
{
    match op {
        Binary::Item => &left.ty,
        _ => t,
    }
}

// The operation that counts, by the type of what has a size.
fn counting(t: &Ty) -> Operation
    ensures { result ≡ counting_of (sort t.now) }
{
    match t {
        Ty::List(_) => Operation::ListLength,
        Ty::Tuple(_) => Operation::TupleLength,
        _ => Operation::Length,
    }
}

// The last item of a list, taken out, as a value of a type.
fn emit_popped(
    b: &mut Emitter,
    alloc: Global,
    t: &Ty,
    list: Reg,
    line: usize,
) -> Result<Reg, Memory>
    requires value { HasType b.old list.0 RType.Ref }
    ensures kept { Extends b.old b.new }
    ensures made { IfOk result (λ r. Attempts (Shows (sort t.now)) b.old b.new r.0 (rtype_of (sort t.now)) (ActsOn boxed list.0 (popped_as (sort t.now)))) }
    ensures lined { OwnLines line b.old b.new }
{
    let item = emit_operation(b, alloc, Operation::LastItem, &[list], line)?;
    emit_unboxed(b, alloc, t, item, line)
}

// A part of a tuple, as a value of a type.
fn emit_part_of(
    b: &mut Emitter,
    alloc: Global,
    t: &Ty,
    tuple: Reg,
    number: usize,
    line: usize,
) -> Result<Reg, Memory>
    requires few { number < 17 }
    requires value { HasType b.old tuple.0 RType.Ref }
    ensures kept { Extends b.old b.new }
    ensures made { IfOk result (λ r. Attempts (Shows (sort t.now)) b.old b.new r.0 (rtype_of (sort t.now)) (ActsOn boxed tuple.0 (part_as number (sort t.now)))) }
    ensures lined { OwnLines line b.old b.new }
{
    let part = emit_tuple_part(b, alloc, tuple, number, line)?;
    emit_unboxed(b, alloc, t, part, line)
}

// A part as a value of another type, which it fits.
fn emit_converted(
    b: &mut Emitter,
    alloc: Global,
    t: &Ty,
    e: &TExpr,
    x: Reg,
    line: usize,
) -> Result<Reg, Memory>
    requires fits { Converts (sort e.now.ty) (sort t.now) }
    requires value { HasType b.old x.0 (rtype_of (part_sort (sort t.now) (typed_expr e.now))) }
    ensures kept { Extends b.old b.new }
    ensures made { IfOk result (λ r. Attempts (Shows (sort t.now)) b.old b.new r.0 (rtype_of (sort t.now)) (ActsOn (part_sort (sort t.now) (typed_expr e.now)) x.0 (coerced (sort t.now)))) }
    ensures lined { OwnLines line b.old b.new }
{
    match native_literal(e, t) {
        Some(_) => Ok(x),
        None => emit_conversion(b, alloc, &e.ty, t, x, line),
    }
}

// A value of a type behind the items of a list, and None.
fn emit_appended(
    b: &mut Emitter,
    alloc: Global,
    t: &Ty,
    list: Reg,
    x: Reg,
    line: usize,
) -> Result<Reg, Memory>
    requires list { HasType b.old list.0 RType.Ref }
    requires value { HasType b.old x.0 (rtype_of (sort t.now)) }
    ensures kept { Extends b.old b.new }
    ensures made { IfOk result (λ r. Attempts (Shows Nothing) b.old b.new r.0 RType.Ref (ActsOnTwo boxed (sort t.now) list.0 x.0 append_item)) }
    ensures lined { OwnLines line b.old b.new }
{
    let item = emit_boxed(b, alloc, t, x, line)?;
    emit_append(b, alloc, list, item, line)
}

// Whether a value of a type is None. One that is no object is not.
fn emit_absence(b: &mut Emitter, alloc: Global, t: &Ty, x: Reg, line: usize) -> Result<Reg, Memory>
    requires value { HasType b.old x.0 (rtype_of (sort t.now)) }
    ensures kept { Extends b.old b.new }
    ensures made { IfOk result (λ r. Attempts (Shows Bool) b.old b.new r.0 RType.Bool (ActsOn (sort t.now) x.0 is_absent)) }
    ensures lined { OwnLines line b.old b.new }
{
    match register_type(t) {
        RType::Ref => emit_operation(b, alloc, Operation::Absence, &[x], line),
        _ => b.literal(RType::Bool, truth(false), line),
    }
}

// Whether a value of a type is not None.
fn emit_presence(b: &mut Emitter, alloc: Global, t: &Ty, x: Reg, line: usize) -> Result<Reg, Memory>
    requires value { HasType b.old x.0 (rtype_of (sort t.now)) }
    ensures kept { Extends b.old b.new }
    ensures made { IfOk result (λ r. Attempts (Shows Bool) b.old b.new r.0 RType.Bool (ActsOn (sort t.now) x.0 is_present)) }
    ensures lined { OwnLines line b.old b.new }
{
    let absent = emit_absence(b, alloc, t, x, line)?;
    emit_operation(b, alloc, Operation::Inversion, &[absent], line)
}

/// The result of an operation on a part, whose value is in a register.
pub(crate) fn emit_unary(
    b: &mut Emitter,
    alloc: Global,
    op: Unary,
    t: &Ty,
    e: &TExpr,
    x: Reg,
    line: usize,
) -> Result<Reg, Memory>
    requires fits { UnarySuits op (sort t.now) (sort e.now.ty) }
    requires value { HasType b.old x.0 (rtype_of (one_sort op (sort t.now) (typed_expr e.now))) }
    ensures kept { Extends b.old b.new }
    ensures made { IfOk result (λ r. Attempts (Shows (sort t.now)) b.old b.new r.0 (rtype_of (sort t.now)) (ActsOn (one_sort op (sort t.now) (typed_expr e.now)) x.0 (unary_goes op (sort t.now) (type_of (typed_expr e.now))))) }
    ensures lined { OwnLines line b.old b.new }
{
    match op {
        Unary::Negated => emit_negated(b, alloc, t, e, x, line),
        Unary::Inverted => emit_operation(b, alloc, Operation::Inversion, &[x], line),
        Unary::Tested => emit_truth_of(b, alloc, &e.ty, x, line),
        Unary::Counted => emit_operation(b, alloc, counting(&e.ty), &[x], line),
        Unary::Written => emit_text_of(b, alloc, &e.ty, x, line),
        Unary::Coerced => emit_converted(b, alloc, t, e, x, line),
        Unary::Popped => emit_popped(b, alloc, t, x, line),
        Unary::Part(number) => emit_part_of(b, alloc, t, x, number, line),
        Unary::Absent => emit_absence(b, alloc, &e.ty, x, line),
        Unary::Present => emit_presence(b, alloc, &e.ty, x, line),
    }
}

/// The result of an operation on two parts, whose values are in registers.
pub(crate) fn emit_binary(
    b: &mut Emitter,
    alloc: Global,
    op: Binary,
    t: &Ty,
    left: &TExpr,
    right: &TExpr,
    x: Reg,
    y: Reg,
    line: usize,
) -> Result<Reg, Memory>
    requires fits { BinarySuits op (sort t.now) (sort left.now.ty) (sort right.now.ty) }
    requires left_value { HasType b.old x.0 (rtype_of (two_sort op (sort t.now) (typed_expr left.now) (typed_expr left.now))) }
    requires right_value { HasType b.old y.0 (rtype_of (two_sort op (sort t.now) (typed_expr left.now) (typed_expr right.now))) }
    ensures kept { Extends b.old b.new }
    ensures made { IfOk result (λ r. Attempts (Shows (sort t.now)) b.old b.new r.0 (rtype_of (sort t.now)) (ActsOnTwo (two_sort op (sort t.now) (typed_expr left.now) (typed_expr left.now)) (two_sort op (sort t.now) (typed_expr left.now) (typed_expr right.now)) x.0 y.0 (binary_goes op (sort t.now)))) }
    ensures lined { OwnLines line b.old b.new }
{
    match op {
        Binary::Arithmetic(op) => emit_numbers(b, alloc, op, t, left, right, x, y, line),
        Binary::Joined => emit_operation(b, alloc, Operation::Concatenation, &[x, y], line),
        Binary::Indexed => emit_operation(b, alloc, Operation::Letter, &[x, y], line),
        Binary::Item => emit_item(b, alloc, t, x, y, line),
        Binary::Appended => emit_appended(b, alloc, &right.ty, x, y, line),
    }
}
