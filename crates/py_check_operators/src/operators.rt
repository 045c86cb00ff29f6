//! Signs, `not` and arithmetic.
ghost use Rattle.std.specs.Prelude.{◌≡◌, map, IfOk};
ghost use Rattle.std.specs.Option.{option_map, option_zip};
ghost use Rattle.py_typed.specs.Sorts.{sort};
ghost use Rattle.py_typed.specs.Classes.{class_entry};
ghost use Rattle.py_typed.specs.WellTypedExpr as typing;
ghost use Rattle.py_check_messages.specs.Seen.{Tells, judged, ruled};
ghost use Rattle.py_check_coercions.specs.Boxes.{boxed};
ghost use Rattle.py_check_operators.specs.Operators as rule_of;

use py_check_coercions::{coerced, kept, truth};
use py_check_messages::{unsupported_operand, unsupported_operands};
use py_syntax::{BinOp, Span};
use py_syntax_diagnostics::Diag;
use py_typed::{Classes, TExpr, TKind, Ty, is_number, is_same_type, number_join};
use std::alloc::Global;
use value_core::{Many, Memory};

/// `-e` (Python Language Reference, "Unary arithmetic and bitwise operations").
pub fn negation(
    alloc: Global,
    classes: &Classes,
    span: Span,
    e: Option<Box<TExpr>>,
    faults: &mut Many<Diag>,
) -> Result<Option<Box<TExpr>>, Memory>
    ensures { IfOk result (λ t. Tells boxed t faults.old faults.new (ruled span (rule_of.negation (map class_entry classes.now.list) span) (option_map boxed e))) }
{
    let Some(e) = e else {
        return Ok(None);
    };
    if !is_number(&e.ty) {
        unsupported_operand(alloc, classes, span, "-", &e.ty, faults)?;
        return Ok(None);
    }
    let ty = number_join(&e.ty, &Ty::Int);
    let e = kept(alloc, TKind::Neg(e), ty, span)?;
    Ok(Some(e))
}

/// `+e`, which is e.
pub fn affirmation(
    alloc: Global,
    classes: &Classes,
    span: Span,
    e: Option<Box<TExpr>>,
    faults: &mut Many<Diag>,
) -> Result<Option<Box<TExpr>>, Memory>
    ensures { IfOk result (λ t. Tells boxed t faults.old faults.new (ruled span (rule_of.affirmation (map class_entry classes.now.list)) (option_map boxed e))) }
{
    let Some(e) = e else {
        return Ok(None);
    };
    if !is_number(&e.ty) {
        unsupported_operand(alloc, classes, span, "+", &e.ty, faults)?;
        return Ok(None);
    }
    let ty = number_join(&e.ty, &Ty::Int);
    let e = coerced(alloc, e, &ty)?;
    Ok(Some(e))
}

/// `not e`.
pub fn inversion(
    alloc: Global,
    span: Span,
    e: Option<Box<TExpr>>,
) -> Result<Option<Box<TExpr>>, Memory>
    ensures { IfOk result (λ t. option_map boxed t ≡ option_map (rule_of.inversion span) (option_map boxed e)) }
{
    let Some(e) = e else {
        return Ok(None);
    };
    let e = truth(alloc, e)?;
    let e = kept(alloc, TKind::Not(e), Ty::Bool, span)?;
    Ok(Some(e))
}

/// `a op b` (Python Language Reference, "Binary arithmetic operations").
pub fn arithmetic(
    alloc: Global,
    classes: &Classes,
    span: Span,
    op: BinOp,
    a: Option<Box<TExpr>>,
    b: Option<Box<TExpr>>,
    faults: &mut Many<Diag>,
) -> Result<Option<Box<TExpr>>, Memory>
    ensures { IfOk result (λ t. Tells boxed t faults.old faults.new (ruled span (rule_of.arithmetic (map class_entry classes.now.list) span op) (option_zip (option_map boxed a) (option_map boxed b)))) }
{
    let Some(a) = a else {
        return Ok(None);
    };
    let Some(b) = b else {
        return Ok(None);
    };
    if is_concat(op, &a.ty, &b.ty) {
        let e = kept(alloc, TKind::Concat(a, b), Ty::Str, span)?;
        return Ok(Some(e));
    }
    if is_numeric(op, &a.ty, &b.ty) {
        let ty = number_join(&a.ty, &b.ty);
        let e = kept(alloc, TKind::Arith(op, a, b), ty, span)?;
        return Ok(Some(e));
    }
    unsupported_operands(alloc, classes, span, op_text(op), &a.ty, &b.ty, faults)?;
    Ok(None)
}

/// The type of `a op b`, from those of a and b.
pub fn arithmetic_type(
    alloc: Global,
    classes: &Classes,
    span: Span,
    op: BinOp,
    s: &Ty,
    t: &Ty,
    faults: &mut Many<Diag>,
) -> Result<Option<Ty>, Memory>
    ensures { IfOk result (λ r. Tells sort r faults.old faults.new (judged span (rule_of.arithmetic_type (map class_entry classes.now.list) op (sort s.now) (sort t.now)))) }
{
    if is_concat(op, s, t) {
        return Ok(Some(Ty::Str));
    }
    if is_numeric(op, s, t) {
        return Ok(Some(number_join(s, t)));
    }
    unsupported_operands(alloc, classes, span, op_text(op), s, t, faults)?;
    Ok(None)
}

fn is_concat(op: BinOp, s: &Ty, t: &Ty) -> bool
    ensures { result ≡ rule_of.is_concat op (sort s.now) (sort t.now) }
{
    matches!(op, BinOp::Add) && are_texts(s, t)
}

fn is_numeric(op: BinOp, s: &Ty, t: &Ty) -> bool
    ensures { result ≡ rule_of.is_numeric op (sort s.now) (sort t.now) }
{
    !matches!(op, BinOp::Bar) && are_numbers(s, t)
}

/// Whether both types are that of texts.
pub(crate) fn are_texts(s: &Ty, t: &Ty) -> bool
    ensures { result ≡ typing.are_texts (sort s.now) (sort t.now) }
{
    is_same_type(s, &Ty::Str) && is_same_type(t, &Ty::Str)
}

/// Whether both types are types of numbers.
pub(crate) fn are_numbers(s: &Ty, t: &Ty) -> bool
    ensures { result ≡ typing.are_numbers (sort s.now) (sort t.now) }
{
    is_number(s) && is_number(t)
}

fn op_text(op: BinOp) -> &'static str
    ensures { result.now ≡ rule_of.op_text op }
{
    match op {
        BinOp::Add => "+",
        BinOp::Sub => "-",
        BinOp::Mul => "*",
        BinOp::FloorDiv => "//",
        BinOp::Mod => "%",
        BinOp::Shl => "<<",
        BinOp::Shr => ">>",
        BinOp::Bar => "|",
    }
}
