//! Whether a type, an operation or a node is one of those that are compiled, whatever stands in it.
ghost use Rattle.std.specs.Prelude.{◌≡◌, is_some, map};
ghost use Rattle.py_typed.specs.Sorts.{sort, sorts_of};
ghost use Rattle.py_typed.specs.Expressions.{typed_expr, typed_node, typed_comparison, comparisons_of};
ghost use Rattle.py_typed.specs.Statements.{typed_func, variable};
ghost use Rattle.ir_builder_comparisons.specs.Comparing as comparing;
ghost use Rattle.ir_builder_operations.specs.Selecting as selecting;
ghost use Rattle.ir_builder_expressions.specs.Applying as applying;
ghost use Rattle.ir_builder_expressions.specs.Parts as sorts;
ghost use Rattle.ir_builder_expressions.specs.Truths as truths;
ghost use Rattle.ir_builder_supported.specs.Expressions as form;
ghost use Rattle.ir_builder_supported.specs.Forms as spec;
ghost use Rattle.ir_builder_supported.specs.Statements as statement;

use py_syntax::{BinOp, CmpOp};
use py_typed::{TExpr, TFunc, TKind, Ty, Var, is_nothing, is_number, is_text};

fn is_int(t: &Ty) -> bool
    ensures { result ≡ sorts.is_int (sort t.now) }
{
    matches!(t, Ty::Int)
}

fn is_bool(t: &Ty) -> bool
    ensures { result ≡ sorts.is_bool (sort t.now) }
{
    matches!(t, Ty::Bool)
}

/// Whether a type is one of whole numbers.
fn is_whole(t: &Ty) -> bool
    ensures { result ≡ selecting.is_whole (sort t.now) }
{
    matches!(t, Ty::Int | Ty::I64)
}

/// Whether a type is one of numbers, bools or texts.
fn is_scalar(t: &Ty) -> bool
    ensures { result ≡ sorts.is_scalar (sort t.now) }
{
    matches!(t, Ty::Int | Ty::I64 | Ty::Bool | Ty::Str)
}

/// Whether a type's values are compiled: numbers, bools and texts, and lists, tuples and Optionals of such types.
#[cycle(value)]
pub(crate) fn is_value(t: &Ty) -> bool
    ensures { result ≡ spec.is_value (sort t.now) }
{
    match t {
        Ty::Int | Ty::I64 | Ty::Bool | Ty::Str => true,
        Ty::List(t) | Ty::Optional(t) => is_value(t),
        Ty::Tuple(ts) => all_values(ts.as_slice()),
        Ty::Nothing | Ty::Dict(_, _) | Ty::Class(_) | Ty::Exc(_) => false,
    }
}

#[cycle(value)]
fn all_values(ts: &[Ty]) -> bool
    ensures { result ≡ spec.all_values (sorts_of (map sort ts.now)) }
{
    for t in ts {
        if !is_value(t) {
            return false;
        }
    }
    true
}

/// Whether a type is one of results that are compiled, which may be None.
fn is_result(t: &Ty) -> bool
    ensures { result ≡ spec.is_result (sort t.now) }
{
    is_nothing(t) || is_value(t)
}

fn is_arithmetic(op: BinOp) -> bool
    ensures { result ≡ selecting.is_arithmetic op }
{
    !matches!(op, BinOp::Bar)
}

fn is_ordering(op: CmpOp) -> bool
    ensures { result ≡ comparing.is_ordering op }
{
    matches!(
        op,
        CmpOp::Eq | CmpOp::Ne | CmpOp::Lt | CmpOp::Le | CmpOp::Gt | CmpOp::Ge
    )
}

/// Whether operands of two types are compared as numbers or as texts.
fn is_pair(left: &Ty, right: &Ty) -> bool
    ensures { result ≡ sorts.is_pair (sort left.now) (sort right.now) }
{
    (is_number(left) && is_number(right)) || (is_text(left) && is_text(right))
}

/// Whether each pair of a chain is compared so, behind an operand of a type.
fn are_pairs(first: &Ty, more: &[(CmpOp, TExpr)]) -> bool
    ensures { result ≡ form.are_pairs (sort first.now) (comparisons_of (map typed_comparison more.now)) }
{
    let mut left = first;
    for (op, e) in more {
        if !(is_ordering(*op) && is_pair(left, &e.ty)) {
            return false;
        }
        left = &e.ty;
    }
    true
}

fn is_identity(op: CmpOp) -> bool
    ensures { result ≡ is_some (applying.absence_of op) }
{
    matches!(op, CmpOp::Is | CmpOp::IsNot)
}

/// Whether an operator asks whether a part is None, where this operand stands behind it.
fn asks_absence(op: CmpOp, e: &TExpr) -> bool
    ensures { result ≡ is_some (applying.absence_by op (typed_expr e.now)) }
{
    match &e.kind {
        TKind::Nothing => is_identity(op),
        _ => false,
    }
}

/// Whether a part is only asked whether it is None: `is None` or `is not None` alone stands behind it.
fn is_asked(more: &[(CmpOp, TExpr)]) -> bool
    ensures { result ≡ form.is_asked (comparisons_of (map typed_comparison more.now)) }
{
    match more {
        [(op, e)] => asks_absence(*op, e),
        _ => false,
    }
}

/// Whether what stands behind a part of a type is compiled.
fn are_compared(first: &Ty, more: &[(CmpOp, TExpr)]) -> bool
    ensures { result ≡ form.are_compared (sort first.now) (comparisons_of (map typed_comparison more.now)) }
{
    is_asked(more) || (is_scalar(first) && are_pairs(first, more))
}

/// Whether values of a type have items that are read by an index.
fn is_indexed(t: &Ty) -> bool
    ensures { result ≡ form.is_indexed (sort t.now) }
{
    matches!(t, Ty::Str | Ty::List(_))
}

/// Whether values of a type have a length.
fn is_counted(t: &Ty) -> bool
    ensures { result ≡ applying.is_counted (sort t.now) }
{
    matches!(t, Ty::Str | Ty::List(_) | Ty::Tuple(_))
}

/// Whether values of a type are never None and have a truth that is compiled: numbers, bools and texts, lists and tuples.
fn is_plain(t: &Ty) -> bool
    ensures { result ≡ truths.is_plain (sort t.now) }
{
    matches!(
        t,
        Ty::Int | Ty::I64 | Ty::Bool | Ty::Str | Ty::List(_) | Ty::Tuple(_)
    )
}

/// Whether values of a type have a truth that is compiled: those, and what is one of them or None.
fn is_testable(t: &Ty) -> bool
    ensures { result ≡ truths.is_testable (sort t.now) }
{
    match t {
        Ty::Optional(inner) => is_plain(inner),
        _ => is_plain(t),
    }
}

/// Whether an expression is of a form that is compiled, whatever its parts are.
pub(crate) fn is_form(e: &TExpr) -> bool
    ensures { result ≡ form.is_form (typed_node e.now.kind) (sort e.now.ty) }
{
    match &e.kind {
        TKind::Int(_) => is_int(&e.ty),
        TKind::Str(_) | TKind::Concat(_, _) | TKind::Input => is_text(&e.ty),
        TKind::Bool(_) | TKind::Not(_) => is_bool(&e.ty),
        TKind::Nothing => true,
        TKind::Local(_)
        | TKind::Global(_)
        | TKind::Cond(_, _, _)
        | TKind::List(_)
        | TKind::Tuple(_)
        | TKind::TupleAt(_, _)
        | TKind::Pop(_)
        | TKind::Coerce(_) => is_value(&e.ty),
        TKind::And(_, _) | TKind::Or(_, _) => is_value(&e.ty) && is_testable(&e.ty),
        TKind::Neg(_) => is_whole(&e.ty),
        TKind::Truth(a) => is_bool(&e.ty) && is_testable(&a.ty),
        TKind::Arith(op, _, _) => is_whole(&e.ty) && is_arithmetic(*op),
        TKind::Compare(first, more) => {
            is_bool(&e.ty) && are_compared(&first.ty, more.as_slice())
        }
        TKind::At(a, _) => is_indexed(&a.ty),
        TKind::Call(_, _) => is_result(&e.ty),
        TKind::Len(a) => is_counted(&a.ty),
        TKind::ToStr(a) => is_scalar(&a.ty),
        TKind::Append(_, b) => is_value(&b.ty),
        TKind::Dict(_)
        | TKind::Attr(_, _)
        | TKind::Make(_, _)
        | TKind::MakeExc(_, _)
        | TKind::Method(_, _, _)
        | TKind::SuperInit(_, _)
        | TKind::Print(_) => false,
    }
}

/// Whether a type is one of lists.
pub(crate) fn is_list(t: &Ty) -> bool
    ensures { result ≡ statement.is_list (sort t.now) }
{
    matches!(t, Ty::List(_))
}

fn hold_values(variables: &[Var]) -> bool
    ensures { result ≡ statement.hold_values (map variable variables.now) }
{
    for v in variables {
        if !is_value(&v.ty) {
            return false;
        }
    }
    true
}

/// Whether a function is no method, and its variables hold values that are compiled, and its result is such a value or None.
pub(crate) fn is_function(f: &TFunc) -> bool
    ensures { result ≡ statement.is_function (typed_func f.now) }
{
    f.class.is_none()
        && (f.params <= f.locals.len() && (hold_values(f.locals.as_slice()) && is_result(&f.ret)))
}
