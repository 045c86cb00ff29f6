//! Typed values, and what is made of them.
ghost use Rattle.std.specs.Prelude.{◌≡◌, IfOk};
ghost use Rattle.py_typed.specs.Sorts.{sort};
ghost use Rattle.py_typed.specs.Expressions.{typed_expr, typed_node, typed};
ghost use Rattle.py_check_context.specs.Context.{wanted};
ghost use Rattle.py_check_coercions.specs.Boxes.{boxed};
ghost use Rattle.py_check_coercions.specs.Values as rule_of;

use py_check_context::Want;
use py_syntax::Span;
use py_typed::{TExpr, TKind, Ty, copy_of, is_same_type};
use std::alloc::Global;
use value_core::Memory;

/// A typed expression.
pub fn kept(alloc: Global, kind: TKind, ty: Ty, span: Span) -> Result<Box<TExpr>, Memory>
    ensures { IfOk result (λ e. boxed e ≡ typed (typed_node kind) (sort ty) span) }
{
    Ok(Box::new(alloc, TExpr { kind, ty, span })?)
}

/// A value as one of a type.
pub fn coerced(alloc: Global, e: Box<TExpr>, t: &Ty) -> Result<Box<TExpr>, Memory>
    ensures { IfOk result (λ r. boxed r ≡ rule_of.coerced (sort t.now) (boxed e)) }
{
    if is_same_type(&e.ty, t) {
        return Ok(e);
    }
    let ty = copy_of(alloc, t)?;
    let span = e.span;
    kept(alloc, TKind::Coerce(e), ty, span)
}

/// A value as a truth value.
pub fn truth(alloc: Global, e: Box<TExpr>) -> Result<Box<TExpr>, Memory>
    ensures { IfOk result (λ r. boxed r ≡ rule_of.truth (boxed e)) }
{
    if is_same_type(&e.ty, &Ty::Bool) {
        return Ok(e);
    }
    let span = e.span;
    kept(alloc, TKind::Truth(e), Ty::Bool, span)
}

/// A value as what is asked for.
pub fn changed(alloc: Global, e: Box<TExpr>, want: Want<'_>) -> Result<Box<TExpr>, Memory>
    ensures { IfOk result (λ r. boxed r ≡ rule_of.changed (wanted want.entry) (boxed e)) }
{
    match want {
        Want::Wants(t) => coerced(alloc, e, t),
        _ => Ok(e),
    }
}
