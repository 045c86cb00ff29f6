//! Expressions without parts.
ghost use Rattle.std.specs.Prelude.{◌≡◌, Some, IfOk};
ghost use Rattle.std.specs.Option.{option_map};
ghost use Rattle.py_typed.specs.Sorts as sort;
ghost use Rattle.py_typed.specs.Expressions as node;
ghost use Rattle.py_typed.specs.Expressions.{typed};
ghost use Rattle.py_check_coercions.specs.Boxes.{boxed};

use py_check_coercions::kept;
use py_syntax::Span;
use py_typed::{TExpr, TKind, Ty};
use std::alloc::Global;
use value_core::{Memory, Text};

/// A number (Python Language Reference, "Integer literals").
pub(crate) fn number(alloc: Global, span: Span, n: i128) -> Result<Option<Box<TExpr>>, Memory>
    ensures { IfOk result (λ t. option_map boxed t ≡ Some (typed (node.Int n) sort.Int span)) }
{
    let e = kept(alloc, TKind::Int(n), Ty::Int, span)?;
    Ok(Some(e))
}

/// A text (Python Language Reference, "String and Bytes literals").
pub(crate) fn text(alloc: Global, span: Span, s: &Text) -> Result<Option<Box<TExpr>>, Memory>
    ensures { IfOk result (λ t. option_map boxed t ≡ Some (typed (node.Str s.now) sort.Str span)) }
{
    let s = s.clone()?;
    let e = kept(alloc, TKind::Str(s), Ty::Str, span)?;
    Ok(Some(e))
}

/// `True` or `False`.
pub(crate) fn flag(alloc: Global, span: Span, b: bool) -> Result<Option<Box<TExpr>>, Memory>
    ensures { IfOk result (λ t. option_map boxed t ≡ Some (typed (node.Flag b) sort.Bool span)) }
{
    let e = kept(alloc, TKind::Bool(b), Ty::Bool, span)?;
    Ok(Some(e))
}

/// `None`.
pub(crate) fn nothing(alloc: Global, span: Span) -> Result<Option<Box<TExpr>>, Memory>
    ensures { IfOk result (λ t. option_map boxed t ≡ Some (typed node.Nothing sort.Nothing span)) }
{
    let e = kept(alloc, TKind::Nothing, Ty::Nothing, span)?;
    Ok(Some(e))
}
