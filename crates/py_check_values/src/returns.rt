//! Returns.
ghost use Rattle.std.specs.Prelude.{◌≡◌, map, IfOk};
ghost use Rattle.std.specs.Option.{option_map};
ghost use Rattle.py_typed.specs.Sorts.{sort};
ghost use Rattle.py_typed.specs.Classes.{class_entry};
ghost use Rattle.py_typed.specs.Expressions.{typed_expr};
ghost use Rattle.py_typed.specs.WellTypedExpr as typing;
ghost use Rattle.py_check_messages.specs.Seen.{Tells, judged};
ghost use Rattle.py_check_coercions.specs.Boxes.{boxed};
ghost use Rattle.py_check_coercions.specs.Several.{with_part};
ghost use Rattle.py_check_values.specs.Returns.{return_sort};
ghost use Rattle.py_check_values.specs.Returns as rule_of;

use py_check_coercions::coerced;
use py_check_messages::{no_return_expected, return_expected, return_outside, wrong_return};
use py_syntax::Span;
use py_syntax_diagnostics::Diag;
use py_typed::{Classes, TExpr, TKind, Ty, fits, is_nothing};
use std::alloc::Global;
use value_core::{Many, Memory};

/// Where a `return` stands.
#[derive(Clone, Copy)]
pub enum Returns<'a> {
    /// In no function.
    Outside,
    /// In a function whose return type is not known.
    Untyped,
    /// In a function that returns values of this type, which may be that of `None`.
    Gives(&'a Ty),
}

/// A `return` without a value (Python Language Reference, "The return statement").
pub fn returned_nothing(
    alloc: Global,
    span: Span,
    returns: Returns<'_>,
    faults: &mut Many<Diag>,
) -> Result<Option<()>, Memory>
    ensures { IfOk result (λ t. Tells (λ done. done) t faults.old faults.new (rule_of.bare_return span (return_sort returns.entry))) }
{
    match returns {
        Returns::Outside => {
            return_outside(alloc, span, faults)?;
            Ok(None)
        }
        Returns::Untyped => Ok(None),
        Returns::Gives(t) => {
            if is_nothing(t) {
                return Ok(Some(()));
            }
            return_expected(alloc, span, faults)?;
            Ok(None)
        }
    }
}

/// A value as it is returned.
pub fn returned(
    alloc: Global,
    classes: &Classes,
    span: Span,
    returns: Returns<'_>,
    e: Option<Box<TExpr>>,
    faults: &mut Many<Diag>,
) -> Result<Option<Box<TExpr>>, Memory>
    ensures { IfOk result (λ t. Tells boxed t faults.old faults.new (with_part (option_map boxed e) (rule_of.value_return (map class_entry classes.now.list) span (return_sort returns.entry)))) }
{
    let Some(e) = e else {
        return Ok(None);
    };
    match returns {
        Returns::Outside => {
            return_outside(alloc, span, faults)?;
            Ok(None)
        }
        Returns::Untyped => Ok(None),
        Returns::Gives(t) => due(alloc, classes, span, t, e, faults),
    }
}

/// A value where one of a type is due.
fn due(
    alloc: Global,
    classes: &Classes,
    span: Span,
    t: &Ty,
    e: Box<TExpr>,
    faults: &mut Many<Diag>,
) -> Result<Option<Box<TExpr>>, Memory>
    ensures { IfOk result (λ r. Tells boxed r faults.old faults.new (judged span (rule_of.due (map class_entry classes.now.list) (sort t.now) (boxed e)))) }
{
    if is_nothing(t) {
        if is_none_literal(&e) {
            return Ok(Some(e));
        }
        no_return_expected(alloc, span, faults)?;
        return Ok(None);
    }
    if fits(&e.ty, t, classes) {
        let e = coerced(alloc, e, t)?;
        return Ok(Some(e));
    }
    wrong_return(alloc, classes, span, &e.ty, t, faults)?;
    Ok(None)
}

fn is_none_literal(e: &TExpr) -> bool
    ensures { result ≡ typing.is_none_literal (typed_expr e.now) }
{
    matches!(e.kind, TKind::Nothing)
}
