//! Calls of exception classes.
ghost use Rattle.std.specs.Prelude.{◌≡◌, map, IfOk, Some};
ghost use Rattle.std.specs.Option.{option_map};
ghost use Rattle.py_typed.specs.Sorts.{sort};
ghost use Rattle.py_check_context.specs.Context.{context};
ghost use Rattle.py_typed.specs.Expressions.{typed_expr};
ghost use Rattle.py_check_messages.specs.Seen.{Tells, judged, ruled};
ghost use Rattle.py_check_coercions.specs.Boxes.{boxed};
ghost use Rattle.py_check_calls.specs.Exceptions as rule_of;

use crate::builtins::the_only;
use crate::sites::CallSite;
use py_check_coercions::kept;
use py_check_messages::{wrong_argument, wrong_number};
use py_syntax::Span;
use py_syntax_diagnostics::Diag;
use py_typed::{TExpr, TKind, Ty, is_text};
use std::alloc::Global;
use value_core::{ExcClass, Many, Memory};

/// A call of an exception class (Python Library Reference, "Built-in Exceptions").
#[tactic(auto, using(crate::proofs::CallLemmas::given_some))]
pub(crate) fn exception_call(
    alloc: Global,
    site: CallSite<'_>,
    class: ExcClass,
    es: Option<Many<TExpr>>,
    faults: &mut Many<Diag>,
) -> Result<Option<Box<TExpr>>, Memory>
    ensures { IfOk result (λ t. Tells boxed t faults.old faults.new (ruled site.entry.span (rule_of.exception_call (context site.entry.scope.now).classes site.entry.span class) (option_map (map typed_expr) es))) }
{
    let Some(es) = es else {
        return Ok(None);
    };
    if es.is_empty() {
        let e = exception_made(alloc, site.span, class, None)?;
        return Ok(Some(e));
    }
    let Some(e) = the_only(alloc, es)? else {
        wrong_number(alloc, site.span, class.name(), "0 or 1", faults)?;
        return Ok(None);
    };
    exception_given(alloc, site, class, e, faults)
}

// The same with its one argument.
fn exception_given(
    alloc: Global,
    site: CallSite<'_>,
    class: ExcClass,
    e: Box<TExpr>,
    faults: &mut Many<Diag>,
) -> Result<Option<Box<TExpr>>, Memory>
    ensures { IfOk result (λ t. Tells boxed t faults.old faults.new (judged site.entry.span (rule_of.exception_given (context site.entry.scope.now).classes site.entry.span class (Some (boxed e))))) }
{
    if !is_text(&e.ty) {
        wrong_argument(
            alloc,
            site.scope.classes,
            site.span,
            1,
            class.name(),
            &e.ty,
            "str",
            faults,
        )?;
        return Ok(None);
    }
    let e = exception_made(alloc, site.span, class, Some(e))?;
    Ok(Some(e))
}

/// An exception of a class, with its text if it has one.
#[tactic(auto, using(crate::proofs::CallLemmas::exception_node))]
pub fn exception_made(
    alloc: Global,
    span: Span,
    class: ExcClass,
    text: Option<Box<TExpr>>,
) -> Result<Box<TExpr>, Memory>
    ensures { IfOk result (λ e. boxed e ≡ rule_of.exception_made span class (option_map boxed text)) }
{
    kept(alloc, TKind::MakeExc(class, text), Ty::Exc(class), span)
}
