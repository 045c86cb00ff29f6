//! Raising and asserting.
ghost use Rattle.std.specs.Prelude.{◌≡◌, map, IfOk, Some, None};
ghost use Rattle.std.specs.Option.{option_map, option_zip};
ghost use Rattle.py_syntax.specs.Expressions.{expr_tree};
ghost use Rattle.py_syntax.specs.Statements.{maybe_expr};
ghost use Rattle.py_typed.specs.Sorts.{sort};
ghost use Rattle.py_typed.specs.Classes.{class_entry};
ghost use Rattle.py_typed.specs.Statements as acts;
ghost use Rattle.py_typed.specs.WellTypedExpr as typing;
ghost use Rattle.py_check_context.specs.Context.{context};
ghost use Rattle.py_check_flow.specs.Bindings as bindings;
ghost use Rattle.py_check_messages.specs.Seen.{Tells, ruled};
ghost use Rattle.py_check_coercions.specs.Boxes.{boxed};
ghost use Rattle.py_check_places.specs.Views.{known_at};
ghost use Rattle.py_check_targets.specs.Views.{boxed_act};
ghost use Rattle.py_check_calls.specs.Exceptions.{exception_made};
ghost use Rattle.py_check_exceptions.specs.Raises as rule_of;

use crate::asked::{Asked, asked_as};
use py_check_calls::exception_made;
use py_check_coercions::truth;
use py_check_context::{Context, Want, meaning_of};
use py_check_flow::name_in;
use py_check_messages::{no_exception, raise_outside, wrong_argument};
use py_check_places::Place;
use py_check_targets::typed_at;
use py_syntax::{Expr, Span};
use py_syntax_diagnostics::Diag;
use py_typed::{Classes, TExpr, TStmtKind, Ty, is_text};
use std::alloc::Global;
use value_core::{ExcClass, Many, Memory};

/// A `raise`, in an except clause or not (Python Language Reference, "The raise statement").
pub fn raises(
    alloc: Global,
    scope: &Context<'_>,
    place: &Place,
    span: Span,
    handling: bool,
    e: &Option<Expr>,
    faults: &mut Many<Diag>,
) -> Result<Option<Box<TStmtKind>>, Memory>
    ensures { IfOk result (λ t. Tells boxed_act t faults.old faults.new (rule_of.raises (context scope.now) handling (known_at place.now) span (maybe_expr e.now))) }
{
    match e {
        None => raised_again(alloc, span, handling, faults),
        Some(e) => raises_by(alloc, scope, place, span, e, faults),
    }
}

fn raised_again(
    alloc: Global,
    span: Span,
    handling: bool,
    faults: &mut Many<Diag>,
) -> Result<Option<Box<TStmtKind>>, Memory>
    ensures { IfOk result (λ t. Tells boxed_act t faults.old faults.new (rule_of.raised_again handling span)) }
{
    if !handling {
        raise_outside(alloc, span, faults)?;
        return Ok(None);
    }
    let kind = in_box(alloc, TStmtKind::Raise(None))?;
    Ok(Some(kind))
}

// A statement that is kept on the heap.
fn in_box(alloc: Global, kind: TStmtKind) -> Result<Box<TStmtKind>, Memory>
    ensures { IfOk result (λ a. boxed_act a ≡ acts.typed_act kind) }
{
    Ok(Box::new(alloc, kind)?)
}

// What is raised, by its name if it is one.
fn raises_by(
    alloc: Global,
    scope: &Context<'_>,
    place: &Place,
    span: Span,
    e: &Expr,
    faults: &mut Many<Diag>,
) -> Result<Option<Box<TStmtKind>>, Memory>
    ensures { IfOk result (λ t. Tells boxed_act t faults.old faults.new (rule_of.raises_by (context scope.now) (known_at place.now) span (expr_tree e.now) (bindings.name_in (expr_tree e.now)))) }
{
    match name_in(e) {
        None => raises_value(alloc, scope, place, span, e, faults),
        Some(x) => {
            let what = asked_as(meaning_of(scope, x));
            raises_named(alloc, scope, place, span, e, what, faults)
        }
    }
}

// A name that is raised.
fn raises_named(
    alloc: Global,
    scope: &Context<'_>,
    place: &Place,
    span: Span,
    e: &Expr,
    what: Asked,
    faults: &mut Many<Diag>,
) -> Result<Option<Box<TStmtKind>>, Memory>
    ensures { IfOk result (λ t. Tells boxed_act t faults.old faults.new (rule_of.raises_named (context scope.now) (known_at place.now) span (expr_tree e.now) what)) }
{
    match what {
        Asked::Class(class) => class_raised(alloc, span_of(e), class),
        Asked::Variable => raises_value(alloc, scope, place, span, e, faults),
        Asked::Voiceless => Ok(None),
        Asked::Other => {
            no_exception(alloc, span, faults)?;
            Ok(None)
        }
    }
}

#[tactic(auto, using(crate::proofs::RaiseLemmas::span_seen))]
fn span_of(e: &Expr) -> Span
    ensures { result ≡ rule_of.span_of (expr_tree e.now) }
{
    e.span
}

// A class that is raised, of which an exception without a text is made.
fn class_raised(
    alloc: Global,
    span: Span,
    class: ExcClass,
) -> Result<Option<Box<TStmtKind>>, Memory>
    ensures { IfOk result (λ t. option_map boxed_act t ≡ Some (acts.Raise (Some (exception_made span class None)))) }
{
    let e = exception_made(alloc, span, class, None)?;
    of_value(alloc, e)
}

fn of_value(alloc: Global, e: Box<TExpr>) -> Result<Option<Box<TStmtKind>>, Memory>
    ensures { IfOk result (λ t. option_map boxed_act t ≡ Some (acts.Raise (Some (boxed e)))) }
{
    let kind = in_box(alloc, TStmtKind::Raise(Some(Box::into_inner(e))))?;
    Ok(Some(kind))
}

// A value that is raised.
fn raises_value(
    alloc: Global,
    scope: &Context<'_>,
    place: &Place,
    span: Span,
    e: &Expr,
    faults: &mut Many<Diag>,
) -> Result<Option<Box<TStmtKind>>, Memory>
    ensures { IfOk result (λ t. Tells boxed_act t faults.old faults.new (rule_of.raises_value (context scope.now) (known_at place.now) span (expr_tree e.now))) }
{
    let e = typed_at(alloc, scope, place, Want::Free, e, faults)?;
    raised(alloc, span, e, faults)
}

fn raised(
    alloc: Global,
    span: Span,
    e: Option<Box<TExpr>>,
    faults: &mut Many<Diag>,
) -> Result<Option<Box<TStmtKind>>, Memory>
    ensures { IfOk result (λ t. Tells boxed_act t faults.old faults.new (ruled span rule_of.raised (option_map boxed e))) }
{
    let Some(e) = e else {
        return Ok(None);
    };
    if !is_exception(&e.ty) {
        no_exception(alloc, span, faults)?;
        return Ok(None);
    }
    of_value(alloc, e)
}

fn is_exception(t: &Ty) -> bool
    ensures { result ≡ typing.is_exception (sort t.now) }
{
    matches!(t, Ty::Exc(_))
}

/// An assertion, with or without a text (Python Language Reference, "The assert statement").
pub fn asserts(
    alloc: Global,
    scope: &Context<'_>,
    place: &Place,
    span: Span,
    e: &Expr,
    text: &Option<Expr>,
    faults: &mut Many<Diag>,
) -> Result<Option<Box<TStmtKind>>, Memory>
    ensures { IfOk result (λ t. Tells boxed_act t faults.old faults.new (rule_of.asserts (context scope.now) (known_at place.now) span (expr_tree e.now) (maybe_expr text.now))) }
{
    let test = asserted_test(alloc, scope, place, e, faults)?;
    match text {
        None => asserted_alone(alloc, test),
        Some(text) => {
            let text = typed_at(alloc, scope, place, Want::Free, text, faults)?;
            asserted(alloc, scope.classes, span, test, text, faults)
        }
    }
}

fn asserted_test(
    alloc: Global,
    scope: &Context<'_>,
    place: &Place,
    e: &Expr,
    faults: &mut Many<Diag>,
) -> Result<Option<Box<TExpr>>, Memory>
    ensures { IfOk result (λ t. Tells boxed t faults.old faults.new (rule_of.asserted_test (context scope.now) (known_at place.now) (expr_tree e.now))) }
{
    let e = typed_at(alloc, scope, place, Want::Test, e, faults)?;
    let Some(e) = e else {
        return Ok(None);
    };
    let e = truth(alloc, e)?;
    Ok(Some(e))
}

fn asserted_alone(alloc: Global, test: Option<Box<TExpr>>) -> Result<Option<Box<TStmtKind>>, Memory>
    ensures { IfOk result (λ t. option_map boxed_act t ≡ option_map (λ e. acts.Assert e None) (option_map boxed test)) }
{
    let Some(test) = test else {
        return Ok(None);
    };
    let kind = in_box(alloc, TStmtKind::Assert(Box::into_inner(test), None))?;
    Ok(Some(kind))
}

// With a text.
fn asserted(
    alloc: Global,
    classes: &Classes,
    span: Span,
    test: Option<Box<TExpr>>,
    text: Option<Box<TExpr>>,
    faults: &mut Many<Diag>,
) -> Result<Option<Box<TStmtKind>>, Memory>
    ensures { IfOk result (λ t. Tells boxed_act t faults.old faults.new (ruled span (rule_of.asserted (map class_entry classes.now.list)) (option_zip (option_map boxed test) (option_map boxed text)))) }
{
    let Some(test) = test else {
        return Ok(None);
    };
    let Some(text) = text else {
        return Ok(None);
    };
    if !is_text(&text.ty) {
        wrong_argument(alloc, classes, span, 1, "assert", &text.ty, "str", faults)?;
        return Ok(None);
    }
    let kind = in_box(
        alloc,
        TStmtKind::Assert(Box::into_inner(test), Some(Box::into_inner(text))),
    )?;
    Ok(Some(kind))
}
