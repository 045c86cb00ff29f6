//! Simple statements, and rows of statements.
ghost use Rattle.std.specs.Prelude.{◌≡◌, true, map, codes, IfOk, Some, None};
ghost use Rattle.std.specs.Option.{option_map};
ghost use Rattle.py_syntax.specs.Expressions.{expr_tree};
ghost use Rattle.py_syntax.specs.Statements.{maybe_expr};
ghost use Rattle.py_typed.specs.Statements.{typed_stmt, on_line};
ghost use Rattle.py_typed.specs.Statements as acts;
ghost use Rattle.py_check_context.specs.Context.{context, dropped};
ghost use Rattle.py_check_messages.specs.Seen.{Tells, made};
ghost use Rattle.py_check_messages.specs.Rows.{kept};
ghost use Rattle.py_check_coercions.specs.Boxes.{boxed};
ghost use Rattle.py_check_values.specs.Returns.{return_sort};
ghost use Rattle.py_check_places.specs.Places as places;
ghost use Rattle.py_check_targets.specs.Targets as targets;
ghost use Rattle.py_check_exceptions.specs.Raises as raising;
ghost use Rattle.py_check_statements.specs.Bodies as rules_of;
ghost use Rattle.py_check_places.specs.Views.{known_at};
ghost use Rattle.py_check_targets.specs.Views.{boxed_act};
ghost use Rattle.py_check_statements.specs.Views.{boxed_stmt};

use crate::bodies::return_wanted;
use py_check_context::{Context, Want};
use py_check_exceptions::asserts;
use py_check_messages::outside_loop;
use py_check_places::{Place, learn};
use py_check_targets::typed_at;
use py_check_values::{Returns, returned, returned_nothing};
use py_syntax::{Expr, Span};
use py_syntax_diagnostics::Diag;
use py_typed::{TExpr, TStmt, TStmtKind};
use std::alloc::Global;
use value_core::{Many, Memory};

/// An expression that stands alone (Python Language Reference, "Expression statements").
pub fn alone(
    alloc: Global,
    scope: &Context<'_>,
    place: &Place,
    e: &Expr,
    faults: &mut Many<Diag>,
) -> Result<Option<Box<TStmtKind>>, Memory>
    ensures { IfOk result (λ t. Tells boxed_act t faults.old faults.new (made acts.Do (targets.typed_at (context scope.now) (known_at place.now) dropped (expr_tree e.now)))) }
{
    let e = typed_at(alloc, scope, place, Want::Dropped, e, faults)?;
    of_value(alloc, e)
}

/// A statement that is kept on the heap.
pub(crate) fn in_box(alloc: Global, kind: TStmtKind) -> Result<Box<TStmtKind>, Memory>
    ensures { IfOk result (λ a. boxed_act a ≡ acts.typed_act kind) }
{
    Ok(Box::new(alloc, kind)?)
}

fn of_value(alloc: Global, e: Option<Box<TExpr>>) -> Result<Option<Box<TStmtKind>>, Memory>
    ensures { IfOk result (λ t. option_map boxed_act t ≡ option_map acts.Do (option_map boxed e)) }
{
    let Some(e) = e else {
        return Ok(None);
    };
    let kind = in_box(alloc, TStmtKind::Expr(Box::into_inner(e)))?;
    Ok(Some(kind))
}

/// A `return`, with or without a value (Python Language Reference, "The return statement").
pub fn returns(
    alloc: Global,
    scope: &Context<'_>,
    place: &Place,
    span: Span,
    ret: Returns<'_>,
    e: &Option<Expr>,
    faults: &mut Many<Diag>,
) -> Result<Option<Box<TStmtKind>>, Memory>
    ensures { IfOk result (λ t. Tells boxed_act t faults.old faults.new (rules_of.returns (context scope.now) (return_sort ret.entry) (known_at place.now) span (maybe_expr e.now))) }
{
    match e {
        None => {
            let right = returned_nothing(alloc, span, ret, faults)?;
            nothing_given(alloc, right)
        }
        Some(e) => {
            let e = typed_at(alloc, scope, place, return_wanted(ret), e, faults)?;
            let e = returned(alloc, scope.classes, span, ret, e, faults)?;
            given(alloc, e)
        }
    }
}

fn nothing_given(alloc: Global, right: Option<()>) -> Result<Option<Box<TStmtKind>>, Memory>
    ensures { IfOk result (λ t. option_map boxed_act t ≡ option_map (λ u. acts.Return None) right) }
{
    let Some(_) = right else {
        return Ok(None);
    };
    let kind = in_box(alloc, TStmtKind::Return(None))?;
    Ok(Some(kind))
}

fn given(alloc: Global, e: Option<Box<TExpr>>) -> Result<Option<Box<TStmtKind>>, Memory>
    ensures { IfOk result (λ t. option_map boxed_act t ≡ option_map (λ v. acts.Return (Some v)) (option_map boxed e)) }
{
    let Some(e) = e else {
        return Ok(None);
    };
    let kind = in_box(alloc, TStmtKind::Return(Some(Box::into_inner(e))))?;
    Ok(Some(kind))
}

/// A statement that does nothing (Python Language Reference, "The pass statement" and "The global statement").
pub(crate) fn passed(alloc: Global) -> Result<Option<Box<TStmtKind>>, Memory>
    ensures { IfOk result (λ t. option_map boxed_act t ≡ Some acts.Pass) }
{
    let kind = in_box(alloc, TStmtKind::Pass)?;
    Ok(Some(kind))
}

/// An assertion, whose test holds behind it (Python Language Reference, "The assert statement").
pub(crate) fn asserted(
    alloc: Global,
    scope: &Context<'_>,
    place: &mut Place,
    span: Span,
    e: &Expr,
    text: &Option<Expr>,
    faults: &mut Many<Diag>,
) -> Result<Option<Box<TStmtKind>>, Memory>
    ensures told { IfOk result (λ t. Tells boxed_act t faults.old faults.new (raising.asserts (context scope.now) (known_at place.old) span (expr_tree e.now) (maybe_expr text.now))) }
    ensures known { IfOk result (λ t. known_at place.new ≡ places.where_test (context scope.now) (known_at place.old) true (expr_tree e.now)) }
{
    let kind = asserts(alloc, scope, place, span, e, text, faults)?;
    learn(alloc, scope, place, true, e)?;
    Ok(kind)
}

/// A `break`, in a loop or not (Python Language Reference, "The break statement").
pub(crate) fn broken(
    alloc: Global,
    loops: bool,
    span: Span,
    faults: &mut Many<Diag>,
) -> Result<Option<Box<TStmtKind>>, Memory>
    ensures { IfOk result (λ t. Tells boxed_act t faults.old faults.new (rules_of.in_loop loops span (codes "break") acts.Break)) }
{
    if !loops {
        outside_loop(alloc, span, "break", faults)?;
        return Ok(None);
    }
    let kind = in_box(alloc, TStmtKind::Break)?;
    Ok(Some(kind))
}

/// A `continue`, in a loop or not (Python Language Reference, "The continue statement").
pub(crate) fn continued(
    alloc: Global,
    loops: bool,
    span: Span,
    faults: &mut Many<Diag>,
) -> Result<Option<Box<TStmtKind>>, Memory>
    ensures { IfOk result (λ t. Tells boxed_act t faults.old faults.new (rules_of.in_loop loops span (codes "continue") acts.Continue)) }
{
    if !loops {
        outside_loop(alloc, span, "continue", faults)?;
        return Ok(None);
    }
    let kind = in_box(alloc, TStmtKind::Continue)?;
    Ok(Some(kind))
}

/// A statement on its line.
pub fn placed(
    alloc: Global,
    line: usize,
    kind: Option<Box<TStmtKind>>,
) -> Result<Option<Box<TStmt>>, Memory>
    ensures { IfOk result (λ s. option_map boxed_stmt s ≡ option_map (λ a. on_line a line) (option_map boxed_act kind)) }
{
    let Some(kind) = kind else {
        return Ok(None);
    };
    let kind = Box::into_inner(kind);
    let s = Box::new(alloc, TStmt { kind, line })?;
    Ok(Some(s))
}

/// One more statement of a row.
pub fn with_statement(
    found: Option<Many<TStmt>>,
    s: Option<Box<TStmt>>,
) -> Result<Option<Many<TStmt>>, Memory>
    ensures { IfOk result (λ r. option_map (map typed_stmt) r ≡ kept (option_map (map typed_stmt) found) (option_map boxed_stmt s)) }
{
    let Some(mut found) = found else {
        return Ok(None);
    };
    let Some(s) = s else {
        return Ok(None);
    };
    found.push(Box::into_inner(s))?;
    Ok(Some(found))
}
