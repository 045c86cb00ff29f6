//! Statements with bodies, of their typed parts.
ghost use Rattle.std.specs.Prelude.{◌≡◌, ◌++◌, false, map, IfOk};
ghost use Rattle.std.specs.Option.{option_map, option_zip};
ghost use Rattle.py_syntax.specs.Expressions.{expr_tree};
ghost use Rattle.py_syntax.specs.Statements.{stmt_tree, body_tree};
ghost use Rattle.py_typed.specs.Statements as acts;
ghost use Rattle.py_typed.specs.Statements.{typed_stmt, typed_arm, suite_of, arms_of};
ghost use Rattle.py_check_context.specs.Context.{context};
ghost use Rattle.py_check_flow.specs.Closed as closed;
ghost use Rattle.py_check_messages.specs.Rows.{kept};
ghost use Rattle.py_check_coercions.specs.Boxes.{boxed};
ghost use Rattle.py_check_operators.specs.Facts.{facts};
ghost use Rattle.py_check_places.specs.Places as places;
ghost use Rattle.py_check_places.specs.Views.{known_at};
ghost use Rattle.py_check_targets.specs.Views.{boxed_act};
ghost use Rattle.py_check_statements.specs.Bodies as rules_of;
ghost use Rattle.py_check_statements.specs.Views.{guarded_seen};

use crate::statements::in_box;
use py_check_context::Context;
use py_check_flow::{breaks_out, is_closed};
use py_check_operators::with_facts;
use py_check_places::{Place, all_known, enter, meet};
use py_syntax::{Expr, Stmt};
use py_typed::{TExpr, TStmt, TStmtKind};
use std::alloc::Global;
use value_core::{Many, Memory};

/// A test, and the body that runs where it holds.
#[derive(Drop)]
pub(crate) struct Guarded {
    pub test: Box<TExpr>,
    pub body: Many<TStmt>,
}

/// The tests of an `if` with their bodies, if all have typed forms, and the names that are known to be not None at all open ends
/// of the bodies, if there is one.
#[derive(Drop)]
pub(crate) struct Branches {
    pub arms: Option<Many<(TExpr, Many<TStmt>)>>,
    pub ends: Option<Vec<usize>>,
}

/// A test with its body, where both have typed forms.
pub(crate) fn guarded_by(test: Option<Box<TExpr>>, body: Option<Many<TStmt>>) -> Option<Guarded>
    ensures { option_map guarded_seen result ≡ option_zip (option_map boxed test) (option_map (map typed_stmt) body) }
{
    let Some(test) = test else {
        return None;
    };
    let Some(body) = body else {
        return None;
    };
    Some(Guarded { test, body })
}

/// One more arm of an `if`.
pub(crate) fn with_arm(
    found: Option<Many<(TExpr, Many<TStmt>)>>,
    one: Option<Guarded>,
) -> Result<Option<Many<(TExpr, Many<TStmt>)>>, Memory>
    ensures { IfOk result (λ r. option_map (map typed_arm) r ≡ kept (option_map (map typed_arm) found) (option_map (λ p. (p.0, suite_of p.1)) (option_map guarded_seen one))) }
{
    let Some(mut found) = found else {
        return Ok(None);
    };
    let Some(one) = one else {
        return Ok(None);
    };
    let Guarded { test, body } = one;
    found.push((Box::into_inner(test), body))?;
    Ok(Some(found))
}

/// An `if`, of its arms and the body of its `else` (Python Language Reference, "The if statement").
pub(crate) fn branched(
    alloc: Global,
    arms: Option<Many<(TExpr, Many<TStmt>)>>,
    other: Option<Many<TStmt>>,
) -> Result<Option<Box<TStmtKind>>, Memory>
    ensures { IfOk result (λ t. option_map boxed_act t ≡ option_map (λ p. acts.If (arms_of p.0) (suite_of p.1)) (option_zip (option_map (map typed_arm) arms) (option_map (map typed_stmt) other))) }
{
    let Some(arms) = arms else {
        return Ok(None);
    };
    let Some(other) = other else {
        return Ok(None);
    };
    let kind = in_box(alloc, if_of(arms, other))?;
    Ok(Some(kind))
}

#[tactic(auto, using(crate::proofs::PartLemmas::act_if))]
fn if_of(arms: Many<(TExpr, Many<TStmt>)>, other: Many<TStmt>) -> TStmtKind
    ensures { acts.typed_act result ≡ acts.If (arms_of (map typed_arm arms)) (suite_of (map typed_stmt other)) }
{
    TStmtKind::If(arms, other)
}

/// A `while`, of its test and its body (Python Language Reference, "The while statement").
pub(crate) fn repeated(
    alloc: Global,
    one: Option<Guarded>,
) -> Result<Option<Box<TStmtKind>>, Memory>
    ensures { IfOk result (λ t. option_map boxed_act t ≡ option_map (λ p. acts.While p.0 (suite_of p.1)) (option_map guarded_seen one)) }
{
    let Some(one) = one else {
        return Ok(None);
    };
    let Guarded { test, body } = one;
    let kind = in_box(alloc, TStmtKind::While(Box::into_inner(test), body))?;
    Ok(Some(kind))
}

/// The names that are known to be not None where a test is false.
pub(crate) fn otherwise(
    alloc: Global,
    scope: &Context<'_>,
    place: &Place,
    e: &Expr,
) -> Result<Vec<usize>, Memory>
    ensures { IfOk result (λ v. v.items ≡ facts (context scope.now) false (expr_tree e.now) ++ (known_at place.now).names) }
{
    with_facts(alloc, scope, place.names.as_slice(), false, e)
}

/// Goes from the end of an arm to where its test was false, and gives the names that are known at all open ends with this one.
pub(crate) fn leave_arm(
    alloc: Global,
    place: &mut Place,
    ends: Option<Vec<usize>>,
    body: &[Stmt],
    fails: Vec<usize>,
) -> Result<Option<Vec<usize>>, Memory>
    ensures ends { IfOk result (λ v. option_map (λ v. v.items) v ≡ places.met (option_map (λ v. v.items) ends) (closed.is_closed (body_tree body.now)) (known_at place.old).names) }
    ensures known { IfOk result (λ v. known_at place.new ≡ places.with_names (known_at place.old) fails.items) }
{
    let ends = meet(alloc, ends, is_closed(body), place.names.as_slice())?;
    place.names = fails;
    Ok(ends)
}

/// Goes from the end of `else` to what is known behind all ends of an `if`.
pub(crate) fn leave_branches(
    alloc: Global,
    place: &mut Place,
    ends: Option<Vec<usize>>,
    other: &[Stmt],
) -> Result<(), Memory>
    ensures { IfOk result (λ done. known_at place.new ≡ places.meeting (option_map (λ v. v.items) ends) (closed.is_closed (body_tree other.now)) (known_at place.old)) }
{
    let ends = meet(alloc, ends, is_closed(other), place.names.as_slice())?;
    place.names = all_known(alloc, ends);
    Ok(())
}

/// Enters the `while` statement `s`, and gives the names that are known to be not None behind it.
pub(crate) fn begin_while(
    alloc: Global,
    scope: &Context<'_>,
    place: &mut Place,
    s: &Stmt,
    e: &Expr,
    body: &[Stmt],
) -> Result<Vec<usize>, Memory>
    ensures known { IfOk result (λ v. known_at place.new ≡ places.entering (context scope.now) (known_at place.old) (stmt_tree s.now)) }
    ensures outside { IfOk result (λ v. v.items ≡ rules_of.left_while (context scope.now) (places.entering (context scope.now) (known_at place.old) (stmt_tree s.now)) (expr_tree e.now) (body_tree body.now)) }
{
    enter(alloc, scope, place, s)?;
    left_while(alloc, scope, place, e, body)
}

// Behind a `while` that is entered here its test is false, unless the loop was left before.
fn left_while(
    alloc: Global,
    scope: &Context<'_>,
    place: &Place,
    e: &Expr,
    body: &[Stmt],
) -> Result<Vec<usize>, Memory>
    ensures { IfOk result (λ v. v.items ≡ rules_of.left_while (context scope.now) (known_at place.now) (expr_tree e.now) (body_tree body.now)) }
{
    if breaks_out(body) {
        let names = Vec::from_slice(alloc, place.names.as_slice())?;
        return Ok(names);
    }
    otherwise(alloc, scope, place, e)
}
