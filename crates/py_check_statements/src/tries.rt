//! The parts of a `try`.
ghost use Rattle.std.specs.Prelude.{◌≡◌, map, IfOk, Some};
ghost use Rattle.std.specs.Option.{option_map, option_zip};
ghost use Rattle.py_syntax.specs.Statements.{stmt_tree};
ghost use Rattle.py_typed.specs.Statements as acts;
ghost use Rattle.py_typed.specs.Statements.{typed_handler, typed_stmt, typed_target};
ghost use Rattle.py_check_context.specs.Context.{context};
ghost use Rattle.py_check_messages.specs.Rows.{kept};
ghost use Rattle.py_check_places.specs.Places as places;
ghost use Rattle.py_check_places.specs.Views.{known_at};
ghost use Rattle.py_check_targets.specs.Views.{boxed_act};
ghost use Rattle.py_check_exceptions.specs.Views.{boxed_handler_head};
ghost use Rattle.py_check_statements.specs.Bodies as rules_of;
ghost use Rattle.py_check_statements.specs.Views.{clause_seen};

use crate::statements::in_box;
use py_check_context::Context;
use py_check_exceptions::Head;
use py_check_places::{Place, enter};
use py_syntax::Stmt;
use py_typed::{THandler, TStmt, TStmtKind, Target};
use std::alloc::Global;
use value_core::{ExcClass, Many, Memory};

/// The head of an except clause, and its body.
#[derive(Drop)]
pub(crate) struct Clause {
    pub head: Box<Head>,
    pub body: Many<TStmt>,
}

/// The names that are known to be not None where the `try` statement `s` binds none of them. The place stays as it is.
pub(crate) fn outside_try(
    alloc: Global,
    scope: &Context<'_>,
    place: &mut Place,
    s: &Stmt,
) -> Result<Vec<usize>, Memory>
    ensures names { IfOk result (λ v. v.items ≡ rules_of.outside_try (context scope.now) (known_at place.old) (stmt_tree s.now)) }
    ensures known { IfOk result (λ v. known_at place.new ≡ known_at place.old) }
{
    let names = Vec::from_slice(alloc, place.names.as_slice())?;
    enter(alloc, scope, place, s)?;
    let outside = Vec::from_slice(alloc, place.names.as_slice())?;
    place.names = names;
    Ok(outside)
}

/// Begins a part of a `try` with these names.
pub(crate) fn begin_with(alloc: Global, place: &mut Place, names: &[usize]) -> Result<(), Memory>
    ensures { IfOk result (λ done. known_at place.new ≡ places.with_names (known_at place.old) names.now) }
{
    place.names = Vec::from_slice(alloc, names)?;
    Ok(())
}

/// A head with its body, where both have typed forms.
pub(crate) fn clause_by(head: Option<Box<Head>>, body: Option<Many<TStmt>>) -> Option<Clause>
    ensures { option_map clause_seen result ≡ option_zip (option_map boxed_handler_head head) (option_map (map typed_stmt) body) }
{
    let Some(head) = head else {
        return None;
    };
    let Some(body) = body else {
        return None;
    };
    Some(Clause { head, body })
}

/// One more clause of a `try`.
pub(crate) fn with_clause(
    found: Option<Many<THandler>>,
    one: Option<Clause>,
) -> Result<Option<Many<THandler>>, Memory>
    ensures { IfOk result (λ r. option_map (map typed_handler) r ≡ kept (option_map (map typed_handler) found) (option_map rules_of.clause_of (option_map clause_seen one))) }
{
    let Some(mut found) = found else {
        return Ok(None);
    };
    let Some(one) = one else {
        return Ok(None);
    };
    let Clause { head, body } = one;
    let Head { classes, name } = Box::into_inner(head);
    found.push(handler_of(classes, name, body))?;
    Ok(Some(found))
}

#[tactic(auto, using(crate::proofs::PartLemmas::handler_made))]
fn handler_of(classes: Many<ExcClass>, name: Option<Target>, body: Many<TStmt>) -> THandler
    ensures { typed_handler result ≡ rules_of.clause_of ((classes, option_map typed_target name), map typed_stmt body) }
{
    THandler {
        classes,
        name,
        body,
    }
}

/// The body of a `finally`, where it has a typed form.
pub(crate) fn some_body(body: Option<Many<TStmt>>) -> Option<Option<Many<TStmt>>>
    ensures { option_map (option_map (map typed_stmt)) result ≡ option_map rules_of.present (option_map (map typed_stmt) body) }
{
    let body = body?;
    Some(Some(body))
}

/// A `try`, of its body, its clauses and the body of its `finally` (Python Language Reference, "The try statement").
pub(crate) fn tried(
    alloc: Global,
    body: Option<Many<TStmt>>,
    handlers: Option<Many<THandler>>,
    last: Option<Option<Many<TStmt>>>,
) -> Result<Option<Box<TStmtKind>>, Memory>
    ensures { IfOk result (λ t. option_map boxed_act t ≡ option_map rules_of.try_of (option_zip (option_zip (option_map (map typed_stmt) body) (option_map (map typed_handler) handlers)) (option_map (option_map (map typed_stmt)) last))) }
{
    let Some(body) = body else {
        return Ok(None);
    };
    let Some(handlers) = handlers else {
        return Ok(None);
    };
    let Some(last) = last else {
        return Ok(None);
    };
    let kind = in_box(alloc, try_of(body, handlers, last))?;
    Ok(Some(kind))
}

#[tactic(auto, using(crate::proofs::PartLemmas::act_try))]
fn try_of(body: Many<TStmt>, handlers: Many<THandler>, last: Option<Many<TStmt>>) -> TStmtKind
    ensures { acts.typed_act result ≡ rules_of.try_of ((map typed_stmt body, map typed_handler handlers), option_map (map typed_stmt) last) }
{
    TStmtKind::Try(body, handlers, last)
}
