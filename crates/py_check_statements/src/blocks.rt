//! The walk over statements: each is typed where what is known behind those before it is known.
ghost use Rattle.std.specs.Prelude.{◌≡◌, true, map, IfOk};
ghost use Rattle.std.specs.Option.{option_map};
ghost use Rattle.py_syntax.specs.Expressions.{expr_tree};
ghost use Rattle.py_syntax.specs.Statements.{stmt_tree, stmt_node, body_tree, arm_tree, handler_tree, maybe_expr};
ghost use Rattle.py_syntax.specs.Statements as source;
ghost use Rattle.py_typed.specs.Statements.{typed_stmt, typed_arm, typed_handler};
ghost use Rattle.py_typed.specs.Statements as acts;
ghost use Rattle.py_check_context.specs.Context.{context};
ghost use Rattle.py_check_flow.specs.Closed as closed;
ghost use Rattle.py_check_messages.specs.Seen.{Tells, both, made};
ghost use Rattle.py_check_values.specs.Returns.{return_sort};
ghost use Rattle.py_check_places.specs.Places as places;
ghost use Rattle.py_check_places.specs.Views.{known_at};
ghost use Rattle.py_check_targets.specs.Views.{boxed_act};
ghost use Rattle.py_check_loops.specs.Loops.{loop_of};
ghost use Rattle.py_check_loops.specs.Heads as heads;
ghost use Rattle.py_check_exceptions.specs.Handlers as handling;
ghost use Rattle.py_check_statements.specs.Bodies as rules_of;
ghost use Rattle.py_check_statements.specs.Views.{clause_seen, guarded_seen, way};

use crate::bodies::{Around, Inside, condition, is_definition};
use crate::deletions::deleted;
use crate::parts::{
    Branches, Guarded, begin_while, branched, guarded_by, leave_arm, leave_branches, otherwise,
    repeated, with_arm,
};
use crate::statements;
use crate::statements::{alone, asserted, broken, continued, passed, placed, with_statement};
use crate::tries::{Clause, begin_with, clause_by, outside_try, some_body, tried, with_clause};
use py_check_assignments::{annotate, assign, update};
use py_check_context::Context;
use py_check_exceptions::{begin_handler, raises};
use py_check_loops::{Begun, begin_for, looped};
use py_check_places::{Place, learn};
use py_syntax::{Expr, Handler, Stmt, StmtKind};
use py_syntax_diagnostics::Diag;
use py_typed::{THandler, TStmt, TStmtKind};
use std::alloc::Global;
use value_core::{Many, Memory};

/// Statements in a row, by what is around them, and what is known behind them.
#[cycle(statement)]
pub fn block(
    alloc: Global,
    scope: &Context<'_>,
    body: &[Stmt],
    inside: Inside<'_>,
    place: &mut Place,
    faults: &mut Many<Diag>,
) -> Result<Option<Many<TStmt>>, Memory>
    ensures told { IfOk result (λ t. Tells (map typed_stmt) t faults.old faults.new (rules_of.block (context scope.now) (return_sort inside.entry.returns) inside.entry.around (known_at place.old) (body_tree body.now))) }
    ensures known { IfOk result (λ t. known_at place.new ≡ rules_of.block_after (context scope.now) (known_at place.old) (body_tree body.now)) }
{
    let mut found = Some(Many::new(alloc));
    for s in body {
        if is_definition(s) {
            continue;
        }
        let kind = act(alloc, scope, s, inside, place, faults)?;
        let one = placed(alloc, s.span.line, kind)?;
        found = with_statement(found, one)?;
    }
    Ok(found)
}

// A statement that is no definition, without its line.
#[cycle(statement)]
fn act(
    alloc: Global,
    scope: &Context<'_>,
    s: &Stmt,
    inside: Inside<'_>,
    place: &mut Place,
    faults: &mut Many<Diag>,
) -> Result<Option<Box<TStmtKind>>, Memory>
    ensures told { IfOk result (λ t. Tells boxed_act t faults.old faults.new (rules_of.node_statement (context scope.now) (return_sort inside.entry.returns) inside.entry.around (known_at place.old) s.now.span (stmt_node s.now.kind))) }
    ensures known { IfOk result (λ t. known_at place.new ≡ rules_of.node_after (context scope.now) (known_at place.old) s.now.span (stmt_node s.now.kind)) }
{
    let span = s.span;
    let Inside { returns, around } = inside;
    match &s.kind {
        StmtKind::Expr(e) => alone(alloc, scope, place, e, faults),
        StmtKind::Assign(target, e) => assign(alloc, scope, place, span, target, e, faults),
        StmtKind::Annot(target, mark, e) => {
            annotate(alloc, scope, place, span, target, mark, e, faults)
        }
        StmtKind::Aug(target, op, e) => update(alloc, scope, place, span, target, *op, e, faults),
        StmtKind::Del(e) => deleted(alloc, scope, place, span, e, faults),
        StmtKind::Pass => passed(alloc),
        StmtKind::Break => broken(alloc, around.looping, span, faults),
        StmtKind::Continue => continued(alloc, around.looping, span, faults),
        StmtKind::Return(e) => statements::returns(alloc, scope, place, span, returns, e, faults),
        StmtKind::Raise(e) => raises(alloc, scope, place, span, around.handling, e, faults),
        StmtKind::Global(_) => passed(alloc),
        StmtKind::Assert(e, text) => asserted(alloc, scope, place, span, e, text, faults),
        StmtKind::If(arms, other) => {
            let other = other.as_slice();
            conditional(alloc, scope, arms.as_slice(), other, inside, place, faults)
        }
        StmtKind::While(e, body) => {
            while_loop(alloc, scope, s, e, body.as_slice(), inside, place, faults)
        }
        StmtKind::For(target, over, body) => {
            let body = body.as_slice();
            let parts = ForParts { target, over, body };
            for_loop(alloc, scope, s, parts, inside, place, faults)
        }
        StmtKind::Try(body, handlers, last) => {
            let body = body.as_slice();
            let handlers = handlers.as_slice();
            let parts = TryParts {
                body,
                handlers,
                last,
            };
            try_statement(alloc, scope, s, parts, inside, place, faults)
        }
        // Definitions, which a row of statements passes over.
        StmtKind::Import(_, _) => Ok(None),
        StmtKind::From(_, _) => Ok(None),
        StmtKind::Def(_) => Ok(None),
        StmtKind::Class(_) => Ok(None),
    }
}

// A test, and a body that runs where it holds.
#[cycle(statement)]
fn guarded(
    alloc: Global,
    scope: &Context<'_>,
    e: &Expr,
    body: &[Stmt],
    inside: Inside<'_>,
    place: &mut Place,
    faults: &mut Many<Diag>,
) -> Result<Option<Guarded>, Memory>
    ensures told { IfOk result (λ t. Tells guarded_seen t faults.old faults.new (rules_of.guarded (context scope.now) (return_sort inside.entry.returns) inside.entry.around (known_at place.old) (expr_tree e.now) (body_tree body.now))) }
    ensures known { IfOk result (λ t. known_at place.new ≡ rules_of.block_after (context scope.now) (places.where_test (context scope.now) (known_at place.old) true (expr_tree e.now)) (body_tree body.now)) }
{
    let test = condition(alloc, scope, place, e, faults)?;
    learn(alloc, scope, place, true, e)?;
    let body = block(alloc, scope, body, inside, place, faults)?;
    Ok(guarded_by(test, body))
}

// The arms of an `if`. Behind them all tests were false.
#[cycle(statement)]
fn branches(
    alloc: Global,
    scope: &Context<'_>,
    arms: &[(Expr, Many<Stmt>)],
    inside: Inside<'_>,
    place: &mut Place,
    faults: &mut Many<Diag>,
) -> Result<Branches, Memory>
    ensures told { IfOk result (λ b. Tells (map typed_arm) b.arms faults.old faults.new (rules_of.branches (context scope.now) (return_sort inside.entry.returns) inside.entry.around (places.setting_out (known_at place.old)) (source.arms_of (map arm_tree arms.now)))) }
    ensures known { IfOk result (λ b. way (known_at place.new) (option_map (λ v. v.items) b.ends) ≡ rules_of.arms_after (context scope.now) (places.setting_out (known_at place.old)) (source.arms_of (map arm_tree arms.now))) }
{
    let mut found = Some(Many::new(alloc));
    let mut ends: Option<Vec<usize>> = None;
    for (e, body) in arms {
        let body = body.as_slice();
        let fails = otherwise(alloc, scope, place, e)?;
        let one = guarded(alloc, scope, e, body, inside, place, faults)?;
        ends = leave_arm(alloc, place, ends, body, fails)?;
        found = with_arm(found, one)?;
    }
    Ok(Branches { arms: found, ends })
}

// `if`, with its arms and the body of its `else`.
#[cycle(statement)]
fn conditional(
    alloc: Global,
    scope: &Context<'_>,
    arms: &[(Expr, Many<Stmt>)],
    other: &[Stmt],
    inside: Inside<'_>,
    place: &mut Place,
    faults: &mut Many<Diag>,
) -> Result<Option<Box<TStmtKind>>, Memory>
    ensures told { IfOk result (λ t. Tells boxed_act t faults.old faults.new (made (λ p. acts.If (acts.arms_of p.0) (acts.suite_of p.1)) (both (rules_of.branches (context scope.now) (return_sort inside.entry.returns) inside.entry.around (places.setting_out (known_at place.old)) (source.arms_of (map arm_tree arms.now))) (rules_of.block (context scope.now) (return_sort inside.entry.returns) inside.entry.around (rules_of.arms_after (context scope.now) (places.setting_out (known_at place.old)) (source.arms_of (map arm_tree arms.now))).at (body_tree other.now))))) }
    ensures known { IfOk result (λ t. known_at place.new ≡ places.meeting (rules_of.arms_after (context scope.now) (places.setting_out (known_at place.old)) (source.arms_of (map arm_tree arms.now))).ends (closed.is_closed (body_tree other.now)) (rules_of.block_after (context scope.now) (rules_of.arms_after (context scope.now) (places.setting_out (known_at place.old)) (source.arms_of (map arm_tree arms.now))).at (body_tree other.now))) }
{
    let Branches { arms, ends } = branches(alloc, scope, arms, inside, place, faults)?;
    let last = block(alloc, scope, other, inside, place, faults)?;
    leave_branches(alloc, place, ends, other)?;
    branched(alloc, arms, last)
}

// The `while` statement `s`, with its test and its body.
#[cycle(statement)]
fn while_loop(
    alloc: Global,
    scope: &Context<'_>,
    s: &Stmt,
    e: &Expr,
    body: &[Stmt],
    inside: Inside<'_>,
    place: &mut Place,
    faults: &mut Many<Diag>,
) -> Result<Option<Box<TStmtKind>>, Memory>
    ensures told { IfOk result (λ t. Tells boxed_act t faults.old faults.new (made (λ p. acts.While p.0 (acts.suite_of p.1)) (rules_of.guarded (context scope.now) (return_sort inside.entry.returns) (rules_of.around_loop inside.entry.around) (places.entering (context scope.now) (known_at place.old) (stmt_tree s.now)) (expr_tree e.now) (body_tree body.now)))) }
    ensures known { IfOk result (λ t. known_at place.new ≡ rules_of.behind_while (context scope.now) (places.entering (context scope.now) (known_at place.old) (stmt_tree s.now)) (expr_tree e.now) (body_tree body.now) (rules_of.block_after (context scope.now) (places.where_test (context scope.now) (places.entering (context scope.now) (known_at place.old) (stmt_tree s.now)) true (expr_tree e.now)) (body_tree body.now))) }
{
    let outside = begin_while(alloc, scope, place, s, e, body)?;
    let inner = Inside {
        around: Around {
            looping: true,
            ..inside.around
        },
        ..inside
    };
    let one = guarded(alloc, scope, e, body, inner, place, faults)?;
    place.names = outside;
    repeated(alloc, one)
}

// The parts of a `for` statement: its targets, what it goes over, and its body.
struct ForParts<'a> {
    target: &'a Expr,
    over: &'a Expr,
    body: &'a [Stmt],
}

// The `for` statement `s`, with these parts.
#[cycle(statement)]
fn for_loop(
    alloc: Global,
    scope: &Context<'_>,
    s: &Stmt,
    parts: ForParts<'_>,
    inside: Inside<'_>,
    place: &mut Place,
    faults: &mut Many<Diag>,
) -> Result<Option<Box<TStmtKind>>, Memory>
    ensures told { IfOk result (λ t. Tells boxed_act t faults.old faults.new (made (λ p. loop_of p.0.0 p.0.1 (acts.suite_of p.1)) (both (heads.for_head (context scope.now) (known_at place.old) (stmt_tree s.now) s.now.span (expr_tree parts.entry.target.now) (expr_tree parts.entry.over.now)) (rules_of.block (context scope.now) (return_sort inside.entry.returns) (rules_of.around_loop inside.entry.around) (heads.in_for (context scope.now) (known_at place.old) (stmt_tree s.now) s.now.span (expr_tree parts.entry.target.now) (expr_tree parts.entry.over.now)) (body_tree parts.entry.body.now))))) }
    ensures known { IfOk result (λ t. known_at place.new ≡ rules_of.behind_loop (places.entering (context scope.now) (known_at place.old) (stmt_tree s.now)).names (rules_of.block_after (context scope.now) (heads.in_for (context scope.now) (known_at place.old) (stmt_tree s.now) s.now.span (expr_tree parts.entry.target.now) (expr_tree parts.entry.over.now)) (body_tree parts.entry.body.now))) }
{
    let ForParts { target, over, body } = parts;
    let Begun { head, outside } = begin_for(alloc, scope, place, s, s.span, target, over, faults)?;
    let inner = Inside {
        around: Around {
            looping: true,
            ..inside.around
        },
        ..inside
    };
    let body = block(alloc, scope, body, inner, place, faults)?;
    place.names = outside;
    looped(alloc, head, body)
}

// The parts of a `try` statement: its body, its except clauses and the body of its `finally`.
struct TryParts<'a> {
    body: &'a [Stmt],
    handlers: &'a [Handler],
    last: &'a Option<Many<Stmt>>,
}

// The `try` statement `s`, with these parts.
#[cycle(statement)]
fn try_statement(
    alloc: Global,
    scope: &Context<'_>,
    s: &Stmt,
    parts: TryParts<'_>,
    inside: Inside<'_>,
    place: &mut Place,
    faults: &mut Many<Diag>,
) -> Result<Option<Box<TStmtKind>>, Memory>
    ensures told { IfOk result (λ t. Tells boxed_act t faults.old faults.new (rules_of.tries (context scope.now) (return_sort inside.entry.returns) inside.entry.around (known_at place.old) (rules_of.outside_try (context scope.now) (known_at place.old) (stmt_tree s.now)) (body_tree parts.entry.body.now) (source.handlers_of (map handler_tree parts.entry.handlers.now)) (source.maybe_suite (option_map body_tree parts.entry.last.now)))) }
    ensures known { IfOk result (λ t. known_at place.new ≡ rules_of.behind_try (context scope.now) (known_at place.old) (rules_of.outside_try (context scope.now) (known_at place.old) (stmt_tree s.now)) (body_tree parts.entry.body.now) (source.handlers_of (map handler_tree parts.entry.handlers.now)) (source.maybe_suite (option_map body_tree parts.entry.last.now))) }
{
    let TryParts {
        body,
        handlers,
        last,
    } = parts;
    let outside = outside_try(alloc, scope, place, s)?;
    let names = outside.as_slice();
    let first = block(alloc, scope, body, inside, place, faults)?;
    let found = clauses(alloc, scope, handlers, names, inside, place, faults)?;
    let last = maybe_block(alloc, scope, last, names, inside, place, faults)?;
    place.names = outside;
    tried(alloc, first, found, last)
}

// Except clauses, which begin with these names each.
#[cycle(statement)]
fn clauses(
    alloc: Global,
    scope: &Context<'_>,
    handlers: &[Handler],
    names: &[usize],
    inside: Inside<'_>,
    place: &mut Place,
    faults: &mut Many<Diag>,
) -> Result<Option<Many<THandler>>, Memory>
    ensures told { IfOk result (λ t. Tells (map typed_handler) t faults.old faults.new (rules_of.clauses (context scope.now) (return_sort inside.entry.returns) inside.entry.around names.now (known_at place.old) (source.handlers_of (map handler_tree handlers.now)))) }
    ensures known { IfOk result (λ t. known_at place.new ≡ rules_of.handlers_after (context scope.now) names.now (known_at place.old) (source.handlers_of (map handler_tree handlers.now))) }
{
    let mut found = Some(Many::new(alloc));
    for (i, handler) in handlers.iter().enumerate() {
        begin_with(alloc, place, names)?;
        let last = i + 1 == handlers.len();
        let one = clause(alloc, scope, handler, last, inside, place, faults)?;
        found = with_clause(found, one)?;
    }
    Ok(found)
}

// An except clause, which is the last one or not.
#[cycle(statement)]
fn clause(
    alloc: Global,
    scope: &Context<'_>,
    handler: &Handler,
    last: bool,
    inside: Inside<'_>,
    place: &mut Place,
    faults: &mut Many<Diag>,
) -> Result<Option<Clause>, Memory>
    ensures told { IfOk result (λ t. Tells clause_seen t faults.old faults.new (rules_of.clause (context scope.now) (return_sort inside.entry.returns) inside.entry.around (known_at place.old) (handler_tree handler.now).span (handler_tree handler.now).class (handler_tree handler.now).name last (handler_tree handler.now).body)) }
    ensures known { IfOk result (λ t. known_at place.new ≡ rules_of.block_after (context scope.now) (handling.in_handler (context scope.now) (known_at place.old) (handler_tree handler.now).span (handler_tree handler.now).class (handler_tree handler.now).name last) (handler_tree handler.now).body) }
{
    let class = &handler.class;
    let name = &handler.name;
    let head = begin_handler(alloc, scope, place, handler.span, class, name, last, faults)?;
    let inner = Inside {
        around: Around {
            handling: true,
            ..inside.around
        },
        ..inside
    };
    let body = handler.body.as_slice();
    let body = block(alloc, scope, body, inner, place, faults)?;
    Ok(clause_by(head, body))
}

// The body of a `finally`, if there is one, which begins with these names.
#[cycle(statement)]
fn maybe_block(
    alloc: Global,
    scope: &Context<'_>,
    last: &Option<Many<Stmt>>,
    names: &[usize],
    inside: Inside<'_>,
    place: &mut Place,
    faults: &mut Many<Diag>,
) -> Result<Option<Option<Many<TStmt>>>, Memory>
    ensures told { IfOk result (λ t. Tells (option_map (map typed_stmt)) t faults.old faults.new (rules_of.maybe_block (context scope.now) (return_sort inside.entry.returns) inside.entry.around names.now (known_at place.old) (source.maybe_suite (option_map body_tree last.now)))) }
    ensures known { IfOk result (λ t. known_at place.new ≡ rules_of.last_after (context scope.now) names.now (known_at place.old) (source.maybe_suite (option_map body_tree last.now))) }
{
    match last {
        None => Ok(Some(None)),
        Some(body) => {
            begin_with(alloc, place, names)?;
            let body = block(alloc, scope, body.as_slice(), inside, place, faults)?;
            Ok(some_body(body))
        }
    }
}
