//! Closed lists of statements, and breaks.
ghost use Rattle.std.specs.Prelude.{◌≡◌, map};
ghost use Rattle.py_syntax.specs.Expressions.{expr_tree};
ghost use Rattle.py_syntax.specs.Statements.{stmt_tree, body_tree, handler_tree, handlers_of};
ghost use Rattle.py_check_flow.specs.Closed as spec;

use py_syntax::{Expr, ExprKind, Handler, Stmt, StmtKind};

/// Whether no run comes to the end of the statements.
#[cycle(closed)]
pub fn is_closed(body: &[Stmt]) -> bool
    ensures { result ≡ spec.is_closed (body_tree body.now) }
{
    for s in body {
        if closes(s) {
            return true;
        }
    }
    false
}

#[cycle(closed)]
fn closes(s: &Stmt) -> bool
    ensures { result ≡ spec.closes (stmt_tree s.now) }
{
    match &s.kind {
        StmtKind::Break => true,
        StmtKind::Continue => true,
        StmtKind::Return(_) => true,
        StmtKind::Raise(_) => true,
        StmtKind::If(arms, other) => {
            let arms = arms.as_slice();
            'arms: for (_, body) in arms {
                if !is_closed(body.as_slice()) {
                    return false;
                }
            }
            is_closed(other.as_slice())
        }
        StmtKind::While(test, body) => loops_on(test, body.as_slice()),
        StmtKind::Try(body, handlers, last) => {
            if is_closed(body.as_slice()) && closed_handlers(handlers.as_slice()) {
                return true;
            }
            match last {
                None => false,
                Some(last) => is_closed(last.as_slice()),
            }
        }
        _ => false,
    }
}

#[cycle(closed)]
fn closed_handlers(handlers: &[Handler]) -> bool
    ensures { result ≡ spec.closed_handlers (handlers_of (map handler_tree handlers.now)) }
{
    for handler in handlers {
        if !is_closed(handler.body.as_slice()) {
            return false;
        }
    }
    true
}

/// Whether a `while` of this test and body goes on until something leaves it.
fn loops_on(test: &Expr, body: &[Stmt]) -> bool
    ensures { result ≡ spec.loops_on (expr_tree test.now) (body_tree body.now) }
{
    is_true(test) && !breaks_out(body)
}

fn is_true(e: &Expr) -> bool
    ensures { result ≡ spec.is_true (expr_tree e.now) }
{
    matches!(e.kind, ExprKind::True)
}

/// Whether the statements have a `break` of the loop that holds them.
#[cycle(breaks)]
pub fn breaks_out(body: &[Stmt]) -> bool
    ensures { result ≡ spec.breaks_suite (body_tree body.now) }
{
    for s in body {
        if breaks(s) {
            return true;
        }
    }
    false
}

#[cycle(breaks)]
fn breaks(s: &Stmt) -> bool
    ensures { result ≡ spec.breaks (stmt_tree s.now) }
{
    match &s.kind {
        StmtKind::Break => true,
        StmtKind::If(arms, other) => {
            let arms = arms.as_slice();
            'arms: for (_, body) in arms {
                if breaks_out(body.as_slice()) {
                    return true;
                }
            }
            breaks_out(other.as_slice())
        }
        StmtKind::Try(body, handlers, last) => {
            if breaks_out(body.as_slice()) || handlers_break(handlers.as_slice()) {
                return true;
            }
            match last {
                None => false,
                Some(last) => breaks_out(last.as_slice()),
            }
        }
        _ => false,
    }
}

#[cycle(breaks)]
fn handlers_break(handlers: &[Handler]) -> bool
    ensures { result ≡ spec.breaks_handlers (handlers_of (map handler_tree handlers.now)) }
{
    for handler in handlers {
        if breaks_out(handler.body.as_slice()) {
            return true;
        }
    }
    false
}
