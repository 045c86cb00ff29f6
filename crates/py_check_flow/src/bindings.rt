//! The names that statements bind.
ghost use Rattle.std.specs.Prelude.{◌≡◌, ◌++◌, map, IfOk};
ghost use Rattle.std.specs.Option.{option_map, option_copied};
ghost use Rattle.py_syntax.specs.Expressions.{expr_tree, exprs_of};
ghost use Rattle.py_syntax.specs.Statements.{stmt_tree, body_tree, handler_tree, handlers_of};
ghost use Rattle.py_check_flow.specs.Bindings as spec;
ghost use Rattle.py_check_flow.specs.Bindings.{bindings_of};

use py_syntax::{Expr, ExprKind, Handler, Stmt, StmtKind};
use std::alloc::Global;
use value_core::{Memory, Name};

/// A name that a statement binds, with its annotation where it has one.
#[derive(Clone, Copy)]
pub struct Binding<'a> {
    pub name: &'a Name,
    pub mark: Option<&'a Expr>,
}

/// The bindings of statements, in the order of the text.
pub fn bindings_in<'a>(alloc: Global, body: &'a [Stmt]) -> Result<Vec<Binding<'a>>, Memory>
    ensures { IfOk result (λ found. bindings_of found.items ≡ spec.suite_bindings (body_tree body.now)) }
{
    let mut found = Vec::new(alloc);
    bind_all(&mut found, body)?;
    Ok(found)
}

/// The bindings of one statement, with those of the statements in it.
pub fn statement_bindings<'a>(alloc: Global, s: &'a Stmt) -> Result<Vec<Binding<'a>>, Memory>
    ensures { IfOk result (λ found. bindings_of found.items ≡ spec.stmt_bindings (stmt_tree s.now)) }
{
    let mut found = Vec::new(alloc);
    bind(&mut found, s)?;
    Ok(found)
}

/// Puts the bindings of statements behind those that there are.
#[cycle(bindings)]
fn bind_all<'a>(found: &mut Vec<Binding<'a>>, body: &'a [Stmt]) -> Result<(), Memory>
    ensures { IfOk result (λ done. bindings_of found.new.items ≡ bindings_of found.old.items ++ spec.suite_bindings (body_tree body.now)) }
{
    for s in body {
        bind(found, s)?;
    }
    Ok(())
}

#[cycle(bindings)]
fn bind<'a>(found: &mut Vec<Binding<'a>>, s: &'a Stmt) -> Result<(), Memory>
    ensures { IfOk result (λ done. bindings_of found.new.items ≡ bindings_of found.old.items ++ spec.stmt_bindings (stmt_tree s.now)) }
{
    match &s.kind {
        StmtKind::Assign(target, _) => bind_target(found, target),
        StmtKind::Annot(target, mark, _) => bind_marked(found, target, mark),
        StmtKind::Aug(target, _, _) => bind_target(found, target),
        StmtKind::If(arms, other) => {
            let arms = arms.as_slice();
            'arms: for (_, body) in arms {
                bind_all(found, body.as_slice())?;
            }
            bind_all(found, other.as_slice())
        }
        StmtKind::While(_, body) => bind_all(found, body.as_slice()),
        StmtKind::For(target, _, body) => {
            bind_target(found, target)?;
            bind_all(found, body.as_slice())
        }
        StmtKind::Try(body, handlers, last) => {
            bind_all(found, body.as_slice())?;
            bind_handlers(found, handlers.as_slice())?;
            match last {
                None => Ok(()),
                Some(last) => bind_all(found, last.as_slice()),
            }
        }
        _ => Ok(()),
    }
}

#[cycle(bindings)]
fn bind_handlers<'a>(found: &mut Vec<Binding<'a>>, handlers: &'a [Handler]) -> Result<(), Memory>
    ensures { IfOk result (λ done. bindings_of found.new.items ≡ bindings_of found.old.items ++ spec.handlers_bindings (handlers_of (map handler_tree handlers.now))) }
{
    for handler in handlers {
        bind_caught(found, &handler.name)?;
        bind_all(found, handler.body.as_slice())?;
    }
    Ok(())
}

/// The name that a handler binds.
fn bind_caught<'a>(found: &mut Vec<Binding<'a>>, name: &'a Option<Name>) -> Result<(), Memory>
    ensures { IfOk result (λ done. bindings_of found.new.items ≡ bindings_of found.old.items ++ spec.caught name.now) }
{
    match name {
        None => Ok(()),
        Some(name) => put(found, name, None),
    }
}

/// An annotated target, of which a name alone has the annotation.
fn bind_marked<'a>(
    found: &mut Vec<Binding<'a>>,
    target: &'a Expr,
    mark: &'a Expr,
) -> Result<(), Memory>
    ensures { IfOk result (λ done. bindings_of found.new.items ≡ bindings_of found.old.items ++ spec.marked (spec.name_in (expr_tree target.now)) (expr_tree target.now) (expr_tree mark.now)) }
{
    match name_in(target) {
        Some(name) => put(found, name, Some(mark)),
        None => bind_target(found, target),
    }
}

/// The name that an expression is.
pub fn name_in(e: &Expr) -> Option<&Name>
    ensures { option_copied result ≡ spec.name_in (expr_tree e.now) }
{
    match &e.kind {
        ExprKind::Name(name) => Some(name),
        _ => None,
    }
}

/// The names of a target, and those in its tuples and lists.
#[cycle(target)]
fn bind_target<'a>(found: &mut Vec<Binding<'a>>, e: &'a Expr) -> Result<(), Memory>
    ensures { IfOk result (λ done. bindings_of found.new.items ≡ bindings_of found.old.items ++ spec.target_bindings (expr_tree e.now)) }
{
    match &e.kind {
        ExprKind::Name(name) => put(found, name, None),
        ExprKind::List(items) => bind_targets(found, items.as_slice()),
        ExprKind::Tuple(items) => bind_targets(found, items.as_slice()),
        _ => Ok(()),
    }
}

#[cycle(target)]
fn bind_targets<'a>(found: &mut Vec<Binding<'a>>, items: &'a [Expr]) -> Result<(), Memory>
    ensures { IfOk result (λ done. bindings_of found.new.items ≡ bindings_of found.old.items ++ spec.targets_bindings (exprs_of (map expr_tree items.now))) }
{
    for item in items {
        bind_target(found, item)?;
    }
    Ok(())
}

fn put<'a>(
    found: &mut Vec<Binding<'a>>,
    name: &'a Name,
    mark: Option<&'a Expr>,
) -> Result<(), Memory>
    ensures { IfOk result (λ done. bindings_of found.new.items ≡ bindings_of found.old.items ++ spec.bound name.now (option_map (λ mark. expr_tree mark.now) mark.entry)) }
{
    found.push(Binding { name, mark })?;
    Ok(())
}
