//! The assignments of a function.
ghost use Rattle.std.specs.Prelude.{◌≡◌, [], ◌∷◌, ◌++◌, map, IfOk};
ghost use Rattle.py_syntax.specs.Statements.{stmt_tree, body_tree, handler_tree, handlers_of};
ghost use Rattle.py_check_names.specs.Walked.{trees};
ghost use Rattle.py_check_members.specs.Deeds as spec;

use py_syntax::{Handler, Stmt, StmtKind};
use std::alloc::Global;
use value_core::Memory;

/// The assignments among statements, at any depth, in the order of the text.
pub(crate) fn assignments_in<'a>(alloc: Global, body: &'a [Stmt]) -> Result<Vec<&'a Stmt>, Memory>
    ensures { IfOk result (λ found. trees found.items ≡ spec.suite_assignments (body_tree body.now)) }
{
    let mut found = Vec::new(alloc);
    find_all(&mut found, body)?;
    Ok(found)
}

/// Puts the assignments of statements behind those that there are.
#[cycle(assignments)]
fn find_all<'a>(found: &mut Vec<&'a Stmt>, body: &'a [Stmt]) -> Result<(), Memory>
    ensures { IfOk result (λ done. trees found.new.items ≡ trees found.old.items ++ spec.suite_assignments (body_tree body.now)) }
{
    for s in body {
        find(found, s)?;
    }
    Ok(())
}

#[cycle(assignments)]
fn find<'a>(found: &mut Vec<&'a Stmt>, s: &'a Stmt) -> Result<(), Memory>
    ensures { IfOk result (λ done. trees found.new.items ≡ trees found.old.items ++ spec.stmt_assignments (stmt_tree s.now)) }
{
    match &s.kind {
        StmtKind::Assign(_, _) => put(found, s),
        StmtKind::Annot(_, _, _) => put(found, s),
        StmtKind::Aug(_, _, _) => put(found, s),
        StmtKind::If(arms, other) => {
            let arms = arms.as_slice();
            'arms: for (_, body) in arms {
                find_all(found, body.as_slice())?;
            }
            find_all(found, other.as_slice())
        }
        StmtKind::While(_, body) => find_all(found, body.as_slice()),
        StmtKind::For(_, _, body) => find_all(found, body.as_slice()),
        StmtKind::Try(body, handlers, last) => {
            find_all(found, body.as_slice())?;
            find_in_handlers(found, handlers.as_slice())?;
            match last {
                None => Ok(()),
                Some(last) => find_all(found, last.as_slice()),
            }
        }
        _ => Ok(()),
    }
}

#[cycle(assignments)]
fn find_in_handlers<'a>(found: &mut Vec<&'a Stmt>, handlers: &'a [Handler]) -> Result<(), Memory>
    ensures { IfOk result (λ done. trees found.new.items ≡ trees found.old.items ++ spec.handlers_assignments (handlers_of (map handler_tree handlers.now))) }
{
    for handler in handlers {
        find_all(found, handler.body.as_slice())?;
    }
    Ok(())
}

fn put<'a>(found: &mut Vec<&'a Stmt>, s: &'a Stmt) -> Result<(), Memory>
    ensures { IfOk result (λ done. trees found.new.items ≡ trees found.old.items ++ stmt_tree s.now ∷ []) }
{
    found.push(s)?;
    Ok(())
}
