//! The definitions and imports of a module.
ghost use Rattle.std.specs.Prelude.{◌≡◌, [], ◌∷◌, ◌++◌, map, IfOk};
ghost use Rattle.py_syntax.specs.Statements.{stmt_tree, body_tree, handler_tree, handlers_of};
ghost use Rattle.py_check_names.specs.Walked.{trees};
ghost use Rattle.py_check_names.specs.Outline as spec;

use py_syntax::{Handler, Stmt, StmtKind};
use std::alloc::Global;
use value_core::Memory;

/// The definitions and imports among statements, in the order of the text.
pub fn definitions_in<'a>(alloc: Global, body: &'a [Stmt]) -> Result<Vec<&'a Stmt>, Memory>
    ensures { IfOk result (λ found. trees found.items ≡ spec.suite_definitions (body_tree body.now)) }
{
    let mut found = Vec::new(alloc);
    find_all(&mut found, body)?;
    Ok(found)
}

/// Puts the definitions and imports of statements behind those that there are.
#[cycle(definitions)]
fn find_all<'a>(found: &mut Vec<&'a Stmt>, body: &'a [Stmt]) -> Result<(), Memory>
    ensures { IfOk result (λ done. trees found.new.items ≡ trees found.old.items ++ spec.suite_definitions (body_tree body.now)) }
{
    for s in body {
        find(found, s)?;
    }
    Ok(())
}

#[cycle(definitions)]
fn find<'a>(found: &mut Vec<&'a Stmt>, s: &'a Stmt) -> Result<(), Memory>
    ensures { IfOk result (λ done. trees found.new.items ≡ trees found.old.items ++ spec.stmt_definitions (stmt_tree s.now)) }
{
    match &s.kind {
        StmtKind::Def(_) => put(found, s),
        StmtKind::Class(_) => put(found, s),
        StmtKind::Import(_, _) => put(found, s),
        StmtKind::From(_, _) => put(found, s),
        StmtKind::If(arms, other) => {
            let arms = arms.as_slice();
            'arms: for (_, body) in arms {
                find_all(found, body.as_slice())?;
            }
            find_all(found, other.as_slice())
        }
        StmtKind::While(_, body) => find_all(found, body.as_slice()),
        StmtKind::For(_, _, body) => find_all(found, body.as_slice()),
        StmtKind::Try(body, handlers, last) => {
            find_all(found, body.as_slice())?;
            find_in_handlers(found, handlers.as_slice())?;
            match last {
                None => Ok(()),
                Some(last) => find_all(found, last.as_slice()),
            }
        }
        _ => Ok(()),
    }
}

#[cycle(definitions)]
fn find_in_handlers<'a>(found: &mut Vec<&'a Stmt>, handlers: &'a [Handler]) -> Result<(), Memory>
    ensures { IfOk result (λ done. trees found.new.items ≡ trees found.old.items ++ spec.handlers_definitions (handlers_of (map handler_tree handlers.now))) }
{
    for handler in handlers {
        find_all(found, handler.body.as_slice())?;
    }
    Ok(())
}

fn put<'a>(found: &mut Vec<&'a Stmt>, s: &'a Stmt) -> Result<(), Memory>
    ensures { IfOk result (λ done. trees found.new.items ≡ trees found.old.items ++ stmt_tree s.now ∷ []) }
{
    found.push(s)?;
    Ok(())
}
