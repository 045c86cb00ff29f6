//! The names that statements see.
ghost use Rattle.std.specs.Prelude.{◌≡◌, [], ◌∷◌, ◌++◌, map, OnOk};
ghost use Rattle.py_syntax.specs.Statements.{stmt_tree, body_tree, handler_tree, handlers_of};
ghost use Rattle.py_binder.specs.Sights as spec;
ghost use Rattle.py_binder.specs.Collected.{sights_of};

use crate::definitions::{see_class, see_def};
use crate::imports::{see_import, see_names};
use crate::reads::{read, read_maybe};
use crate::sight::{Home, Manner, Sight, Use};
use crate::target::{see_bound, see_target};
use py_syntax::{Handler, Span, Stmt, StmtKind};
use std::alloc::Global;
use value_core::{Many, Memory, Name};

/// Puts what statements see behind the sights that there are.
#[cycle(statement)]
pub(crate) fn see_all<'a>(
    alloc: Global,
    sights: &mut Vec<Sight<'a>>,
    home: Home,
    body: &'a [Stmt],
) -> Result<(), Memory>
    ensures { OnOk result (sights_of sights.new.items ≡ sights_of sights.old.items ++ spec.suite_sights home (body_tree body.now)) }
{
    for s in body {
        see(alloc, sights, home, s)?;
    }
    Ok(())
}

#[cycle(statement)]
fn see<'a>(
    alloc: Global,
    sights: &mut Vec<Sight<'a>>,
    home: Home,
    s: &'a Stmt,
) -> Result<(), Memory>
    ensures { OnOk result (sights_of sights.new.items ≡ sights_of sights.old.items ++ spec.stmt_sights home (stmt_tree s.now)) }
{
    match &s.kind {
        StmtKind::Expr(a) => read(alloc, sights, Manner::Value, a),
        StmtKind::Assign(target, a) => {
            see_target(alloc, sights, target)?;
            read(alloc, sights, Manner::Value, a)
        }
        StmtKind::Annot(target, mark, a) => {
            see_target(alloc, sights, target)?;
            read(alloc, sights, Manner::Annotation, mark)?;
            read_maybe(alloc, sights, Manner::Value, a)
        }
        StmtKind::Aug(target, _, a) => {
            see_target(alloc, sights, target)?;
            read(alloc, sights, Manner::Value, a)
        }
        StmtKind::Del(a) => read(alloc, sights, Manner::Value, a),
        StmtKind::Pass => Ok(()),
        StmtKind::Break => Ok(()),
        StmtKind::Continue => Ok(()),
        StmtKind::Return(a) => read_maybe(alloc, sights, Manner::Value, a),
        StmtKind::Raise(a) => read_maybe(alloc, sights, Manner::Value, a),
        StmtKind::Global(names) => see_global(sights, names, s.span),
        StmtKind::Assert(a, message) => {
            read(alloc, sights, Manner::Value, a)?;
            read_maybe(alloc, sights, Manner::Value, message)
        }
        StmtKind::Import(name, other) => see_import(alloc, sights, home, name, other, s.span),
        StmtKind::From(_, names) => see_names(sights, home, names.as_slice(), s.span),
        StmtKind::If(arms, other) => {
            let arms = arms.as_slice();
            'arms: for (test, body) in arms {
                read(alloc, sights, Manner::Value, test)?;
                see_all(alloc, sights, home, body.as_slice())?;
            }
            see_all(alloc, sights, home, other.as_slice())
        }
        StmtKind::While(test, body) => {
            read(alloc, sights, Manner::Value, test)?;
            see_all(alloc, sights, home, body.as_slice())
        }
        StmtKind::For(target, a, body) => {
            see_target(alloc, sights, target)?;
            read(alloc, sights, Manner::Value, a)?;
            see_all(alloc, sights, home, body.as_slice())
        }
        StmtKind::Try(body, handlers, last) => {
            see_all(alloc, sights, home, body.as_slice())?;
            see_handlers(alloc, sights, home, handlers.as_slice())?;
            match last {
                None => Ok(()),
                Some(last) => see_all(alloc, sights, home, last.as_slice()),
            }
        }
        StmtKind::Def(f) => see_def(alloc, sights, home, f, s.span),
        StmtKind::Class(class) => see_class(alloc, sights, home, class, s.span),
    }
}

#[cycle(statement)]
fn see_handlers<'a>(
    alloc: Global,
    sights: &mut Vec<Sight<'a>>,
    home: Home,
    handlers: &'a [Handler],
) -> Result<(), Memory>
    ensures { OnOk result (sights_of sights.new.items ≡ sights_of sights.old.items ++ spec.handlers_sights home (handlers_of (map handler_tree handlers.now))) }
{
    for handler in handlers {
        read_maybe(alloc, sights, Manner::Value, &handler.class)?;
        see_caught(sights, &handler.name, handler.span)?;
        see_all(alloc, sights, home, handler.body.as_slice())?;
    }
    Ok(())
}

/// The name that a handler binds.
fn see_caught(sights: &mut Vec<Sight<'_>>, name: &Option<Name>, span: Span) -> Result<(), Memory>
    ensures { OnOk result (sights_of sights.new.items ≡ sights_of sights.old.items ++ spec.caught_sights name.now span) }
{
    match name {
        None => Ok(()),
        Some(name) => see_bound(sights, name.clone()?, span),
    }
}

/// The names that are listed as global.
fn see_global<'a>(
    sights: &mut Vec<Sight<'a>>,
    names: &'a Many<Name>,
    span: Span,
) -> Result<(), Memory>
    ensures { OnOk result (sights_of sights.new.items ≡ sights_of sights.old.items ++ spec.sight (spec.Declares names.now) span ∷ []) }
{
    let does = Use::Declares(names);
    sights.push(Sight { does, span })?;
    Ok(())
}
