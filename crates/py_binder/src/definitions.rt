//! The names that definitions see, and the functions that they hold.
ghost use Rattle.std.specs.Prelude.{◌≡◌, ◌++◌, map, OnOk};
ghost use Rattle.py_syntax.specs.Expressions.{expr_tree};
ghost use Rattle.py_syntax.specs.Statements.{stmt_tree, body_tree, func_tree, class_tree, param_tree};
ghost use Rattle.py_binder.specs.Sights as spec;
ghost use Rattle.py_binder.specs.Collected.{sights_of};

use crate::imports::see_defined;
use crate::reads::{read, read_each, read_maybe};
use crate::scope::Role;
use crate::sight::{Home, Manner, Sight, Use};
use py_syntax::{Class, Expr, ExprKind, Func, Span, Stmt, StmtKind};
use std::alloc::Global;
use value_core::{Memory, Name};

/// Puts what a def sees behind the sights: in a function nothing.
pub(crate) fn see_def<'a>(
    alloc: Global,
    sights: &mut Vec<Sight<'a>>,
    home: Home,
    f: &'a Func,
    span: Span,
) -> Result<(), Memory>
    ensures { OnOk result (sights_of sights.new.items ≡ sights_of sights.old.items ++ spec.def_sights home (func_tree f.now) span) }
{
    match home {
        Home::InModule => {
            read_each(alloc, sights, Manner::Value, f.marks.as_slice())?;
            see_defined(sights, Role::Function, f.name.clone()?, span)?;
            see_header(alloc, sights, f, span)
        }
        Home::InFunction => Ok(()),
    }
}

/// The annotations of a function, and the function.
fn see_header<'a>(
    alloc: Global,
    sights: &mut Vec<Sight<'a>>,
    f: &'a Func,
    span: Span,
) -> Result<(), Memory>
    ensures { OnOk result (sights_of sights.new.items ≡ sights_of sights.old.items ++ spec.header_sights (func_tree f.now) span) }
{
    read_params(alloc, sights, f.params.as_slice())?;
    read_maybe(alloc, sights, Manner::Annotation, &f.ret)?;
    let does = Use::Holds(f);
    sights.push(Sight { does, span })?;
    Ok(())
}

fn read_params(
    alloc: Global,
    sights: &mut Vec<Sight<'_>>,
    params: &[(Name, Option<Expr>)],
) -> Result<(), Memory>
    ensures { OnOk result (sights_of sights.new.items ≡ sights_of sights.old.items ++ spec.params_reads (map param_tree params.now)) }
{
    for (_, mark) in params {
        read_maybe(alloc, sights, Manner::Annotation, mark)?;
    }
    Ok(())
}

/// Puts what a class sees behind the sights: in a function nothing.
pub(crate) fn see_class<'a>(
    alloc: Global,
    sights: &mut Vec<Sight<'a>>,
    home: Home,
    class: &'a Class,
    span: Span,
) -> Result<(), Memory>
    ensures { OnOk result (sights_of sights.new.items ≡ sights_of sights.old.items ++ spec.class_sights home (class_tree class.now) span) }
{
    match home {
        Home::InModule => {
            read_each(alloc, sights, Manner::Value, class.marks.as_slice())?;
            see_defined(sights, Role::Class, class.name.clone()?, span)?;
            read_each(alloc, sights, Manner::Value, class.bases.as_slice())?;
            see_members(alloc, sights, class.body.as_slice())
        }
        Home::InFunction => Ok(()),
    }
}

fn see_members<'a>(
    alloc: Global,
    sights: &mut Vec<Sight<'a>>,
    body: &'a [Stmt],
) -> Result<(), Memory>
    ensures { OnOk result (sights_of sights.new.items ≡ sights_of sights.old.items ++ spec.members_sights (body_tree body.now)) }
{
    for s in body {
        see_member(alloc, sights, s)?;
    }
    Ok(())
}

/// A statement of a class's body: a def, or the declaration of an attribute.
fn see_member<'a>(alloc: Global, sights: &mut Vec<Sight<'a>>, s: &'a Stmt) -> Result<(), Memory>
    ensures { OnOk result (sights_of sights.new.items ≡ sights_of sights.old.items ++ spec.member_sights (stmt_tree s.now)) }
{
    match &s.kind {
        StmtKind::Def(f) => {
            read_each(alloc, sights, Manner::Value, f.marks.as_slice())?;
            see_header(alloc, sights, f, s.span)
        }
        StmtKind::Annot(target, mark, None) => see_attribute(alloc, sights, target, mark),
        StmtKind::Annot(_, _, Some(_)) => Ok(()),
        StmtKind::Expr(_) => Ok(()),
        StmtKind::Assign(_, _) => Ok(()),
        StmtKind::Aug(_, _, _) => Ok(()),
        StmtKind::Del(_) => Ok(()),
        StmtKind::Pass => Ok(()),
        StmtKind::Break => Ok(()),
        StmtKind::Continue => Ok(()),
        StmtKind::Return(_) => Ok(()),
        StmtKind::Raise(_) => Ok(()),
        StmtKind::Global(_) => Ok(()),
        StmtKind::Assert(_, _) => Ok(()),
        StmtKind::Import(_, _) => Ok(()),
        StmtKind::From(_, _) => Ok(()),
        StmtKind::If(_, _) => Ok(()),
        StmtKind::While(_, _) => Ok(()),
        StmtKind::For(_, _, _) => Ok(()),
        StmtKind::Try(_, _, _) => Ok(()),
        StmtKind::Class(_) => Ok(()),
    }
}

/// The annotation of an attribute.
fn see_attribute(
    alloc: Global,
    sights: &mut Vec<Sight<'_>>,
    target: &Expr,
    mark: &Expr,
) -> Result<(), Memory>
    ensures { OnOk result (sights_of sights.new.items ≡ sights_of sights.old.items ++ spec.attribute_sights (spec.is_name (expr_tree target.now)) (expr_tree mark.now)) }
{
    if is_name(target) {
        read(alloc, sights, Manner::Annotation, mark)
    } else {
        Ok(())
    }
}

fn is_name(e: &Expr) -> bool
    ensures { result ≡ spec.is_name (expr_tree e.now) }
{
    match &e.kind {
        ExprKind::Name(_) => true,
        ExprKind::Int(_) => false,
        ExprKind::Str(_) => false,
        ExprKind::True => false,
        ExprKind::False => false,
        ExprKind::Nothing => false,
        ExprKind::Neg(_) => false,
        ExprKind::Plus(_) => false,
        ExprKind::Not(_) => false,
        ExprKind::Bin(_, _, _) => false,
        ExprKind::Compare(_, _) => false,
        ExprKind::And(_, _) => false,
        ExprKind::Or(_, _) => false,
        ExprKind::Cond(_, _, _) => false,
        ExprKind::List(_) => false,
        ExprKind::Dict(_) => false,
        ExprKind::Tuple(_) => false,
        ExprKind::Attr(_, _) => false,
        ExprKind::Index(_, _) => false,
        ExprKind::Call(_, _) => false,
    }
}
