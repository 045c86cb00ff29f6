//! The single targets in a target, and what kind of expression each is.
ghost use Rattle.std.specs.Prelude.{◌≡◌, ◌++◌, ◌∷◌, [], map, IfOk};
ghost use Rattle.py_syntax.specs.Expressions.{expr_tree, exprs_of};
ghost use Rattle.py_check_places.specs.Shapes as shapes;
ghost use Rattle.py_check_places.specs.Views.{trees};

use py_syntax::{Expr, ExprKind};
use std::alloc::Global;
use value_core::Memory;

/// The single targets in a target, at any depth.
pub fn leaves<'a>(alloc: Global, target: &'a Expr) -> Result<Vec<&'a Expr>, Memory>
    ensures { IfOk result (λ found. trees found.items ≡ shapes.leaves (expr_tree target.now)) }
{
    let mut found = Vec::new(alloc);
    put_leaves(&mut found, target)?;
    Ok(found)
}

#[cycle(leaves)]
fn put_leaves<'a>(found: &mut Vec<&'a Expr>, e: &'a Expr) -> Result<(), Memory>
    ensures { IfOk result (λ done. trees found.new.items ≡ trees found.old.items ++ shapes.leaves (expr_tree e.now)) }
{
    match &e.kind {
        ExprKind::Tuple(items) => put_row(found, items.as_slice()),
        ExprKind::List(items) => put_row(found, items.as_slice()),
        _ => put(found, e),
    }
}

#[cycle(leaves)]
fn put_row<'a>(found: &mut Vec<&'a Expr>, items: &'a [Expr]) -> Result<(), Memory>
    ensures { IfOk result (λ done. trees found.new.items ≡ trees found.old.items ++ shapes.row_leaves (exprs_of (map expr_tree items.now))) }
{
    for item in items {
        put_leaves(found, item)?;
    }
    Ok(())
}

fn put<'a>(found: &mut Vec<&'a Expr>, e: &'a Expr) -> Result<(), Memory>
    ensures { IfOk result (λ done. trees found.new.items ≡ trees found.old.items ++ expr_tree e.now ∷ []) }
{
    found.push(e)?;
    Ok(())
}

/// Whether an expression is an item.
pub fn is_item(e: &Expr) -> bool
    ensures { result ≡ shapes.is_item (expr_tree e.now) }
{
    matches!(e.kind, ExprKind::Index(_, _))
}

/// Whether an expression is an item or an attribute.
pub fn is_access(e: &Expr) -> bool
    ensures { result ≡ shapes.is_access (expr_tree e.now) }
{
    match e.kind {
        ExprKind::Index(_, _) => true,
        ExprKind::Attr(_, _) => true,
        _ => false,
    }
}

/// Whether an expression is a tuple or a list.
pub fn is_row(e: &Expr) -> bool
    ensures { result ≡ shapes.is_row (expr_tree e.now) }
{
    match e.kind {
        ExprKind::Tuple(_) => true,
        ExprKind::List(_) => true,
        _ => false,
    }
}

/// Whether no tuple stands in a tuple, and no list.
pub fn is_flat(e: &Expr) -> bool
    ensures { result ≡ shapes.is_flat (expr_tree e.now) }
{
    match &e.kind {
        ExprKind::Tuple(items) => no_rows(items.as_slice()),
        ExprKind::List(_) => false,
        _ => true,
    }
}

fn no_rows(items: &[Expr]) -> bool
    ensures { result ≡ shapes.no_rows (exprs_of (map expr_tree items.now)) }
{
    for item in items {
        if is_row(item) {
            return false;
        }
    }
    true
}
