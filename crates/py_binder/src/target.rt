//! The names that a target binds.
ghost use Rattle.std.specs.Prelude.{◌≡◌, [], ◌∷◌, ◌++◌, map, OnOk};
ghost use Rattle.py_syntax.specs.Expressions.{expr_tree, exprs_of};
ghost use Rattle.py_binder.specs.Sights as spec;
ghost use Rattle.py_binder.specs.Collected.{sights_of};

use crate::reads::read;
use crate::sight::{Manner, Sight, Use};
use py_syntax::{Expr, ExprKind, Span};
use std::alloc::Global;
use value_core::{Memory, Name};

/// Puts what a target binds, and what is looked up in it, behind the sights that there are.
#[cycle(target)]
pub(crate) fn see_target(alloc: Global, sights: &mut Vec<Sight<'_>>, e: &Expr) -> Result<(), Memory>
    ensures { OnOk result (sights_of sights.new.items ≡ sights_of sights.old.items ++ spec.target_sights (expr_tree e.now)) }
{
    match &e.kind {
        ExprKind::Name(name) => see_bound(sights, name.clone()?, e.span),
        ExprKind::List(items) => see_targets(alloc, sights, items.as_slice()),
        ExprKind::Tuple(items) => see_targets(alloc, sights, items.as_slice()),
        _ => read(alloc, sights, Manner::Value, e),
    }
}

#[cycle(target)]
fn see_targets(alloc: Global, sights: &mut Vec<Sight<'_>>, items: &[Expr]) -> Result<(), Memory>
    ensures { OnOk result (sights_of sights.new.items ≡ sights_of sights.old.items ++ spec.targets_sights (exprs_of (map expr_tree items.now))) }
{
    for item in items {
        see_target(alloc, sights, item)?;
    }
    Ok(())
}

/// Puts one name that is bound behind the sights.
pub(crate) fn see_bound(sights: &mut Vec<Sight<'_>>, name: Name, span: Span) -> Result<(), Memory>
    ensures { OnOk result (sights_of sights.new.items ≡ sights_of sights.old.items ++ spec.sight (spec.Binds name) span ∷ []) }
{
    let does = Use::Binds(name);
    sights.push(Sight { does, span })?;
    Ok(())
}
