//! Deletions.
ghost use Rattle.std.specs.Prelude.{◌≡◌, IfOk};
ghost use Rattle.std.specs.Option.{option_map};
ghost use Rattle.py_syntax.specs.Expressions.{expr_tree};
ghost use Rattle.py_typed.specs.Sorts.{sort};
ghost use Rattle.py_check_context.specs.Context.{context};
ghost use Rattle.py_check_messages.specs.Seen.{Tells, judged, ruled};
ghost use Rattle.py_check_coercions.specs.Boxes.{boxed};
ghost use Rattle.py_check_places.specs.Views.{known_at};
ghost use Rattle.py_check_targets.specs.Views.{boxed_act};
ghost use Rattle.py_check_statements.specs.Deletions as rule_of;

use crate::statements::in_box;
use py_check_context::{Context, Want};
use py_check_messages::only_entries;
use py_check_places::{Place, is_item};
use py_check_targets::typed_at;
use py_syntax::{Expr, Span};
use py_syntax_diagnostics::Diag;
use py_typed::{TExpr, TKind, TStmtKind, is_dict};
use std::alloc::Global;
use value_core::{Many, Memory};

/// A deletion (Python Language Reference, "The del statement").
pub(crate) fn deleted(
    alloc: Global,
    scope: &Context<'_>,
    place: &Place,
    span: Span,
    e: &Expr,
    faults: &mut Many<Diag>,
) -> Result<Option<Box<TStmtKind>>, Memory>
    ensures { IfOk result (λ t. Tells boxed_act t faults.old faults.new (rule_of.deletes (context scope.now) (known_at place.now) span (expr_tree e.now))) }
{
    let item = typed_at(alloc, scope, place, Want::Free, e, faults)?;
    deletion(alloc, span, is_item(e), item, faults)
}

// Of what is written as an item, and of anything else.
fn deletion(
    alloc: Global,
    span: Span,
    written: bool,
    e: Option<Box<TExpr>>,
    faults: &mut Many<Diag>,
) -> Result<Option<Box<TStmtKind>>, Memory>
    ensures { IfOk result (λ t. Tells boxed_act t faults.old faults.new (ruled span (rule_of.deletion written) (option_map boxed e))) }
{
    let Some(e) = e else {
        return Ok(None);
    };
    if !written {
        only_entries(alloc, span, faults)?;
        return Ok(None);
    }
    item_deleted(alloc, span, e, faults)
}

fn item_deleted(
    alloc: Global,
    span: Span,
    e: Box<TExpr>,
    faults: &mut Many<Diag>,
) -> Result<Option<Box<TStmtKind>>, Memory>
    ensures { IfOk result (λ t. Tells boxed_act t faults.old faults.new (judged span (rule_of.item_deleted (boxed e)))) }
{
    let TExpr { kind, ty, span: _ } = Box::into_inner(e);
    drop(ty);
    match kind {
        TKind::At(held, key) => entry_deleted(alloc, span, held, key, faults),
        other => {
            drop(other);
            only_entries(alloc, span, faults)?;
            Ok(None)
        }
    }
}

// An item of this value, with this index.
fn entry_deleted(
    alloc: Global,
    span: Span,
    held: Box<TExpr>,
    key: Box<TExpr>,
    faults: &mut Many<Diag>,
) -> Result<Option<Box<TStmtKind>>, Memory>
    ensures { IfOk result (λ t. Tells boxed_act t faults.old faults.new (judged span (rule_of.entry_deleted (boxed held) (boxed key)))) }
{
    if !is_dict(&held.ty) {
        only_entries(alloc, span, faults)?;
        return Ok(None);
    }
    let kind = in_box(
        alloc,
        TStmtKind::Del(Box::into_inner(held), Box::into_inner(key)),
    )?;
    Ok(Some(kind))
}
