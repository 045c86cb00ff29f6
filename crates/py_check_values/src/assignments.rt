//! Assignments.
ghost use Rattle.std.specs.Prelude.{◌≡◌, ◌∷◌, [], map, length, IfOk};
ghost use Rattle.std.specs.Option.{option_map, option_copied};
ghost use Rattle.py_typed.specs.Sorts.{sort};
ghost use Rattle.py_typed.specs.Classes.{class_entry};
ghost use Rattle.py_check_messages.specs.Seen.{Tells, Finds, ruled};
ghost use Rattle.py_check_coercions.specs.Boxes.{boxed};
ghost use Rattle.py_check_values.specs.Aims.{aim_seen};
ghost use Rattle.py_check_values.specs.Assignments as rule_of;

use crate::aims::Aim;
use py_check_coercions::coerced;
use py_check_messages::{
    cannot_assign, cannot_unpack, index_target, needs_annotation, no_attribute, wrong_assignment,
};
use py_syntax::Span;
use py_syntax_diagnostics::Diag;
use py_typed::{Classes, TExpr, Ty, fits, is_nothing};
use std::alloc::Global;
use value_core::{Many, Memory, Name};

/// A value as it is bound to one target (Python Language Reference, "Assignment statements").
pub fn assigned(
    alloc: Global,
    classes: &Classes,
    span: Span,
    aim: &Aim<'_>,
    e: Option<Box<TExpr>>,
    faults: &mut Many<Diag>,
) -> Result<Option<Box<TExpr>>, Memory>
    ensures { IfOk result (λ t. Tells boxed t faults.old faults.new (ruled span (rule_of.assignment (map class_entry classes.now.list) (aim_seen aim.now)) (option_map boxed e))) }
{
    let Some(e) = e else {
        return Ok(None);
    };
    if !binds(alloc, classes, span, aim, &e.ty, faults)? {
        return Ok(None);
    }
    let e = as_bound(alloc, aim, e)?;
    Ok(Some(e))
}

fn as_bound(alloc: Global, aim: &Aim<'_>, e: Box<TExpr>) -> Result<Box<TExpr>, Memory>
    ensures { IfOk result (λ r. boxed r ≡ rule_of.as_bound (aim_seen aim.now) (boxed e)) }
{
    match aim {
        Aim::Held(_, t) => coerced(alloc, e, t),
        Aim::First(_, _) => Ok(e),
        Aim::Barred(_) => Ok(e),
        Aim::Unwritten(_) => Ok(e),
        Aim::Lacking(_, _) => Ok(e),
        Aim::Misplaced(_) => Ok(e),
    }
}

/// Whether a value of a type may be bound to one target; what is wrong is said.
pub fn binds(
    alloc: Global,
    classes: &Classes,
    span: Span,
    aim: &Aim<'_>,
    s: &Ty,
    faults: &mut Many<Diag>,
) -> Result<bool, Memory>
    ensures { IfOk result (λ right. Finds right faults.old faults.new span (rule_of.binding_fault (map class_entry classes.now.list) (aim_seen aim.now) (sort s.now))) }
{
    match aim {
        Aim::Held(_, t) => {
            if fits(s, t, classes) {
                return Ok(true);
            }
            wrong_assignment(alloc, classes, span, s, t, faults)?;
        }
        Aim::First(_, x) => {
            if !is_nothing(s) {
                return Ok(true);
            }
            needs_annotation(alloc, span, x.as_str(), faults)?;
        }
        Aim::Barred(x) => cannot_assign(alloc, span, x.as_str(), faults)?,
        Aim::Unwritten(t) => index_target(alloc, classes, span, t, faults)?,
        Aim::Lacking(t, a) => no_attribute(alloc, classes, span, t, a.as_str(), faults)?,
        Aim::Misplaced(t) => index_target(alloc, classes, span, t, faults)?,
    }
    Ok(false)
}

/// Whether no target is an attribute that nothing declares; the first one that is so is said.
pub fn are_declared(
    alloc: Global,
    classes: &Classes,
    span: Span,
    aims: &[Aim<'_>],
    faults: &mut Many<Diag>,
) -> Result<bool, Memory>
    ensures { IfOk result (λ right. Finds right faults.old faults.new span (rule_of.lacking_fault (map class_entry classes.now.list) (map aim_seen aims.now))) }
{
    for aim in aims {
        if let Aim::Lacking(t, a) = aim {
            no_attribute(alloc, classes, span, t, a.as_str(), faults)?;
            return Ok(false);
        }
    }
    Ok(true)
}

/// Whether a value of a type is taken apart for several targets, whatever its items are; what is wrong is said.
pub fn unpacks(
    alloc: Global,
    classes: &Classes,
    span: Span,
    aims: &[Aim<'_>],
    s: &Ty,
    faults: &mut Many<Diag>,
) -> Result<bool, Memory>
    ensures { IfOk result (λ right. Finds right faults.old faults.new span (rule_of.unpacking_fault (map class_entry classes.now.list) (map aim_seen aims.now) (sort s.now))) }
{
    if let Some(x) = first_barred(aims) {
        cannot_assign(alloc, span, x.as_str(), faults)?;
        return Ok(false);
    }
    if let Some(t) = first_unwritten(aims) {
        index_target(alloc, classes, span, t, faults)?;
        return Ok(false);
    }
    let Some(_) = items_for(s, aims.len()) else {
        cannot_unpack(alloc, classes, span, s, aims.len(), faults)?;
        return Ok(false);
    };
    Ok(true)
}

/// The first name that cannot be assigned.
fn first_barred<'a>(aims: &[Aim<'a>]) -> Option<&'a Name>
    ensures { option_copied result ≡ rule_of.first_barred (map aim_seen aims.now) }
{
    for a in aims {
        if let Aim::Barred(x) = a {
            return Some(x);
        }
    }
    None
}

/// The type of what the first item that cannot be assigned is one of.
fn first_unwritten<'a>(aims: &'a [Aim<'_>]) -> Option<&'a Ty>
    ensures { option_map sort (option_copied result) ≡ rule_of.first_unwritten (map aim_seen aims.now) }
{
    for a in aims {
        if let Some(t) = unwritten_type(a) {
            return Some(t);
        }
    }
    None
}

fn unwritten_type<'a>(a: &'a Aim<'_>) -> Option<&'a Ty>
    ensures { option_map sort (option_copied result) ≡ rule_of.first_unwritten (aim_seen a.now ∷ []) }
{
    match a {
        Aim::Unwritten(t) => Some(t),
        Aim::Misplaced(t) => Some(t),
        Aim::Held(_, _) => None,
        Aim::First(_, _) => None,
        Aim::Barred(_) => None,
        Aim::Lacking(_, _) => None,
    }
}

/// The types of a tuple's items, if there are so many.
pub fn items_for(s: &Ty, n: usize) -> Option<&[Ty]>
    ensures { option_map (map sort) (option_copied result) ≡ rule_of.items_for (sort s.now) n }
{
    match s {
        Ty::Tuple(ts) => as_many(ts.as_slice(), n),
        _ => None,
    }
}

fn as_many(ts: &[Ty], n: usize) -> Option<&[Ty]>
    ensures { option_map (map sort) (option_copied result) ≡ rule_of.as_many (map sort ts.now) n }
{
    if ts.len() == n { Some(ts) } else { None }
}
