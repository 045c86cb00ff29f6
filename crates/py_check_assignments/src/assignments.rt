//! Assignments.
ghost use Rattle.std.specs.Prelude.{◌≡◌, [], ◌∷◌, ◌++◌, map, None, IfOk, MatchOption};
ghost use Rattle.std.specs.List.{list_all};
ghost use Rattle.std.specs.Option.{option_copied, option_map, option_zip};
ghost use Rattle.py_syntax.specs.Expressions.{expr_tree};
ghost use Rattle.py_typed.specs.Sorts.{sort};
ghost use Rattle.py_typed.specs.Classes.{class_entry};
ghost use Rattle.py_typed.specs.Expressions.{type_of};
ghost use Rattle.py_typed.specs.Statements as acts;
ghost use Rattle.py_typed.specs.Statements.{typed_target};
ghost use Rattle.py_check_context.specs.Context.{context};
ghost use Rattle.py_check_messages.specs.Seen.{Tells, both, fails, judged, rule, ruled};
ghost use Rattle.py_check_messages.specs.Messages as message;
ghost use Rattle.py_check_coercions.specs.Boxes.{boxed};
ghost use Rattle.py_check_coercions.specs.Several.{unless};
ghost use Rattle.py_check_values.specs.Aims.{aim_seen};
ghost use Rattle.py_check_targets.specs.Targets as rule_of;
ghost use Rattle.py_check_assignments.specs.Assignments as rules_of;
ghost use Rattle.py_check_places.specs.Views.{known_at};
ghost use Rattle.py_check_targets.specs.Views.{boxed_act, boxed_sort};
ghost use Rattle.py_check_assignments.specs.Views.{given_seen};

use crate::parts::refused;
use py_check_context::Context;
use py_check_messages::no_target;
use py_check_places::{Place, bind_target, is_flat, is_row};
use py_check_targets::{
    aims_behind, asked_type, put_behind, takes_several, target_aims, value_asked, value_type,
};
use py_check_values::{Aim, are_declared, assigned};
use py_syntax::{Expr, Span};
use py_syntax_diagnostics::Diag;
use py_typed::{Classes, TExpr, TStmtKind, Target, Ty};
use std::alloc::Global;
use value_core::{Many, Memory};

/// `target = e`, and what is known behind it (Python Language Reference, "Assignment statements").
pub fn assign(
    alloc: Global,
    scope: &Context<'_>,
    place: &mut Place,
    span: Span,
    target: &Expr,
    e: &Expr,
    faults: &mut Many<Diag>,
) -> Result<Option<Box<TStmtKind>>, Memory>
    ensures told { IfOk result (λ t. Tells boxed_act t faults.old faults.new (rules_of.assigns (context scope.now) (known_at place.old) span (expr_tree target.now) (expr_tree e.now))) }
    ensures known { IfOk result (λ t. known_at place.new ≡ rules_of.binds (context scope.now) (known_at place.old) span (expr_tree target.now) (expr_tree e.now)) }
{
    let Assignment { kind, value } = typed_assignment(
        alloc, scope, place, span, target, e, faults,
    )?;
    let bound = bind_target(alloc, scope, place, kind.is_some(), target, value.as_ref());
    drop(value);
    bound?;
    Ok(kind)
}

/// A statement that assigns, where it holds, and the type of its value, where that has one.
pub(crate) struct Assignment {
    pub(crate) kind: Option<Box<TStmtKind>>,
    pub(crate) value: Option<Ty>,
}

// The statement, before its names are bound.
fn typed_assignment(
    alloc: Global,
    scope: &Context<'_>,
    place: &Place,
    span: Span,
    target: &Expr,
    e: &Expr,
    faults: &mut Many<Diag>,
) -> Result<Assignment, Memory>
    ensures told { IfOk result (λ a. Tells boxed_act a.kind faults.old faults.new (rules_of.assigns (context scope.now) (known_at place.now) span (expr_tree target.now) (expr_tree e.now))) }
    ensures value { IfOk result (λ a. option_map sort a.value ≡ option_map type_of (rules_of.value_for (context scope.now) (known_at place.now) (expr_tree target.now) (expr_tree e.now)).got) }
{
    if is_row(target) {
        several_targets(alloc, scope, place, span, target, e, faults)
    } else {
        one_target(alloc, scope, place, span, target, e, faults)
    }
}

// To one target. It is looked at once: no name is bound before it.
fn one_target(
    alloc: Global,
    scope: &Context<'_>,
    place: &Place,
    span: Span,
    target: &Expr,
    e: &Expr,
    faults: &mut Many<Diag>,
) -> Result<Assignment, Memory>
    ensures told { IfOk result (λ a. Tells boxed_act a.kind faults.old faults.new (rule span (rule_of.assigned (context scope.now).classes (expr_tree target.now) None) (both (rule_of.target_aims (context scope.now) (known_at place.now) (expr_tree target.now)) (rules_of.value_for (context scope.now) (known_at place.now) (expr_tree target.now) (expr_tree e.now))))) }
    ensures value { IfOk result (λ a. option_map sort a.value ≡ option_map type_of (rules_of.value_for (context scope.now) (known_at place.now) (expr_tree target.now) (expr_tree e.now)).got) }
{
    let aims = target_aims(alloc, scope, place, target, faults)?;
    let asked = asked_type(alloc, is_row(target), &aims)?;
    let e = value_asked(alloc, scope, place, asked.as_deref(), e, faults)?;
    let value = value_type(alloc, &e)?;
    match assigned_to(alloc, scope.classes, span, target, None, aims, e, faults) {
        Ok(kind) => Ok(Assignment { kind, value }),
        Err(memory) => {
            drop(value);
            Err(memory)
        }
    }
}

// To several targets. They are looked at for what they ask of the value, and again behind it.
fn several_targets(
    alloc: Global,
    scope: &Context<'_>,
    place: &Place,
    span: Span,
    target: &Expr,
    e: &Expr,
    faults: &mut Many<Diag>,
) -> Result<Assignment, Memory>
    ensures told { IfOk result (λ a. Tells boxed_act a.kind faults.old faults.new (rules_of.assigns (context scope.now) (known_at place.now) span (expr_tree target.now) (expr_tree e.now))) }
    ensures value { IfOk result (λ a. option_map sort a.value ≡ option_map type_of (rules_of.value_for (context scope.now) (known_at place.now) (expr_tree target.now) (expr_tree e.now)).got) }
{
    let given = given_value(alloc, scope, place, target, e)?;
    let value = value_type(alloc, &given.e)?;
    let t = value.as_ref();
    match behind_value(alloc, scope, place, span, target, given, t, faults) {
        Ok(kind) => Ok(Assignment { kind, value }),
        Err(memory) => {
            drop(value);
            Err(memory)
        }
    }
}

/// A value with what was said of it, and the type that it was asked for, if for any.
#[derive(Drop)]
pub(crate) struct Given {
    pub(crate) asked: Option<Box<Ty>>,
    pub(crate) e: Option<Box<TExpr>>,
    pub(crate) said: Many<Diag>,
}

/// The value that is assigned to targets, and what was said of it.
pub(crate) fn given_value(
    alloc: Global,
    scope: &Context<'_>,
    place: &Place,
    target: &Expr,
    e: &Expr,
) -> Result<Given, Memory>
    ensures asked { IfOk result (λ given. option_map boxed_sort given.asked ≡ rules_of.asked_for (context scope.now) (known_at place.now) (expr_tree target.now)) }
    ensures value { IfOk result (λ given. given_seen given ≡ rules_of.value_for (context scope.now) (known_at place.now) (expr_tree target.now) (expr_tree e.now)) }
{
    let asked = asked_for(alloc, scope, place, target)?;
    let mut said = Many::new(alloc);
    let e = value_asked(alloc, scope, place, asked.as_deref(), e, &mut said)?;
    Ok(Given { asked, e, said })
}

// What targets ask for. What is wrong with them is said once the value is there.
fn asked_for(
    alloc: Global,
    scope: &Context<'_>,
    place: &Place,
    target: &Expr,
) -> Result<Option<Box<Ty>>, Memory>
    ensures { IfOk result (λ t. option_map boxed_sort t ≡ rules_of.asked_for (context scope.now) (known_at place.now) (expr_tree target.now)) }
{
    let mut unsaid = Many::new(alloc);
    let aims = target_aims(alloc, scope, place, target, &mut unsaid)?;
    asked_type(alloc, is_row(target), &aims)
}

// A value, of this type if it has one, that is assigned to targets which are looked at behind it.
fn behind_value(
    alloc: Global,
    scope: &Context<'_>,
    place: &Place,
    span: Span,
    target: &Expr,
    given: Given,
    t: Option<&Ty>,
    faults: &mut Many<Diag>,
) -> Result<Option<Box<TStmtKind>>, Memory>
    ensures { IfOk result (λ r. Tells boxed_act r faults.old faults.new (rule span (rule_of.assigned (context scope.now).classes (expr_tree target.now) (option_map boxed_sort given.asked)) (both (rule_of.aims_behind (context scope.now) (known_at place.now) (expr_tree target.now) (option_map sort (option_copied t.entry))) (given_seen given)))) }
{
    let Given { asked, e, said } = given;
    let aims = aims_behind(alloc, scope, place, target, t, faults)?;
    put_behind(faults, said)?;
    let asked = asked.as_deref();
    assigned_to(alloc, scope.classes, span, target, asked, aims, e, faults)
}

// A value, which was asked for this type if for any, that is assigned to these targets.
fn assigned_to(
    alloc: Global,
    classes: &Classes,
    span: Span,
    target: &Expr,
    asked: Option<&Ty>,
    aims: Option<Many<Aim<'_>>>,
    e: Option<Box<TExpr>>,
    faults: &mut Many<Diag>,
) -> Result<Option<Box<TStmtKind>>, Memory>
    ensures { IfOk result (λ t. Tells boxed_act t faults.old faults.new (ruled span (rule_of.assigned (map class_entry classes.now.list) (expr_tree target.now) (option_map sort (option_copied asked.entry))) (option_zip (option_map (map aim_seen) aims.entry) (option_map boxed e)))) }
{
    let Some(aims) = aims else {
        return Ok(None);
    };
    let Some(e) = e else {
        return Ok(None);
    };
    takes_value(alloc, classes, span, target, asked, aims, e, faults)
}

/// The same of parts that are typed.
pub(crate) fn takes_value(
    alloc: Global,
    classes: &Classes,
    span: Span,
    target: &Expr,
    asked: Option<&Ty>,
    aims: Many<Aim<'_>>,
    e: Box<TExpr>,
    faults: &mut Many<Diag>,
) -> Result<Option<Box<TStmtKind>>, Memory>
    ensures { IfOk result (λ t. Tells boxed_act t faults.old faults.new (judged span (rule_of.assigned (map class_entry classes.now.list) (expr_tree target.now) (option_map sort (option_copied asked.entry)) (map aim_seen aims.entry, boxed e)))) }
{
    if !are_declared(alloc, classes, span, aims.as_slice(), faults)? {
        return Ok(None);
    }
    places_value(alloc, classes, span, target, asked, aims, e, faults)
}

// The same where no target is an attribute that nothing declares.
fn places_value(
    alloc: Global,
    classes: &Classes,
    span: Span,
    target: &Expr,
    asked: Option<&Ty>,
    aims: Many<Aim<'_>>,
    e: Box<TExpr>,
    faults: &mut Many<Diag>,
) -> Result<Option<Box<TStmtKind>>, Memory>
    ensures { IfOk result (λ t. Tells boxed_act t faults.old faults.new (judged span (rule_of.placed (map class_entry classes.now.list) (expr_tree target.now) (option_map sort (option_copied asked.entry)) (map aim_seen aims.entry, boxed e)))) }
{
    if !are_placed(is_flat(target), aims.as_slice()) {
        return refused(alloc, span, faults);
    }
    let several = is_row(target);
    let taken = aims.as_slice();
    let e = value_assigned(alloc, classes, span, several, asked, taken, e, faults)?;
    let targets = targets_of(alloc, aims)?;
    act_of(alloc, targets, e)
}

// Whether targets can be assigned to.
fn are_placed(flat: bool, aims: &[Aim<'_>]) -> bool
    ensures { result ≡ rule_of.are_placed flat (map aim_seen aims.now) }
{
    flat && all_placed(aims)
}

fn all_placed(aims: &[Aim<'_>]) -> bool
    ensures { result ≡ list_all rule_of.is_placed (map aim_seen aims.now) }
{
    for a in aims {
        if !is_placed(a) {
            return false;
        }
    }
    true
}

/// Whether one is no other expression.
pub(crate) fn is_placed(a: &Aim<'_>) -> bool
    ensures { result ≡ rule_of.is_placed (aim_seen a.now) }
{
    !matches!(a, Aim::Misplaced(_))
}

// The value as it is assigned.
fn value_assigned(
    alloc: Global,
    classes: &Classes,
    span: Span,
    several: bool,
    asked: Option<&Ty>,
    aims: &[Aim<'_>],
    e: Box<TExpr>,
    faults: &mut Many<Diag>,
) -> Result<Option<Box<TExpr>>, Memory>
    ensures { IfOk result (λ t. Tells boxed t faults.old faults.new (judged span (rule_of.value_assigned (map class_entry classes.now.list) several (option_map sort (option_copied asked.entry)) (map aim_seen aims.now) (boxed e)))) }
{
    if several {
        unpacked(alloc, classes, span, asked, aims, e, faults)
    } else {
        one_assigned(alloc, classes, span, aims, e, faults)
    }
}

fn unpacked(
    alloc: Global,
    classes: &Classes,
    span: Span,
    asked: Option<&Ty>,
    aims: &[Aim<'_>],
    e: Box<TExpr>,
    faults: &mut Many<Diag>,
) -> Result<Option<Box<TExpr>>, Memory>
    ensures { IfOk result (λ t. Tells boxed t faults.old faults.new (judged span (unless (rule_of.taking_fault (map class_entry classes.now.list) (option_map sort (option_copied asked.entry)) (map aim_seen aims.now) (type_of (boxed e))) (boxed e)))) }
{
    if !takes_several(alloc, classes, span, asked, aims, &e.ty, faults)? {
        return Ok(None);
    }
    Ok(Some(e))
}

fn one_assigned(
    alloc: Global,
    classes: &Classes,
    span: Span,
    aims: &[Aim<'_>],
    e: Box<TExpr>,
    faults: &mut Many<Diag>,
) -> Result<Option<Box<TExpr>>, Memory>
    ensures { IfOk result (λ t. Tells boxed t faults.old faults.new (judged span (rule_of.one_assigned (map class_entry classes.now.list) (map aim_seen aims.now) (boxed e)))) }
{
    match aims {
        [a] => assigned(alloc, classes, span, a, Some(e), faults),
        [] => not_single(alloc, span, faults),
        [_, _, ..] => not_single(alloc, span, faults),
    }
}

fn not_single(
    alloc: Global,
    span: Span,
    faults: &mut Many<Diag>,
) -> Result<Option<Box<TExpr>>, Memory>
    ensures { IfOk result (λ t. Tells boxed t faults.old faults.new (fails span message.no_target)) }
{
    no_target(alloc, span, faults)?;
    Ok(None)
}

// The targets that are written.
fn targets_of(alloc: Global, aims: Many<Aim<'_>>) -> Result<Many<Target>, Memory>
    ensures { IfOk result (λ targets. map typed_target targets ≡ rule_of.targets_of (map aim_seen aims.entry)) }
{
    let mut targets = Many::new(alloc);
    let mut rest = aims.into_vec();
    rest.reverse();
    while let Some(a) = rest.pop() {
        put_target(&mut targets, a)?;
    }
    Ok(targets)
}

/// Puts the target that is written, if it is one, behind those that there are.
pub(crate) fn put_target(targets: &mut Many<Target>, a: Aim<'_>) -> Result<(), Memory>
    ensures { IfOk result (λ done. map typed_target targets.new ≡ map typed_target targets.old ++ rule_of.target_of (aim_seen a.entry)) }
{
    match written(a) {
        Some(target) => targets.push(target),
        None => Ok(()),
    }
}

/// The target that is written, if it is one.
pub(crate) fn written(a: Aim<'_>) -> Option<Target>
    ensures { MatchOption result (rule_of.target_of (aim_seen a.entry) ≡ []) (λ target. rule_of.target_of (aim_seen a.entry) ≡ typed_target target ∷ []) }
{
    match a {
        Aim::Held(target, t) => {
            drop(t);
            Some(target)
        }
        Aim::First(target, _) => Some(target),
        other => {
            drop(other);
            None
        }
    }
}

/// The assignment of a value to these targets.
pub(crate) fn act_of(
    alloc: Global,
    targets: Many<Target>,
    e: Option<Box<TExpr>>,
) -> Result<Option<Box<TStmtKind>>, Memory>
    ensures { IfOk result (λ t. option_map boxed_act t ≡ option_map (acts.Assign (map typed_target targets)) (option_map boxed e)) }
{
    let Some(e) = e else {
        return Ok(None);
    };
    let kind = kept(alloc, TStmtKind::Assign(targets, Box::into_inner(e)))?;
    Ok(Some(kind))
}

/// A statement on the heap.
pub(crate) fn kept(alloc: Global, kind: TStmtKind) -> Result<Box<TStmtKind>, Memory>
    ensures { IfOk result (λ b. b.value ≡ kind) }
{
    Ok(Box::new(alloc, kind)?)
}
