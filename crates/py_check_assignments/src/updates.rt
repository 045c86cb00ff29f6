//! Operations with assignment.
ghost use Rattle.std.specs.Prelude.{◌≡◌, false, map, None, Some, unwrap_or, Err, IfOk};
ghost use Rattle.std.specs.Option.{option_map, option_zip};
ghost use Rattle.py_syntax.specs.Expressions.{expr_tree};
ghost use Rattle.py_typed.specs.Sorts.{sort};
ghost use Rattle.py_typed.specs.Classes.{class_entry};
ghost use Rattle.py_typed.specs.Expressions.{type_of};
ghost use Rattle.py_typed.specs.Statements as acts;
ghost use Rattle.py_typed.specs.Statements.{typed_target};
ghost use Rattle.py_check_context.specs.Context.{context};
ghost use Rattle.py_check_flow.specs.Bindings as bindings;
ghost use Rattle.py_check_messages.specs.Seen.{Tells, judged, ruled};
ghost use Rattle.py_check_messages.specs.Messages as message;
ghost use Rattle.py_check_coercions.specs.Boxes.{boxed};
ghost use Rattle.py_check_operators.specs.Operators as operators;
ghost use Rattle.py_check_places.specs.Shapes as shapes;
ghost use Rattle.py_check_targets.specs.Attributes as attributes;
ghost use Rattle.py_check_targets.specs.Targets as targets;
ghost use Rattle.py_check_assignments.specs.Assignments as rules_of;
ghost use Rattle.py_check_places.specs.Views.{known_at};
ghost use Rattle.py_check_values.specs.Aims as aims;
ghost use Rattle.py_check_values.specs.Aims.{aim_seen};
ghost use Rattle.py_check_values.specs.Assignments as values;
ghost use Rattle.py_check_targets.specs.Views.{boxed_aim, boxed_act, boxed_sort, own_seen};
ghost use Rattle.py_check_assignments.specs.Views.{operands_seen};

use crate::assignments::{is_placed, kept, written};
use crate::parts::refused;
use py_check_context::{Context, Meaning, Want, meaning_of};
use py_check_flow::name_in;
use py_check_messages::no_attribute;
use py_check_operators::arithmetic_type;
use py_check_places::{Place, bind_target, is_access, is_row};
use py_check_targets::{OwnAttribute, aims_behind, lacking_in, name_aim, typed_at, value_aim};
use py_check_values::{Aim, are_declared, binds};
use py_syntax::{BinOp, Expr, Span};
use py_syntax_diagnostics::Diag;
use py_typed::{Classes, TExpr, TStmtKind, Target, Ty};
use std::alloc::Global;
use value_core::{Many, Memory, Name};

/// `target op= e`, and what is known behind it (Python Language Reference, "Augmented assignment statements").
pub fn update(
    alloc: Global,
    scope: &Context<'_>,
    place: &mut Place,
    span: Span,
    target: &Expr,
    op: BinOp,
    e: &Expr,
    faults: &mut Many<Diag>,
) -> Result<Option<Box<TStmtKind>>, Memory>
    ensures told { IfOk result (λ t. Tells boxed_act t faults.old faults.new (rules_of.updates (context scope.now) (known_at place.old) span (expr_tree target.now) op (expr_tree e.now))) }
    ensures known { IfOk result (λ t. known_at place.new ≡ shapes.bind_target (context scope.now) false (known_at place.old) (expr_tree target.now) None) }
{
    let kind = updated(alloc, scope, place, span, target, op, e, faults)?;
    bind_target(alloc, scope, place, false, target, None)?;
    Ok(kind)
}

// The same at a place that stays.
fn updated(
    alloc: Global,
    scope: &Context<'_>,
    place: &Place,
    span: Span,
    target: &Expr,
    op: BinOp,
    e: &Expr,
    faults: &mut Many<Diag>,
) -> Result<Option<Box<TStmtKind>>, Memory>
    ensures { IfOk result (λ t. Tells boxed_act t faults.old faults.new (rules_of.updates (context scope.now) (known_at place.now) span (expr_tree target.now) op (expr_tree e.now))) }
{
    if is_row(target) {
        update_row(alloc, scope, place, span, target, e, faults)
    } else {
        update_single(alloc, scope, place, span, target, op, e, faults)
    }
}

// A single target.
fn update_single(
    alloc: Global,
    scope: &Context<'_>,
    place: &Place,
    span: Span,
    target: &Expr,
    op: BinOp,
    e: &Expr,
    faults: &mut Many<Diag>,
) -> Result<Option<Box<TStmtKind>>, Memory>
    ensures { IfOk result (λ t. Tells boxed_act t faults.old faults.new (rules_of.updates_single (context scope.now) (known_at place.now) span (attributes.lacking_in (context scope.now) (expr_tree target.now)) (expr_tree target.now) op (expr_tree e.now))) }
{
    match lacking_in(scope, target) {
        Some(own) => update_lacking(alloc, scope, place, span, own, e, faults),
        None => update_one(alloc, scope, place, span, target, op, e, faults),
    }
}

// An attribute that nothing declares is not updated.
fn update_lacking(
    alloc: Global,
    scope: &Context<'_>,
    place: &Place,
    span: Span,
    own: OwnAttribute<'_>,
    e: &Expr,
    faults: &mut Many<Diag>,
) -> Result<Option<Box<TStmtKind>>, Memory>
    ensures { IfOk result (λ t. Tells boxed_act t faults.old faults.new (rules_of.updates_lacking (context scope.now) (known_at place.now) span (own_seen own.entry) (expr_tree e.now))) }
{
    let object = typed_at(alloc, scope, place, Want::Free, own.object, faults)?;
    let e = typed_at(alloc, scope, place, Want::Free, e, faults)?;
    let Some(operands) = typed_operands(object, e) else {
        return Ok(None);
    };
    updated_lacking(alloc, scope.classes, span, own.name, operands, faults)
}

// The same where the object and the operand are typed.
fn updated_lacking(
    alloc: Global,
    classes: &Classes,
    span: Span,
    a: &Name,
    operands: Operands,
    faults: &mut Many<Diag>,
) -> Result<Option<Box<TStmtKind>>, Memory>
    ensures { IfOk result (λ t. Tells boxed_act t faults.old faults.new (judged span (targets.updated_lacking (map class_entry classes.now.list) a.now (operands_seen operands)))) }
{
    let Operands { read, e } = operands;
    drop(e);
    no_attribute(alloc, classes, span, &read.ty, a.as_str(), faults)?;
    Ok(None)
}

// A tuple or a list is not updated.
fn update_row(
    alloc: Global,
    scope: &Context<'_>,
    place: &Place,
    span: Span,
    target: &Expr,
    e: &Expr,
    faults: &mut Many<Diag>,
) -> Result<Option<Box<TStmtKind>>, Memory>
    ensures { IfOk result (λ t. Tells boxed_act t faults.old faults.new (rules_of.updates_row (context scope.now) (known_at place.now) span (expr_tree target.now) (expr_tree e.now))) }
{
    let aims = aims_behind(alloc, scope, place, target, None, faults)?;
    let e = typed_at(alloc, scope, place, Want::Free, e, faults)?;
    refuse_row(alloc, scope.classes, span, aims, e, faults)
}

// The same where its targets and the operand are typed, or one of them is not.
fn refuse_row(
    alloc: Global,
    classes: &Classes,
    span: Span,
    aims: Option<Many<Aim<'_>>>,
    e: Option<Box<TExpr>>,
    faults: &mut Many<Diag>,
) -> Result<Option<Box<TStmtKind>>, Memory>
    ensures { IfOk result (λ t. Tells boxed_act t faults.old faults.new (ruled span (rules_of.row_refused (map class_entry classes.now.list)) (option_zip (option_map (map aim_seen) aims.entry) (option_map boxed e)))) }
{
    let Some(aims) = aims else {
        return Ok(None);
    };
    let Some(e) = e else {
        return Ok(None);
    };
    drop(e);
    refuse_aims(alloc, classes, span, aims.as_slice(), faults)
}

// The same of targets that are something.
fn refuse_aims(
    alloc: Global,
    classes: &Classes,
    span: Span,
    aims: &[Aim<'_>],
    faults: &mut Many<Diag>,
) -> Result<Option<Box<TStmtKind>>, Memory>
    ensures { IfOk result (λ t. Tells boxed_act t faults.old faults.new (judged span (targets.fault_or (values.lacking_fault (map class_entry classes.now.list) (map aim_seen aims.now)) (Err message.no_target)))) }
{
    if !are_declared(alloc, classes, span, aims, faults)? {
        return Ok(None);
    }
    refused(alloc, span, faults)
}

// One that is read.
fn update_one(
    alloc: Global,
    scope: &Context<'_>,
    place: &Place,
    span: Span,
    target: &Expr,
    op: BinOp,
    e: &Expr,
    faults: &mut Many<Diag>,
) -> Result<Option<Box<TStmtKind>>, Memory>
    ensures { IfOk result (λ t. Tells boxed_act t faults.old faults.new (rules_of.updates_one (context scope.now) (known_at place.now) span (expr_tree target.now) op (expr_tree e.now))) }
{
    let read = typed_at(alloc, scope, place, Want::Free, target, faults)?;
    let e = typed_at(alloc, scope, place, Want::Free, e, faults)?;
    let Some(operands) = typed_operands(read, e) else {
        return Ok(None);
    };
    operation(alloc, scope, place, span, target, op, operands, faults)
}

/// A target that was read, and the operand.
#[derive(Drop)]
pub(crate) struct Operands {
    pub(crate) read: Box<TExpr>,
    pub(crate) e: Box<TExpr>,
}

fn typed_operands(read: Option<Box<TExpr>>, e: Option<Box<TExpr>>) -> Option<Operands>
    ensures { option_map operands_seen result ≡ option_zip (option_map boxed read) (option_map boxed e) }
{
    let read = read?;
    let e = e?;
    Some(Operands { read, e })
}

// The operation on a target that was read, and its operand.
fn operation(
    alloc: Global,
    scope: &Context<'_>,
    place: &Place,
    span: Span,
    target: &Expr,
    op: BinOp,
    operands: Operands,
    faults: &mut Many<Diag>,
) -> Result<Option<Box<TStmtKind>>, Memory>
    ensures { IfOk result (λ t. Tells boxed_act t faults.old faults.new (judged span (targets.updated (context scope.now).classes span op (targets.read_aim (context scope.now) (known_at place.now) (bindings.name_in (expr_tree target.now)) (shapes.is_access (expr_tree target.now))) (operands_seen operands)))) }
{
    let Operands { read, e } = operands;
    let classes = scope.classes;
    let Some(ty) = result_type(alloc, classes, span, op, &read.ty, &e.ty, faults)? else {
        return Ok(None);
    };
    let aim = read_aim(alloc, scope, place, target, read)?;
    updated_to(alloc, classes, span, aim, op, e, ty, faults)
}

// The type of the operation's result.
fn result_type(
    alloc: Global,
    classes: &Classes,
    span: Span,
    op: BinOp,
    s: &Ty,
    t: &Ty,
    faults: &mut Many<Diag>,
) -> Result<Option<Box<Ty>>, Memory>
    ensures { IfOk result (λ r. Tells boxed_sort r faults.old faults.new (judged span (operators.arithmetic_type (map class_entry classes.now.list) op (sort s.now) (sort t.now)))) }
{
    let Some(ty) = arithmetic_type(alloc, classes, span, op, s, t, faults)? else {
        return Ok(None);
    };
    Ok(Some(Box::new(alloc, ty)?))
}

// What a target that was read is to an assignment.
fn read_aim<'a>(
    alloc: Global,
    scope: &Context<'_>,
    place: &Place,
    target: &'a Expr,
    read: Box<TExpr>,
) -> Result<Box<Aim<'a>>, Memory>
    ensures { IfOk result (λ a. boxed_aim a ≡ targets.read_aim (context scope.now) (known_at place.now) (bindings.name_in (expr_tree target.now)) (shapes.is_access (expr_tree target.now)) (boxed read)) }
{
    match name_in(target) {
        Some(x) => read_name(alloc, place, x, meaning_of(scope, x), read),
        None => in_box(alloc, value_aim(is_access(target), read)),
    }
}

fn read_name<'a>(
    alloc: Global,
    place: &Place,
    x: &'a Name,
    meaning: Meaning,
    read: Box<TExpr>,
) -> Result<Box<Aim<'a>>, Memory>
    ensures { IfOk result (λ a. boxed_aim a ≡ unwrap_or (targets.name_aim (known_at place.now) x.now meaning) (aims.misplaced (type_of (boxed read)))) }
{
    match name_aim(alloc, place, x, meaning)? {
        Some(aim) => in_box(alloc, aim),
        None => in_box(alloc, value_aim(false, read)),
    }
}

fn in_box<'a>(alloc: Global, aim: Aim<'a>) -> Result<Box<Aim<'a>>, Memory>
    ensures { IfOk result (λ a. boxed_aim a ≡ aim_seen aim.entry) }
{
    Ok(Box::new(alloc, aim)?)
}

// The operation's result, of this type, is assigned to a target.
fn updated_to(
    alloc: Global,
    classes: &Classes,
    span: Span,
    aim: Box<Aim<'_>>,
    op: BinOp,
    e: Box<TExpr>,
    ty: Box<Ty>,
    faults: &mut Many<Diag>,
) -> Result<Option<Box<TStmtKind>>, Memory>
    ensures { IfOk result (λ t. Tells boxed_act t faults.old faults.new (judged span (targets.updated_to (map class_entry classes.now.list) (boxed_aim aim.entry) op (boxed e) (boxed_sort ty)))) }
{
    if !is_placed(&aim) {
        return refused(alloc, span, faults);
    }
    if !binds(alloc, classes, span, &aim, &ty, faults)? {
        return Ok(None);
    }
    written_back(alloc, span, aim, op, e, ty, faults)
}

// To a target that the result may be bound to.
fn written_back(
    alloc: Global,
    span: Span,
    aim: Box<Aim<'_>>,
    op: BinOp,
    e: Box<TExpr>,
    ty: Box<Ty>,
    faults: &mut Many<Diag>,
) -> Result<Option<Box<TStmtKind>>, Memory>
    ensures { IfOk result (λ t. Tells boxed_act t faults.old faults.new (judged span (targets.written_back op (boxed e) (boxed_sort ty) None (targets.target_of (boxed_aim aim.entry))))) }
{
    match written(Box::into_inner(aim)) {
        Some(target) => augmented(alloc, target, op, e, ty),
        None => refused(alloc, span, faults),
    }
}

fn augmented(
    alloc: Global,
    target: Target,
    op: BinOp,
    e: Box<TExpr>,
    ty: Box<Ty>,
) -> Result<Option<Box<TStmtKind>>, Memory>
    ensures { IfOk result (λ t. option_map boxed_act t ≡ Some (acts.Aug (typed_target target) op (boxed e) (boxed_sort ty))) }
{
    let e = Box::into_inner(e);
    let kind = kept(alloc, TStmtKind::Aug(target, op, e, Box::into_inner(ty)))?;
    Ok(Some(kind))
}
