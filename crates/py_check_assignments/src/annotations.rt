//! Assignments with an annotation.
ghost use Rattle.std.specs.Prelude.{◌≡◌, false, map, if◌then◌else◌, Some, None, IfOk};
ghost use Rattle.std.specs.Option.{option_map, option_copied, option_zip};
ghost use Rattle.py_syntax.specs.Expressions.{expr_tree};
ghost use Rattle.py_syntax.specs.Statements.{maybe_expr};
ghost use Rattle.py_typed.specs.Sorts.{sort};
ghost use Rattle.py_typed.specs.Classes.{class_entry};
ghost use Rattle.py_typed.specs.Expressions.{type_of};
ghost use Rattle.py_typed.specs.Statements as acts;
ghost use Rattle.py_check_context.specs.Context.{context, var_sort, var_of, wanted};
ghost use Rattle.py_check_flow.specs.Bindings.{name_in};
ghost use Rattle.py_check_messages.specs.Seen.{Tells, Finds, behind, both, fails, judged, ruled, silent};
ghost use Rattle.py_check_messages.specs.Messages as message;
ghost use Rattle.py_check_annotations.specs.Annotations as marks;
ghost use Rattle.py_check_coercions.specs.Boxes.{boxed};
ghost use Rattle.py_check_coercions.specs.Several.{unless, with_part};
ghost use Rattle.py_check_places.specs.Places as places;
ghost use Rattle.py_check_places.specs.Shapes as shapes;
ghost use Rattle.py_check_targets.specs.Attributes as attributes;
ghost use Rattle.py_check_targets.specs.Targets as rule_of;
ghost use Rattle.py_check_assignments.specs.Assignments as rules_of;
ghost use Rattle.py_check_places.specs.Views.{known_at};
ghost use Rattle.py_check_values.specs.Aims.{aim_seen};
ghost use Rattle.py_check_targets.specs.Views.{boxed_aim, boxed_act};
ghost use Rattle.py_check_assignments.specs.Views.{Shows, given_seen};

use crate::assignments::{Assignment, Given, act_of, given_value, kept, put_target, takes_value};
use crate::parts::{has_aims, has_aims_behind, refuse, refuse_behind};
use py_check_annotations::annotation;
use py_check_context::{Context, Meaning, VarType, Want, meaning_of};
use py_check_flow::name_in;
use py_check_messages::{already_defined, cannot_assign};
use py_check_places::{Place, bind_target, is_row, leaves};
use py_check_targets::{
    OwnAttribute, asked_type, in_box, may_declare, name_aim, own_attribute, target_aims, typed_at,
    value_asked, value_type,
};
use py_check_values::{Aim, assigned};
use py_syntax::{Expr, Span};
use py_syntax_diagnostics::Diag;
use py_typed::{Classes, TExpr, TStmtKind, Ty};
use std::alloc::Global;
use value_core::{Many, Memory, Name};

/// `target: mark`, or `target: mark = e`, and what is known behind it (PEP 526).
pub fn annotate(
    alloc: Global,
    scope: &Context<'_>,
    place: &mut Place,
    span: Span,
    target: &Expr,
    mark: &Expr,
    e: &Option<Expr>,
    faults: &mut Many<Diag>,
) -> Result<Option<Box<TStmtKind>>, Memory>
    ensures told { IfOk result (λ t. Tells boxed_act t faults.old faults.new (rules_of.annotates (context scope.now) (known_at place.old) span (name_in (expr_tree target.now)) (expr_tree target.now) (expr_tree mark.now) (maybe_expr e.now))) }
    ensures known { IfOk result (λ t. known_at place.new ≡ rules_of.binds_annotated (context scope.now) (known_at place.old) span (name_in (expr_tree target.now)) (expr_tree target.now) (expr_tree mark.now) (maybe_expr e.now)) }
{
    match name_in(target) {
        Some(x) => {
            let Assignment { kind, value } = annotated_name(
                alloc, scope, place, span, x, mark, e, faults,
            )?;
            let bound = bind_target(alloc, scope, place, kind.is_some(), target, value.as_ref());
            drop(value);
            bound?;
            Ok(kind)
        }
        None => annotate_at(alloc, scope, place, span, target, mark, e, faults),
    }
}

// What is no name, with its annotation, and what is known behind it.
fn annotate_at(
    alloc: Global,
    scope: &Context<'_>,
    place: &mut Place,
    span: Span,
    target: &Expr,
    mark: &Expr,
    e: &Option<Expr>,
    faults: &mut Many<Diag>,
) -> Result<Option<Box<TStmtKind>>, Memory>
    ensures told { IfOk result (λ t. Tells boxed_act t faults.old faults.new (rules_of.annotates_at (context scope.now) (known_at place.old) span (attributes.own_attribute (context scope.now).inside (expr_tree target.now)) (expr_tree target.now) (expr_tree mark.now) (maybe_expr e.now))) }
    ensures known { IfOk result (λ t. known_at place.new ≡ shapes.bind_target (context scope.now) false (known_at place.old) (expr_tree target.now) (rules_of.other_sort (context scope.now) (known_at place.old) (expr_tree target.now) (maybe_expr e.now))) }
{
    match own_attribute(scope, target) {
        Some(OwnAttribute { object: _, name }) => {
            let own = AnnotatedAttribute { target, name };
            annotates_own(alloc, scope, place, span, own, mark, e, faults)
        }
        None => {
            let value = annotates_other(alloc, scope, place, span, target, mark, e, faults)?;
            let bound = bind_target(alloc, scope, place, false, target, value.as_ref());
            drop(value);
            bound?;
            Ok(None)
        }
    }
}

/// An attribute that is annotated, as it is written, and its name.
#[derive(Clone, Copy)]
pub(crate) struct AnnotatedAttribute<'a> {
    pub(crate) target: &'a Expr,
    pub(crate) name: &'a Name,
}

// An attribute of the object that an `__init__` sets up.
fn annotates_own(
    alloc: Global,
    scope: &Context<'_>,
    place: &Place,
    span: Span,
    own: AnnotatedAttribute<'_>,
    mark: &Expr,
    e: &Option<Expr>,
    faults: &mut Many<Diag>,
) -> Result<Option<Box<TStmtKind>>, Memory>
    ensures { IfOk result (λ t. Tells boxed_act t faults.old faults.new (rules_of.annotates_own (context scope.now) (known_at place.now) span own.entry.name.now (expr_tree own.entry.target.now) (expr_tree mark.now) (maybe_expr e.now))) }
{
    match e {
        None => declares_own(alloc, scope, place, span, own, mark, faults),
        Some(e) => gives_own(alloc, scope, place, span, own, mark, e, faults),
    }
}

fn declares_own(
    alloc: Global,
    scope: &Context<'_>,
    place: &Place,
    span: Span,
    own: AnnotatedAttribute<'_>,
    mark: &Expr,
    faults: &mut Many<Diag>,
) -> Result<Option<Box<TStmtKind>>, Memory>
    ensures { IfOk result (λ t. Tells boxed_act t faults.old faults.new (rules_of.declares_own (context scope.now) (known_at place.now) span own.entry.name.now (expr_tree own.entry.target.now) (expr_tree mark.now))) }
{
    let placed = has_aims(alloc, scope, place, own.target, faults)?;
    let marked = is_type(alloc, scope, mark, faults)?;
    let complete = placed && marked;
    declared_own(alloc, scope, span, own.name, complete, faults)
}

// The same, where all parts are typed or not.
fn declared_own(
    alloc: Global,
    scope: &Context<'_>,
    span: Span,
    a: &Name,
    complete: bool,
    faults: &mut Many<Diag>,
) -> Result<Option<Box<TStmtKind>>, Memory>
    ensures { IfOk result (λ t. Tells boxed_act t faults.old faults.new (if complete then judged span (unless (attributes.declaring_fault (context scope.now).inside a.now span) acts.Pass) else silent)) }
{
    if !complete {
        return Ok(None);
    }
    if !may_declare(alloc, scope, span, a, faults)? {
        return Ok(None);
    }
    let kind = kept(alloc, TStmtKind::Pass)?;
    Ok(Some(kind))
}

fn gives_own(
    alloc: Global,
    scope: &Context<'_>,
    place: &Place,
    span: Span,
    own: AnnotatedAttribute<'_>,
    mark: &Expr,
    e: &Expr,
    faults: &mut Many<Diag>,
) -> Result<Option<Box<TStmtKind>>, Memory>
    ensures { IfOk result (λ t. Tells boxed_act t faults.old faults.new (rules_of.gives_own (context scope.now) (known_at place.now) span own.entry.name.now (expr_tree own.entry.target.now) (expr_tree mark.now) (expr_tree e.now))) }
{
    let aims = target_aims(alloc, scope, place, own.target, faults)?;
    let marked = is_type(alloc, scope, mark, faults)?;
    let asked = asked_type(alloc, is_row(own.target), &aims)?;
    let e = value_asked(alloc, scope, place, asked.as_deref(), e, faults)?;
    given_own(alloc, scope, span, own, marked, aims, e, faults)
}

// The same, where the annotation is a type or not.
fn given_own(
    alloc: Global,
    scope: &Context<'_>,
    span: Span,
    own: AnnotatedAttribute<'_>,
    marked: bool,
    aims: Option<Many<Aim<'_>>>,
    e: Option<Box<TExpr>>,
    faults: &mut Many<Diag>,
) -> Result<Option<Box<TStmtKind>>, Memory>
    ensures { IfOk result (λ t. Tells boxed_act t faults.old faults.new (ruled span (rule_of.taken_own (context scope.now).classes (expr_tree own.entry.target.now) (attributes.declaring_fault (context scope.now).inside own.entry.name.now span)) (if marked then option_zip (option_map (map aim_seen) aims.entry) (option_map boxed e) else None))) }
{
    if !marked {
        return Ok(None);
    }
    let Some(aims) = aims else {
        return Ok(None);
    };
    let Some(e) = e else {
        return Ok(None);
    };
    takes_own(alloc, scope, span, own, aims, e, faults)
}

// The same of parts that are typed.
fn takes_own(
    alloc: Global,
    scope: &Context<'_>,
    span: Span,
    own: AnnotatedAttribute<'_>,
    aims: Many<Aim<'_>>,
    e: Box<TExpr>,
    faults: &mut Many<Diag>,
) -> Result<Option<Box<TStmtKind>>, Memory>
    ensures { IfOk result (λ t. Tells boxed_act t faults.old faults.new (judged span (rule_of.taken_own (context scope.now).classes (expr_tree own.entry.target.now) (attributes.declaring_fault (context scope.now).inside own.entry.name.now span) (map aim_seen aims.entry, boxed e)))) }
{
    if !may_declare(alloc, scope, span, own.name, faults)? {
        return Ok(None);
    }
    takes_value(
        alloc,
        scope.classes,
        span,
        own.target,
        None,
        aims,
        e,
        faults,
    )
}

// A name with its annotation, and a value if one is given.
fn annotated_name(
    alloc: Global,
    scope: &Context<'_>,
    place: &Place,
    span: Span,
    x: &Name,
    mark: &Expr,
    e: &Option<Expr>,
    faults: &mut Many<Diag>,
) -> Result<Assignment, Memory>
    ensures told { IfOk result (λ a. Tells boxed_act a.kind faults.old faults.new (rules_of.annotates_name (context scope.now) (known_at place.now) span x.now (expr_tree mark.now) (maybe_expr e.now))) }
    ensures value { IfOk result (λ a. option_map sort a.value ≡ rules_of.value_sort (context scope.now) (known_at place.now) x.now (maybe_expr e.now)) }
{
    match e {
        None => {
            let kind = declares(alloc, scope, place, span, x, mark, faults)?;
            Ok(Assignment {
                kind,
                value: Some(Ty::Nothing),
            })
        }
        Some(e) => gives_value(alloc, scope, place, span, x, mark, e, faults),
    }
}

fn declares(
    alloc: Global,
    scope: &Context<'_>,
    place: &Place,
    span: Span,
    x: &Name,
    mark: &Expr,
    faults: &mut Many<Diag>,
) -> Result<Option<Box<TStmtKind>>, Memory>
    ensures { IfOk result (λ t. Tells boxed_act t faults.old faults.new (rules_of.declares (context scope.now) (known_at place.now) span x.now (expr_tree mark.now))) }
{
    let name = named(alloc, scope, place, x)?;
    let t = annotation(alloc, scope, mark, faults)?;
    let kind = declared(alloc, span, &name, t.as_ref(), faults);
    drop(t);
    kind
}

fn gives_value(
    alloc: Global,
    scope: &Context<'_>,
    place: &Place,
    span: Span,
    x: &Name,
    mark: &Expr,
    e: &Expr,
    faults: &mut Many<Diag>,
) -> Result<Assignment, Memory>
    ensures told { IfOk result (λ a. Tells boxed_act a.kind faults.old faults.new (rules_of.gives_value (context scope.now) (known_at place.now) span x.now (expr_tree mark.now) (expr_tree e.now))) }
    ensures value { IfOk result (λ a. option_map sort a.value ≡ option_map type_of (rules_of.annotated_value (context scope.now) (known_at place.now) x.now (expr_tree e.now)).got) }
{
    let name = named(alloc, scope, place, x)?;
    let t = annotation(alloc, scope, mark, faults)?;
    let assignment = with_value(alloc, scope, place, span, name, t.as_ref(), e, faults);
    drop(t);
    assignment
}

/// A name that is annotated: what it is to an assignment, and whether it was bound before.
#[derive(Drop)]
pub(crate) struct AnnotatedName<'a> {
    pub(crate) name: &'a Name,
    pub(crate) bound: bool,
    pub(crate) aim: Option<Box<Aim<'a>>>,
}

fn named<'a>(
    alloc: Global,
    scope: &Context<'_>,
    place: &Place,
    x: &'a Name,
) -> Result<AnnotatedName<'a>, Memory>
    ensures name { IfOk result (λ named. named.name.now ≡ x.now) }
    ensures bound { IfOk result (λ named. named.bound ≡ places.is_bound (known_at place.now) ((context scope.now).meaning x.now)) }
    ensures aim { IfOk result (λ named. option_map boxed_aim named.aim ≡ rule_of.name_aim (known_at place.now) x.now ((context scope.now).meaning x.now)) }
{
    let meaning = meaning_of(scope, x);
    let bound = is_bound(place, meaning);
    let aim = name_aim(alloc, place, x, meaning)?;
    let aim = in_box(alloc, aim)?;
    Ok(AnnotatedName {
        name: x,
        bound,
        aim,
    })
}

// The same where the name and its annotation were looked at.
fn with_value(
    alloc: Global,
    scope: &Context<'_>,
    place: &Place,
    span: Span,
    name: AnnotatedName<'_>,
    t: Option<&Ty>,
    e: &Expr,
    faults: &mut Many<Diag>,
) -> Result<Assignment, Memory>
    ensures told { IfOk result (λ a. Tells boxed_act a.kind faults.old faults.new (behind (rules_of.annotated_value (context scope.now) (known_at place.now) name.entry.name.now (expr_tree e.now)) (λ v. ruled span (rule_of.given (context scope.now).classes name.entry.name.now name.entry.bound) (option_zip (option_zip (option_map boxed_aim name.entry.aim) (option_map sort (option_copied t.entry))) v)))) }
    ensures value { IfOk result (λ a. option_map sort a.value ≡ option_map type_of (rules_of.annotated_value (context scope.now) (known_at place.now) name.entry.name.now (expr_tree e.now)).got) }
{
    let want = asked_by(place, meaning_of(scope, name.name));
    let e = typed_at(alloc, scope, place, want, e, faults)?;
    let value = value_type(alloc, &e)?;
    match given(alloc, scope.classes, span, name, t, e, faults) {
        Ok(kind) => Ok(Assignment { kind, value }),
        Err(memory) => {
            drop(value);
            Err(memory)
        }
    }
}

// Whether a name was bound before.
fn is_bound(place: &Place, meaning: Meaning) -> bool
    ensures { result ≡ places.is_bound (known_at place.now) meaning }
{
    match meaning {
        Meaning::Local(i) => place.locals_bound.contains(&i),
        Meaning::Global(i) => place.globals_bound.contains(&i),
        _ => false,
    }
}

// What a name asks of its value.
fn asked_by(place: &Place, meaning: Meaning) -> Want<'_>
    ensures { wanted result ≡ rules_of.asked (places.variable_at (known_at place.now) meaning) }
{
    match meaning {
        Meaning::Local(i) => asked(place.types.locals.get(i)),
        Meaning::Global(i) => asked(place.types.globals.get(i)),
        _ => Want::Free,
    }
}

fn asked(ty: Option<&VarType>) -> Want<'_>
    ensures { wanted result ≡ rules_of.asked (var_of (option_map var_sort (option_copied ty.entry))) }
{
    match ty {
        Some(VarType::Has(t)) => Want::Wants(t),
        Some(VarType::Untyped) => Want::Free,
        Some(VarType::Unset) => Want::Free,
        None => Want::Free,
    }
}

// A name with an annotation and no value.
fn declared(
    alloc: Global,
    span: Span,
    name: &AnnotatedName<'_>,
    t: Option<&Ty>,
    faults: &mut Many<Diag>,
) -> Result<Option<Box<TStmtKind>>, Memory>
    ensures { IfOk result (λ r. Tells boxed_act r faults.old faults.new (ruled span (rule_of.declared name.now.name.now name.now.bound) (option_zip (option_map boxed_aim name.now.aim) (option_map sort (option_copied t.entry))))) }
{
    let Some(aim) = &name.aim else {
        return Ok(None);
    };
    let Some(_) = t else {
        return Ok(None);
    };
    if !may_be_annotated(alloc, span, name.name, name.bound, aim, faults)? {
        return Ok(None);
    }
    let kind = kept(alloc, TStmtKind::Pass)?;
    Ok(Some(kind))
}

// A name with an annotation and a value.
fn given(
    alloc: Global,
    classes: &Classes,
    span: Span,
    name: AnnotatedName<'_>,
    t: Option<&Ty>,
    e: Option<Box<TExpr>>,
    faults: &mut Many<Diag>,
) -> Result<Option<Box<TStmtKind>>, Memory>
    ensures { IfOk result (λ r. Tells boxed_act r faults.old faults.new (ruled span (rule_of.given (map class_entry classes.now.list) name.entry.name.now name.entry.bound) (option_zip (option_zip (option_map boxed_aim name.entry.aim) (option_map sort (option_copied t.entry))) (option_map boxed e)))) }
{
    let AnnotatedName {
        name: x,
        bound,
        aim,
    } = name;
    let Some(aim) = aim else {
        return Ok(None);
    };
    let Some(_) = t else {
        return Ok(None);
    };
    let Some(e) = e else {
        return Ok(None);
    };
    given_all(alloc, classes, span, x, bound, aim, e, faults)
}

// The same of parts that are typed.
fn given_all(
    alloc: Global,
    classes: &Classes,
    span: Span,
    x: &Name,
    bound: bool,
    aim: Box<Aim<'_>>,
    e: Box<TExpr>,
    faults: &mut Many<Diag>,
) -> Result<Option<Box<TStmtKind>>, Memory>
    ensures { IfOk result (λ r. Tells boxed_act r faults.old faults.new (judged span (rule_of.given_after (map class_entry classes.now.list) (rule_of.annotation_fault x.now bound (boxed_aim aim.entry)) (boxed_aim aim.entry) (boxed e)))) }
{
    if !may_be_annotated(alloc, span, x, bound, &aim, faults)? {
        return Ok(None);
    }
    let e = assigned(alloc, classes, span, &aim, Some(e), faults)?;
    act_on(alloc, aim, e)
}

// The assignment of a value to what is aimed at.
fn act_on(
    alloc: Global,
    aim: Box<Aim<'_>>,
    e: Option<Box<TExpr>>,
) -> Result<Option<Box<TStmtKind>>, Memory>
    ensures { IfOk result (λ t. option_map boxed_act t ≡ option_map (acts.Assign (rule_of.target_of (boxed_aim aim.entry))) (option_map boxed e)) }
{
    let mut targets = Many::new(alloc);
    put_target(&mut targets, Box::into_inner(aim))?;
    act_of(alloc, targets, e)
}

// Whether a name, which was bound before or not, may have an annotation; what is wrong is said.
fn may_be_annotated(
    alloc: Global,
    span: Span,
    x: &Name,
    bound: bool,
    aim: &Aim<'_>,
    faults: &mut Many<Diag>,
) -> Result<bool, Memory>
    ensures { IfOk result (λ right. Finds right faults.old faults.new span (rule_of.annotation_fault x.now bound (aim_seen aim.now))) }
{
    match aim {
        Aim::Barred(_) => {
            cannot_assign(alloc, span, x.as_str(), faults)?;
            Ok(false)
        }
        Aim::Held(_, _) => is_first(alloc, span, x, bound, faults),
        Aim::First(_, _) => is_first(alloc, span, x, bound, faults),
        Aim::Unwritten(_) => is_first(alloc, span, x, bound, faults),
        Aim::Lacking(_, _) => is_first(alloc, span, x, bound, faults),
        Aim::Misplaced(_) => is_first(alloc, span, x, bound, faults),
    }
}

fn is_first(
    alloc: Global,
    span: Span,
    x: &Name,
    bound: bool,
    faults: &mut Many<Diag>,
) -> Result<bool, Memory>
    ensures { IfOk result (λ right. Finds right faults.old faults.new span (if bound then Some (message.already_defined x.now) else None)) }
{
    if bound {
        already_defined(alloc, span, x.as_str(), faults)?;
        return Ok(false);
    }
    Ok(true)
}

// What is neither has no annotation. The type of what its names are bound to, where that has one.
fn annotates_other(
    alloc: Global,
    scope: &Context<'_>,
    place: &Place,
    span: Span,
    target: &Expr,
    mark: &Expr,
    e: &Option<Expr>,
    faults: &mut Many<Diag>,
) -> Result<Option<Ty>, Memory>
    ensures told { IfOk result (λ t. Tells boxed_act None faults.old faults.new (rules_of.annotates_other (context scope.now) (known_at place.now) span (expr_tree target.now) (expr_tree mark.now) (maybe_expr e.now))) }
    ensures value { IfOk result (λ t. option_map sort t ≡ rules_of.other_sort (context scope.now) (known_at place.now) (expr_tree target.now) (maybe_expr e.now)) }
{
    match e {
        None => {
            declares_other(alloc, scope, place, span, target, mark, faults)?;
            let value = nothings(alloc, target)?;
            Ok(Some(value))
        }
        Some(e) => gives_other(alloc, scope, place, span, target, mark, e, faults),
    }
}

fn declares_other(
    alloc: Global,
    scope: &Context<'_>,
    place: &Place,
    span: Span,
    target: &Expr,
    mark: &Expr,
    faults: &mut Many<Diag>,
) -> Result<(), Memory>
    ensures { IfOk result (λ done. Tells boxed_act None faults.old faults.new (rules_of.annotates_other (context scope.now) (known_at place.now) span (expr_tree target.now) (expr_tree mark.now) None)) }
{
    let placed = has_aims(alloc, scope, place, target, faults)?;
    let marked = is_type(alloc, scope, mark, faults)?;
    let complete = placed && marked;
    refuse(alloc, span, complete, faults)
}

// As many times None's type as a target has single targets.
fn nothings(alloc: Global, target: &Expr) -> Result<Ty, Memory>
    ensures { IfOk result (λ t. sort t ≡ rules_of.nothings (expr_tree target.now)) }
{
    let targets = leaves(alloc, target)?;
    let mut types = Many::new(alloc);
    for _ in 0..targets.len() {
        types.push(Ty::Nothing)?;
    }
    Ok(Ty::Tuple(types))
}

fn gives_other(
    alloc: Global,
    scope: &Context<'_>,
    place: &Place,
    span: Span,
    target: &Expr,
    mark: &Expr,
    e: &Expr,
    faults: &mut Many<Diag>,
) -> Result<Option<Ty>, Memory>
    ensures told { IfOk result (λ t. Tells boxed_act None faults.old faults.new (rules_of.annotates_other (context scope.now) (known_at place.now) span (expr_tree target.now) (expr_tree mark.now) (Some (expr_tree e.now)))) }
    ensures value { IfOk result (λ t. option_map sort t ≡ option_map type_of (rules_of.value_for (context scope.now) (known_at place.now) (expr_tree target.now) (expr_tree e.now)).got) }
{
    let given = given_value(alloc, scope, place, target, e)?;
    let value = value_type(alloc, &given.e)?;
    let t = value.as_ref();
    match refuse_given(alloc, scope, place, span, target, mark, given, t, faults) {
        Ok(()) => Ok(value),
        Err(memory) => {
            drop(value);
            Err(memory)
        }
    }
}

// A value, of this type if it has one, behind which its targets and their annotation are looked at.
fn refuse_given(
    alloc: Global,
    scope: &Context<'_>,
    place: &Place,
    span: Span,
    target: &Expr,
    mark: &Expr,
    given: Given,
    t: Option<&Ty>,
    faults: &mut Many<Diag>,
) -> Result<(), Memory>
    ensures { IfOk result (λ done. Tells boxed_act None faults.old faults.new (behind (both (both (rule_of.aims_behind (context scope.now) (known_at place.now) (expr_tree target.now) (option_map sort (option_copied t.entry))) (marks.annotation (context scope.now).meaning (expr_tree mark.now))) (given_seen given)) (λ p. with_part p (λ q. fails span message.no_target)))) }
{
    let placed = has_aims_behind(alloc, scope, place, target, t, faults)?;
    let marked = is_type(alloc, scope, mark, faults)?;
    let complete = placed && marked;
    refuse_behind(alloc, span, complete, given, faults)
}

// Whether an annotation is a type; what is wrong is said.
fn is_type(
    alloc: Global,
    scope: &Context<'_>,
    mark: &Expr,
    faults: &mut Many<Diag>,
) -> Result<bool, Memory>
    ensures { IfOk result (λ typed. Shows typed faults.old faults.new (marks.annotation (context scope.now).meaning (expr_tree mark.now))) }
{
    let t = annotation(alloc, scope, mark, faults)?;
    let typed = t.is_some();
    drop(t);
    Ok(typed)
}
