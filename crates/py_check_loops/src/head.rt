//! The head of a `for`.
ghost use Rattle.std.specs.Prelude.{◌≡◌, ◌++◌, map, IfOk};
ghost use Rattle.std.specs.List.{list_all};
ghost use Rattle.std.specs.Option.{option_copied, option_map, option_zip};
ghost use Rattle.py_syntax.specs.Expressions.{expr_tree};
ghost use Rattle.py_syntax.specs.Statements.{stmt_tree};
ghost use Rattle.py_typed.specs.Sorts.{sort};
ghost use Rattle.py_typed.specs.Classes.{class_entry};
ghost use Rattle.py_typed.specs.Statements.{maybe_typed, typed_act, typed_stmt, typed_target, suite_of};
ghost use Rattle.py_check_context.specs.Context.{context};
ghost use Rattle.py_check_messages.specs.Seen.{Tells, Finds, both, made, rule, ruled};
ghost use Rattle.py_check_coercions.specs.Boxes.{boxed};
ghost use Rattle.py_check_places.specs.Places as places;
ghost use Rattle.py_check_places.specs.Shapes as shapes;
ghost use Rattle.py_check_targets.specs.Targets as targets;
ghost use Rattle.py_check_places.specs.Views.{known_at};
ghost use Rattle.py_check_values.specs.Aims.{aim_seen};
ghost use Rattle.py_check_targets.specs.Views.{boxed_act, boxed_sort};
ghost use Rattle.py_check_loops.specs.Loops as loops;
ghost use Rattle.py_check_loops.specs.Heads as rule_of;
ghost use Rattle.py_check_loops.specs.Views.{boxed_head, course_seen, over_seen};

use crate::course::{Course, course_items, course_of, course_type};
use py_check_context::Context;
use py_check_messages::{no_target, not_iterable};
use py_check_places::{Place, bind_target, enter, is_flat, is_row};
use py_check_targets::{aims_behind, binds_several, put_behind};
use py_check_values::{Aim, binds};
use py_syntax::{Expr, Span, Stmt};
use py_syntax_diagnostics::Diag;
use py_typed::{Classes, TExpr, TStmt, TStmtKind, Target, Ty, copy_of, is_dict};
use std::alloc::Global;
use value_core::{Many, Memory};

/// The targets of a `for`, and what it goes over.
#[derive(Drop)]
pub struct Head {
    pub targets: Many<Target>,
    pub course: Course,
}

/// A `for` that was begun: its head, if it has a typed form, and the names that are known to be not None behind the loop.
#[derive(Drop)]
pub struct Begun {
    pub head: Option<Box<Head>>,
    pub outside: Vec<usize>,
}

/// The head of the `for` statement `s`, and what is known where its body begins.
pub fn begin_for(
    alloc: Global,
    scope: &Context<'_>,
    place: &mut Place,
    s: &Stmt,
    span: Span,
    target: &Expr,
    e: &Expr,
    faults: &mut Many<Diag>,
) -> Result<Begun, Memory>
    ensures told { IfOk result (λ begun. Tells boxed_head begun.head faults.old faults.new (rule_of.for_head (context scope.now) (known_at place.old) (stmt_tree s.now) span (expr_tree target.now) (expr_tree e.now))) }
    ensures known { IfOk result (λ begun. known_at place.new ≡ rule_of.in_for (context scope.now) (known_at place.old) (stmt_tree s.now) span (expr_tree target.now) (expr_tree e.now)) }
    ensures outside { IfOk result (λ begun. begun.outside.items ≡ (places.entering (context scope.now) (known_at place.old) (stmt_tree s.now)).names) }
{
    let over = gone_over(alloc, scope, place, e)?;
    let items = items_copied(alloc, &over.course)?;
    enter(alloc, scope, place, s)?;
    let outside = Vec::from_slice(alloc, place.names.as_slice())?;
    let items = items.as_deref();
    let head = typed_head(alloc, scope, place, span, target, over, items, faults)?;
    bind_target(alloc, scope, place, head.is_some(), target, items)?;
    Ok(Begun { head, outside })
}

// What is gone over, with what was said of it.
#[derive(Drop)]
struct GoneOver {
    course: Option<Course>,
    said: Many<Diag>,
}

fn gone_over(
    alloc: Global,
    scope: &Context<'_>,
    place: &Place,
    e: &Expr,
) -> Result<GoneOver, Memory>
    ensures { IfOk result (λ over. over_seen over ≡ loops.course (context scope.now) (known_at place.now) (expr_tree e.now)) }
{
    let mut said = Many::new(alloc);
    let course = course_of(alloc, scope, place, e, &mut said)?;
    Ok(GoneOver { course, said })
}

// The head, where the loop is entered, of these targets and what is gone over, whose items have this type if it has some.
fn typed_head(
    alloc: Global,
    scope: &Context<'_>,
    entered: &Place,
    span: Span,
    target: &Expr,
    over: GoneOver,
    items: Option<&Ty>,
    faults: &mut Many<Diag>,
) -> Result<Option<Box<Head>>, Memory>
    ensures { IfOk result (λ h. Tells boxed_head h faults.old faults.new (made (λ p. (targets.targets_of p.0, p.1)) (rule span (loops.head (context scope.now).classes (shapes.is_flat (expr_tree target.now)) (shapes.is_row (expr_tree target.now))) (both (targets.aims_behind (context scope.now) (known_at entered.now) (expr_tree target.now) (option_map sort (option_copied items.entry))) (over_seen over))))) }
{
    let GoneOver { course, said } = over;
    let aims = aims_behind(alloc, scope, entered, target, items, faults)?;
    put_behind(faults, said)?;
    let flat = is_flat(target);
    let several = is_row(target);
    head_of(
        alloc,
        scope.classes,
        span,
        flat,
        several,
        aims,
        course,
        faults,
    )
}

// The type of the items of what is gone over.
fn items_copied(alloc: Global, course: &Option<Course>) -> Result<Option<Box<Ty>>, Memory>
    ensures { IfOk result (λ t. option_map boxed_sort t ≡ rule_of.some_items (option_map course_seen course.now)) }
{
    let Some(course) = course else {
        return Ok(None);
    };
    let Some(t) = course_items(course) else {
        return Ok(None);
    };
    let t = copy_of(alloc, t)?;
    Ok(Some(Box::new(alloc, t)?))
}

// A head of these targets, each by what it is, and of what is gone over.
fn head_of(
    alloc: Global,
    classes: &Classes,
    span: Span,
    flat: bool,
    several: bool,
    aims: Option<Many<Aim<'_>>>,
    course: Option<Course>,
    faults: &mut Many<Diag>,
) -> Result<Option<Box<Head>>, Memory>
    ensures { IfOk result (λ t. Tells boxed_head t faults.old faults.new (made (λ p. (targets.targets_of p.0, p.1)) (ruled span (loops.head (map class_entry classes.now.list) flat several) (option_zip (option_map (map aim_seen) aims.entry) (option_map course_seen course))))) }
{
    let Some(aims) = aims else {
        return Ok(None);
    };
    let Some(course) = course else {
        return Ok(None);
    };
    if !head_holds(
        alloc,
        classes,
        span,
        flat,
        several,
        aims.as_slice(),
        &course,
        faults,
    )? {
        return Ok(None);
    }
    let targets = targets_of(alloc, aims)?;
    Ok(Some(Box::new(alloc, Head { targets, course })?))
}

// Whether a loop over this binds these targets; what is wrong is said.
fn head_holds(
    alloc: Global,
    classes: &Classes,
    span: Span,
    flat: bool,
    several: bool,
    aims: &[Aim<'_>],
    course: &Course,
    faults: &mut Many<Diag>,
) -> Result<bool, Memory>
    ensures { IfOk result (λ right. Finds right faults.old faults.new span (loops.head_fault (map class_entry classes.now.list) flat several (map aim_seen aims.entry.now) (loops.course_type (course_seen course.now)) (loops.course_items (course_seen course.now)))) }
{
    let Some(t) = course_items(course) else {
        not_iterable(alloc, classes, span, course_type(course), faults)?;
        return Ok(false);
    };
    if are_names(flat, aims) {
        return binds_items(alloc, classes, span, several, aims, t, faults);
    }
    no_target(alloc, span, faults)?;
    Ok(false)
}

fn are_names(flat: bool, aims: &[Aim<'_>]) -> bool
    ensures { result ≡ loops.are_names flat (map aim_seen aims.entry.now) }
{
    flat && all_names(aims)
}

fn all_names(aims: &[Aim<'_>]) -> bool
    ensures { result ≡ list_all targets.is_name_aim (map aim_seen aims.entry.now) }
{
    for a in aims {
        if !is_name_aim(a) {
            return false;
        }
    }
    true
}

fn is_name_aim(a: &Aim<'_>) -> bool
    ensures { result ≡ targets.is_name_aim (aim_seen a.now) }
{
    match a {
        Aim::Held(target, _) => is_name_target(target),
        Aim::First(_, _) => true,
        Aim::Barred(_) => true,
        Aim::Unwritten(_) => false,
        Aim::Lacking(_, _) => false,
        Aim::Misplaced(_) => false,
    }
}

fn is_name_target(target: &Target) -> bool
    ensures { result ≡ targets.is_name_target (typed_target target.now) }
{
    matches!(target, Target::Local(_) | Target::Global(_))
}

// Whether items of a type may be bound to targets; what is wrong is said.
fn binds_items(
    alloc: Global,
    classes: &Classes,
    span: Span,
    several: bool,
    aims: &[Aim<'_>],
    t: &Ty,
    faults: &mut Many<Diag>,
) -> Result<bool, Memory>
    ensures { IfOk result (λ right. Finds right faults.old faults.new span (loops.items_fault (map class_entry classes.now.list) several (map aim_seen aims.entry.now) (sort t.now))) }
{
    if several {
        return binds_several(alloc, classes, span, aims, t, faults);
    }
    match aims {
        [a] => binds(alloc, classes, span, a, t, faults),
        [] | [_, _, ..] => {
            no_target(alloc, span, faults)?;
            Ok(false)
        }
    }
}

// The targets that values are bound to.
fn targets_of(alloc: Global, aims: Many<Aim<'_>>) -> Result<Many<Target>, Memory>
    ensures { IfOk result (λ found. map typed_target found ≡ targets.targets_of (map aim_seen aims.entry)) }
{
    let mut found = Many::new(alloc);
    for a in aims.into_vec() {
        put_target(&mut found, a)?;
    }
    Ok(found)
}

fn put_target(found: &mut Many<Target>, a: Aim<'_>) -> Result<(), Memory>
    ensures { IfOk result (λ done. map typed_target found.new ≡ map typed_target found.old ++ targets.target_of (aim_seen a.entry)) }
{
    match a {
        Aim::Held(target, _) => found.push(target),
        Aim::First(target, _) => found.push(target),
        Aim::Barred(_) => Ok(()),
        Aim::Unwritten(_) => Ok(()),
        Aim::Lacking(_, _) => Ok(()),
        Aim::Misplaced(_) => Ok(()),
    }
}

/// The loop with this head and this body.
pub fn looped(
    alloc: Global,
    head: Option<Box<Head>>,
    body: Option<Many<TStmt>>,
) -> Result<Option<Box<TStmtKind>>, Memory>
    ensures { IfOk result (λ t. option_map boxed_act t ≡ option_map (λ p. loops.loop_of p.0.0 p.0.1 (suite_of p.1)) (option_zip (option_map boxed_head head) (option_map (map typed_stmt) body))) }
{
    let Some(head) = head else {
        return Ok(None);
    };
    let Some(body) = body else {
        return Ok(None);
    };
    let Head { targets, course } = Box::into_inner(head);
    Ok(Some(Box::new(alloc, loop_of(targets, course, body))?))
}

fn loop_of(targets: Many<Target>, course: Course, body: Many<TStmt>) -> TStmtKind
    ensures { typed_act result ≡ loops.loop_of (map typed_target targets) (course_seen course) (suite_of (map typed_stmt body)) }
{
    match course {
        Course::Numbers(first, last) => {
            TStmtKind::ForRange(targets, unboxed(first), Box::into_inner(last), body)
        }
        Course::Value(e) => loop_over(targets, e, body),
    }
}

fn unboxed(e: Option<Box<TExpr>>) -> Option<TExpr>
    ensures { maybe_typed result ≡ option_map boxed e }
{
    let e = e?;
    Some(Box::into_inner(e))
}

fn loop_over(targets: Many<Target>, e: Box<TExpr>, body: Many<TStmt>) -> TStmtKind
    ensures { typed_act result ≡ loops.loop_over (map typed_target targets) (sort e.value.ty) (boxed e) (suite_of (map typed_stmt body)) }
{
    let e = Box::into_inner(e);
    if is_dict(&e.ty) {
        TStmtKind::ForDict(targets, e, body)
    } else {
        TStmtKind::ForList(targets, e, body)
    }
}
