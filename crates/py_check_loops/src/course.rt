//! What a `for` goes over.
ghost use Rattle.std.specs.Prelude.{◌≡◌, [], map, IsTrue, IfOk, Ok, None, Some};
ghost use Rattle.std.specs.Option.{option_copied, option_map};
ghost use Rattle.py_syntax.specs.Expressions.{expr_tree, arg_tree, arguments_of};
ghost use Rattle.py_typed.specs.Sorts.{sort};
ghost use Rattle.py_typed.specs.Sorts as sorts;
ghost use Rattle.py_typed.specs.Classes.{class_entry};
ghost use Rattle.py_typed.specs.Expressions.{typed_expr, type_of};
ghost use Rattle.py_typed.specs.Fits as fit;
ghost use Rattle.py_check_context.specs.Context.{context, free, along};
ghost use Rattle.py_check_messages.specs.Seen.{Tells, behind, made, rule, ruled};
ghost use Rattle.py_check_coercions.specs.Boxes.{boxed};
ghost use Rattle.py_check_coercions.specs.Values as values;
ghost use Rattle.py_check_calls.specs.Callees as callees;
ghost use Rattle.py_check_calls.specs.Calls as calls;
ghost use Rattle.py_check_expressions.specs.Typing as typing;
ghost use Rattle.py_check_targets.specs.Targets as targets;
ghost use Rattle.py_check_places.specs.Views.{known_at};
ghost use Rattle.py_check_loops.specs.Loops as rule_of;
ghost use Rattle.py_check_loops.specs.Views.{course_seen};

use py_check_calls::{has_key, positional};
use py_check_coercions::coerced;
use py_check_context::{Builtin, Context, Meaning, Row, Want, meaning_of};
use py_check_expressions::{Environment, arguments};
use py_check_flow::name_in;
use py_check_messages::{wrong_argument, wrong_number};
use py_check_places::Place;
use py_check_targets::typed_at;
use py_syntax::{Arg, Expr, ExprKind, Span};
use py_syntax_diagnostics::Diag;
use py_typed::{Classes, TExpr, Ty, is_number, number_join};
use std::alloc::Global;
use value_core::{Many, Memory, Name};

/// What a `for` goes over.
#[derive(Drop)]
pub enum Course {
    /// The numbers from the first bound, or 0, up to the second and without it.
    Numbers(Option<Box<TExpr>>, Box<TExpr>),
    /// The items of a value.
    Value(Box<TExpr>),
}

/// What a `for` over this expression goes over (Python Language Reference, "The for statement").
pub fn course_of(
    alloc: Global,
    scope: &Context<'_>,
    place: &Place,
    e: &Expr,
    faults: &mut Many<Diag>,
) -> Result<Option<Course>, Memory>
    ensures { IfOk result (λ found. Tells course_seen found faults.old faults.new (rule_of.course (context scope.now) (known_at place.now) (expr_tree e.now))) }
{
    match range_arguments(scope, e) {
        Some(args) => over_range(alloc, scope, place, e.span, args, faults),
        None => over_value(alloc, scope, place, e, faults),
    }
}

// The arguments of a call of `range`.
fn range_arguments<'a>(scope: &Context<'_>, e: &'a Expr) -> Option<&'a [Arg]>
    ensures { option_map (λ args. arguments_of (map arg_tree args)) (option_copied result) ≡ rule_of.range_arguments (context scope.now) (expr_tree e.now) }
{
    match &e.kind {
        ExprKind::Call(f, args) => {
            if is_range_name(scope, name_in(f)) {
                Some(args.as_slice())
            } else {
                None
            }
        }
        _ => None,
    }
}

fn is_range_name(scope: &Context<'_>, x: Option<&Name>) -> bool
    ensures { result ≡ rule_of.is_range_name (context scope.now) (option_copied x.entry) }
{
    match x {
        Some(x) => is_range(meaning_of(scope, x)),
        None => false,
    }
}

fn is_range(meaning: Meaning) -> bool
    ensures { result ≡ rule_of.is_range meaning }
{
    matches!(meaning, Meaning::Builtin(Builtin::Range))
}

// The items of a value.
fn over_value(
    alloc: Global,
    scope: &Context<'_>,
    place: &Place,
    e: &Expr,
    faults: &mut Many<Diag>,
) -> Result<Option<Course>, Memory>
    ensures { IfOk result (λ found. Tells course_seen found faults.old faults.new (made rule_of.value (targets.typed_at (context scope.now) (known_at place.now) free (expr_tree e.now)))) }
{
    let e = typed_at(alloc, scope, place, Want::Free, e, faults)?;
    let Some(e) = e else {
        return Ok(None);
    };
    Ok(Some(Course::Value(e)))
}

// The numbers of a call of `range`.
fn over_range(
    alloc: Global,
    scope: &Context<'_>,
    place: &Place,
    span: Span,
    args: &[Arg],
    faults: &mut Many<Diag>,
) -> Result<Option<Course>, Memory>
    ensures { IfOk result (λ found. Tells course_seen found faults.old faults.new (rule span (rule_of.range_call (context scope.now).classes) (behind (typing.arguments (context scope.now) (known_at place.now).types (along []) 0 (known_at place.now).names (arguments_of (map arg_tree args.now))) (calls.positional span (callees.has_key (arguments_of (map arg_tree args.now))))))) }
{
    let es = range_values(alloc, scope, place, span, args, faults)?;
    range_call(alloc, scope.classes, span, es, faults)
}

// The arguments of a call of `range`, where none has a key.
fn range_values(
    alloc: Global,
    scope: &Context<'_>,
    place: &Place,
    span: Span,
    args: &[Arg],
    faults: &mut Many<Diag>,
) -> Result<Option<Many<TExpr>>, Memory>
    ensures { IfOk result (λ es. Tells (map typed_expr) es faults.old faults.new (behind (typing.arguments (context scope.now) (known_at place.now).types (along []) 0 (known_at place.now).names (arguments_of (map arg_tree args.now))) (calls.positional span (callees.has_key (arguments_of (map arg_tree args.now)))))) }
{
    let es = arguments_at(alloc, scope, place, args, faults)?;
    positional(alloc, span, has_key(args), es, faults)
}

// Arguments at a place, of which no type is expected.
fn arguments_at(
    alloc: Global,
    scope: &Context<'_>,
    place: &Place,
    args: &[Arg],
    faults: &mut Many<Diag>,
) -> Result<Option<Many<TExpr>>, Memory>
    ensures { IfOk result (λ es. Tells (map typed_expr) es faults.old faults.new (typing.arguments (context scope.now) (known_at place.now).types (along []) 0 (known_at place.now).names (arguments_of (map arg_tree args.now)))) }
{
    let environment = Environment {
        scope,
        vars: &place.types,
        known: place.names.as_slice(),
    };
    arguments(alloc, environment, args, Row::Along(&[]), faults)
}

// A call of `range` with these arguments (Python Library Reference, "Ranges").
fn range_call(
    alloc: Global,
    classes: &Classes,
    span: Span,
    es: Option<Many<TExpr>>,
    faults: &mut Many<Diag>,
) -> Result<Option<Course>, Memory>
    ensures { IfOk result (λ found. Tells course_seen found faults.old faults.new (ruled span (rule_of.range_call (map class_entry classes.now.list)) (option_map (map typed_expr) es))) }
{
    let Some(es) = es else {
        return Ok(None);
    };
    if !is_count_right(es.as_slice()) {
        wrong_number(alloc, span, "range", "1 or 2", faults)?;
        return Ok(None);
    }
    if let Some((i, s)) = no_number(es.as_slice()) {
        wrong_argument(alloc, classes, span, i, "range", s, "number", faults)?;
        return Ok(None);
    }
    let found = range_between(alloc, es)?;
    Ok(Some(found))
}

fn is_count_right(es: &[TExpr]) -> bool
    ensures { result ≡ rule_of.is_count_right (map typed_expr es.now) }
{
    matches!(es, [_] | [_, _])
}

// The first argument that is no number, with its number from 1.
fn no_number(es: &[TExpr]) -> Option<(usize, &Ty)>
    ensures { option_map (λ p. (p.0, sort p.1.now)) result ≡ rule_of.no_number 1 (map typed_expr es.now) }
{
    for (i, e) in es.iter().enumerate() {
        if !is_number(&e.ty) {
            return Some((i + 1, &e.ty));
        }
    }
    None
}

// The range with these bounds.
fn range_between(alloc: Global, es: Many<TExpr>) -> Result<Course, Memory>
    requires { IsTrue (rule_of.is_count_right (map typed_expr es)) }
    ensures { IfOk result (λ found. Ok (course_seen found) ≡ rule_of.bounds (map typed_expr es)) }
{
    let mut es = es;
    let Some(last) = es.pop() else {
        unreachable!();
    };
    let last = Box::new(alloc, last)?;
    let Some(first) = es.pop() else {
        return up_to(alloc, last);
    };
    let first = Box::new(alloc, first)?;
    between(alloc, first, last)
}

fn up_to(alloc: Global, last: Box<TExpr>) -> Result<Course, Memory>
    ensures { IfOk result (λ found. course_seen found ≡ rule_of.numbers None (values.coerced (fit.number_join (type_of (boxed last)) sorts.Int) (boxed last))) }
{
    let ty = number_join(&last.ty, &Ty::Int);
    let last = coerced(alloc, last, &ty)?;
    Ok(Course::Numbers(None, last))
}

fn between(alloc: Global, first: Box<TExpr>, last: Box<TExpr>) -> Result<Course, Memory>
    ensures { IfOk result (λ found. course_seen found ≡ rule_of.numbers (Some (values.coerced (fit.number_join (type_of (boxed first)) (type_of (boxed last))) (boxed first))) (values.coerced (fit.number_join (type_of (boxed first)) (type_of (boxed last))) (boxed last))) }
{
    let ty = number_join(&first.ty, &last.ty);
    let first = coerced(alloc, first, &ty)?;
    let last = coerced(alloc, last, &ty)?;
    Ok(Course::Numbers(Some(first), last))
}

/// The type of its items, if it has some.
pub(crate) fn course_items(course: &Course) -> Option<&Ty>
    ensures { option_map sort (option_copied result) ≡ rule_of.course_items (course_seen course.now) }
{
    match course {
        Course::Numbers(_, last) => Some(&last.ty),
        Course::Value(e) => items_of(&e.ty),
    }
}

fn items_of(t: &Ty) -> Option<&Ty>
    ensures { option_map sort (option_copied result) ≡ rule_of.items_of (sort t.now) }
{
    match t {
        Ty::List(t) => Some(t),
        Ty::Dict(k, _) => Some(k),
        _ => None,
    }
}

/// The type of what is gone over.
pub(crate) fn course_type(course: &Course) -> &Ty
    ensures { sort result.now ≡ rule_of.course_type (course_seen course.now) }
{
    match course {
        Course::Numbers(_, last) => &last.ty,
        Course::Value(e) => &e.ty,
    }
}
