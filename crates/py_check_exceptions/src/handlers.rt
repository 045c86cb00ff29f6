//! The heads of except clauses.
ghost use Rattle.std.specs.Prelude.{◌≡◌, ◌++◌, map, IfOk};
ghost use Rattle.std.specs.Option.{option_copied, option_map, option_zip};
ghost use Rattle.py_syntax.specs.Expressions.{expr_tree, exprs_of};
ghost use Rattle.py_syntax.specs.Statements.{maybe_expr};
ghost use Rattle.py_typed.specs.Classes.{class_entry};
ghost use Rattle.py_typed.specs.Statements.{typed_target};
ghost use Rattle.py_check_context.specs.Context.{context};
ghost use Rattle.py_check_messages.specs.Seen.{Finds, Tells, ruled};
ghost use Rattle.py_check_messages.specs.Rows.{kept};
ghost use Rattle.py_check_places.specs.Views.{known_at};
ghost use Rattle.py_check_values.specs.Aims.{aim_seen};
ghost use Rattle.py_check_targets.specs.Views.{boxed_aim};
ghost use Rattle.py_check_exceptions.specs.Handlers as rule_of;
ghost use Rattle.py_check_exceptions.specs.Views.{boxed_handler_head};

use crate::asked::{Asked, asked_as};
use py_check_context::{Context, Want, meaning_of};
use py_check_flow::name_in;
use py_check_messages::{bare_except, no_exception_class};
use py_check_places::{Place, bind_name};
use py_check_targets::{in_box, name_aim, typed_at};
use py_check_values::{Aim, binds};
use py_syntax::{Expr, ExprKind, Span};
use py_syntax_diagnostics::Diag;
use py_typed::{Classes, Target, Ty};
use std::alloc::Global;
use value_core::{ExcClass, Many, Memory, Name};

/// The head of an except clause: the classes that it handles, and what the exception is bound to.
#[derive(Drop)]
pub struct Head {
    pub classes: Many<ExcClass>,
    pub name: Option<Target>,
}

/// The head of an except clause with this class and this name, which is the last one or not, and what is known where its body begins
/// (Python Language Reference, "The except clause").
pub fn begin_handler(
    alloc: Global,
    scope: &Context<'_>,
    place: &mut Place,
    span: Span,
    class: &Option<Expr>,
    name: &Option<Name>,
    last: bool,
    faults: &mut Many<Diag>,
) -> Result<Option<Box<Head>>, Memory>
    ensures told { IfOk result (λ t. Tells boxed_handler_head t faults.old faults.new (rule_of.handler_head (context scope.now) (known_at place.old) span (maybe_expr class.now) name.now last)) }
    ensures known { IfOk result (λ t. known_at place.new ≡ rule_of.in_handler (context scope.now) (known_at place.old) span (maybe_expr class.now) name.now last) }
{
    let head = handler_head(alloc, scope, place, span, class, name, last, faults)?;
    let thrown = Ty::Exc(ExcClass::Exception);
    bind_name(
        alloc,
        scope,
        place,
        head.is_some(),
        name.as_ref(),
        Some(&thrown),
    )?;
    Ok(head)
}

fn handler_head(
    alloc: Global,
    scope: &Context<'_>,
    place: &Place,
    span: Span,
    class: &Option<Expr>,
    name: &Option<Name>,
    last: bool,
    faults: &mut Many<Diag>,
) -> Result<Option<Box<Head>>, Memory>
    ensures { IfOk result (λ t. Tells boxed_handler_head t faults.old faults.new (rule_of.handler_head (context scope.now) (known_at place.now) span (maybe_expr class.now) name.now last)) }
{
    let classes = caught(alloc, scope, place, class, faults)?;
    let aim = name_at(alloc, scope, place, name)?;
    let early = is_early(class, last);
    head_of(alloc, scope.classes, span, early, classes, aim, faults)
}

// Whether a bare clause is not the last one.
fn is_early(class: &Option<Expr>, last: bool) -> bool
    ensures { result ≡ rule_of.is_early (maybe_expr class.now) last }
{
    match class {
        None => !last,
        Some(_) => false,
    }
}

// What a clause names: exception classes, and what is none but has a type.
fn caught(
    alloc: Global,
    scope: &Context<'_>,
    place: &Place,
    class: &Option<Expr>,
    faults: &mut Many<Diag>,
) -> Result<Option<Many<Option<ExcClass>>>, Memory>
    ensures found { IfOk result (λ found. found ≡ (rule_of.caught (context scope.now) (known_at place.now) (maybe_expr class.now)).got) }
    ensures told { IfOk result (λ found. faults.new ≡ faults.old ++ (rule_of.caught (context scope.now) (known_at place.now) (maybe_expr class.now)).said) }
{
    match class {
        None => only(alloc, Some(Some(ExcClass::Exception))),
        Some(e) => caught_by(alloc, scope, place, e, faults),
    }
}

fn caught_by(
    alloc: Global,
    scope: &Context<'_>,
    place: &Place,
    e: &Expr,
    faults: &mut Many<Diag>,
) -> Result<Option<Many<Option<ExcClass>>>, Memory>
    ensures found { IfOk result (λ found. found ≡ (rule_of.caught_by (context scope.now) (known_at place.now) (expr_tree e.now) (rule_of.tuple_items (expr_tree e.now))).got) }
    ensures told { IfOk result (λ found. faults.new ≡ faults.old ++ (rule_of.caught_by (context scope.now) (known_at place.now) (expr_tree e.now) (rule_of.tuple_items (expr_tree e.now))).said) }
{
    match tuple_items(e) {
        Some(es) => classes_along(alloc, scope, place, es, faults),
        None => {
            let one = class_at(alloc, scope, place, e, faults)?;
            only(alloc, one)
        }
    }
}

fn tuple_items(e: &Expr) -> Option<&[Expr]>
    ensures { option_map (λ es. exprs_of (map expr_tree es)) (option_copied result) ≡ rule_of.tuple_items (expr_tree e.now) }
{
    match &e.kind {
        ExprKind::Tuple(es) => Some(es.as_slice()),
        _ => None,
    }
}

// A row of one.
fn only(
    alloc: Global,
    one: Option<Option<ExcClass>>,
) -> Result<Option<Many<Option<ExcClass>>>, Memory>
    ensures { IfOk result (λ found. found ≡ option_map rule_of.only one) }
{
    let Some(one) = one else {
        return Ok(None);
    };
    let mut found = Many::new(alloc);
    found.push(one)?;
    Ok(Some(found))
}

fn classes_along(
    alloc: Global,
    scope: &Context<'_>,
    place: &Place,
    es: &[Expr],
    faults: &mut Many<Diag>,
) -> Result<Option<Many<Option<ExcClass>>>, Memory>
    ensures found { IfOk result (λ found. found ≡ (rule_of.classes_along (context scope.now) (known_at place.now) (exprs_of (map expr_tree es.now))).got) }
    ensures told { IfOk result (λ found. faults.new ≡ faults.old ++ (rule_of.classes_along (context scope.now) (known_at place.now) (exprs_of (map expr_tree es.now))).said) }
{
    let mut found = Some(Many::new(alloc));
    for e in es {
        let one = class_at(alloc, scope, place, e, faults)?;
        found = with_class(found, one)?;
    }
    Ok(found)
}

fn with_class(
    found: Option<Many<Option<ExcClass>>>,
    one: Option<Option<ExcClass>>,
) -> Result<Option<Many<Option<ExcClass>>>, Memory>
    ensures { IfOk result (λ r. r ≡ kept found one) }
{
    let Some(mut found) = found else {
        return Ok(None);
    };
    let Some(one) = one else {
        return Ok(None);
    };
    found.push(one)?;
    Ok(Some(found))
}

// An exception class in its place, or what is none but is known or has a type.
fn class_at(
    alloc: Global,
    scope: &Context<'_>,
    place: &Place,
    e: &Expr,
    faults: &mut Many<Diag>,
) -> Result<Option<Option<ExcClass>>, Memory>
    ensures found { IfOk result (λ found. found ≡ (rule_of.class_at (context scope.now) (known_at place.now) (expr_tree e.now)).got) }
    ensures told { IfOk result (λ found. faults.new ≡ faults.old ++ (rule_of.class_at (context scope.now) (known_at place.now) (expr_tree e.now)).said) }
{
    match name_in(e) {
        None => no_class(alloc, scope, place, e, faults),
        Some(x) => Ok(named_class(asked_as(meaning_of(scope, x)))),
    }
}

fn named_class(what: Asked) -> Option<Option<ExcClass>>
    ensures { result ≡ (rule_of.named_class what).got }
{
    match what {
        Asked::Class(class) => Some(Some(class)),
        Asked::Variable => Some(None),
        Asked::Voiceless => None,
        Asked::Other => Some(None),
    }
}

// Any other expression, which is typed.
fn no_class(
    alloc: Global,
    scope: &Context<'_>,
    place: &Place,
    e: &Expr,
    faults: &mut Many<Diag>,
) -> Result<Option<Option<ExcClass>>, Memory>
    ensures found { IfOk result (λ found. found ≡ (rule_of.no_class (context scope.now) (known_at place.now) (expr_tree e.now)).got) }
    ensures told { IfOk result (λ found. faults.new ≡ faults.old ++ (rule_of.no_class (context scope.now) (known_at place.now) (expr_tree e.now)).said) }
{
    let e = typed_at(alloc, scope, place, Want::Free, e, faults)?;
    match e {
        Some(_) => Ok(Some(None)),
        None => Ok(None),
    }
}

// What the exception is bound to, if it is, unless that is a variable without a type.
fn name_at<'a>(
    alloc: Global,
    scope: &Context<'_>,
    place: &Place,
    name: &'a Option<Name>,
) -> Result<Option<Option<Box<Aim<'a>>>>, Memory>
    ensures { IfOk result (λ a. option_map (option_map boxed_aim) a ≡ (rule_of.name_at (context scope.now) (known_at place.now) name.now).got) }
{
    match name {
        None => Ok(Some(None)),
        Some(x) => {
            let aim = name_aim(alloc, place, x, meaning_of(scope, x))?;
            let aim = in_box(alloc, aim)?;
            Ok(where_some(aim))
        }
    }
}

fn where_some<'a>(aim: Option<Box<Aim<'a>>>) -> Option<Option<Box<Aim<'a>>>>
    ensures { option_map (option_map boxed_aim) result ≡ option_map rule_of.named (option_map boxed_aim aim.entry) }
{
    let aim = aim?;
    Some(Some(aim))
}

// A head of these classes, which is a bare one before others or not, and of what the exception is bound to.
fn head_of(
    alloc: Global,
    classes: &Classes,
    span: Span,
    early: bool,
    found: Option<Many<Option<ExcClass>>>,
    aim: Option<Option<Box<Aim<'_>>>>,
    faults: &mut Many<Diag>,
) -> Result<Option<Box<Head>>, Memory>
    ensures { IfOk result (λ t. Tells boxed_handler_head t faults.old faults.new (ruled span (rule_of.head (map class_entry classes.now.list) early) (option_zip found (option_map (option_map boxed_aim) aim.entry)))) }
{
    let Some(found) = found else {
        return Ok(None);
    };
    let Some(aim) = aim else {
        return Ok(None);
    };
    let Some(handled) = some_classes(alloc, found)? else {
        no_exception_class(alloc, span, faults)?;
        return Ok(None);
    };
    if !head_holds(alloc, classes, span, early, &aim, faults)? {
        return Ok(None);
    }
    let head = head_made(alloc, handled, aim)?;
    Ok(Some(head))
}

// All classes, where each is one and there is one; a class that is none is let go.
fn some_classes(
    alloc: Global,
    found: Many<Option<ExcClass>>,
) -> Result<Option<Many<ExcClass>>, Memory>
    ensures { IfOk result (λ xs. xs ≡ rule_of.some_classes found) }
{
    if found.is_empty() {
        return Ok(None);
    }
    all_classes(alloc, found.as_slice())
}

fn all_classes(alloc: Global, found: &[Option<ExcClass>]) -> Result<Option<Many<ExcClass>>, Memory>
    ensures { IfOk result (λ xs. xs ≡ rule_of.all_classes found.now) }
{
    let mut all = Many::new(alloc);
    for class in found {
        let Some(class) = *class else {
            return Ok(None);
        };
        all.push(class)?;
    }
    Ok(Some(all))
}

// Whether nothing is wrong with a head of exception classes; what is wrong is said.
fn head_holds(
    alloc: Global,
    classes: &Classes,
    span: Span,
    early: bool,
    aim: &Option<Box<Aim<'_>>>,
    faults: &mut Many<Diag>,
) -> Result<bool, Memory>
    ensures { IfOk result (λ right. Finds right faults.old faults.new span (rule_of.head_fault (map class_entry classes.now.list) early (option_map boxed_aim aim.entry.now))) }
{
    if early {
        bare_except(alloc, span, faults)?;
        return Ok(false);
    }
    match aim {
        None => Ok(true),
        Some(aim) => {
            let thrown = Ty::Exc(ExcClass::Exception);
            let right = binds(alloc, classes, span, aim, &thrown, faults);
            drop(thrown);
            right
        }
    }
}

fn head_made(
    alloc: Global,
    classes: Many<ExcClass>,
    aim: Option<Box<Aim<'_>>>,
) -> Result<Box<Head>, Memory>
    ensures { IfOk result (λ h. boxed_handler_head h ≡ (classes, rule_of.name_target (option_map boxed_aim aim.entry))) }
{
    let name = name_target(aim);
    Ok(Box::new(alloc, Head { classes, name })?)
}

fn name_target(aim: Option<Box<Aim<'_>>>) -> Option<Target>
    ensures { option_map typed_target result ≡ rule_of.name_target (option_map boxed_aim aim.entry) }
{
    let aim = aim?;
    match Box::into_inner(aim) {
        Aim::Held(target, _) => Some(target),
        Aim::First(target, _) => Some(target),
        Aim::Barred(_) => None,
        Aim::Unwritten(_) => None,
        Aim::Lacking(_, _) => None,
        Aim::Misplaced(_) => None,
    }
}
