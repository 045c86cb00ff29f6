//! List displays.
ghost use Rattle.std.specs.Prelude.{◌≡◌, [], map, IfOk, Some};
ghost use Rattle.std.specs.Option.{option_copied, option_map};
ghost use Rattle.py_typed.specs.Sorts.{sort};
ghost use Rattle.py_typed.specs.Classes.{class_entry};
ghost use Rattle.py_typed.specs.Expressions.{typed_expr};
ghost use Rattle.py_check_context.specs.Context.{wanted, row, each};
ghost use Rattle.py_check_messages.specs.Seen.{Tells, judged, ruled};
ghost use Rattle.py_check_coercions.specs.Boxes.{boxed};
ghost use Rattle.py_check_displays.specs.Displays as rule_of;

use py_check_coercions::{changed_row, kept, unfit};
use py_check_context::{Row, Want};
use py_check_messages::{empty_display, no_common_item, wrong_item};
use py_syntax::Span;
use py_syntax_diagnostics::Diag;
use py_typed::{Classes, TExpr, TKind, Ty, copy_of, is_nothing, join};
use std::alloc::Global;
use value_core::{Many, Memory};

/// The item type of the list that is expected, if one is.
pub fn item_type<'a>(want: Want<'a>) -> Option<&'a Ty>
    ensures { option_map sort (option_copied result) ≡ rule_of.item_sort (wanted want.entry) }
{
    match want {
        Want::Wants(Ty::List(t)) => Some(t),
        _ => None,
    }
}

/// What the items of a list display are there for, by the item type that is expected.
pub fn items_row<'a>(expected: Option<&'a Ty>) -> Row<'a>
    ensures { row result ≡ rule_of.items_row (option_map sort (option_copied expected.entry)) }
{
    match expected {
        Some(t) => Row::Each(t),
        None => Row::Along(&[]),
    }
}

/// A list display (Python Language Reference, "List displays").
pub fn list_display(
    alloc: Global,
    classes: &Classes,
    span: Span,
    expected: Option<&Ty>,
    es: Option<Many<TExpr>>,
    faults: &mut Many<Diag>,
) -> Result<Option<Box<TExpr>>, Memory>
    ensures { IfOk result (λ t. Tells boxed t faults.old faults.new (ruled span (rule_of.list_display (map class_entry classes.now.list) (option_map sort (option_copied expected.entry)) span) (option_map (map typed_expr) es))) }
{
    let Some(es) = es else {
        return Ok(None);
    };
    match expected {
        Some(t) => expected_list(alloc, classes, span, t, es, faults),
        None => inferred_list(alloc, classes, span, es, faults),
    }
}

// A list of the type that is expected.
fn expected_list(
    alloc: Global,
    classes: &Classes,
    span: Span,
    t: &Ty,
    es: Many<TExpr>,
    faults: &mut Many<Diag>,
) -> Result<Option<Box<TExpr>>, Memory>
    ensures { IfOk result (λ r. Tells boxed r faults.old faults.new (judged span (rule_of.expected_list (map class_entry classes.now.list) span (sort t.now) (map typed_expr es)))) }
{
    if let Some(m) = unfit(classes, Row::Each(t), es.as_slice()) {
        wrong_item(alloc, classes, span, m.place, m.found, m.asked, faults)?;
        return Ok(None);
    }
    let e = list_of(alloc, span, t, es)?;
    Ok(Some(e))
}

// A list of items that fit its type.
fn list_of(alloc: Global, span: Span, t: &Ty, es: Many<TExpr>) -> Result<Box<TExpr>, Memory>
    ensures { IfOk result (λ e. boxed e ≡ rule_of.list_of span (sort t.now) (map typed_expr es)) }
{
    let es = changed_row(alloc, es, Row::Each(t))?;
    let t = copy_of(alloc, t)?;
    let ty = Ty::List(Box::new(alloc, t)?);
    kept(alloc, TKind::List(es), ty, span)
}

// A list whose type its items give.
fn inferred_list(
    alloc: Global,
    classes: &Classes,
    span: Span,
    es: Many<TExpr>,
    faults: &mut Many<Diag>,
) -> Result<Option<Box<TExpr>>, Memory>
    ensures { IfOk result (λ r. Tells boxed r faults.old faults.new (judged span (rule_of.inferred_list (map class_entry classes.now.list) span (map typed_expr es)))) }
{
    let [first, more @ ..] = es.as_slice() else {
        empty_display(alloc, span, faults)?;
        return Ok(None);
    };
    let joined = common(alloc, classes, &first.ty, more)?;
    joined_list(alloc, span, joined, es, faults)
}

// A list of items of this type, if there is one for all.
fn joined_list(
    alloc: Global,
    span: Span,
    joined: Option<Ty>,
    es: Many<TExpr>,
    faults: &mut Many<Diag>,
) -> Result<Option<Box<TExpr>>, Memory>
    ensures { IfOk result (λ r. Tells boxed r faults.old faults.new (judged span (rule_of.joined_list span (map typed_expr es) (option_map sort joined)))) }
{
    let Some(t) = joined else {
        no_common_item(alloc, span, faults)?;
        return Ok(None);
    };
    if is_nothing(&t) {
        no_common_item(alloc, span, faults)?;
        return Ok(None);
    }
    let e = list_of(alloc, span, &t, es)?;
    Ok(Some(e))
}

// The type that values join to from the left, behind others of a type.
fn common(alloc: Global, classes: &Classes, first: &Ty, es: &[TExpr]) -> Result<Option<Ty>, Memory>
    ensures { IfOk result (λ t. option_map sort t ≡ rule_of.common (map class_entry classes.now.list) (Some (sort first.now)) (map typed_expr es.now)) }
{
    let mut t = copy_of(alloc, first)?;
    for e in es {
        let Some(joined) = join(alloc, &t, &e.ty, classes)? else {
            return Ok(None);
        };
        t = joined;
    }
    Ok(Some(t))
}
