//! Tuple displays.
ghost use Rattle.std.specs.Prelude.{◌≡◌, map, length, IfOk};
ghost use Rattle.std.specs.Option.{option_map};
ghost use Rattle.py_typed.specs.Sorts.{sort, sorts_of};
ghost use Rattle.py_typed.specs.Classes.{class_entry};
ghost use Rattle.py_typed.specs.Expressions.{typed_expr, type_of};
ghost use Rattle.py_check_context.specs.Context.{wanted, wants, row};
ghost use Rattle.py_check_messages.specs.Seen.{Tells, ruled};
ghost use Rattle.py_check_coercions.specs.Boxes.{boxed};
ghost use Rattle.py_check_displays.specs.Displays as rule_of;

use py_check_coercions::{changed_row, kept, unfit};
use py_check_context::{Row, Want, wanted_at};
use py_check_messages::invalid_tuple;
use py_syntax::Span;
use py_syntax_diagnostics::Diag;
use py_typed::{Classes, TExpr, TKind, Ty, copy_of, is_nothing};
use std::alloc::Global;
use value_core::{Many, Memory};

/// What so many items of a tuple display are there for: where a tuple of as many types is expected, values of these.
pub fn parts_row<'a>(want: Want<'a>, n: usize) -> Row<'a>
    ensures { row result ≡ rule_of.parts_row (wanted want.entry) n }
{
    match want {
        Want::Wants(t) => expected_parts(t, n),
        _ => Row::Along(&[]),
    }
}

fn expected_parts<'a>(t: &'a Ty, n: usize) -> Row<'a>
    ensures { row result ≡ rule_of.parts_row (wants (sort t.now)) n }
{
    match t {
        Ty::Tuple(ts) => {
            if ts.len() == n {
                Row::Along(ts.as_slice())
            } else {
                Row::Along(&[])
            }
        }
        _ => Row::Along(&[]),
    }
}

/// A tuple display (Python Language Reference, "Parenthesized forms").
pub fn tuple_display(
    alloc: Global,
    classes: &Classes,
    span: Span,
    asked: Row<'_>,
    es: Option<Many<TExpr>>,
    faults: &mut Many<Diag>,
) -> Result<Option<Box<TExpr>>, Memory>
    ensures { IfOk result (λ t. Tells boxed t faults.old faults.new (ruled span (rule_of.tuple_display (map class_entry classes.now.list) (row asked.entry) span) (option_map (map typed_expr) es))) }
{
    let Some(es) = es else {
        return Ok(None);
    };
    if is_invalid_tuple(asked, es.as_slice()) {
        invalid_tuple(alloc, span, faults)?;
        return Ok(None);
    }
    let row = kept_row(classes, asked, es.as_slice());
    let es = changed_row(alloc, es, row)?;
    let e = tuple_of(alloc, span, es)?;
    Ok(Some(e))
}

fn is_invalid_tuple(asked: Row<'_>, es: &[TExpr]) -> bool
    ensures { result ≡ rule_of.is_invalid_tuple (row asked.entry) (map typed_expr es.now) }
{
    !is_tuple_size(es.len()) || has_bare_none(asked, es)
}

fn is_tuple_size(n: usize) -> bool
    ensures { result ≡ rule_of.is_tuple_size n }
{
    0 < n && n < 17
}

// Whether an item is None where no Optional is expected.
fn has_bare_none(asked: Row<'_>, es: &[TExpr]) -> bool
    ensures { result ≡ rule_of.has_bare_none (row asked.entry) 0 (map typed_expr es.now) }
{
    for (i, e) in es.iter().enumerate() {
        if is_bare_none(wanted_at(asked, i), e) {
            return true;
        }
    }
    false
}

fn is_bare_none(want: Want<'_>, e: &TExpr) -> bool
    ensures { result ≡ rule_of.is_bare_none (wanted want.entry) (typed_expr e.now) }
{
    is_nothing(&e.ty) && !is_optional(want)
}

fn is_optional(want: Want<'_>) -> bool
    ensures { result ≡ rule_of.is_optional (wanted want.entry) }
{
    match want {
        Want::Wants(Ty::Optional(_)) => true,
        _ => false,
    }
}

// The types that are expected, where each item fits its own.
fn kept_row<'a>(classes: &Classes, asked: Row<'a>, es: &[TExpr]) -> Row<'a>
    ensures { row result ≡ rule_of.kept_row (map class_entry classes.now.list) (row asked.entry) (map typed_expr es.now) }
{
    if unfit(classes, asked, es).is_none() {
        asked
    } else {
        Row::Along(&[])
    }
}

fn tuple_of(alloc: Global, span: Span, es: Many<TExpr>) -> Result<Box<TExpr>, Memory>
    ensures { IfOk result (λ e. boxed e ≡ rule_of.tuple_of span (map typed_expr es)) }
{
    let ts = types_of(alloc, es.as_slice())?;
    kept(alloc, TKind::Tuple(es), Ty::Tuple(ts), span)
}

fn types_of(alloc: Global, es: &[TExpr]) -> Result<Many<Ty>, Memory>
    ensures { IfOk result (λ ts. map sort ts ≡ map type_of (map typed_expr es.now)) }
{
    let mut ts = Many::new(alloc);
    for e in es {
        ts.push(copy_of(alloc, &e.ty)?)?;
    }
    Ok(ts)
}
