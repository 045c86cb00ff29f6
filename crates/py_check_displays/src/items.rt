//! Items of lists, texts, dicts and tuples.
ghost use Rattle.std.specs.Prelude.{◌≡◌, map, IfOk, Some, slice_get};
ghost use Rattle.std.specs.Option.{option_copied, option_map, option_zip, option_and_then};
ghost use Rattle.py_syntax.specs.Expressions.{expr_tree};
ghost use Rattle.py_typed.specs.Sorts.{sort};
ghost use Rattle.py_typed.specs.Classes.{class_entry};
ghost use Rattle.py_check_messages.specs.Seen.{Tells, judged, ruled};
ghost use Rattle.py_check_coercions.specs.Boxes.{boxed};
ghost use Rattle.py_check_displays.specs.Literals.{literal_seen};
ghost use Rattle.py_check_displays.specs.Indexing as rule_of;

use py_check_coercions::{coerced, kept};
use py_check_messages::{invalid_index, not_indexable, tuple_index};
use py_syntax::{Expr, ExprKind, Span};
use py_syntax_diagnostics::Diag;
use py_typed::{Classes, TExpr, TKind, Ty, copy_of, fits};
use std::alloc::Global;
use value_core::{Many, Memory};

/// An index as it is written: whether `-` stands before its number.
#[derive(Clone, Copy)]
pub struct Literal {
    pub is_negative: bool,
    pub number: i128,
}

/// The literal that an index is, if it is one.
pub fn literal_of(e: &Expr) -> Option<Literal>
    ensures { option_map literal_seen result ≡ rule_of.literal (expr_tree e.now) }
{
    match &e.kind {
        ExprKind::Int(n) => Some(Literal {
            is_negative: false,
            number: *n,
        }),
        ExprKind::Neg(e) => negated(e),
        _ => None,
    }
}

fn negated(e: &Expr) -> Option<Literal>
    ensures { option_map literal_seen result ≡ rule_of.negated (expr_tree e.now) }
{
    match &e.kind {
        ExprKind::Int(n) => Some(Literal {
            is_negative: true,
            number: *n,
        }),
        _ => None,
    }
}

/// `e[i]`, with the index as it is written (Python Language Reference, "Subscriptions").
pub fn indexing(
    alloc: Global,
    classes: &Classes,
    span: Span,
    index: Option<Literal>,
    e: Option<Box<TExpr>>,
    i: Option<Box<TExpr>>,
    faults: &mut Many<Diag>,
) -> Result<Option<Box<TExpr>>, Memory>
    ensures { IfOk result (λ t. Tells boxed t faults.old faults.new (ruled span (rule_of.indexing (map class_entry classes.now.list) span (option_map literal_seen index)) (option_zip (option_map boxed e) (option_map boxed i)))) }
{
    let Some(e) = e else {
        return Ok(None);
    };
    let Some(i) = i else {
        return Ok(None);
    };
    if is_tuple(&e.ty) {
        return part_of(alloc, span, index, e, faults);
    }
    item_of(alloc, classes, span, e, i, faults)
}

fn is_tuple(t: &Ty) -> bool
    ensures { result ≡ rule_of.is_tuple (sort t.now) }
{
    matches!(t, Ty::Tuple(_))
}

// An item of a list, a text or a dict.
fn item_of(
    alloc: Global,
    classes: &Classes,
    span: Span,
    e: Box<TExpr>,
    i: Box<TExpr>,
    faults: &mut Many<Diag>,
) -> Result<Option<Box<TExpr>>, Memory>
    ensures { IfOk result (λ t. Tells boxed t faults.old faults.new (judged span (rule_of.item_of (map class_entry classes.now.list) span (boxed e) (boxed i)))) }
{
    let Some((key, ty)) = keyed_by(alloc, &e.ty)? else {
        not_indexable(alloc, classes, span, &e.ty, faults)?;
        return Ok(None);
    };
    if !fits(&i.ty, &key, classes) {
        invalid_index(alloc, classes, span, &i.ty, &e.ty, &key, faults)?;
        return Ok(None);
    }
    let i = coerced(alloc, i, &key)?;
    let e = kept(alloc, TKind::At(e, i), ty, span)?;
    Ok(Some(e))
}

// What an index has to fit, and the type of the item.
fn keyed_by(alloc: Global, t: &Ty) -> Result<Option<(Ty, Ty)>, Memory>
    ensures { IfOk result (λ r. option_map (λ p. (sort p.0, sort p.1)) r ≡ rule_of.keyed_by (sort t.now)) }
{
    match t {
        Ty::List(t) => {
            let t = copy_of(alloc, t)?;
            Ok(Some((Ty::Int, t)))
        }
        Ty::Str => Ok(Some((Ty::Int, Ty::Str))),
        Ty::Dict(k, t) => {
            let k = copy_of(alloc, k)?;
            let t = copy_of(alloc, t)?;
            Ok(Some((k, t)))
        }
        _ => Ok(None),
    }
}

// A part of a tuple.
fn part_of(
    alloc: Global,
    span: Span,
    index: Option<Literal>,
    e: Box<TExpr>,
    faults: &mut Many<Diag>,
) -> Result<Option<Box<TExpr>>, Memory>
    ensures { IfOk result (λ t. Tells boxed t faults.old faults.new (judged span (rule_of.part_of span (option_map literal_seen index) (boxed e)))) }
{
    let Some((place, ty)) = part_at(alloc, index, &e.ty)? else {
        tuple_index(alloc, span, faults)?;
        return Ok(None);
    };
    let e = kept(alloc, TKind::TupleAt(e, place), ty, span)?;
    Ok(Some(e))
}

// The place of a part, and its type, if there is one.
#[tactic(auto, using(crate::proofs::PlaceLemmas::listed))]
fn part_at(alloc: Global, index: Option<Literal>, t: &Ty) -> Result<Option<(usize, Ty)>, Memory>
    ensures { IfOk result (λ r. option_map (λ p. (p.0, sort p.1)) r ≡ rule_of.part_at (option_map literal_seen index) (rule_of.parts_of (sort t.now))) }
{
    let Some(index) = index else {
        return Ok(None);
    };
    match t {
        Ty::Tuple(ts) => part_among(alloc, index, ts.as_slice()),
        _ => part_among(alloc, index, &[]),
    }
}

// The same among these types.
fn part_among(alloc: Global, index: Literal, ts: &[Ty]) -> Result<Option<(usize, Ty)>, Memory>
    ensures { IfOk result (λ r. option_map (λ p. (p.0, sort p.1)) r ≡ rule_of.part_at (Some (literal_seen index)) (map sort ts.now)) }
{
    let Some(place) = place_in(ts.len(), index) else {
        return Ok(None);
    };
    let Some(t) = type_at(ts, place) else {
        return Ok(None);
    };
    let t = copy_of(alloc, t)?;
    Ok(Some((place, t)))
}

fn type_at(ts: &[Ty], place: usize) -> Option<&Ty>
    ensures { option_copied result ≡ slice_get ts.now place }
{
    ts.get(place)
}

// The place among so many that a literal means.
#[tactic(auto, using(crate::proofs::PlaceLemmas::places))]
fn place_in(count: usize, index: Literal) -> Option<usize>
    ensures { result ≡ rule_of.place_in count (literal_seen index) }
{
    let Ok(n) = usize::try_from(index.number) else {
        return None;
    };
    place_from(index.is_negative, count, n)
}

fn place_from(is_negative: bool, count: usize, n: usize) -> Option<usize>
    ensures { result ≡ rule_of.place_from is_negative count n }
{
    if is_negative && 0 < n {
        if n <= count { Some(count - n) } else { None }
    } else if n < count {
        Some(n)
    } else {
        None
    }
}
