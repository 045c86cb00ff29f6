//! The order of one class more (C3), from what is kept of those before.
ghost use Rattle.std.specs.Prelude.{◌≡◌, ◌<◌, ◌∷◌, ◌++◌, [], true, nat_lt, map, length, slice_get, IfOk};
ghost use Rattle.std.specs.List.{list_all};
ghost use Rattle.py_typed.specs.Classes.{bases_of};
ghost use Rattle.py_typed.specs.Order as order;
ghost use Rattle.class_layout.specs.Merging.{rows_of};
ghost use Rattle.py_check_classes.specs.Headers as spec;
ghost use Rattle.py_check_classes.specs.Kept as kept;

use crate::header::{Header, Shape};
use class_layout::merged_rows;
use std::alloc::Global;
use value_core::{Many, Memory};

/// The order of a class of this shape behind these, if it has one.
pub(crate) fn order_of(
    alloc: Global,
    headers: &[Header],
    orders: &Many<Many<usize>>,
    shape: &Shape,
) -> Result<Option<Many<usize>>, Memory>
    requires kept { kept.AreKept (map spec.entry headers.now) orders.now }
    requires below { list_all (λ b. nat_lt b (length headers.now)) shape.now.bases ≡ true }
    ensures { IfOk result (λ order. order ≡ spec.order_behind headers.now shape.now) }
{
    let number = headers.len();
    let bases = shape.bases.as_slice();
    let above = orders_of(alloc, headers, orders, bases)?;
    let above = above.as_slice();
    let mut rows = with_bases(alloc, above, bases)?;
    let mut first = Many::new(alloc);
    first.push(number)?;
    merged_rows(alloc, first, &mut rows, number)
}

/// The orders of these classes.
fn orders_of(
    alloc: Global,
    headers: &[Header],
    orders: &Many<Many<usize>>,
    bases: &[usize],
) -> Result<Vec<Many<usize>>, Memory>
    requires kept { kept.AreKept (map spec.entry headers.now) orders.now }
    requires below { list_all (λ b. nat_lt b (length headers.now)) bases.now ≡ true }
    ensures { IfOk result (λ rows. rows.items ≡ kept.rows_above (map spec.entry headers.now) bases.now) }
{
    let mut rows = Vec::new(alloc);
    for base in bases {
        let row = order_row(alloc, headers, orders, *base)?;
        rows.push(row)?;
    }
    Ok(rows)
}

/// Rows, and the row of the bases behind them.
fn with_bases<'a>(
    alloc: Global,
    above: &'a [Many<usize>],
    bases: &'a [usize],
) -> Result<Vec<&'a [usize]>, Memory>
    ensures { IfOk result (λ rows. rows_of rows.items ≡ above.now ++ bases.now ∷ []) }
{
    let mut rows = Vec::new(alloc);
    for row in above {
        rows.push(row.as_slice())?;
    }
    rows.push(bases)?;
    Ok(rows)
}

/// The order of a class: along those that have one base, and then what is kept of the last.
///
/// # Errors
///
/// `Memory` alone.
pub fn order_row(
    alloc: Global,
    headers: &[Header],
    orders: &Many<Many<usize>>,
    class: usize,
) -> Result<Many<usize>, Memory>
    requires kept { kept.AreKept (map spec.entry headers.now) orders.now }
    requires there { class < length headers.now }
    ensures { IfOk result (λ row. row ≡ order.listed_order (order.order (map spec.entry headers.now) class)) }
{
    let mut row = Many::new(alloc);
    let mut at = class;
    while let Some(base) = only_base(headers, at) {
        row.push(at)?;
        at = base;
    }
    add_kept(&mut row, orders, at)?;
    Ok(row)
}

/// The base of a class that has one alone.
fn only_base(headers: &[Header], class: usize) -> Option<usize>
    ensures { result ≡ kept.only_one (bases_of (map spec.entry headers.now) class) }
{
    match bases_at(headers, class) {
        [] => None,
        [base] => Some(*base),
        [_, _, ..] => None,
    }
}

/// The bases of the class of a number.
#[tactic(auto, using(crate::proofs::HeaderLemmas::entry_found))]
fn bases_at(headers: &[Header], class: usize) -> &[usize]
    ensures { result.now ≡ bases_of (map spec.entry headers.now) class }
{
    match headers.get(class) {
        Some(Header::Typed(shape)) => shape.bases.as_slice(),
        Some(Header::Untyped(_)) => &[],
        None => &[],
    }
}

/// Adds what is kept of a class, or the class alone where nothing is.
fn add_kept(row: &mut Many<usize>, orders: &Many<Many<usize>>, class: usize) -> Result<(), Memory>
    ensures { IfOk result (λ done. row.new ≡ row.old ++ kept.or_alone class (kept.kept_in (slice_get orders.now class))) }
{
    add_or_alone(row, kept_at(orders, class), class)
}

fn kept_at(orders: &Many<Many<usize>>, class: usize) -> &[usize]
    ensures { result.now ≡ kept.kept_in (slice_get orders.now class) }
{
    match orders.get(class) {
        Some(row) => row.as_slice(),
        None => &[],
    }
}

fn add_or_alone(row: &mut Many<usize>, rest: &[usize], class: usize) -> Result<(), Memory>
    ensures { IfOk result (λ done. row.new ≡ row.old ++ kept.or_alone class rest.now) }
{
    match rest {
        [] => row.push(class),
        [_, ..] => add_all(row, rest),
    }
}

fn add_all(row: &mut Many<usize>, rest: &[usize]) -> Result<(), Memory>
    ensures { IfOk result (λ done. row.new ≡ row.old ++ rest.now) }
{
    for class in rest {
        row.push(*class)?;
    }
    Ok(())
}
