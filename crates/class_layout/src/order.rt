//! The orders of all classes (C3).
ghost use Rattle.std.specs.Prelude.{◌≡◌, ◌<◌, ◌∷◌, true, ℕ, IfOk, IfSome, map, length, slice_get};
ghost use Rattle.py_typed.specs.Classes.{class_entry, bases_of, bases_fall as falls};
ghost use Rattle.py_typed.specs.Laws.{IsClassTree};
ghost use Rattle.py_typed.specs.Order as order;
ghost use Rattle.class_layout.specs.Merging.{rows_of, is_below, are_below, behind};
ghost use Rattle.class_layout.specs.Orders.{rows_above, order_from, IsOrdered};

use crate::layout_error::LayoutError;
use crate::merge::merge;
use py_typed::ClassInfo;
use std::alloc::Global;
use value_core::{Many, Memory};

/// The order of each class, by the class's number. Each base has a smaller number than its class.
///
/// # Errors
///
/// `NoOrder` exactly where a class has no order, with the first such class; else `Memory`.
pub fn orders(alloc: Global, classes: &[ClassInfo]) -> Result<Many<Many<usize>>, LayoutError>
    requires { (c : ℕ) → falls (map class_entry classes.now) c ≡ true }
    ensures { IsOrdered (map class_entry classes.now) result }
{
    let mut orders = Many::new(alloc);
    for number in 0..classes.len() {
        match next_order(alloc, classes, &orders, number)? {
            Some(order) => orders.push(order)?,
            None => return Err(LayoutError::NoOrder(number)),
        }
    }
    Ok(orders)
}

/// Whether each base has a smaller number than its class, as `orders` and `layout` ask. A class that is its own base has not.
pub fn bases_fall(classes: &[ClassInfo]) -> bool
    ensures holds { result ≡ true → IsClassTree (map class_entry classes.now) }
    ensures complete { IsClassTree (map class_entry classes.now) → result ≡ true }
{
    for number in 0..classes.len() {
        if !is_row_below(bases_at(classes, number), number) {
            return false;
        }
    }
    true
}

/// Whether all numbers of a row are below another one.
fn is_row_below(row: &[usize], count: usize) -> bool
    ensures { result ≡ is_below count row.now }
{
    for number in row {
        if *number >= count {
            return false;
        }
    }
    true
}

/// The order of the next class, from those of the classes before it.
fn next_order(
    alloc: Global,
    classes: &[ClassInfo],
    orders: &Many<Many<usize>>,
    number: usize,
) -> Result<Option<Many<usize>>, Memory>
    requires falls { (c : ℕ) → falls (map class_entry classes.now) c ≡ true }
    requires known { (c : ℕ) → c < length orders.now → slice_get orders.now c ≡ order.order (map class_entry classes.now) c }
    requires counted { number ≡ length orders.now }
    ensures { IfOk result (λ row. row ≡ order.order (map class_entry classes.now) number) }
{
    order_of(alloc, number, bases_at(classes, number), orders)
}

/// The bases of the class of a number: none where there is no such class.
#[tactic(auto, using(py_typed::proofs::TypeLemmas::entry_found))]
pub(crate) fn bases_at(classes: &[ClassInfo], number: usize) -> &[usize]
    ensures { result.now ≡ bases_of (map class_entry classes.now) number }
{
    match classes.get(number) {
        Some(class) => class.bases.as_slice(),
        None => &[],
    }
}

/// The order of the class of this number, from those of its bases.
fn order_of(
    alloc: Global,
    number: usize,
    bases: &[usize],
    orders: &Many<Many<usize>>,
) -> Result<Option<Many<usize>>, Memory>
    requires { are_below number (rows_above orders.now bases.now) ≡ true }
    ensures { IfOk result (λ order. order ≡ order_from orders.now number bases.now) }
{
    let mut first = Many::new(alloc);
    first.push(number)?;
    let mut rows = rows_to_merge(alloc, bases, orders)?;
    merge(alloc, first, &mut rows, number)
}

/// The orders of the bases, and behind them the row of the bases.
fn rows_to_merge<'a>(
    alloc: Global,
    bases: &'a [usize],
    orders: &'a Many<Many<usize>>,
) -> Result<Vec<&'a [usize]>, Memory>
    ensures { IfOk result (λ rows. rows_of rows.items ≡ rows_above orders.now bases.now) }
{
    let mut rows = Vec::new(alloc);
    for base in bases {
        rows.push(order_at(orders, *base))?;
    }
    rows.push(bases)?;
    Ok(rows)
}

/// A class that stands in front of the order of its first base.
#[derive(Clone, Copy)]
pub(crate) struct OverBase {
    pub(crate) class: usize,
    pub(crate) base: usize,
}

/// The class at the head of an order, where the order is that class in front of the order of the first base.
pub(crate) fn front(orders: &Many<Many<usize>>, bases: &[usize], number: usize) -> Option<OverBase>
    ensures order { IfSome result (λ f. order.listed_order (slice_get orders.now number) ≡ f.class ∷ order.listed_order (slice_get orders.now f.base)) }
    ensures below { IfSome result (λ f. f.base < number) }
{
    let base = *bases.first()?;
    let (class, rest) = order_at(orders, number).split_first()?;
    if base < number && rest == order_at(orders, base) {
        Some(OverBase {
            class: *class,
            base,
        })
    } else {
        None
    }
}

/// The order of a class: empty where there is no such class.
pub(crate) fn order_at(orders: &Many<Many<usize>>, class: usize) -> &[usize]
    ensures { result.now ≡ order.listed_order (slice_get orders.now class) }
{
    match orders.get(class) {
        Some(order) => order.as_slice(),
        None => &[],
    }
}
