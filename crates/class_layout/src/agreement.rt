//! The first class with a member of which not all definitions agree.
ghost use Rattle.std.specs.Prelude.{◌≡◌, ◌<◌, map, length, slice_get, IfOk, IfSome, MatchResult};
ghost use Rattle.py_typed.specs.Classes.{class_entry};
ghost use Rattle.py_typed.specs.ClassTables.{class_table};
ghost use Rattle.py_typed.specs.Order.{order, listed_order};
ghost use Rattle.class_layout_members.specs.Clashes.{AllAgreeAlong};
ghost use Rattle.class_layout_members.specs.Views.{definitions_in};
ghost use Rattle.class_layout.specs.Orders.{AreOrders};
ghost use Rattle.class_layout.specs.Layouts.{AreKnown, IsChecked, IsClashAt};

use crate::layout_error::LayoutError;
use crate::order::{bases_at, front, order_at};
use class_layout_members::{Definition, clash_along, definitions_along, definitions_in_front};
use indexmap::IndexMap;
use py_typed::Classes;
use std::alloc::Global;
use value_core::{Many, Memory, Name};

/// Whether all definitions of each member along each order agree with the first.
pub(crate) fn check_members(
    alloc: Global,
    classes: &Classes,
    orders: &Many<Many<usize>>,
) -> Result<(), LayoutError>
    requires { AreOrders (map class_entry classes.now.list) orders.now }
    ensures { IsChecked (class_table classes.now) result }
{
    let mut known = Many::new(alloc);
    for number in 0..orders.len() {
        let firsts = definitions_of(alloc, classes, orders, known.as_slice(), number)?;
        known.push(firsts)?;
    }
    Ok(())
}

/// The first definitions along the order of a class, where all others agree with them.
fn definitions_of<'a>(
    alloc: Global,
    classes: &'a Classes,
    orders: &Many<Many<usize>>,
    known: &[IndexMap<Name, Definition<'a>>],
    number: usize,
) -> Result<IndexMap<Name, Definition<'a>>, LayoutError>
    requires orders { AreOrders (map class_entry classes.now.list) orders.now }
    requires within { number < length orders.now }
    requires long { length known.now ≡ number }
    requires known { AreKnown (class_table classes.now) known.now }
    ensures { MatchResult result (λ firsts. AllAgreeAlong (class_table classes.now) (listed_order (order (map class_entry classes.now.list) number)) (definitions_in firsts)) (IsClashAt (class_table classes.now) number) }
{
    if let Some(firsts) = definitions_from_base(alloc, classes, orders, known, number)? {
        return Ok(firsts);
    }
    let order = order_at(orders, number);
    if let Some(name) = clash_along(alloc, order, classes)? {
        return Err(LayoutError::Clash(number, name.clone()?));
    }
    Ok(definitions_along(alloc, order, classes)?)
}

/// The same from the first definitions of its first base, where its order is the class in front of the order of the base, and its own
/// definitions agree with them.
fn definitions_from_base<'a>(
    alloc: Global,
    classes: &'a Classes,
    orders: &Many<Many<usize>>,
    known: &[IndexMap<Name, Definition<'a>>],
    number: usize,
) -> Result<Option<IndexMap<Name, Definition<'a>>>, Memory>
    requires orders { AreOrders (map class_entry classes.now.list) orders.now }
    requires within { number < length orders.now }
    requires long { length known.now ≡ number }
    requires known { AreKnown (class_table classes.now) known.now }
    ensures { IfOk result (λ found. IfSome found (λ firsts. AllAgreeAlong (class_table classes.now) (listed_order (order (map class_entry classes.now.list) number)) (definitions_in firsts))) }
{
    let bases = bases_at(classes.list.as_slice(), number);
    let Some(front) = front(orders, bases, number) else {
        return Ok(None);
    };
    let Some(above) = known.get(front.base) else {
        return Ok(None);
    };
    definitions_in_front(alloc, front.class, classes, above)
}
