//! The layout of classes.
ghost use Rattle.std.specs.Prelude.{◌≡◌, ◌<◌, true, ℕ, List, map, length, IfOk, Some};
ghost use Rattle.py_typed.specs.Classes.{class_entry, bases_fall};
ghost use Rattle.py_typed.specs.ClassTables.{class_table};
ghost use Rattle.py_typed.specs.Order.{method_of};
ghost use Rattle.class_layout_members.specs.Names.{attribute_names, method_names};
ghost use Rattle.class_layout_members.specs.Tables.{names_at};
ghost use Rattle.class_layout.specs.Orders.{AreOrders};
ghost use Rattle.class_layout.specs.Layouts.{functions_in, IsLayout, HasWhereWellTyped};

use crate::agreement::check_members;
use crate::layout_error::LayoutError;
use crate::order::{bases_at, front, order_at, orders};
use crate::table::{LayoutTable, functions_at};
use class_layout_members::{add_names, functions_along, functions_of, names_above, names_of};
use indexmap::IndexSet;
use py_typed::{ClassInfo, Classes, Ty};
use std::alloc::Global;
use value_core::{Many, Memory, Name};

/// Where classes have their attributes and methods (mypyc's guide, "Native classes"). Each base has a smaller number than its class.
///
/// # Errors
///
/// `NoOrder` exactly where a class has no order of bases (C3), with the first such class. `Clash` exactly where each class has an order
/// and along one of them not all attributes of a name have one type, or not all methods of a name one signature, with the first such
/// class and its first such member; each class has its own `__init__`. Else `Memory`. The classes of a well-typed module have a layout.
pub fn layout(alloc: Global, classes: &Classes) -> Result<LayoutTable, LayoutError>
    requires { (c : ℕ) → bases_fall (map class_entry classes.now.list) c ≡ true }
    ensures layout { IsLayout (class_table classes.now) result }
    ensures well_typed { HasWhereWellTyped (class_table classes.now) result }
{
    let list = classes.list.as_slice();
    let orders = orders(alloc, list)?;
    check_members(alloc, classes, &orders)?;
    let attributes = attribute_tables(alloc, list)?;
    let methods = method_tables(alloc, list)?;
    let functions = function_tables(alloc, list, &orders, methods.as_slice())?;
    Ok(LayoutTable {
        attributes,
        methods,
        functions,
    })
}

/// The names of the attributes of each class.
fn attribute_tables(alloc: Global, classes: &[ClassInfo]) -> Result<Many<IndexSet<Name>>, Memory>
    requires { (c : ℕ) → bases_fall (map class_entry classes.now) c ≡ true }
    ensures { IfOk result (λ tables. (c : ℕ) → c < length classes.now → names_at tables c ≡ attribute_names (map class_entry classes.now) c) }
{
    let mut tables = Many::new(alloc);
    for class in classes {
        let bases = class.bases.as_slice();
        let own = class.attrs.as_slice();
        let earlier = tables.as_slice();
        let mut names = names_above(alloc, bases, earlier)?;
        add_names(&mut names, own)?;
        tables.push(names)?;
    }
    Ok(tables)
}

/// The names of the methods of each class.
fn method_tables(alloc: Global, classes: &[ClassInfo]) -> Result<Many<IndexSet<Name>>, Memory>
    requires { (c : ℕ) → bases_fall (map class_entry classes.now) c ≡ true }
    ensures { IfOk result (λ tables. (c : ℕ) → c < length classes.now → names_at tables c ≡ method_names (map class_entry classes.now) c) }
{
    let mut tables = Many::new(alloc);
    for class in classes {
        let bases = class.bases.as_slice();
        let own = class.methods.as_slice();
        let earlier = tables.as_slice();
        let mut names = names_above(alloc, bases, earlier)?;
        add_names(&mut names, own)?;
        tables.push(names)?;
    }
    Ok(tables)
}

/// The functions of the methods of each class.
fn function_tables(
    alloc: Global,
    classes: &[ClassInfo],
    orders: &Many<Many<usize>>,
    methods: &[IndexSet<Name>],
) -> Result<Many<Many<usize>>, Memory>
    requires falls { (c : ℕ) → bases_fall (map class_entry classes.now) c ≡ true }
    requires orders { AreOrders (map class_entry classes.now) orders.now }
    requires names { (c : ℕ) → c < length classes.now → names_at methods.now c ≡ method_names (map class_entry classes.now) c }
    ensures { IfOk result (λ functions. (c : ℕ) → c < length classes.now → map Some (functions_in functions c) ≡ map (method_of (map class_entry classes.now) c) (method_names (map class_entry classes.now) c)) }
{
    let mut functions = Many::new(alloc);
    for _ in 0..orders.len() {
        let next = next_functions(alloc, classes, orders, methods, functions.as_slice())?;
        functions.push(next)?;
    }
    Ok(functions)
}

/// The functions of the methods of the next class: its own ones and those of its first base, where its order is the class in front of
/// the order of the base, and else those that are found along its order.
fn next_functions(
    alloc: Global,
    classes: &[ClassInfo],
    orders: &Many<Many<usize>>,
    methods: &[IndexSet<Name>],
    functions: &[Many<usize>],
) -> Result<Many<usize>, Memory>
    requires falls { (c : ℕ) → bases_fall (map class_entry classes.now) c ≡ true }
    requires orders { AreOrders (map class_entry classes.now) orders.now }
    requires names { (c : ℕ) → c < length classes.now → names_at methods.now c ≡ method_names (map class_entry classes.now) c }
    requires within { length functions.now < length orders.now }
    requires known { (c : ℕ) → c < length functions.now → map Some (functions_in functions.now c) ≡ map (method_of (map class_entry classes.now) c) (method_names (map class_entry classes.now) c) }
    ensures { IfOk result (λ row. map Some row ≡ map (method_of (map class_entry classes.now) (length functions.now)) (method_names (map class_entry classes.now) (length functions.now))) }
{
    let number = functions.len();
    let names = names_of(methods, number);
    let Some(front) = front(orders, bases_at(classes, number), number) else {
        let found = functions_along(alloc, order_at(orders, number), classes)?;
        return functions_of(alloc, names, &found, None, &[]);
    };
    let own = functions_along(alloc, &[front.class], classes)?;
    let above = functions_at(functions, front.base);
    functions_of(alloc, names, &own, methods.get(front.base), above)
}
