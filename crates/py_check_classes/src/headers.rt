//! The headers of the classes of a module, by their numbers.
ghost use Rattle.std.specs.Prelude.{◌≡◌, ℕ, List, ◌∷◌, ◌++◌, [], true, nat_lt, map, length, IfOk};
ghost use Rattle.std.specs.List.{list_all};
ghost use Rattle.std.specs.Str.{bytes_eq};
ghost use Rattle.indexmap.specs.IndexMap.{get};
ghost use Rattle.py_syntax.specs.Statements.{stmt_tree, class_tree};
ghost use Rattle.py_check_names.specs.Walked.{trees};
ghost use Rattle.py_check_classes.specs.Names.{classes_in, class_in, said_of_names};
ghost use Rattle.py_check_classes.specs.Headers as spec;
ghost use Rattle.py_check_classes.specs.Kept as kept;
ghost use Rattle.py_check_classes.specs.Views as views;

use crate::conditions::{early_fault, has_untyped, those_there};
use crate::header::{Header, HeaderFault, Shape, Untyped};
use crate::names::{are_decorators, classes_named, is_new, is_trait_mark, numbered_names};
use crate::orders::order_of;
use indexmap::IndexMap;
use py_check_context::Meaning;
use py_check_names::outline_of;
use py_syntax::{Class, Stmt, StmtKind};
use std::alloc::Global;
use value_core::{Many, Memory, Name};

/// What definitions and imports say first of each name of a module, with the number of each class, and the headers of all classes
/// by these numbers, with what is kept of their orders.
#[derive(Drop)]
pub struct ModuleClasses {
    pub said: IndexMap<Name, Meaning>,
    pub headers: Many<Header>,
    pub orders: Many<Many<usize>>,
}

/// The classes of a module of these definitions, which stand in the order of the text.
pub fn module_classes(alloc: Global, definitions: &[&Stmt]) -> Result<ModuleClasses, Memory>
    ensures said { IfOk result (λ classes. (name : List ℕ) → get bytes_eq classes.said name ≡ said_of_names (trees definitions.now) name) }
    ensures headers { IfOk result (λ classes. classes.headers ≡ spec.headers (trees definitions.now)) }
    ensures kept { IfOk result (λ classes. kept.AreKept (map spec.entry classes.headers) classes.orders) }
{
    let mut outline = outline_of(alloc, definitions)?;
    let said = numbered_names(alloc, &mut outline.said)?;
    let found = headers_of(alloc, &said, definitions)?;
    Ok(ModuleClasses {
        said,
        headers: found.headers,
        orders: found.orders,
    })
}

/// The headers of classes, and what is kept of their orders.
#[derive(Drop)]
struct Headers {
    headers: Many<Header>,
    orders: Many<Many<usize>>,
}

/// The headers of these definitions' classes, where definitions and imports say this of names, with the number of each class.
fn headers_of(
    alloc: Global,
    said: &IndexMap<Name, Meaning>,
    definitions: &[&Stmt],
) -> Result<Headers, Memory>
    ensures headers { IfOk result (λ found. found.headers ≡ spec.headers_behind (get bytes_eq said.now) [] (classes_in (trees definitions.now))) }
    ensures kept { IfOk result (λ found. kept.AreKept (map spec.entry found.headers) found.orders) }
{
    let mut headers = Many::new(alloc);
    let mut orders = Many::new(alloc);
    for s in definitions {
        add_definition(alloc, said, *s, &mut headers, &mut orders)?;
    }
    Ok(Headers { headers, orders })
}

/// Adds the header of a definition that is a class, and what is kept of its order.
fn add_definition(
    alloc: Global,
    said: &IndexMap<Name, Meaning>,
    s: &Stmt,
    headers: &mut Many<Header>,
    orders: &mut Many<Many<usize>>,
) -> Result<(), Memory>
    requires { kept.AreKept (map spec.entry headers.old) orders.old }
    ensures headers { IfOk result (λ done. headers.new ≡ spec.headers_behind (get bytes_eq said.now) headers.old (class_in (stmt_tree s.now))) }
    ensures kept { IfOk result (λ done. kept.AreKept (map spec.entry headers.new) orders.new) }
{
    match &s.kind {
        StmtKind::Class(c) => add_class(alloc, said, c, headers, orders),
        _ => Ok(()),
    }
}

fn add_class(
    alloc: Global,
    said: &IndexMap<Name, Meaning>,
    c: &Class,
    headers: &mut Many<Header>,
    orders: &mut Many<Many<usize>>,
) -> Result<(), Memory>
    requires { kept.AreKept (map spec.entry headers.old) orders.old }
    ensures headers { IfOk result (λ done. headers.new ≡ headers.old ++ spec.header (get bytes_eq said.now) headers.old (class_tree c.now) ∷ []) }
    ensures kept { IfOk result (λ done. kept.AreKept (map spec.entry headers.new) orders.new) }
{
    let found = header_of(alloc, said, c, headers.as_slice(), orders)?;
    headers.push(found.header)?;
    orders.push(found.order)?;
    Ok(())
}

/// A header, and what is kept of its order.
#[derive(Drop)]
struct Found {
    header: Header,
    order: Many<usize>,
}

/// The header of a class behind these.
fn header_of(
    alloc: Global,
    said: &IndexMap<Name, Meaning>,
    c: &Class,
    headers: &[Header],
    orders: &Many<Many<usize>>,
) -> Result<Found, Memory>
    requires { kept.AreKept (map spec.entry headers.now) orders.now }
    ensures header { IfOk result (λ found. found.header ≡ spec.header (get bytes_eq said.now) headers.now (views.class_parts c.now)) }
    ensures order { IfOk result (λ found. found.order ≡ kept.kept_order (map spec.entry headers.now ++ spec.entry found.header ∷ []) (length headers.now)) }
{
    let bases = c.bases.as_slice();
    let marks = c.marks.as_slice();
    let body = c.body.as_slice();
    let numbers = classes_named(alloc, said, bases)?;
    let named = numbers.as_slice();
    let is_trait = is_trait_mark(said, marks);
    let untyped = has_untyped(headers, named);
    if untyped {
        return Ok(without_type(alloc, is_trait, None));
    }
    let bases = those_there(alloc, named)?;
    let shape = Shape { is_trait, bases };
    let new = is_new(said, headers.len(), &c.name);
    let marked = are_decorators(said, marks);
    let early = early_fault(alloc, headers, new, marked, named, &shape, body)?;
    match early {
        Some(fault) => Ok(without_type(alloc, is_trait, Some(fault))),
        None => ordered(alloc, headers, orders, shape),
    }
}

/// The header of a class of this shape, in which nothing else is wrong.
fn ordered(
    alloc: Global,
    headers: &[Header],
    orders: &Many<Many<usize>>,
    shape: Shape,
) -> Result<Found, Memory>
    requires kept { kept.AreKept (map spec.entry headers.now) orders.now }
    requires below { list_all (λ b. nat_lt b (length headers.now)) shape.bases ≡ true }
    ensures header { IfOk result (λ found. found.header ≡ spec.settled shape (spec.order_fault headers.now shape)) }
    ensures order { IfOk result (λ found. found.order ≡ kept.kept_order (map spec.entry headers.now ++ spec.entry found.header ∷ []) (length headers.now)) }
{
    let is_trait = shape.is_trait;
    let count = shape.bases.len();
    if count < 2 {
        return Ok(without_order(alloc, Header::Typed(shape)));
    }
    let order = order_of(alloc, headers, orders, &shape)?;
    match order {
        Some(order) => Ok(Found {
            header: Header::Typed(shape),
            order,
        }),
        None => Ok(without_type(alloc, is_trait, Some(HeaderFault::NoOrder))),
    }
}

fn without_type(alloc: Global, is_trait: bool, fault: Option<HeaderFault>) -> Found
    ensures header { result.header ≡ spec.without_type is_trait fault }
    ensures order { result.order ≡ [] }
{
    without_order(alloc, Header::Untyped(Untyped { is_trait, fault }))
}

fn without_order(alloc: Global, header: Header) -> Found
    ensures header { result.header ≡ header }
    ensures order { result.order ≡ [] }
{
    Found {
        header,
        order: Many::new(alloc),
    }
}
