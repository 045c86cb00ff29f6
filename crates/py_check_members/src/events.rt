//! What the text of a class does with the names of its members.
ghost use Rattle.std.specs.Prelude.{◌≡◌, ℕ, ◌+◌, ◌<◌, ◌^◌, ◌++◌, ◌∷◌, [], length, map, IfOk};
ghost use Rattle.std.specs.List.{flat_map};
ghost use Rattle.std.specs.Map.{lookup};
ghost use Rattle.std.specs.Option.{option_map, option_copied};
ghost use Rattle.std.specs.Str.{bytes_eq};
ghost use Rattle.py_syntax.specs.Expressions.{expr_tree, exprs_of};
ghost use Rattle.py_syntax.specs.Statements.{stmt_tree, body_tree, param_tree};
ghost use Rattle.py_check_names.specs.Walked.{trees};
ghost use Rattle.py_check_names.specs.Outline.{method_in, methods_in};
ghost use Rattle.py_check_classes.specs.Bodies as bodies;
ghost use Rattle.py_check_members.specs.Views.{source_of, deed_of, event_of, events_of, function_parts};
ghost use Rattle.py_check_members.specs.Deeds as spec;

use crate::places::is_builtin_name;
use crate::walk::assignments_in;
use py_check_flow::name_in;
use py_syntax::{Expr, ExprKind, Func, Span, Stmt, StmtKind};
use std::alloc::Global;
use value_core::{Memory, Name};

/// What tells the type of an attribute that is set without an annotation.
#[derive(Clone, Copy)]
pub(crate) enum Source<'a> {
    /// The object itself.
    Itself,
    /// A parameter, by its annotation where it has one.
    Annotated(&'a Option<Expr>),
    /// A literal.
    Int,
    Str,
    Bool,
}

/// What a place in the text of a class does with a name.
#[derive(Clone, Copy)]
pub(crate) enum Deed<'a> {
    /// A def in the body, with the number of its function.
    Defines(usize),
    /// A declaration in the body.
    Declares(&'a Expr),
    /// An assignment in `__init__` with an annotation.
    Annotates(&'a Expr),
    /// An assignment to one target there of what tells a type.
    Gives(Source<'a>),
    /// Every other assignment there.
    Sets,
}

/// A name, what is done with it, and where: the place of a target that gives or sets, and else of the statement.
#[derive(Clone, Copy)]
pub(crate) struct Event<'a> {
    pub name: &'a Name,
    pub deed: Deed<'a>,
    pub place: Span,
}

/// The name of the first parameter of `__init__`, and all parameters.
#[derive(Clone, Copy)]
struct Object<'a> {
    name: &'a Name,
    params: &'a [(Name, Option<Expr>)],
}

// ---- in the body of a class

/// What the text of a class with this body does, where the first of its functions has this number.
pub(crate) fn class_events<'a>(
    alloc: Global,
    first: usize,
    body: &'a [Stmt],
) -> Result<Vec<Event<'a>>, Memory>
    requires { first + length (methods_in (body_tree body.now)) < 2 ^ 64 }
    ensures { IfOk result (λ found. events_of found.items ≡ spec.class_events first (body_tree body.now)) }
{
    let init = init_function(first, body);
    let mut found = Vec::new(alloc);
    let mut next = first;
    for s in body {
        add_member(alloc, &mut found, init, next, s)?;
        next += function_count(s);
    }
    Ok(found)
}

/// How many functions a statement of the body of a class is.
fn function_count(s: &Stmt) -> usize
    ensures { result ≡ length (method_in (stmt_tree s.now)) }
{
    match &s.kind {
        StmtKind::Def(_) => 1,
        _ => 0,
    }
}

/// The function that is the `__init__` of the class with this body, if it has one.
pub(crate) fn init_function(first: usize, body: &[Stmt]) -> Option<usize>
    requires { first + length (methods_in (body_tree body.now)) < 2 ^ 64 }
    ensures { result ≡ spec.init_function first (body_tree body.now) }
{
    let mut next = first;
    for s in body {
        if is_init(defined_name(s)) {
            return Some(next);
        }
        if is_init(declared_name(s)) {
            return None;
        }
        next += function_count(s);
    }
    None
}

fn is_init(name: Option<&Name>) -> bool
    ensures { result ≡ bodies.is_init (option_copied name.entry) }
{
    match name {
        Some(name) => name.as_str() == "__init__",
        None => false,
    }
}

/// The name that a statement of the body of a class takes: that of a def, or of a declaration.
pub fn taken_name(s: &Stmt) -> Option<&Name>
    ensures { option_copied result ≡ spec.taken_name (stmt_tree s.now) }
{
    match defined_name(s) {
        Some(name) => Some(name),
        None => declared_name(s),
    }
}

fn defined_name(s: &Stmt) -> Option<&Name>
    ensures { option_copied result ≡ bodies.defined_name (stmt_tree s.now) }
{
    match &s.kind {
        StmtKind::Def(f) => Some(&f.name),
        _ => None,
    }
}

fn declared_name(s: &Stmt) -> Option<&Name>
    ensures { option_copied result ≡ bodies.declared_name (stmt_tree s.now) }
{
    match &s.kind {
        StmtKind::Annot(target, _, None) => name_in(target),
        _ => None,
    }
}

fn add_member<'a>(
    alloc: Global,
    found: &mut Vec<Event<'a>>,
    init: Option<usize>,
    next: usize,
    s: &'a Stmt,
) -> Result<(), Memory>
    ensures { IfOk result (λ done. events_of found.new.items ≡ events_of found.old.items ++ spec.member_events init next (stmt_tree s.now)) }
{
    match &s.kind {
        StmtKind::Def(f) => add_method(alloc, found, init, next, f, s.span),
        StmtKind::Annot(target, mark, None) => add_event(
            found,
            name_in(target),
            Deed::Declares(mark),
            s.span,
        ),
        _ => Ok(()),
    }
}

fn add_method<'a>(
    alloc: Global,
    found: &mut Vec<Event<'a>>,
    init: Option<usize>,
    next: usize,
    f: &'a Func,
    place: Span,
) -> Result<(), Memory>
    ensures { IfOk result (λ done. events_of found.new.items ≡ events_of found.old.items ++ spec.method_events init next (function_parts f.now) place) }
{
    found.push(Event {
        name: &f.name,
        deed: Deed::Defines(next),
        place,
    })?;
    if is_number(next, init) {
        return add_init(alloc, found, f);
    }
    Ok(())
}

fn is_number(f: usize, init: Option<usize>) -> bool
    ensures { result ≡ spec.is_number f init }
{
    match init {
        Some(init) => f == init,
        None => false,
    }
}

/// Adds an event where there is a name.
fn add_event<'a>(
    found: &mut Vec<Event<'a>>,
    name: Option<&'a Name>,
    deed: Deed<'a>,
    place: Span,
) -> Result<(), Memory>
    ensures { IfOk result (λ done. events_of found.new.items ≡ events_of found.old.items ++ spec.event_of (option_copied name.entry) (deed_of deed.entry) place) }
{
    match name {
        Some(name) => {
            found.push(Event { name, deed, place })?;
            Ok(())
        }
        None => Ok(()),
    }
}

// ---- in `__init__`

fn add_init<'a>(alloc: Global, found: &mut Vec<Event<'a>>, f: &'a Func) -> Result<(), Memory>
    ensures { IfOk result (λ done. events_of found.new.items ≡ events_of found.old.items ++ spec.init_events (function_parts f.now).params (function_parts f.now).body) }
{
    match f.params.as_slice() {
        [] => Ok(()),
        [first, ..] => add_inside(alloc, found, &first.0, f),
    }
}

/// What the body of an `__init__` does with the attributes of the parameter of this name.
fn add_inside<'a>(
    alloc: Global,
    found: &mut Vec<Event<'a>>,
    name: &'a Name,
    f: &'a Func,
) -> Result<(), Memory>
    ensures { IfOk result (λ done. events_of found.new.items ≡ events_of found.old.items ++ flat_map (spec.stmt_events name.now (function_parts f.now).params) (spec.suite_assignments (function_parts f.now).body)) }
{
    let body = assignments_in(alloc, f.body.as_slice())?;
    let object = Object {
        name,
        params: f.params.as_slice(),
    };
    add_assignments(found, object, body.as_slice())
}

fn add_assignments<'a>(
    found: &mut Vec<Event<'a>>,
    object: Object<'a>,
    body: &[&'a Stmt],
) -> Result<(), Memory>
    ensures { IfOk result (λ done. events_of found.new.items ≡ events_of found.old.items ++ flat_map (spec.stmt_events object.entry.name.now (map param_tree object.entry.params.now)) (trees body.now)) }
{
    for s in body {
        add_assignment(found, object, *s)?;
    }
    Ok(())
}

fn add_assignment<'a>(
    found: &mut Vec<Event<'a>>,
    object: Object<'a>,
    s: &'a Stmt,
) -> Result<(), Memory>
    ensures { IfOk result (λ done. events_of found.new.items ≡ events_of found.old.items ++ spec.stmt_events object.entry.name.now (map param_tree object.entry.params.now) (stmt_tree s.now)) }
{
    match &s.kind {
        StmtKind::Assign(target, value) => add_assigned(found, object, target, value),
        StmtKind::Annot(target, mark, _) => {
            let name = attribute_in(object, target);
            add_event(found, name, Deed::Annotates(mark), s.span)
        }
        StmtKind::Aug(target, _, _) => add_targets(found, object, target),
        _ => Ok(()),
    }
}

/// An assignment to one attribute, or to something else.
fn add_assigned<'a>(
    found: &mut Vec<Event<'a>>,
    object: Object<'a>,
    target: &'a Expr,
    value: &'a Expr,
) -> Result<(), Memory>
    ensures { IfOk result (λ done. events_of found.new.items ≡ events_of found.old.items ++ spec.assignment object.entry.name.now (map param_tree object.entry.params.now) (spec.attribute_in object.entry.name.now (map param_tree object.entry.params.now) (expr_tree target.now)) (expr_tree target.now) (expr_tree value.now)) }
{
    match attribute_in(object, target) {
        Some(name) => {
            let deed = assigned(source_in(object, value));
            found.push(Event {
                name,
                deed,
                place: target.span,
            })?;
            Ok(())
        }
        None => add_targets(found, object, target),
    }
}

/// The targets in a tuple or a list, at any depth.
#[cycle(targets)]
fn add_targets<'a>(
    found: &mut Vec<Event<'a>>,
    object: Object<'a>,
    e: &'a Expr,
) -> Result<(), Memory>
    ensures { IfOk result (λ done. events_of found.new.items ≡ events_of found.old.items ++ spec.targets_in object.entry.name.now (map param_tree object.entry.params.now) (expr_tree e.now)) }
{
    match &e.kind {
        ExprKind::Tuple(items) => add_row(found, object, items.as_slice()),
        ExprKind::List(items) => add_row(found, object, items.as_slice()),
        _ => add_set(found, object, e),
    }
}

#[cycle(targets)]
fn add_row<'a>(
    found: &mut Vec<Event<'a>>,
    object: Object<'a>,
    items: &'a [Expr],
) -> Result<(), Memory>
    ensures { IfOk result (λ done. events_of found.new.items ≡ events_of found.old.items ++ spec.row_targets object.entry.name.now (map param_tree object.entry.params.now) (exprs_of (map expr_tree items.now))) }
{
    for item in items {
        add_targets(found, object, item)?;
    }
    Ok(())
}

fn add_set<'a>(found: &mut Vec<Event<'a>>, object: Object<'a>, e: &'a Expr) -> Result<(), Memory>
    ensures { IfOk result (λ done. events_of found.new.items ≡ events_of found.old.items ++ spec.set_in object.entry.name.now (map param_tree object.entry.params.now) (expr_tree e.now)) }
{
    let name = attribute_in(object, e);
    add_event(found, name, Deed::Sets, e.span)
}

/// The attribute of the object that an expression is.
fn attribute_in<'a>(object: Object<'a>, e: &'a Expr) -> Option<&'a Name>
    ensures { option_copied result ≡ spec.attribute_in object.entry.name.now (map param_tree object.entry.params.now) (expr_tree e.now) }
{
    match &e.kind {
        ExprKind::Attr(of, name) => {
            if is_named(object.name, name_in(of)) {
                Some(name)
            } else {
                None
            }
        }
        _ => None,
    }
}

fn is_named(name: &Name, other: Option<&Name>) -> bool
    ensures { result ≡ spec.is_named name.now (option_copied other.entry) }
{
    match other {
        Some(other) => other == name,
        None => false,
    }
}

fn assigned(source: Option<Source<'_>>) -> Deed<'_>
    ensures { deed_of result ≡ spec.assigned (option_map source_of source.entry) }
{
    match source {
        Some(source) => Deed::Gives(source),
        None => Deed::Sets,
    }
}

/// What an expression tells of the type of what it is assigned to.
fn source_in<'a>(object: Object<'a>, e: &Expr) -> Option<Source<'a>>
    ensures { option_map source_of result ≡ spec.source_in object.entry.name.now (map param_tree object.entry.params.now) (expr_tree e.now) }
{
    match &e.kind {
        ExprKind::Int(_) => Some(Source::Int),
        ExprKind::Str(_) => Some(Source::Str),
        ExprKind::True => Some(Source::Bool),
        ExprKind::False => Some(Source::Bool),
        ExprKind::Name(name) => named_source(object, name),
        _ => None,
    }
}

fn named_source<'a>(object: Object<'a>, name: &Name) -> Option<Source<'a>>
    ensures { option_map source_of result ≡ spec.named_source object.entry.name.now (map param_tree object.entry.params.now) name.now }
{
    if is_builtin_name(name) {
        return None;
    }
    if name == object.name {
        return Some(Source::Itself);
    }
    annotated(object.params, name)
}

/// The annotation of the first parameter of a name.
fn annotated<'a>(params: &'a [(Name, Option<Expr>)], name: &Name) -> Option<Source<'a>>
    ensures { option_map source_of result ≡ option_map spec.annotated (lookup (bytes_eq name.now) (map param_tree params.now)) }
{
    for (param, mark) in params {
        if param == name {
            return Some(Source::Annotated(mark));
        }
    }
    None
}
