//! The classes of a module as typing sees them.
ghost use Rattle.std.specs.Prelude.{◌≡◌, ℕ, List, ◌+◌, ◌∷◌, ◌++◌, [], length, map, slice_get, IfOk};
ghost use Rattle.std.specs.List.{filter_map, flat_map};
ghost use Rattle.std.specs.Option.{option_copied, option_map};
ghost use Rattle.py_syntax.specs.Statements.{stmt_tree};
ghost use Rattle.py_typed.specs.Sorts.{sort};
ghost use Rattle.py_typed.specs.Classes.{class_entry, with_sort};
ghost use Rattle.py_check_context.specs.Members.{member};
ghost use Rattle.py_check_names.specs.Walked.{trees};
ghost use Rattle.py_check_classes.specs.Names.{class_in};
ghost use Rattle.py_check_classes.specs.Views.{class_parts};
ghost use Rattle.py_check_members.specs.Views.{entries_of, own_of};
ghost use Rattle.py_check_members.specs.Members as spec;
ghost use Rattle.py_check_members.specs.Tables as tables;

use indexmap::IndexMap;
use py_check_classes::{Header, Shape};
use py_check_context::{ClassMembers, Member};
use py_syntax::{Class, Stmt, StmtKind};
use py_typed::{ClassInfo, ClassList, Ty, copy_of};
use std::alloc::Global;
use value_core::{Many, Memory, Name};

/// The classes of a module of these definitions, whose headers and members are these.
pub fn class_list(
    alloc: Global,
    definitions: &[&Stmt],
    headers: &[Header],
    members: &[ClassMembers],
) -> Result<ClassList, Memory>
    ensures { IfOk result (λ list. map class_entry list ≡ spec.class_entries headers.now (trees definitions.now) (map own_of members.now)) }
{
    let mut list = ClassList::new(alloc);
    for s in definitions {
        list = with_definition(alloc, list, *s, headers, members)?;
    }
    Ok(list)
}

/// With a definition that is a class.
fn with_definition(
    alloc: Global,
    list: ClassList,
    s: &Stmt,
    headers: &[Header],
    members: &[ClassMembers],
) -> Result<ClassList, Memory>
    ensures { IfOk result (λ all. map class_entry all ≡ map class_entry list ++ spec.entries_from headers.now (map own_of members.now) (length (map class_entry list)) (class_in (stmt_tree s.now))) }
{
    match &s.kind {
        StmtKind::Class(c) => {
            let number = list.as_slice().len();
            let header = item_at(headers, number);
            let own = item_at(members, number);
            let info = class_info(alloc, header, c, own)?;
            list.and(alloc, info)
        }
        _ => Ok(list),
    }
}

fn item_at<T>(items: &[T], place: usize) -> Option<&T>
    ensures { option_copied result ≡ slice_get items.now place }
{
    items.get(place)
}

/// A class of this header with these members.
fn class_info(
    alloc: Global,
    header: Option<&Header>,
    c: &Class,
    members: Option<&ClassMembers>,
) -> Result<ClassInfo, Memory>
    ensures { IfOk result (λ info. class_entry info ≡ spec.class_entry_of (option_copied header.entry) (class_parts c.now).name (spec.row_of (option_map own_of (option_copied members.entry)))) }
{
    match header {
        Some(Header::Typed(shape)) => typed_info(alloc, shape, &c.name, members),
        Some(Header::Untyped(_)) => bare_info(alloc, &c.name),
        None => bare_info(alloc, &c.name),
    }
}

/// A class without a type: its name alone.
fn bare_info(alloc: Global, name: &Name) -> Result<ClassInfo, Memory>
    ensures { IfOk result (λ info. class_entry info ≡ spec.bare_entry name.now) }
{
    let name = name.clone()?;
    Ok(ClassInfo {
        name,
        is_trait: false,
        bases: Many::new(alloc),
        attrs: Many::new(alloc),
        methods: Many::new(alloc),
    })
}

fn typed_info(
    alloc: Global,
    shape: &Shape,
    name: &Name,
    members: Option<&ClassMembers>,
) -> Result<ClassInfo, Memory>
    ensures { IfOk result (λ info. class_entry info ≡ spec.typed_entry shape.now name.now (spec.row_of (option_map own_of (option_copied members.entry)))) }
{
    let attrs = attributes_of(alloc, members)?;
    let methods = methods_of(alloc, members)?;
    let bases = Many::from_slice(alloc, shape.bases.as_slice())?;
    let name = name.clone()?;
    Ok(ClassInfo {
        name,
        is_trait: shape.is_trait,
        bases,
        attrs,
        methods,
    })
}

/// The attributes that have a type.
fn attributes_of(alloc: Global, members: Option<&ClassMembers>) -> Result<Many<(Name, Ty)>, Memory>
    ensures { IfOk result (λ attrs. map with_sort attrs ≡ filter_map spec.typed_attribute (spec.row_of (option_map own_of (option_copied members.entry)))) }
{
    match members {
        Some(members) => typed_attributes(alloc, &members.own),
        None => Ok(Many::new(alloc)),
    }
}

fn typed_attributes(alloc: Global, own: &IndexMap<Name, Member>) -> Result<Many<(Name, Ty)>, Memory>
    ensures { IfOk result (λ attrs. map with_sort attrs ≡ filter_map spec.typed_attribute (entries_of own.now)) }
{
    let mut attrs = Many::new(alloc);
    for i in 0..own.len() {
        add_attribute(alloc, &mut attrs, own.get_index(i))?;
    }
    Ok(attrs)
}

fn add_attribute(
    alloc: Global,
    attrs: &mut Many<(Name, Ty)>,
    entry: Option<(&Name, &Member)>,
) -> Result<(), Memory>
    ensures { IfOk result (λ done. map with_sort attrs.new ≡ map with_sort attrs.old ++ tables.attribute_in (tables.entry_in entry.entry)) }
{
    match entry {
        Some((name, Member::Attribute(t))) => {
            let t = copy_of(alloc, t)?;
            attrs.push((name.clone()?, t))
        }
        _ => Ok(()),
    }
}

fn methods_of(alloc: Global, members: Option<&ClassMembers>) -> Result<Many<(Name, usize)>, Memory>
    ensures { IfOk result (λ methods. methods ≡ filter_map spec.own_method (spec.row_of (option_map own_of (option_copied members.entry)))) }
{
    match members {
        Some(members) => own_methods(alloc, &members.own),
        None => Ok(Many::new(alloc)),
    }
}

fn own_methods(alloc: Global, own: &IndexMap<Name, Member>) -> Result<Many<(Name, usize)>, Memory>
    ensures { IfOk result (λ methods. methods ≡ filter_map spec.own_method (entries_of own.now)) }
{
    let mut methods = Many::new(alloc);
    for i in 0..own.len() {
        add_method(&mut methods, own.get_index(i))?;
    }
    Ok(methods)
}

fn add_method(
    methods: &mut Many<(Name, usize)>,
    entry: Option<(&Name, &Member)>,
) -> Result<(), Memory>
    ensures { IfOk result (λ done. methods.new ≡ methods.old ++ tables.method_in (tables.entry_in entry.entry)) }
{
    match entry {
        Some((name, Member::Method(f))) => methods.push((name.clone()?, *f)),
        _ => Ok(()),
    }
}
