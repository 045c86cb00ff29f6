//! The members of all classes of a module, by their numbers.
ghost use Rattle.std.specs.Prelude.{◌≡◌, ℕ, List, ◌+◌, ◌<◌, ◌^◌, ◌∷◌, ◌++◌, [], true, codes, length, map, drop, slice_get, unwrap_or, IfOk};
ghost use Rattle.std.specs.List.{flat_map};
ghost use Rattle.std.specs.Option.{option_copied, option_and_then, option_map};
ghost use Rattle.std.specs.Map.{lookup};
ghost use Rattle.std.specs.Str.{bytes_eq};
ghost use Rattle.indexmap.specs.IndexMap.{get};
ghost use Rattle.py_syntax.specs.Statements.{stmt_tree, body_tree, class_tree};
ghost use Rattle.py_typed.specs.Order.{order, listed_order};
ghost use Rattle.py_check_context.specs.Context.{context};
ghost use Rattle.py_check_context.specs.Members as lookups;
ghost use Rattle.py_check_context.specs.Members.{member};
ghost use Rattle.py_check_names.specs.Walked.{trees};
ghost use Rattle.py_check_names.specs.Outline.{held_by, methods_in};
ghost use Rattle.py_check_classes.specs.Kept.{AreKept};
ghost use Rattle.py_check_classes.specs.Names.{class_in};
ghost use Rattle.py_check_classes.specs.Headers as headers;
ghost use Rattle.py_check_members.specs.Views.{own_of, entries_of};
ghost use Rattle.py_check_members.specs.Members as spec;
ghost use Rattle.py_check_members.specs.Tables as tables;

use crate::declarations::Behind;
use crate::events::{class_events, init_function};
use crate::own::{Surroundings, members_among};
use indexmap::IndexMap;
use py_binder::Scope;
use py_check_classes::{Header, ModuleClasses, has_type, order_row};
use py_check_context::{Above, ClassMembers, Context, Meaning, Member};
use py_check_names::{ModuleNames, names_in};
use py_syntax::{Class, Stmt, StmtKind};
use py_typed::Classes;
use std::alloc::Global;
use value_core::{Many, Memory, Name};

/// What is known of a module: what names mean in it, what its definitions say of names and its variables, the scopes of its
/// functions by their numbers, and its classes.
#[derive(Clone, Copy)]
struct Known<'a> {
    pub scope: &'a Context<'a>,
    pub names: &'a ModuleNames,
    pub scopes: &'a [Scope],
    pub classes: &'a ModuleClasses,
}

/// The members of the classes of a module of these definitions, where names mean this in it, its names are these, its functions have
/// these scopes, and its classes these headers.
pub fn module_members(
    alloc: Global,
    scope: &Context<'_>,
    names: &ModuleNames,
    scopes: &[Scope],
    definitions: &[&Stmt],
    classes: &ModuleClasses,
) -> Result<Many<ClassMembers>, Memory>
    requires kept { AreKept (map headers.entry classes.now.headers) classes.now.orders }
    requires all { classes.now.headers ≡ headers.headers (trees definitions.now) }
    requires few { length (flat_map held_by (trees definitions.now)) < 2 ^ 64 }
    ensures own { IfOk result (λ members. map own_of members ≡ spec.own_members classes.now.headers (context scope.now).meaning (spec.meanings_inside (get bytes_eq names.now.said) names.now.variables.keys scopes.now) (trees definitions.now)) }
    ensures member { IfOk result (λ members. (n : ℕ) (name : List ℕ) → lookups.member_in members n name ≡ spec.member_along (map own_of members) classes.now.headers n name) }
    ensures init { IfOk result (λ members. (n : ℕ) → lookups.init_in members n ≡ spec.init_along (map own_of members) classes.now.headers n) }
    ensures behind { IfOk result (λ members. (n : ℕ) → lookups.init_behind members n ≡ spec.init_behind_along (map own_of members) classes.now.headers n) }
{
    let known = Known {
        scope,
        names,
        scopes,
        classes,
    };
    all_members(alloc, known, definitions)
}

/// The members of the classes of these definitions.
fn all_members(
    alloc: Global,
    known: Known<'_>,
    definitions: &[&Stmt],
) -> Result<Many<ClassMembers>, Memory>
    requires kept { AreKept (map headers.entry known.classes.now.headers) known.classes.now.orders }
    requires few { length (flat_map held_by (trees definitions.now)) < 2 ^ 64 }
    ensures own { IfOk result (λ members. map own_of members ≡ tables.owns_from known.entry [] (spec.class_texts 0 (trees definitions.now))) }
    ensures linked { IfOk result (λ members. tables.AreLinked known.entry.classes.now.headers members) }
{
    let mut members = Many::new(alloc);
    let mut first = 0;
    for s in definitions {
        add_definition(alloc, known, &mut members, first, *s)?;
        first += function_count(*s);
    }
    Ok(members)
}

/// How many functions a definition holds.
pub(crate) fn function_count(s: &Stmt) -> usize
    ensures { result ≡ length (held_by (stmt_tree s.now)) }
{
    match &s.kind {
        StmtKind::Def(_) => 1,
        StmtKind::Class(c) => method_count(c.body.as_slice()),
        _ => 0,
    }
}

fn method_count(body: &[Stmt]) -> usize
    ensures { result ≡ length (methods_in (body_tree body.now)) }
{
    let mut count = 0;
    for s in body {
        if matches!(s.kind, StmtKind::Def(_)) {
            count += 1;
        }
    }
    count
}

/// Adds the members of a definition that is a class, the first of whose functions has this number.
fn add_definition(
    alloc: Global,
    known: Known<'_>,
    members: &mut Many<ClassMembers>,
    first: usize,
    s: &Stmt,
) -> Result<(), Memory>
    requires kept { AreKept (map headers.entry known.classes.now.headers) known.classes.now.orders }
    requires few { first + length (held_by (stmt_tree s.now)) < 2 ^ 64 }
    requires linked { tables.AreLinked known.classes.now.headers members.old }
    ensures own { IfOk result (λ done. map own_of members.new ≡ tables.owns_from known.entry (map own_of members.old) (map (spec.class_text first) (class_in (stmt_tree s.now)))) }
    ensures linked { IfOk result (λ done. tables.AreLinked known.entry.classes.now.headers members.new) }
{
    match &s.kind {
        StmtKind::Class(c) => add_class(alloc, known, members, first, c),
        _ => Ok(()),
    }
}

fn add_class(
    alloc: Global,
    known: Known<'_>,
    members: &mut Many<ClassMembers>,
    first: usize,
    c: &Class,
) -> Result<(), Memory>
    requires kept { AreKept (map headers.entry known.classes.now.headers) known.classes.now.orders }
    requires few { first + length (methods_in (class_tree c.now).body) < 2 ^ 64 }
    requires linked { tables.AreLinked known.classes.now.headers members.old }
    ensures own { IfOk result (λ done. map own_of members.new ≡ map own_of members.old ++ tables.own_by known.entry (map own_of members.old) (spec.class_text first (class_tree c.now)) ∷ []) }
    ensures linked { IfOk result (λ done. tables.AreLinked known.entry.classes.now.headers members.new) }
{
    let body = c.body.as_slice();
    let class = class_members(alloc, known, members.as_slice(), first, body)?;
    members.push(class)?;
    Ok(())
}

/// The members of one class more, with this body.
fn class_members(
    alloc: Global,
    known: Known<'_>,
    before: &[ClassMembers],
    first: usize,
    body: &[Stmt],
) -> Result<ClassMembers, Memory>
    requires kept { AreKept (map headers.entry known.classes.now.headers) known.classes.now.orders }
    requires few { first + length (methods_in (body_tree body.now)) < 2 ^ 64 }
    ensures { IfOk result (λ class. tables.IsNext known.entry before.now first (body_tree body.now) class) }
{
    if !has_type(known.classes.headers.get(before.len())) {
        return Ok(without_members(alloc));
    }
    typed_members(alloc, known, before, first, body)
}

/// Those of a class that has a type.
fn typed_members(
    alloc: Global,
    known: Known<'_>,
    before: &[ClassMembers],
    first: usize,
    body: &[Stmt],
) -> Result<ClassMembers, Memory>
    requires kept { AreKept (map headers.entry known.classes.now.headers) known.classes.now.orders }
    requires few { first + length (methods_in (body_tree body.now)) < 2 ^ 64 }
    requires typed { headers.has_type (slice_get known.classes.now.headers (length before.now)) ≡ true }
    ensures { IfOk result (λ class. tables.IsNext known.entry before.now first (body_tree body.now) class) }
{
    let class = before.len();
    let headers = known.classes.headers.as_slice();
    let row = order_row(alloc, headers, &known.classes.orders, class)?;
    let behind = behind_first(row.as_slice());
    let stands = Behind {
        classes: before,
        row: behind,
    };
    let own = typed_own(alloc, known, stands, first, body)?;
    let init = own_init(alloc, &own)?;
    let above = above_of(alloc, known.classes.headers.get(class), behind)?;
    Ok(ClassMembers { own, init, above })
}

/// Those of a class without a type.
fn without_members(alloc: Global) -> ClassMembers
    ensures { tables.IsBare result }
{
    ClassMembers {
        own: IndexMap::new(alloc),
        init: None,
        above: Above::Nothing,
    }
}

fn behind_first(row: &[usize]) -> &[usize]
    ensures { result.now ≡ drop 1 row.now }
{
    match row {
        [] => &[],
        [_, behind @ ..] => behind,
    }
}

/// The own members of a class that has a type.
fn typed_own(
    alloc: Global,
    known: Known<'_>,
    behind: Behind<'_>,
    first: usize,
    body: &[Stmt],
) -> Result<IndexMap<Name, Member>, Memory>
    requires few { first + length (methods_in (body_tree body.now)) < 2 ^ 64 }
    ensures { IfOk result (λ own. entries_of own ≡ tables.typed_own known.entry (map own_of behind.entry.classes.now) behind.entry.row.now first (body_tree body.now)) }
{
    let events = class_events(alloc, first, body)?;
    let names = names_inside(alloc, known, init_function(first, body))?;
    let inner = names_alone(&names, known.scope.classes);
    let around = Surroundings {
        outer: known.scope,
        inner: &inner,
        class: behind.classes.len(),
    };
    members_among(alloc, around, events.as_slice(), behind)
}

/// A context of these names, for what hangs on names alone.
fn names_alone<'a>(names: &'a IndexMap<Name, Meaning>, classes: &'a Classes) -> Context<'a>
    ensures { (context result).meaning ≡ (λ x. unwrap_or (get bytes_eq names.now x) Meaning.Unknown) }
{
    Context {
        names,
        sigs: &[],
        classes,
        members: &[],
        inside: None,
    }
}

/// What names mean in the `__init__` of a class, if there is one.
fn names_inside(
    alloc: Global,
    known: Known<'_>,
    init: Option<usize>,
) -> Result<IndexMap<Name, Meaning>, Memory>
    ensures { IfOk result (λ names. (name : List ℕ) → unwrap_or (get bytes_eq names name) Meaning.Unknown ≡ spec.inner_meaning (tables.inner_of known.entry) init name) }
{
    match init {
        Some(f) => names_of(alloc, known, known.scopes.get(f)),
        None => Ok(IndexMap::new(alloc)),
    }
}

fn names_of(
    alloc: Global,
    known: Known<'_>,
    inside: Option<&Scope>,
) -> Result<IndexMap<Name, Meaning>, Memory>
    ensures { IfOk result (λ names. (name : List ℕ) → unwrap_or (get bytes_eq names name) Meaning.Unknown ≡ spec.scope_meaning (get bytes_eq known.entry.names.now.said) known.entry.names.now.variables.keys (option_copied inside.entry) name) }
{
    match inside {
        Some(inside) => names_in(alloc, known.names, inside),
        None => Ok(IndexMap::new(alloc)),
    }
}

/// The function of the `__init__` among the members of a class.
fn own_init(alloc: Global, own: &IndexMap<Name, Member>) -> Result<Option<usize>, Memory>
    ensures { IfOk result (λ f. f ≡ option_and_then spec.function_of (lookup (bytes_eq (codes "__init__")) (entries_of own.now))) }
{
    let name = Name::from_str(alloc, "__init__")?;
    Ok(function_of(own.get(&name)))
}

fn function_of(found: Option<&Member>) -> Option<usize>
    ensures { result ≡ option_and_then spec.function_of (option_map member (option_copied found.entry)) }
{
    match found {
        Some(Member::Method(f)) => Some(*f),
        Some(Member::Attribute(_)) => None,
        Some(Member::Untyped) => None,
        Some(Member::Unknown(_)) => None,
        None => None,
    }
}

/// What is asked for a member behind a class of this header, behind which these classes stand along its order.
fn above_of(alloc: Global, header: Option<&Header>, behind: &[usize]) -> Result<Above, Memory>
    ensures { IfOk result (λ above. above ≡ tables.above_by (tables.bases_in (option_copied header.entry)) behind.now) }
{
    above_bases(alloc, bases_in(header), behind)
}

fn bases_in(header: Option<&Header>) -> &[usize]
    ensures { result.now ≡ tables.bases_in (option_copied header.entry) }
{
    match header {
        Some(Header::Typed(shape)) => shape.bases.as_slice(),
        Some(Header::Untyped(_)) => &[],
        None => &[],
    }
}

fn above_bases(alloc: Global, bases: &[usize], behind: &[usize]) -> Result<Above, Memory>
    ensures { IfOk result (λ above. above ≡ tables.above_by bases.now behind.now) }
{
    match bases {
        [] => Ok(Above::Nothing),
        [base] => Ok(Above::Base(*base)),
        [_, _, ..] => {
            let row = Many::from_slice(alloc, behind)?;
            Ok(Above::Row(row))
        }
    }
}
