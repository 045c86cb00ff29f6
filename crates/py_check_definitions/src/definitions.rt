//! What is said of definitions and imports where they stand.
ghost use Rattle.std.specs.Prelude.{◌≡◌, ◌+◌, ◌++◌, length, map, drop, slice_get, IfOk};
ghost use Rattle.std.specs.List.{flat_map};
ghost use Rattle.std.specs.Option.{option_copied, option_map};
ghost use Rattle.std.specs.Str.{bytes_eq};
ghost use Rattle.indexmap.specs.IndexSet.{insert_all};
ghost use Rattle.py_syntax.specs.Expressions.{expr_tree};
ghost use Rattle.py_syntax.specs.Statements.{stmt_tree, func_tree, class_tree};
ghost use Rattle.py_check_context.specs.Context.{context};
ghost use Rattle.py_check_names.specs.Walked.{trees, func_trees};
ghost use Rattle.py_check_names.specs.Outline as outline;
ghost use Rattle.py_check_classes.specs.Names.{class_in};
ghost use Rattle.py_check_classes.specs.Views.{class_parts};
ghost use Rattle.py_check_overrides.specs.Overrides as overrides;
ghost use Rattle.py_check_overrides.specs.Overrides.{override_said};
ghost use Rattle.py_check_overrides.specs.Views.{verdict};
ghost use Rattle.py_check_places.specs.Views.{known_at};
ghost use Rattle.py_check_definitions.specs.Decorators as asked;
ghost use Rattle.py_check_definitions.specs.Classes as classes_spec;
ghost use Rattle.py_check_definitions.specs.Definitions as spec;
ghost use Rattle.py_check_definitions.specs.Views as views;

use crate::decorators::{Asked, add_parts};
use crate::members::add_members;
use crate::owners::class_owner;
use indexmap::IndexSet;
use py_binder::Scope;
use py_check_classes::{Header, add_header_said};
use py_check_context::{Context, Meaning, meaning_of};
use py_check_flow::name_in;
use py_check_members::add_body_said;
use py_check_messages::{outside_import, outside_profile};
use py_check_names::{add_name, definitions_in, may_import_all, outline_of};
use py_check_overrides::{Verdict, add_override_said};
use py_check_places::Place;
use py_check_signatures::{Owner, add_def_fault, header_of, is_new, own_count};
use py_syntax::{Class, Expr, Func, Span, Stmt, StmtKind};
use py_syntax_diagnostics::Diag;
use std::alloc::Global;
use value_core::{Many, Memory, Name};

/// The classes of a module by their numbers: their headers, and what comes of the test that the definitions of their members agree.
#[derive(Clone, Copy)]
pub struct ClassTables<'a> {
    pub headers: &'a [Header],
    pub verdicts: &'a [Verdict<'a>],
}

/// What stands earlier in the text: the names that definitions and imports give there, and how many classes.
#[derive(Drop)]
pub struct Earlier {
    pub names: IndexSet<Name>,
    pub classes: usize,
}

/// Adds what is said of definitions and imports that stand at this place, in the order of the text, behind what stands earlier, which
/// they are put behind. The first of the scopes are those of their functions; answers the ones behind those.
pub fn add_definitions<'a>(
    alloc: Global,
    scope: &Context<'_>,
    place: &Place,
    classes: ClassTables<'_>,
    definitions: &[&Stmt],
    insides: &'a [Scope],
    earlier: &mut Earlier,
    faults: &mut Many<Diag>,
) -> Result<&'a [Scope], Memory>
    ensures told { IfOk result (λ rest. faults.new ≡ faults.old ++ views.said_along (views.classes_seen classes.entry) (context scope.now) (known_at place.now) earlier.old.names.keys earlier.old.classes insides.now (trees definitions.now)) }
    ensures names { IfOk result (λ rest. earlier.new.names.keys ≡ views.names_behind earlier.old.names.keys (trees definitions.now)) }
    ensures classes { IfOk result (λ rest. earlier.new.classes ≡ views.classes_behind earlier.old.classes (trees definitions.now)) }
    ensures scopes { IfOk result (λ rest. rest.now ≡ views.scopes_behind insides.now (trees definitions.now)) }
{
    let mut rest = insides;
    for s in definitions {
        add_definition(alloc, scope, place, classes, earlier, rest, *s, faults)?;
        let held = put_behind(alloc, *s, earlier)?;
        rest = behind(rest, held);
    }
    Ok(rest)
}

/// The scopes behind so many.
pub(crate) fn behind<'a>(insides: &'a [Scope], held: usize) -> &'a [Scope]
    ensures { result.now ≡ drop held insides.now }
{
    let end = insides.len();
    if held < end {
        return &insides[held..];
    }
    &insides[end..]
}

/// Puts a definition or an import behind what stands earlier, and answers how many functions it holds.
fn put_behind(alloc: Global, s: &Stmt, earlier: &mut Earlier) -> Result<usize, Memory>
    ensures names { IfOk result (λ held. earlier.new.names.keys ≡ insert_all bytes_eq earlier.old.names.keys (spec.names_given (stmt_tree s.now))) }
    ensures classes { IfOk result (λ held. earlier.new.classes ≡ earlier.old.classes + length (class_in (stmt_tree s.now))) }
    ensures held { IfOk result (λ held. held ≡ length (outline.held_by (stmt_tree s.now))) }
{
    earlier.classes = with_class(earlier.classes, s)?;
    add_names(alloc, s, &mut earlier.names)
}

/// So many classes, and one more where this is a class.
pub(crate) fn with_class(count: usize, s: &Stmt) -> Result<usize, Memory>
    ensures { IfOk result (λ n. n ≡ count + length (class_in (stmt_tree s.now))) }
{
    match &s.kind {
        StmtKind::Class(_) => count.checked_add(1).ok_or(Memory),
        _ => Ok(count),
    }
}

/// Adds the names that a definition or an import gives, and answers how many functions it holds.
fn add_names(alloc: Global, s: &Stmt, earlier: &mut IndexSet<Name>) -> Result<usize, Memory>
    ensures names { IfOk result (λ held. earlier.new.keys ≡ insert_all bytes_eq earlier.old.keys (spec.names_given (stmt_tree s.now))) }
    ensures held { IfOk result (λ held. held ≡ length (outline.held_by (stmt_tree s.now))) }
{
    let outline = outline_of(alloc, &[s])?;
    add_all(outline.said.as_slice(), earlier)?;
    Ok(outline.functions.len())
}

fn add_all(given: &[(Name, Meaning)], earlier: &mut IndexSet<Name>) -> Result<(), Memory>
    ensures { IfOk result (λ done. earlier.new.keys ≡ insert_all bytes_eq earlier.old.keys (map (λ p. p.0) given.now)) }
{
    for (name, _) in given {
        add_name(earlier, name)?;
    }
    Ok(())
}

/// Adds what is said of a definition or an import, behind what stands earlier.
fn add_definition(
    alloc: Global,
    scope: &Context<'_>,
    place: &Place,
    classes: ClassTables<'_>,
    earlier: &Earlier,
    insides: &[Scope],
    s: &Stmt,
    faults: &mut Many<Diag>,
) -> Result<(), Memory>
    ensures { IfOk result (λ done. faults.new ≡ faults.old ++ views.said_at (views.classes_seen classes.entry) (context scope.now) (known_at place.now) earlier.now.names.keys earlier.now.classes insides.now (stmt_tree s.now)) }
{
    match &s.kind {
        StmtKind::Def(f) => {
            let defined = Defined {
                span: s.span,
                owner: Owner::Module,
                fresh: is_new(&earlier.names, &f.name),
                tree: f,
            };
            add_first(alloc, scope, place, defined, insides, faults)
        }
        StmtKind::Class(c) => {
            let defined = DefinedClass {
                span: s.span,
                number: earlier.classes,
                tree: c,
            };
            add_class(alloc, scope, place, classes, defined, insides, faults)
        }
        StmtKind::Import(_, _) => outside_import(alloc, s.span, faults),
        StmtKind::From(source, names) => {
            if may_import_all(source, names.as_slice()) {
                return Ok(());
            }
            outside_import(alloc, s.span, faults)
        }
        _ => Ok(()),
    }
}

/// A function that is defined at a place of the text, whose it is, and whether its name is new there.
#[derive(Clone, Copy)]
pub(crate) struct Defined<'a> {
    pub(crate) span: Span,
    pub(crate) owner: Owner,
    pub(crate) fresh: bool,
    pub(crate) tree: &'a Func,
}

/// A class that is defined at a place of the text, with its number.
#[derive(Clone, Copy)]
struct DefinedClass<'a> {
    span: Span,
    number: usize,
    tree: &'a Class,
}

/// Adds what is said of a function, whose names are the first of these, if there are any.
pub(crate) fn add_first(
    alloc: Global,
    scope: &Context<'_>,
    place: &Place,
    defined: Defined<'_>,
    insides: &[Scope],
    faults: &mut Many<Diag>,
) -> Result<(), Memory>
    ensures { IfOk result (λ done. faults.new ≡ faults.old ++ views.first_said (context scope.now) (known_at place.now) defined.entry.span defined.entry.owner defined.entry.fresh insides.now (func_tree defined.entry.tree.now)) }
{
    match insides {
        [] => Ok(()),
        [inside, ..] => add_function(alloc, scope, place, defined, inside, faults),
    }
}

/// Adds what is said of a function of these names: first of its decorators and annotations.
fn add_function(
    alloc: Global,
    scope: &Context<'_>,
    place: &Place,
    defined: Defined<'_>,
    inside: &Scope,
    faults: &mut Many<Diag>,
) -> Result<(), Memory>
    ensures { IfOk result (λ done. faults.new ≡ faults.old ++ spec.function_said (context scope.now) (known_at place.now) defined.entry.span defined.entry.owner defined.entry.fresh inside.now (func_tree defined.entry.tree.now)) }
{
    let Defined {
        span,
        owner,
        fresh,
        tree,
    } = defined;
    let marked = add_marks(alloc, scope, place, tree, faults)?;
    let header = header_of(alloc, scope, owner, tree, faults)?;
    let own = own_count(inside);
    add_def_fault(alloc, span, fresh, own, marked, tree, &header, faults)
}

/// Adds what is said in the decorators of a function, and answers whether each has a type.
fn add_marks(
    alloc: Global,
    scope: &Context<'_>,
    place: &Place,
    f: &Func,
    faults: &mut Many<Diag>,
) -> Result<bool, Memory>
    ensures typed { IfOk result (λ typed. typed ≡ asked.decorators_typed (context scope.now) (known_at place.now) (func_tree f.now).marks) }
    ensures told { IfOk result (λ typed. faults.new ≡ faults.old ++ asked.decorators_said (context scope.now) (known_at place.now) (func_tree f.now).marks) }
{
    add_parts(
        alloc,
        scope,
        place,
        Asked::Decorator,
        f.marks.as_slice(),
        faults,
    )
}

/// Adds what is said of a class: first of its decorators and bases, then of its body, whose methods have the first of these scopes,
/// and last of its header and its members.
fn add_class(
    alloc: Global,
    scope: &Context<'_>,
    place: &Place,
    classes: ClassTables<'_>,
    defined: DefinedClass<'_>,
    insides: &[Scope],
    faults: &mut Many<Diag>,
) -> Result<(), Memory>
    ensures { IfOk result (λ done. faults.new ≡ faults.old ++ views.class_along (views.classes_seen classes.entry) (context scope.now) (known_at place.now) defined.entry.number defined.entry.span insides.now (class_tree defined.entry.tree.now)) }
{
    add_class_parts(alloc, scope, place, classes, defined, insides, faults)
}

fn add_class_parts(
    alloc: Global,
    scope: &Context<'_>,
    place: &Place,
    classes: ClassTables<'_>,
    defined: DefinedClass<'_>,
    insides: &[Scope],
    faults: &mut Many<Diag>,
) -> Result<(), Memory>
    ensures { IfOk result (λ done. faults.new ≡ faults.old ++ views.class_along (views.classes_seen classes.entry) (context scope.now) (known_at place.now) defined.entry.number defined.entry.span insides.now (class_parts defined.entry.tree.now)) }
{
    let DefinedClass { span, number, tree } = defined;
    let marks = tree.marks.as_slice();
    let bases = tree.bases.as_slice();
    let body = tree.body.as_slice();
    let owner = class_owner(classes.headers, number);
    let marked = add_parts(alloc, scope, place, Asked::Decorator, marks, faults)?;
    let based = add_parts(alloc, scope, place, Asked::Base, bases, faults)?;
    add_members(alloc, scope, place, owner, body, insides, faults)?;
    add_body_said(alloc, scope, body, faults)?;
    if !(marked && based) {
        return Ok(());
    }
    add_whole(alloc, scope, classes, number, span, tree, faults)
}

/// Adds what is said of the class of a number as a whole: of its header, and of its members.
fn add_whole(
    alloc: Global,
    scope: &Context<'_>,
    classes: ClassTables<'_>,
    number: usize,
    span: Span,
    tree: &Class,
    faults: &mut Many<Diag>,
) -> Result<(), Memory>
    ensures { IfOk result (λ done. faults.new ≡ faults.old ++ classes_spec.whole_said (views.classes_seen classes.entry) (context scope.now) number span (class_parts tree.now)) }
{
    add_heading(alloc, scope, classes, number, span, tree, faults)?;
    add_members_said(alloc, scope, span, classes.verdicts, number, faults)
}

/// Adds what is said of its header, where each base that stands earlier passes.
fn add_heading(
    alloc: Global,
    scope: &Context<'_>,
    classes: ClassTables<'_>,
    number: usize,
    span: Span,
    tree: &Class,
    faults: &mut Many<Diag>,
) -> Result<(), Memory>
    ensures { IfOk result (λ done. faults.new ≡ faults.old ++ classes_spec.heading_said (views.classes_seen classes.entry) (context scope.now) number span (class_parts tree.now)) }
{
    if !bases_pass(scope, classes, number, tree.bases.as_slice()) {
        return Ok(());
    }
    add_header(alloc, span, &tree.name, classes.headers.get(number), faults)
}

/// Whether each base that stands earlier passes the test that the definitions of its members agree.
fn bases_pass(scope: &Context<'_>, classes: ClassTables<'_>, number: usize, bases: &[Expr]) -> bool
    ensures { result ≡ classes_spec.bases_pass (views.classes_seen classes.entry) (context scope.now) number (map expr_tree bases.now) }
{
    for base in bases {
        if !base_passes(scope, classes, number, name_in(base)) {
            return false;
        }
    }
    true
}

fn base_passes(
    scope: &Context<'_>,
    classes: ClassTables<'_>,
    number: usize,
    name: Option<&Name>,
) -> bool
    ensures { result ≡ classes_spec.base_passes (views.classes_seen classes.entry) (context scope.now) number (option_copied name.entry) }
{
    match name {
        Some(x) => is_passed(classes, number, meaning_of(scope, x)),
        None => true,
    }
}

fn is_passed(classes: ClassTables<'_>, number: usize, meaning: Meaning) -> bool
    ensures { result ≡ classes_spec.is_passed (views.classes_seen classes.entry) number meaning }
{
    match meaning {
        Meaning::Class(b) => b >= number || passed(classes.verdicts.get(b)),
        _ => true,
    }
}

fn passed(found: Option<&Verdict<'_>>) -> bool
    ensures { result ≡ overrides.passed (option_map verdict (option_copied found.entry)) }
{
    matches!(found, Some(Verdict::Passes))
}

/// Adds what comes of the test that the definitions of the members of the class of a number agree.
fn add_members_said(
    alloc: Global,
    scope: &Context<'_>,
    span: Span,
    verdicts: &[Verdict<'_>],
    number: usize,
    faults: &mut Many<Diag>,
) -> Result<(), Memory>
    ensures { IfOk result (λ done. faults.new ≡ faults.old ++ override_said (context scope.now).classes span (slice_get (map verdict verdicts.now) number)) }
{
    let classes = scope.classes.list.as_slice();
    add_override_said(alloc, classes, span, verdicts.get(number), faults)
}

/// Adds what is said of a class of this header.
fn add_header(
    alloc: Global,
    span: Span,
    name: &Name,
    header: Option<&Header>,
    faults: &mut Many<Diag>,
) -> Result<(), Memory>
    ensures { IfOk result (λ done. faults.new ≡ faults.old ++ classes_spec.said_of_header span name.now (option_copied header.entry)) }
{
    match header {
        Some(header) => add_header_said(alloc, span, name, header, faults),
        None => Ok(()),
    }
}

/// Adds what is wrong with definitions and imports in the bodies of functions.
pub fn add_inner_faults(
    alloc: Global,
    functions: &[&Func],
    faults: &mut Many<Diag>,
) -> Result<(), Memory>
    ensures { IfOk result (λ done. faults.new ≡ faults.old ++ flat_map spec.inner_definitions_said (func_trees functions.now)) }
{
    for f in functions {
        add_in_function(alloc, *f, faults)?;
    }
    Ok(())
}

fn add_in_function(alloc: Global, f: &Func, faults: &mut Many<Diag>) -> Result<(), Memory>
    ensures { IfOk result (λ done. faults.new ≡ faults.old ++ spec.inner_definitions_said (func_tree f.now)) }
{
    let found = definitions_in(alloc, f.body.as_slice())?;
    add_all_inner(alloc, found.as_slice(), faults)
}

fn add_all_inner(alloc: Global, found: &[&Stmt], faults: &mut Many<Diag>) -> Result<(), Memory>
    ensures { IfOk result (λ done. faults.new ≡ faults.old ++ flat_map spec.inner_said (trees found.now)) }
{
    for s in found {
        add_inner(alloc, *s, faults)?;
    }
    Ok(())
}

fn add_inner(alloc: Global, s: &Stmt, faults: &mut Many<Diag>) -> Result<(), Memory>
    ensures { IfOk result (λ done. faults.new ≡ faults.old ++ spec.inner_said (stmt_tree s.now)) }
{
    match &s.kind {
        StmtKind::Def(f) => outside_profile(alloc, s.span, f.name.as_str(), faults),
        StmtKind::Class(c) => outside_profile(alloc, s.span, c.name.as_str(), faults),
        StmtKind::Import(_, _) => outside_import(alloc, s.span, faults),
        StmtKind::From(_, _) => outside_import(alloc, s.span, faults),
        _ => Ok(()),
    }
}
