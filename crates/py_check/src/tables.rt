//! What is known of a module before its statements: the signatures of its functions, and its classes with their members.
ghost use Rattle.std.specs.Prelude.{◌≡◌, ◌++◌, ◌∷◌, [], ◌<◌, ◌^◌, ℕ, List, None, length, map, unwrap_or, IfOk};
ghost use Rattle.std.specs.List.{flat_map};
ghost use Rattle.std.specs.Option.{option_map};
ghost use Rattle.std.specs.Str.{bytes_eq};
ghost use Rattle.indexmap.specs.IndexMap.{get};
ghost use Rattle.py_syntax.specs.Statements.{stmt_tree};
ghost use Rattle.py_typed.specs.Classes.{class_entry, signature};
ghost use Rattle.py_check_context.specs.Members as lookups;
ghost use Rattle.py_check_names.specs.Walked.{trees};
ghost use Rattle.py_check_names.specs.Outline.{held_by};
ghost use Rattle.py_check_classes.specs.Headers.{entry};
ghost use Rattle.py_check_classes.specs.Headers as class_headers;
ghost use Rattle.py_check_classes.specs.Kept.{AreKept};
ghost use Rattle.py_check_classes.specs.Names.{class_in, classes_in};
ghost use Rattle.py_check_classes.specs.Views.{class_parts};
ghost use Rattle.py_check_signatures.specs.Headers as headers;
ghost use Rattle.py_check_definitions.specs.Views.{headed_of, meanings_by};
ghost use Rattle.py_check_members.specs.Views.{own_of};
ghost use Rattle.py_check_members.specs.Members as members;
ghost use Rattle.py_check.specs.Parts.{places_in};
ghost use Rattle.py_check.specs.Module as spec;

use indexmap::IndexMap;
use py_binder::Scopes;
use py_check_context::{ClassMembers, Context, Meaning};
use py_check_definitions::{Function, Outlined, no_classes, signatures_of};
use py_check_members::{class_list, declaring_places, module_members};
use py_check_names::names_in;
use py_check_signatures::signature_of;
use py_syntax::{Class, Span, Stmt, StmtKind};
use py_typed::{Classes, Sig, Ty};
use std::alloc::Global;
use value_core::{Many, Memory, Name};

/// The signatures of functions by their numbers, where they have one; the classes by their numbers, with their members and the places
/// of the statements of their `__init__` that declare an attribute by an annotation.
#[derive(Drop)]
pub(crate) struct Tables {
    pub signatures: Vec<Option<Sig>>,
    pub classes: Classes,
    pub members: Many<ClassMembers>,
    pub declaring: Many<IndexMap<Name, Span>>,
    /// No places, for a class without a type.
    pub nothing: IndexMap<Name, Span>,
}

/// What is known of a module of these definitions, functions and scopes.
pub(crate) fn tables_of(
    alloc: Global,
    found: &Outlined<'_>,
    functions: &[Function<'_>],
    scopes: &Scopes,
) -> Result<Tables, Memory>
    requires kept { AreKept (map entry found.now.classes.headers) found.now.classes.orders }
    requires all { found.now.classes.headers ≡ class_headers.headers (trees found.now.definitions.items) }
    requires few { length (flat_map held_by (trees found.now.definitions.items)) < 2 ^ 64 }
    ensures signatures { IfOk result (λ t. map (option_map signature) t.signatures.items ≡ map (λ f. headers.signature_of f.header) (map headed_of functions.now)) }
    ensures plain { IfOk result (λ t. map signature t.classes.sigs ≡ map (λ f. spec.plain_signature (headers.signature_of f.header)) (map headed_of functions.now)) }
    ensures own { IfOk result (λ t. map own_of t.members ≡ members.own_members found.now.classes.headers (meanings_by found.now.known scopes.now.top) (members.meanings_inside (get bytes_eq found.now.known.said) found.now.known.variables.keys scopes.now.funcs) (trees found.now.definitions.items)) }
    ensures member { IfOk result (λ t. (n : ℕ) (name : List ℕ) → lookups.member_in t.members n name ≡ members.member_along (map own_of t.members) found.now.classes.headers n name) }
    ensures init { IfOk result (λ t. (n : ℕ) → lookups.init_in t.members n ≡ members.init_along (map own_of t.members) found.now.classes.headers n) }
    ensures behind { IfOk result (λ t. (n : ℕ) → lookups.init_behind t.members n ≡ members.init_behind_along (map own_of t.members) found.now.classes.headers n) }
    ensures declaring { IfOk result (λ t. places_in t.declaring ≡ map (λ c. members.declaring c.body) (classes_in (trees found.now.definitions.items))) }
    ensures nothing { IfOk result (λ t. (name : List ℕ) → get bytes_eq t.nothing name ≡ None) }
    ensures classes { IfOk result (λ t. map class_entry t.classes.list ≡ members.class_entries found.now.classes.headers (trees found.now.definitions.items) (map own_of t.members)) }
{
    let definitions = found.definitions.as_slice();
    let signatures = signatures_of(alloc, functions)?;
    let members = members_of(alloc, found, scopes)?;
    let list = class_list(
        alloc,
        definitions,
        found.classes.headers.as_slice(),
        members.as_slice(),
    )?;
    let declaring = declaring_of(alloc, definitions)?;
    let sigs = plain_signatures(alloc, functions)?;
    Ok(Tables {
        signatures,
        classes: Classes { list, sigs },
        members,
        declaring,
        nothing: IndexMap::new(alloc),
    })
}

/// The members of the classes. Their annotations hang on names alone.
fn members_of(
    alloc: Global,
    found: &Outlined<'_>,
    scopes: &Scopes,
) -> Result<Many<ClassMembers>, Memory>
    requires kept { AreKept (map entry found.now.classes.headers) found.now.classes.orders }
    requires all { found.now.classes.headers ≡ class_headers.headers (trees found.now.definitions.items) }
    requires few { length (flat_map held_by (trees found.now.definitions.items)) < 2 ^ 64 }
    ensures own { IfOk result (λ all. map own_of all ≡ members.own_members found.now.classes.headers (meanings_by found.now.known scopes.now.top) (members.meanings_inside (get bytes_eq found.now.known.said) found.now.known.variables.keys scopes.now.funcs) (trees found.now.definitions.items)) }
    ensures member { IfOk result (λ all. (n : ℕ) (name : List ℕ) → lookups.member_in all n name ≡ members.member_along (map own_of all) found.now.classes.headers n name) }
    ensures init { IfOk result (λ all. (n : ℕ) → lookups.init_in all n ≡ members.init_along (map own_of all) found.now.classes.headers n) }
    ensures behind { IfOk result (λ all. (n : ℕ) → lookups.init_behind all n ≡ members.init_behind_along (map own_of all) found.now.classes.headers n) }
{
    let names = names_in(alloc, &found.known, &scopes.top)?;
    let classes = no_classes(alloc);
    members_by(alloc, &names, &classes, found, scopes)
}

/// The same where names mean this.
fn members_by<'a>(
    alloc: Global,
    names: &'a IndexMap<Name, Meaning>,
    classes: &'a Classes,
    found: &Outlined<'_>,
    scopes: &Scopes,
) -> Result<Many<ClassMembers>, Memory>
    requires kept { AreKept (map entry found.now.classes.headers) found.now.classes.orders }
    requires all { found.now.classes.headers ≡ class_headers.headers (trees found.now.definitions.items) }
    requires few { length (flat_map held_by (trees found.now.definitions.items)) < 2 ^ 64 }
    ensures own { IfOk result (λ all. map own_of all ≡ members.own_members found.now.classes.headers (λ x. unwrap_or (get bytes_eq names.now x) Meaning.Unknown) (members.meanings_inside (get bytes_eq found.now.known.said) found.now.known.variables.keys scopes.now.funcs) (trees found.now.definitions.items)) }
    ensures member { IfOk result (λ all. (n : ℕ) (name : List ℕ) → lookups.member_in all n name ≡ members.member_along (map own_of all) found.now.classes.headers n name) }
    ensures init { IfOk result (λ all. (n : ℕ) → lookups.init_in all n ≡ members.init_along (map own_of all) found.now.classes.headers n) }
    ensures behind { IfOk result (λ all. (n : ℕ) → lookups.init_behind all n ≡ members.init_behind_along (map own_of all) found.now.classes.headers n) }
{
    let scope = Context {
        names,
        sigs: &[],
        classes,
        members: &[],
        inside: None,
    };
    module_members(
        alloc,
        &scope,
        &found.known,
        scopes.funcs.as_slice(),
        found.definitions.as_slice(),
        &found.classes,
    )
}

/// Of each class among these definitions, by its number, the places of the statements of its `__init__` that declare an attribute by
/// an annotation.
fn declaring_of(alloc: Global, definitions: &[&Stmt]) -> Result<Many<IndexMap<Name, Span>>, Memory>
    ensures { IfOk result (λ all. places_in all ≡ map (λ c. members.declaring c.body) (classes_in (trees definitions.now))) }
{
    let mut all = Many::new(alloc);
    for s in definitions {
        add_declaring(alloc, *s, &mut all)?;
    }
    Ok(all)
}

/// Adds those of a class.
fn add_declaring(
    alloc: Global,
    s: &Stmt,
    all: &mut Many<IndexMap<Name, Span>>,
) -> Result<(), Memory>
    ensures { IfOk result (λ done. places_in all.new ≡ places_in all.old ++ map (λ c. members.declaring c.body) (class_in (stmt_tree s.now))) }
{
    match &s.kind {
        StmtKind::Class(c) => add_places(alloc, c, all),
        _ => Ok(()),
    }
}

fn add_places(alloc: Global, c: &Class, all: &mut Many<IndexMap<Name, Span>>) -> Result<(), Memory>
    ensures { IfOk result (λ done. places_in all.new ≡ places_in all.old ++ members.declaring (class_parts c.now).body ∷ []) }
{
    let places = declaring_places(alloc, c.body.as_slice())?;
    all.push(places)?;
    Ok(())
}

/// The signatures of functions, each of which has one: where it is not known, one that says nothing.
fn plain_signatures(alloc: Global, functions: &[Function<'_>]) -> Result<Many<Sig>, Memory>
    ensures { IfOk result (λ all. map signature all ≡ map (λ f. spec.plain_signature (headers.signature_of f.header)) (map headed_of functions.now)) }
{
    let mut all = Many::new(alloc);
    for f in functions {
        all.push(plain_signature(alloc, signature_of(alloc, &f.header)?))?;
    }
    Ok(all)
}

fn plain_signature(alloc: Global, known: Option<Sig>) -> Sig
    ensures { signature result ≡ spec.plain_signature (option_map signature known) }
{
    match known {
        Some(sig) => sig,
        None => Sig {
            params: Many::new(alloc),
            ret: Ty::Nothing,
        },
    }
}
