//! What names mean, by their roles.
ghost use Rattle.std.specs.Prelude.{◌≡◌, ℕ, List, ◌++◌, map, filter, unwrap_or, IfOk};
ghost use Rattle.std.specs.Map.{lookup};
ghost use Rattle.std.specs.Str.{bytes_eq};
ghost use Rattle.indexmap.specs.IndexMap.{get};
ghost use Rattle.indexmap.specs.IndexSet.{insert_key, insert_all};
ghost use Rattle.py_binder.specs.Scope.{is_variable};
ghost use Rattle.py_check_names.specs.Meanings as spec;

use crate::builtins::builtin_meaning;
use indexmap::{IndexMap, IndexSet};
use py_binder::{Role, Scope};
use py_check_context::Meaning;
use std::alloc::Global;
use value_core::{Memory, Name};

/// What a module's definitions say of names, and its variables by their numbers.
#[derive(Drop)]
pub struct ModuleNames {
    pub said: IndexMap<Name, Meaning>,
    pub variables: IndexSet<Name>,
}

/// The names of a module of these definitions and this scope.
pub fn module_names(
    alloc: Global,
    said: &mut Vec<(Name, Meaning)>,
    top: &Scope,
) -> Result<ModuleNames, Memory>
    ensures said { IfOk result (λ k. (name : List ℕ) → get bytes_eq k.said name ≡ lookup (bytes_eq name) said.old.items) }
    ensures variables { IfOk result (λ k. k.variables.keys ≡ spec.variables top.now) }
{
    let said = table_of(alloc, said)?;
    let variables = variables_of(alloc, top)?;
    Ok(ModuleNames { said, variables })
}

/// The variables of a module, by their numbers.
fn variables_of(alloc: Global, top: &Scope) -> Result<IndexSet<Name>, Memory>
    ensures { IfOk result (λ names. names.keys ≡ spec.variables top.now) }
{
    let mut names = IndexSet::new(alloc);
    add_variables(&mut names, top.names.as_slice())?;
    Ok(names)
}

fn add_variables(names: &mut IndexSet<Name>, seen: &[(Name, Role)]) -> Result<(), Memory>
    ensures { IfOk result (λ done. names.new.keys ≡ insert_all bytes_eq names.old.keys (map (λ p. p.0) (filter (λ p. is_variable p.1) seen.now))) }
{
    for (name, role) in seen {
        if *role == Role::GlobalVar {
            add_name(names, name)?;
        }
    }
    Ok(())
}

/// A function's own variables, by their numbers.
pub fn own_names(alloc: Global, inside: &Scope) -> Result<IndexSet<Name>, Memory>
    ensures { IfOk result (λ own. own.keys ≡ spec.own_names inside.now) }
{
    let mut own = IndexSet::new(alloc);
    add_own(&mut own, inside.names.as_slice())?;
    Ok(own)
}

fn add_own(own: &mut IndexSet<Name>, seen: &[(Name, Role)]) -> Result<(), Memory>
    ensures { IfOk result (λ done. own.new.keys ≡ insert_all bytes_eq own.old.keys (map (λ p. p.0) (filter (λ p. spec.is_own p.1) seen.now))) }
{
    for (name, role) in seen {
        if is_own(*role) {
            add_name(own, name)?;
        }
    }
    Ok(())
}

/// Whether a name of this role is a function's own.
pub fn is_own(role: Role) -> bool
    ensures { result ≡ spec.is_own role }
{
    matches!(role, Role::Param | Role::Local)
}

/// Puts a name behind the others, where it is not one of them.
pub fn add_name(names: &mut IndexSet<Name>, name: &Name) -> Result<(), Memory>
    ensures { IfOk result (λ done. names.new.keys ≡ insert_key bytes_eq names.old.keys name.now) }
{
    names.insert(name.clone()?)?;
    Ok(())
}

/// What each name that is seen in a scope means there.
pub fn names_in(
    alloc: Global,
    known: &ModuleNames,
    inside: &Scope,
) -> Result<IndexMap<Name, Meaning>, Memory>
    ensures { IfOk result (λ table. (name : List ℕ) → unwrap_or (get bytes_eq table name) Meaning.Unknown ≡ spec.meaning_in (get bytes_eq known.now.said) known.now.variables.keys inside.now name) }
{
    let own = own_names(alloc, inside)?;
    let mut pairs = Vec::new(alloc);
    add_meanings(known, &own, inside.names.as_slice(), &mut pairs)?;
    table_of(alloc, &mut pairs)
}

fn add_meanings(
    known: &ModuleNames,
    own: &IndexSet<Name>,
    seen: &[(Name, Role)],
    pairs: &mut Vec<(Name, Meaning)>,
) -> Result<(), Memory>
    ensures { IfOk result (λ done. pairs.new.items ≡ pairs.old.items ++ map (λ p. (p.0, spec.by_role (get bytes_eq known.now.said) known.now.variables.keys own.now.keys p.0 p.1)) seen.now) }
{
    for (name, role) in seen {
        let meaning = by_role(known, own, name, *role);
        pairs.push((name.clone()?, meaning))?;
    }
    Ok(())
}

fn by_role(known: &ModuleNames, own: &IndexSet<Name>, name: &Name, role: Role) -> Meaning
    ensures { result ≡ spec.by_role (get bytes_eq known.now.said) known.now.variables.keys own.now.keys name.now role }
{
    match role {
        Role::Param => Meaning::Local(number(own, name)),
        Role::Local => Meaning::Local(number(own, name)),
        Role::GlobalVar => Meaning::Global(number(&known.variables, name)),
        Role::Function => said_of(&known.said, name),
        Role::Class => said_of(&known.said, name),
        Role::Import => said_of(&known.said, name),
        Role::Builtin => match builtin_meaning(name) {
            Some(meaning) => meaning,
            None => Meaning::Unknown,
        },
        Role::Unknown => Meaning::Unknown,
    }
}

fn said_of(said: &IndexMap<Name, Meaning>, name: &Name) -> Meaning
    ensures { result ≡ unwrap_or (get bytes_eq said.now name.now) Meaning.Untyped }
{
    match said.get(name) {
        Some(meaning) => *meaning,
        None => Meaning::Untyped,
    }
}

/// The place of a name among names, or their number where it is none of them.
pub fn number(names: &IndexSet<Name>, name: &Name) -> usize
    ensures { result ≡ spec.number names.now.keys name.now }
{
    match names.get_index_of(name) {
        Some(place) => place,
        None => names.len(),
    }
}

/// What is said first of each name. The list is used up.
fn table_of(
    alloc: Global,
    pairs: &mut Vec<(Name, Meaning)>,
) -> Result<IndexMap<Name, Meaning>, Memory>
    ensures { IfOk result (λ table. (name : List ℕ) → get bytes_eq table name ≡ lookup (bytes_eq name) pairs.old.items) }
{
    let mut table = IndexMap::new(alloc);
    while let Some((name, meaning)) = pairs.pop() {
        table.insert(name, meaning)?;
    }
    Ok(table)
}
