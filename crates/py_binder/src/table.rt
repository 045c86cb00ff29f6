//! What names are, looked up in tables.
ghost use Rattle.std.specs.Prelude.{◌≡◌, ℕ, List, map, IfOk};
ghost use Rattle.std.specs.Str.{bytes_eq};
ghost use Rattle.std.specs.Map.{lookup};
ghost use Rattle.indexmap.specs.IndexMap.{get};
ghost use Rattle.py_binder.specs.Scope as spec;
ghost use Rattle.py_binder.specs.Collected.{sights_of};
ghost use Rattle.py_binder.specs.Tables.{table_role};

use crate::names::{add_bound, add_said};
use crate::scope::Role;
use crate::sight::Sight;
use indexmap::{IndexMap, IndexSet};
use std::alloc::Global;
use value_core::{ExcClass, Memory, Name};

/// What a module's sights say: what definitions and imports make of a name, and which names statements bind.
#[derive(Drop)]
pub(crate) struct Table {
    said: IndexMap<Name, Role>,
    bound: IndexSet<Name>,
}

/// The table of a module's sights.
pub(crate) fn table_of(alloc: Global, sights: &[Sight<'_>]) -> Result<Table, Memory>
    ensures { IfOk result (λ t. (name : List ℕ) → table_role t name ≡ spec.role_among (sights_of sights.now) name) }
{
    let mut said = Vec::new(alloc);
    add_said(&mut said, sights)?;
    let said = role_map(alloc, &mut said)?;
    let mut bound = Vec::new(alloc);
    add_bound(&mut bound, sights)?;
    let bound = name_set(alloc, bound.as_slice())?;
    Ok(Table { said, bound })
}

/// What is said first of each name.
fn role_map(alloc: Global, said: &mut Vec<(Name, Role)>) -> Result<IndexMap<Name, Role>, Memory>
    ensures { IfOk result (λ m. (name : List ℕ) → get bytes_eq m name ≡ lookup (bytes_eq name) said.old.items) }
{
    let mut roles = IndexMap::new(alloc);
    while let Some((name, role)) = said.pop() {
        roles.insert(name, role)?;
    }
    Ok(roles)
}

/// Each name once, in the order of first sight.
pub(crate) fn name_set(alloc: Global, names: &[Name]) -> Result<IndexSet<Name>, Memory>
    ensures { IfOk result (λ s. s.keys ≡ spec.first_sights names.now) }
{
    let mut set = IndexSet::new(alloc);
    for name in names {
        set.insert(name.clone()?)?;
    }
    Ok(set)
}

impl Table {
    /// What a name is in the module.
    pub(crate) fn role(&self, name: &Name) -> Role
        ensures { result ≡ table_role self.now name.now }
    {
        if is_builtin(name) {
            return Role::Builtin;
        }
        match self.said.get(name) {
            Some(role) => *role,
            None => {
                if self.bound.contains(name) {
                    Role::GlobalVar
                } else {
                    Role::Unknown
                }
            }
        }
    }
}

pub(crate) fn is_builtin(name: &Name) -> bool
    ensures { result ≡ spec.is_builtin name.now }
{
    is_among(&PLAIN_BUILTINS, name.as_str()) || ExcClass::named(name.as_str()).is_some()
}

const PLAIN_BUILTINS: [&str; 12] = [
    "print", "input", "len", "range", "str", "int", "bool", "list", "dict", "tuple", "super",
    "__name__",
];

fn is_among(names: &[&str], name: &str) -> bool
    ensures { result ≡ spec.contains (map (λ n. n.now) names.now) name.now }
{
    for other in names {
        if name == *other {
            return true;
        }
    }
    false
}
