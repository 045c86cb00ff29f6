//! What names are inside a function, or in the module itself.
ghost use Rattle.std.specs.Prelude.{◌≡◌, ℕ, List, map, IfOk};
ghost use Rattle.py_binder.specs.Scope as spec;
ghost use Rattle.py_binder.specs.Scope.{all_there, listed_there, bound_there};
ghost use Rattle.py_binder.specs.Collected.{sights_of};
ghost use Rattle.py_binder.specs.Tables.{table_role, inside_role};

use crate::names::{add_bound, add_listed};
use crate::scope::{Role, Scope};
use crate::sight::Sight;
use crate::table::{Table, is_builtin, name_set};
use indexmap::IndexSet;
use std::alloc::Global;
use value_core::{Many, Memory, Name};

/// What names are in the module, and what a function makes of them: its parameters, what it lists as global, and what it
/// binds. In the module itself these are empty.
#[derive(Drop)]
pub(crate) struct Inside<'a> {
    pub(crate) table: &'a Table,
    params: IndexSet<Name>,
    listed: IndexSet<Name>,
    bound: IndexSet<Name>,
}

/// Inside the module itself.
#[tactic(auto, using(crate::proofs::TableLemmas::in_module))]
pub(crate) fn in_module(alloc: Global, table: &Table) -> Inside<'_>
    ensures role { (name : List ℕ) → inside_role result name ≡ table_role table.now name }
    ensures table { result.table.now ≡ table.now }
{
    Inside {
        table,
        params: IndexSet::new(alloc),
        listed: IndexSet::new(alloc),
        bound: IndexSet::new(alloc),
    }
}

/// Inside a function with these parameters, whose body sees this.
pub(crate) fn in_function<'a>(
    alloc: Global,
    table: &'a Table,
    params: &[Name],
    sights: &[Sight<'_>],
) -> Result<Inside<'a>, Memory>
    ensures role { IfOk result (λ i. (name : List ℕ) → inside_role i name ≡ spec.inner_role (table_role table.now) params.now (all_there listed_there (sights_of sights.now)) (all_there bound_there (sights_of sights.now)) name) }
    ensures table { IfOk result (λ i. i.table.now ≡ table.now) }
{
    let params = name_set(alloc, params)?;
    let mut names = Vec::new(alloc);
    add_listed(&mut names, sights)?;
    let listed = name_set(alloc, names.as_slice())?;
    let mut names = Vec::new(alloc);
    add_bound(&mut names, sights)?;
    let bound = name_set(alloc, names.as_slice())?;
    Ok(Inside {
        table,
        params,
        listed,
        bound,
    })
}

impl<'a> Inside<'a> {
    /// What a name is.
    pub(crate) fn role(&self, name: &Name) -> Role
        ensures { result ≡ inside_role self.now name.now }
    {
        if is_builtin(name) {
            return Role::Builtin;
        }
        if self.params.contains(name) {
            return Role::Param;
        }
        let outer = self.table.role(name);
        if self.listed.contains(name) && is_variable(outer) {
            return Role::GlobalVar;
        }
        if self.bound.contains(name) {
            return Role::Local;
        }
        outer
    }
}

/// Whether a name is a variable of the module.
pub(crate) fn is_variable(role: Role) -> bool
    ensures { result ≡ spec.is_variable role }
{
    role == Role::GlobalVar
}

/// The names that are seen, each with what it is.
pub(crate) fn scope_of(alloc: Global, inside: &Inside<'_>, seen: &[Name]) -> Result<Scope, Memory>
    ensures { IfOk result (λ s. s ≡ spec.scope_of (inside_role inside.now) seen.now) }
{
    let seen = name_set(alloc, seen)?;
    let names = with_roles(alloc, inside, seen.as_slice())?;
    Ok(Scope { names })
}

fn with_roles(
    alloc: Global,
    inside: &Inside<'_>,
    seen: &[Name],
) -> Result<Many<(Name, Role)>, Memory>
    ensures { IfOk result (λ names. names ≡ map (λ name. (name, inside_role inside.now name)) seen.now) }
{
    let mut names = Many::new(alloc);
    for name in seen {
        names.push((name.clone()?, inside.role(name)))?;
    }
    Ok(names)
}
