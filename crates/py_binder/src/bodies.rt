//! The scopes of a module, function by function.
ghost use Rattle.std.specs.Prelude.{◌≡◌, ◌++◌, [], map, IfOk, OnOk};
ghost use Rattle.py_syntax.specs.Statements.{func_tree, param_tree};
ghost use Rattle.py_binder.specs.Scope as spec;
ghost use Rattle.py_binder.specs.Scope.{all_there};
ghost use Rattle.py_binder.specs.Faults as wrong;
ghost use Rattle.py_binder.specs.Collected.{use_of, sights_of};
ghost use Rattle.py_binder.specs.Tables.{table_role, inside_role};

use crate::faults::{add_body_faults, add_faults_at};
use crate::inside::{Inside, in_function, scope_of};
use crate::names::add_seen;
use crate::scope::Scope;
use crate::sight::{Home, Sight, Use};
use crate::statements::see_all;
use crate::table::{Table, name_set};
use indexmap::IndexSet;
use py_syntax::{Expr, Func};
use py_syntax_diagnostics::Diag;
use std::alloc::Global;
use value_core::{Many, Memory, Name};

/// Adds the scopes of the functions that a module's sights hold, and all faults. None of the names that stand in the
/// module itself is refused.
pub(crate) fn add_all_functions(
    alloc: Global,
    inside: &Inside<'_>,
    none: &IndexSet<Name>,
    sights: &[Sight<'_>],
    funcs: &mut Many<Scope>,
    faults: &mut Many<Diag>,
) -> Result<(), Memory>
    requires { none.now.keys ≡ [] }
    ensures scopes { OnOk result (funcs.new ≡ funcs.old ++ map (spec.function_scope (table_role inside.now.table.now)) (all_there spec.held_there (sights_of sights.now))) }
    ensures faults { OnOk result (faults.new ≡ faults.old ++ wrong.faults_among (table_role inside.now.table.now) (inside_role inside.now) (sights_of sights.now)) }
{
    for sight in sights {
        add_faults_at(alloc, inside, none, sight, faults)?;
        add_function(alloc, inside.table, &sight.does, funcs, faults)?;
    }
    Ok(())
}

/// Adds the scope of the function that stands at a place, and its faults.
fn add_function(
    alloc: Global,
    table: &Table,
    does: &Use<'_>,
    funcs: &mut Many<Scope>,
    faults: &mut Many<Diag>,
) -> Result<(), Memory>
    ensures scopes { OnOk result (funcs.new ≡ funcs.old ++ map (spec.function_scope (table_role table.now)) (spec.held_there (use_of does.now))) }
    ensures faults { OnOk result (faults.new ≡ faults.old ++ wrong.held_faults (table_role table.now) (use_of does.now)) }
{
    match does {
        Use::Holds(f) => {
            let scope = function(alloc, table, f, faults)?;
            funcs.push(scope)
        }
        Use::Reads(_) => Ok(()),
        Use::Binds(_) => Ok(()),
        Use::Defines(_, _) => Ok(()),
        Use::Declares(_) => Ok(()),
    }
}

/// The scope of a function; its faults go behind those that there are.
fn function(
    alloc: Global,
    table: &Table,
    f: &Func,
    faults: &mut Many<Diag>,
) -> Result<Scope, Memory>
    ensures scope { IfOk result (λ s. s ≡ spec.function_scope (table_role table.now) (func_tree f.now)) }
    ensures faults { OnOk result (faults.new ≡ faults.old ++ wrong.function_faults (table_role table.now) (func_tree f.now)) }
{
    let mut sights = Vec::new(alloc);
    see_all(alloc, &mut sights, Home::InFunction, f.body.as_slice())?;
    let mut names = Vec::new(alloc);
    add_params(&mut names, f.params.as_slice())?;
    let inside = in_function(alloc, table, names.as_slice(), sights.as_slice())?;
    let mut refused = name_set(alloc, names.as_slice())?;
    add_body_faults(alloc, &inside, &mut refused, sights.as_slice(), faults)?;
    add_seen(&mut names, sights.as_slice())?;
    scope_of(alloc, &inside, names.as_slice())
}

/// Adds the names of parameters.
fn add_params(names: &mut Vec<Name>, params: &[(Name, Option<Expr>)]) -> Result<(), Memory>
    ensures { OnOk result (names.new.items ≡ names.old.items ++ map (λ p. p.0) (map param_tree params.now)) }
{
    for (name, _) in params {
        names.push(name.clone()?)?;
    }
    Ok(())
}
